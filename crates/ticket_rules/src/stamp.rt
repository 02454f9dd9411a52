ghost use Rattle.std.specs.Prelude.{◌≡◌, ◌⊎◌};
ghost use Rattle.ticket_rules.specs.Stamp.{greater, IsAtMost};

/// The stamp of a ticket, and of the value that was stored with it. Stamps are ordered by these
/// fields, as they stand here.
#[derive(Clone, Copy, Debug, PartialEq, Eq, PartialOrd, Ord, Hash)]
pub struct Stamp {
    /// The epoch of the policy that the ticket was drawn under, from 1 on.
    pub epoch: u32,
    /// One more than the greatest number that the drawing proxy had seen.
    pub number: u64,
    /// The proxy that drew the ticket.
    pub proxy: u8,
    /// The number of the call that drew it, among all calls of its proxy.
    pub seq: u32,
}

impl Stamp {
    ghost use Rattle.std.specs.Prelude.{◌≡◌};
    ghost use Rattle.ticket_rules.specs.Stamp.{stamp_zero};

    /// The least stamp, of the empty value that each replica opens with.
    pub const fn zero() -> Self
        ensures { result ≡ stamp_zero }
    {
        Stamp {
            epoch: 0,
            number: 0,
            proxy: 0,
            seq: 0,
        }
    }
}

/// The greater of two stamps.
pub fn greater(a: &Stamp, b: &Stamp) -> Stamp
    ensures greater { result ≡ greater a.now b.now }
    ensures one { (result ≡ a.now) ⊎ (result ≡ b.now) }
    ensures above { IsAtMost a.now result × IsAtMost b.now result }
{
    if b > a { *b } else { *a }
}
