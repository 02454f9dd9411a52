ghost use Rattle.std.specs.Prelude.{◌≡◌, ◌<◌, ◌+◌, ◌^◌, ◌⊎◌, ◌↔◌, IsTrue, IfOk, IfErr, IsErr};
ghost use Rattle.ticket_rules.specs.Stamp.{IsAbove, IsAtMost, grants, stores};

use crate::stamp::Stamp;

/// No number is left above the greatest one that was seen.
#[derive(Clone, Copy, Debug, PartialEq, Eq)]
pub struct NumbersOut {
    /// The greatest number that was seen.
    pub top: u64,
}

/// Whether a replica grants the ticket `t`: it is the ticket that the replica granted last, or it
/// passes both that one and the stored version.
pub fn may_grant(t: &Stamp, fence: &Stamp, version: &Stamp) -> bool
    ensures granted { IsTrue result ↔ ((t.now ≡ fence.now) ⊎ (IsAbove t.now fence.now × IsAbove t.now version.now)) }
    ensures test { result ≡ grants t.now fence.now version.now }
{
    t == fence || (t > fence && t > version)
}

/// Whether a replica stores under the ticket `t`: it has granted no ticket above it.
pub fn may_store(t: &Stamp, fence: &Stamp) -> bool
    ensures stored { IsTrue result ↔ IsAtMost fence.now t.now }
    ensures test { result ≡ stores t.now fence.now }
{
    fence <= t
}

/// The next ticket of a call, above each stamp of this epoch whose number is at most `top`.
pub fn next_ticket(epoch: u32, top: u64, proxy: u8, seq: u32) -> Result<Stamp, NumbersOut>
    ensures ticket { IfOk result (λ t. t ≡ record { epoch = epoch; number = top + 1; proxy = proxy; seq = seq }) }
    ensures numbers_out { IsErr result ↔ (top ≡ 18446744073709551615) }
    ensures top { IfErr result (λ e. e.top ≡ top) }
{
    let number = top.checked_add(1).ok_or(NumbersOut { top })?;
    Ok(Stamp {
        epoch,
        number,
        proxy,
        seq,
    })
}
