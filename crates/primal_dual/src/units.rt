//! The units of the local problem, by their exponents of two, and how they follow the method.

ghost use Rattle.std.specs.Prelude.{◌≡◌, ◌*◌, ◌^◌, ◌<◌, ◌≤◌, ℕ, All};

use crate::parts::{bits, within};
use bound_cert::MAX_SCALE;

/// The exponent of a whole variable in its anchor's units.
const WHOLE: u32 = 96;

/// A local unit is 2^-fine of a variable, and 2^(balance - fine) of a multiplier, so that the two
/// sides weigh the same and the steps need no further shift.
#[derive(Clone, Copy)]
pub(crate) struct Units {
    /// Costs for a whole variable that weigh as much as 1: the primal weight.
    pub(crate) balance: u32,
    /// How fine the local unit of a variable is.
    pub(crate) fine: u32,
    ghost in_range: { (fine ≤ balance) × (balance ≤ 100) × (fine ≤ 90) },
}

impl Units {
    /// The units of this balance, as fine as it allows.
    pub(crate) fn new(balance: u32, fine: u32) -> Units
        requires balance { balance ≤ 100 }
        requires fine { fine ≤ 90 }
        ensures balance { result.balance ≡ balance }
        ensures fine { result.fine ≤ fine }
    {
        Units {
            balance,
            fine: fine.min(balance),
        }
    }

    /// How far a local change of a variable is shifted to become one of its anchor.
    pub(crate) fn of_variables(self) -> u32
        ensures { result < 128 }
    {
        WHOLE - self.fine
    }

    /// How far a local change of a multiplier is shifted to become one of its anchor.
    pub(crate) fn of_multipliers(self) -> u32
        ensures { result < 128 }
    {
        self.balance - self.fine
    }

    /// The balance after a stretch in which the sides went these ways, squared: halfway to the one
    /// with which both would have gone equally far. It stays near the first one.
    pub(crate) fn balance_after(self, first: u32, of_variables: u128, of_multipliers: u128) -> u32
        requires { first ≤ 98 }
        ensures { result ≤ 100 }
    {
        if of_variables <= 64 || of_multipliers <= 64 {
            return self.balance;
        }
        // The ways are squared, so half the difference of their bits.
        let lead = (i64::from(bits(of_multipliers)) - i64::from(bits(of_variables))) / 2;
        let doubled = 2 * i64::from(self.balance) + lead;
        let least = (i64::from(first) - 10).max(8);
        let most = (i64::from(first) + 2).max(8);
        within(doubled / 2, least, most) as u32
    }

    /// How fine the unit is after a stretch in which no coordinate went farther than this: so fine
    /// that such a change would leave eight bits within the limit, but no coarser than at first.
    /// It is left where it would gain at most three bits.
    pub(crate) fn fine_after(self, first: u32, limit: u64, farthest: u64) -> u32
        requires { first ≤ 90 }
        ensures { result ≤ 90 }
    {
        let room = self.fine + bits(u128::from(limit));
        let taken = bits(u128::from(farthest)) + 8;
        let want = if taken < room { room - taken } else { 0 };
        if want > self.fine + 3 || want < self.fine {
            want.max(first).min(90)
        } else {
            self.fine
        }
    }
}

/// The greatest local change for lines of this size: what a line adds up then fits 64 bits.
pub(crate) fn greatest_change(size: u32) -> u64
    requires least { 1 ≤ size }
    requires light { size ≤ 10 ^ 7 }
    ensures least { 1 ≤ result }
    ensures greatest { result ≤ 2 ^ 50 }
    ensures small { (other : ℕ) → other ≤ size → other * result ≤ 2 ^ 56 }
{
    ((1u64 << 56) / u64::from(size)).min(1 << 50)
}

/// The units of the first run: costs weigh a quarter of the greatest one, a million times, and a
/// whole variable takes a sixteenth of the greatest change.
pub(crate) fn first_units(costs: &[u128], limit: u64) -> Units
    requires costs { All (λ cost. cost < 10 ^ 24) costs.now }
    requires limit { limit ≤ 2 ^ 50 }
    ensures balance { result.balance ≤ 98 }
    ensures fine { result.fine ≤ 90 }
{
    let balance = bits(greatest(costs) * u128::from(MAX_SCALE / 4));
    let fine = bits(u128::from(limit / 32));
    Units::new(balance, fine)
}

/// The greatest cost; at least 1.
fn greatest(costs: &[u128]) -> u128
    requires { All (λ cost. cost < 10 ^ 24) costs.now }
    ensures { result < 10 ^ 24 }
{
    let mut greatest = 1;
    for cost in costs {
        greatest = greatest.max(*cost);
    }
    greatest
}
