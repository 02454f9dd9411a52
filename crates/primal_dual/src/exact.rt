//! Between the exact numbers of the anchors and the local ones, which are coarser by a shift.

ghost use Rattle.std.specs.Prelude.{◌^◌, ◌<◌, ◌≤◌, pos, ◌≤ℤ◌, unsigned_abs};

/// Where a place comes to by so many steps of 2^shift. It stays within 0 and the top: a step of the
/// method ends there anyway, since its bounds are those of `near`.
pub(crate) fn moved(place: u128, steps: i64, shift: u32, top: u128) -> u128
    requires place { place ≤ top }
    requires shift { shift < 128 }
    ensures { result ≤ top }
{
    let count = u128::from(steps.unsigned_abs());
    if steps < 0 {
        place - (count.min(place >> shift) << shift)
    } else {
        place + (count.min((top - place) >> shift) << shift)
    }
}

/// Forces are held within this. Restarts add to them, and that the sum is still what pulls at the
/// anchor isn't proved; those of programs with costs and coefficients of any sense are far below.
const GREATEST_FORCE: i128 = 1 << 120;
/// So are the changes of forces.
const GREATEST_CHANGE: u128 = 1 << 120;

/// The force, held.
pub(crate) fn held(force: i128) -> i128
    ensures { unsigned_abs result ≤ 2 ^ 120 }
{
    force.max(-GREATEST_FORCE).min(GREATEST_FORCE)
}

/// Local forces are held within this, so that the sums of a round fit 64 bits.
const GREATEST_PULL: i128 = 1 << 60;

/// The local force of an exact one, in steps of 2^shift.
pub(crate) fn pulled(force: i128, shift: u32) -> i64
    requires { shift < 128 }
    ensures { unsigned_abs result ≤ 2 ^ 60 }
{
    (force >> shift).max(-GREATEST_PULL).min(GREATEST_PULL) as i64
}

/// How many steps of 2^shift a distance takes, at most the limit.
pub(crate) fn near(distance: u128, shift: u32, limit: u64) -> i64
    requires shift { shift < 128 }
    requires limit { limit ≤ 2 ^ 50 }
    ensures low { pos 0 ≤ℤ result }
    ensures high { unsigned_abs result ≤ limit }
{
    (distance >> shift).min(u128::from(limit)) as i64
}

/// The exact change of a force that a sum of steps of 2^shift makes, held.
pub(crate) fn change(sum: i64, shift: u32) -> i128
    requires { shift < 128 }
    ensures { unsigned_abs result ≤ 2 ^ 120 }
{
    let most = GREATEST_CHANGE >> shift;
    let size = (u128::from(sum.unsigned_abs()).min(most) << shift) as i128;
    if sum < 0 { -size } else { size }
}

/// The place without its part below 2^shift.
pub(crate) fn floored(place: u128, shift: u32) -> u128
    requires { shift < 128 }
    ensures { result ≤ place }
{
    place >> shift << shift
}
