//! Parts of numbers, rounded down, their bounds and their bits.

ghost use Rattle.std.specs.Prelude.{◌^◌, ◌<◌, ◌≤◌, ℕ, pos, ◌≤ℤ◌, ◌+ℤ◌, ◌*ℤ◌, unsigned_abs};

/// Half a number.
pub(crate) fn half(number: i64) -> i64
    ensures { unsigned_abs result ≤ unsigned_abs number }
{
    number >> 1
}

/// An eighth of a number.
pub(crate) fn eighth(number: i64) -> i64
    ensures low { (pos 8 *ℤ result) ≤ℤ number }
    ensures high { number ≤ℤ ((pos 8 *ℤ result) +ℤ pos 7) }
{
    number >> 3
}

/// A part of a number, in units of 2^-32.
pub(crate) fn part_of(number: i64, part: u32) -> i64
    requires { unsigned_abs number ≤ 2 ^ 62 }
    ensures { unsigned_abs result ≤ unsigned_abs number }
{
    ((i128::from(number) * i128::from(part)) >> 32) as i64
}

/// The number, or the bound that it is past.
pub(crate) fn within(number: i64, low: i64, high: i64) -> i64
    requires { low ≤ℤ high }
    ensures low { low ≤ℤ result }
    ensures high { result ≤ℤ high }
{
    number.max(low).min(high)
}

/// The number of bits of a number.
pub(crate) fn bits(number: u128) -> u32
    ensures few { result ≤ 128 }
    ensures least { (k : ℕ) → number < 2 ^ k → result ≤ k }
{
    128 - number.leading_zeros()
}
