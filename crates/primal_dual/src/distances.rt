//! How far a side went, in local units.

ghost use Rattle.std.specs.Prelude.{◌*◌, ◌^◌, ◌≤◌, unsigned_abs, length, All};
ghost use Rattle.primal_dual.specs.Locals.{IsTarget};

/// The square of a change, in units of 2^12.
pub(crate) fn square(change: i64) -> u128
    requires { unsigned_abs change ≤ 2 ^ 50 }
    ensures { result ≤ 2 ^ 100 }
{
    let length = u128::from(change.unsigned_abs() >> 6);
    length * length
}

/// The square of a change times the size of its line, in units of 2^12.
pub(crate) fn weighed_square(change: i64, size: u32) -> u128
    requires small { unsigned_abs change * size ≤ 2 ^ 61 }
    requires short { unsigned_abs change ≤ 2 ^ 55 }
    ensures { result ≤ 2 ^ 110 }
{
    let length = u128::from(change.unsigned_abs() >> 6);
    length * (length * u128::from(size))
}

/// The squares of all changes, added up.
pub(crate) fn way(changes: &[i64]) -> u128
    requires few { length changes.now ≤ 16384 }
    requires small { All (IsTarget (2 ^ 50)) changes.now }
{
    let mut way = 0;
    for change in changes {
        way += square(*change);
    }
    way
}

/// The greatest change.
pub(crate) fn farthest(changes: &[i64]) -> u64 {
    let mut farthest = 0;
    for change in changes {
        farthest = change.unsigned_abs().max(farthest);
    }
    farthest
}
