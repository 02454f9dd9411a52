//! A coordinate of the local problem, and the step that it takes.

ghost use Rattle.std.specs.Prelude.{ℕ, pos, ◌+◌, ◌*◌, ◌^◌, ◌≤◌, ◌≤ℤ◌, ◌-ℤ◌, unsigned_abs};

use crate::parts::{eighth, part_of, within};

/// A variable or a multiplier as the sweeps see it: its change since the anchor, in local units.
#[derive(Clone, Copy)]
pub(crate) struct Coordinate {
    /// What pulls it at the anchor.
    pub(crate) force: i64,
    /// Where the method stands. Reflected steps may lead outside the bounds.
    pub(crate) point: i64,
    /// Where the last step led, within the bounds.
    pub(crate) target: i64,
    /// How far that step went.
    pub(crate) moved: i64,
    /// The bounds: where the anchor's own bounds lie, seen from it, but no farther than the limit.
    pub(crate) low: i64,
    pub(crate) high: i64,
}

impl Coordinate {
    /// A coordinate that can't move.
    pub(crate) const STILL: Coordinate = Coordinate {
        force: 0,
        point: 0,
        target: 0,
        moved: 0,
        low: 0,
        high: 0,
    };

    ghost use Rattle.std.specs.Prelude.{ℕ, pos, ◌+◌, ◌*◌, ◌^◌, ◌≤◌, ◌≤ℤ◌, unsigned_abs};
    ghost use Rattle.primal_dual.specs.Locals.{IsLocal, IsShown};

    /// A coordinate at its anchor, with this force and so far from its bounds.
    pub(crate) fn resting(force: i64, below: i64, above: i64) -> Coordinate
        requires force { unsigned_abs force ≤ 2 ^ 60 }
        requires below { pos 0 ≤ℤ below }
        requires above { pos 0 ≤ℤ above }
        ensures { (limit : ℕ) → unsigned_abs below ≤ limit → unsigned_abs above ≤ limit → IsLocal limit result }
    {
        Coordinate {
            force,
            point: 0,
            target: 0,
            moved: 0,
            low: -below,
            high: above,
        }
    }

    /// Takes a step, reflected by seven eighths and drawn back to the anchor, which is 0: the pull,
    /// in units of 2^-32, is the share of the point that is kept. A whole reflection would let the
    /// points grow without bound.
    pub(crate) fn step(&mut self, step: i64, pull: u32)
        requires local { IsLocal (2 ^ 50) self.old }
        requires step { unsigned_abs step ≤ 2 ^ 62 }
        ensures wide { IsLocal (2 ^ 50) self.new }
        ensures kept { (limit : ℕ) → IsLocal limit self.old → IsLocal limit self.new }
    {
        let target = within(self.point + step, self.low, self.high);
        let moved = target - self.point;
        self.point = part_of(reflected(target, moved), pull);
        self.target = target;
        self.moved = moved;
    }

    /// What the other side reads: where the last step leads when it is taken twice, or the point.
    pub(crate) fn shown(&self, is_reflected: bool) -> i64
        requires { IsLocal (2 ^ 50) self.now }
        ensures { (limit : ℕ) → IsLocal limit self.now → IsShown limit result }
    {
        if is_reflected {
            self.target + self.moved
        } else {
            self.point
        }
    }
}

/// Where a step to the target leads when it goes on by seven eighths.
fn reflected(target: i64, moved: i64) -> i64
    requires target { unsigned_abs target ≤ 2 ^ 50 }
    requires moved { unsigned_abs moved ≤ 2 ^ 55 }
    ensures near { (limit : ℕ) → unsigned_abs target ≤ limit → unsigned_abs (target -ℤ moved) ≤ 15 * limit + 8 → unsigned_abs result ≤ 15 * limit + 8 }
    ensures small { unsigned_abs result ≤ 2 ^ 62 }
{
    target + moved - eighth(moved)
}
