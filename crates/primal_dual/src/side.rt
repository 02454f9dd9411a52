//! One side of a program: the variables with their columns, or the multipliers with their rows.

use crate::anchors::{Anchors, Measure};
use crate::exact::{change, floored};
use crate::lines::Lines;
use crate::local::Local;
use crate::sums::{sum_of, sum_of_places};
use crate::table::Table;
use std::alloc::{AllocError, Global};
use std::marker::Model;

/// One side.
#[derive(Drop)]
pub(crate) struct Side {
    lines: Lines,
    local: Local,
    anchors: Anchors,
}

impl Model for Side {
    ghost use Rattle.primal_dual.specs.Sides.{SideView, IsSide};

    ghost Value = { SideView };

    ghost view = { λ s. record { sizes = s.lines; limit = s.local.limit; top = s.anchors.top; places = s.anchors.places; kept = s.anchors.kept } };

    ghost invariant = { λ s. IsSide s.lines s.local s.anchors };
}

impl Side {
    ghost use Rattle.std.specs.Prelude.{◌≡◌, ◌*◌, ◌^◌, ◌<◌, ◌≤◌, unsigned_abs, length, All, IfOk};
    ghost use Rattle.primal_dual.specs.Locals.{IsShown};
    ghost use Rattle.primal_dual.specs.Places.{AreWithin};
    ghost use Rattle.primal_dual.specs.Sides.{IsSameSide};

    /// A side with these lines and anchors at 0, where places are at most `top`, and no local
    /// change is greater than the limit.
    pub(crate) fn make(
        alloc: Global,
        table: Table,
        limit: u64,
        top: u128,
        shows_reflected: bool,
    ) -> Result<Side, AllocError>
        requires least { 1 ≤ limit }
        requires greatest { limit ≤ 2 ^ 50 }
        requires small { table.size * limit ≤ 2 ^ 56 }
        requires top { top ≤ 2 ^ 100 }
        ensures sizes { IfOk result (λ side. side.sizes ≡ table) }
        ensures limit { IfOk result (λ side. side.limit ≡ limit) }
        ensures top { IfOk result (λ side. side.top ≡ top) }
        ensures count { IfOk result (λ side. length side.places ≡ table.lines) }
        ensures kept_count { IfOk result (λ side. length side.kept ≡ table.lines) }
    {
        let count = table.len();
        Ok(Side {
            lines: Lines::make(alloc, table)?,
            local: Local::make(alloc, count, limit, shows_reflected)?,
            anchors: Anchors::make(alloc, count, top)?,
        })
    }

    /// The number of lines.
    pub(crate) fn len(&self) -> usize
        ensures same { result ≡ self.now.sizes.lines }
        ensures few { result ≤ 16384 }
    {
        self.lines.len()
    }

    /// Where the anchors stand.
    pub(crate) fn places(&self) -> &[u128]
        ensures same { result.now ≡ self.now.places }
        ensures count { length result.now ≡ self.now.sizes.lines }
        ensures within { AreWithin self.now.top self.now.places }
        ensures small { AreWithin (2 ^ 100) result.now }
        ensures kept_count { length self.now.kept ≡ self.now.sizes.lines }
        ensures kept_within { AreWithin self.now.top self.now.kept }
    {
        self.anchors.places()
    }

    /// What the other side reads.
    pub(crate) fn shown(&self) -> &[i64]
        ensures count { length result.now ≡ self.now.sizes.lines }
        ensures small { All (IsShown self.now.limit) result.now }
    {
        self.local.shown()
    }

    /// Where the last step led, as noted.
    pub(crate) fn targets(&self) -> &[i64]
        ensures count { length result.now ≡ self.now.sizes.lines }
        ensures small { All (IsShown self.now.limit) result.now }
    {
        self.local.targets()
    }

    /// The size of a line.
    pub(crate) fn size(&self, line: usize) -> u32
        requires { line < self.now.sizes.lines }
        ensures least { 1 ≤ result }
        ensures light { result ≤ 10 ^ 7 }
    {
        self.lines.size(line)
    }

    pub(crate) fn keep(&mut self)
        ensures { self.new ≡ record self.old { kept = self.old.places } }
    {
        self.anchors.keep();
    }

    pub(crate) fn restore(&mut self)
        ensures { self.new ≡ record self.old { places = self.old.kept } }
    {
        self.anchors.restore();
    }

    /// Takes a step with every coordinate, against what the other side shows.
    pub(crate) fn sweep(&mut self, others: &[i64], pull: u32)
        requires others { length others.now ≡ self.old.sizes.others }
        requires small { All (IsShown self.old.limit) others.now }
        ensures { self.new ≡ self.old }
    {
        self.local.sweep(&self.lines, others, pull);
    }

    /// Notes where the last step led.
    pub(crate) fn note_targets(&mut self)
        ensures { self.new ≡ self.old }
    {
        self.local.note_targets();
    }

    /// How far the last step went, squared and weighed by the sizes of the lines.
    pub(crate) fn error(&self) -> u128
        ensures { result ≤ 2 ^ 124 }
    {
        self.local.error(&self.lines)
    }

    /// How far the last step led from the anchors, squared.
    pub(crate) fn way(&self) -> u128 {
        self.local.way()
    }

    /// The farthest that the last step led from an anchor.
    pub(crate) fn farthest(&self) -> u64 {
        self.local.farthest()
    }

    /// The greatest local change.
    pub(crate) fn limit(&self) -> u64
        ensures { result ≡ self.now.limit }
    {
        self.local.limit()
    }

    /// Where a coordinate stands after the last step, with local units of 2^shift.
    pub(crate) fn standing(&self, line: usize, shift: u32) -> u128
        requires line { line < self.now.sizes.lines }
        requires shift { shift < 128 }
        ensures within { result ≤ self.now.top }
        ensures high { result ≤ 2 ^ 100 }
    {
        self.anchors
            .standing(line, self.local.targets()[line], shift)
    }

    /// What pulls a coordinate after the last step of the other side, whose targets are given with
    /// its units of 2^shift.
    pub(crate) fn force_after(&self, line: usize, others: &[i64], shift: u32) -> i128
        requires line { line < self.now.sizes.lines }
        requires shift { shift < 128 }
        requires others { length others.now ≡ self.now.sizes.others }
        requires small { All (IsShown self.now.limit) others.now }
        ensures { unsigned_abs result ≤ 2 ^ 121 }
    {
        self.anchors.force(line) - change(sum_of(self.lines.terms(line), others), shift)
    }

    /// Writes what pulls a coordinate: a number of its own, less what the other side's places give.
    pub(crate) fn pull(&mut self, line: usize, own: i128, others: &[u128])
        requires line { line < self.old.sizes.lines }
        requires own { unsigned_abs own ≤ 2 ^ 120 }
        requires others { length others.now ≡ self.old.sizes.others }
        requires places { AreWithin (2 ^ 100) others.now }
        ensures { self.new ≡ self.old }
    {
        let force = own - sum_of_places(self.lines.terms(line), others);
        self.anchors.pull(line, force);
    }

    /// Puts each anchor where it is fixed, 0 or the top, or leaves it free in units of 2^shift.
    pub(crate) fn fix(&mut self, fixed: &[Option<bool>], shift: u32)
        requires fixed { length fixed.now ≡ self.old.sizes.lines }
        requires shift { shift < 128 }
        ensures { IsSameSide self.old self.new }
    {
        for (line, bit) in fixed.iter().enumerate() {
            self.fix_one(line, *bit, shift);
        }
    }

    fn fix_one(&mut self, line: usize, bit: Option<bool>, shift: u32)
        requires line { line < self.old.sizes.lines }
        requires shift { shift < 128 }
        ensures { IsSameSide self.old self.new }
    {
        let place = match bit {
            Some(true) => self.anchors.top(),
            Some(false) => 0,
            None => floored(self.anchors.places()[line], shift),
        };
        self.anchors.put(line, place, bit.is_some());
    }

    /// Leaves each anchor free, in units of 2^shift.
    pub(crate) fn free(&mut self, shift: u32)
        requires { shift < 128 }
        ensures { IsSameSide self.old self.new }
    {
        for line in 0..self.len() {
            self.fix_one(line, None, shift);
        }
    }

    /// Puts each anchor to 0, free.
    pub(crate) fn clear(&mut self)
        ensures { IsSameSide self.old self.new }
    {
        for line in 0..self.len() {
            self.clear_one(line);
        }
    }

    fn clear_one(&mut self, line: usize)
        requires { line < self.old.sizes.lines }
        ensures { IsSameSide self.old self.new }
    {
        self.anchors.put(line, 0, false);
    }

    /// Begins the local problem at the anchors.
    pub(crate) fn localize(&mut self, measure: Measure)
        requires place { measure.place_shift < 128 }
        requires force { measure.force_shift < 128 }
        ensures { self.new ≡ self.old }
    {
        for line in 0..self.len() {
            self.localize_one(line, measure);
        }
    }

    fn localize_one(&mut self, line: usize, measure: Measure)
        requires line { line < self.old.sizes.lines }
        requires place { measure.place_shift < 128 }
        requires force { measure.force_shift < 128 }
        ensures { self.new ≡ self.old }
    {
        let coordinate = self.anchors.local(line, measure, self.local.limit());
        self.local.put(line, coordinate);
    }

    /// Moves the anchors to where the last step led, in units of 2^own, where that of the other
    /// side led to these targets in units of 2^other.
    pub(crate) fn rebase(&mut self, own: u32, others: &[i64], other: u32)
        requires own { own < 128 }
        requires other { other < 128 }
        requires count { length others.now ≡ self.old.sizes.others }
        requires small { All (IsShown self.old.limit) others.now }
        ensures { IsSameSide self.old self.new }
    {
        for line in 0..self.len() {
            let force = self.force_after(line, others, other);
            self.anchors.pull(line, force);
            self.anchors.advance(line, self.local.targets()[line], own);
        }
    }
}
