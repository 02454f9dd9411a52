//! The local problem of a side: how far its coordinates are from their anchors, in 64 bits, and
//! the sweep that moves them.
//!
//! A round is a sweep of the variables and one of the multipliers. This is the primal-dual hybrid
//! gradient method in its reflected Halpern form, as in PDLP (Applegate et al. 2021, and its
//! successors): each step goes from the point against what the other side shows, is reflected, and
//! is drawn back to the anchor, which is 0 here.

ghost use Rattle.std.specs.Prelude.{◌≡◌, ℕ, length, All};
ghost use Rattle.primal_dual.specs.Locals.{IsLocal, IsTarget};

use crate::coordinate::Coordinate;
use crate::distances::{farthest, way, weighed_square};
use crate::lines::Lines;
use crate::parts::{half, part_of};
use crate::sums::sum_of;
use std::alloc::{AllocError, Global};
use std::marker::Model;

/// The local problem of a side.
#[derive(Drop)]
pub(crate) struct Local {
    // No change is greater, in local units.
    limit: u64,
    // Variables show where their step leads when it is taken twice, multipliers their point.
    shows_reflected: bool,
    coordinates: Vec<Coordinate>,
    // What the other side reads.
    shown: Vec<i64>,
    // Where the last step led, as of the last call of `note_targets`.
    targets: Vec<i64>,
}

impl Model for Local {
    ghost use Rattle.std.specs.Prelude.{length};
    ghost use Rattle.primal_dual.specs.Locals.{Room, IsLocalProblem};

    ghost Value = { Room };

    ghost view = { λ p. record { count = length p.coordinates.items; limit = p.limit } };

    ghost invariant = { λ p. IsLocalProblem p.limit p.coordinates.items p.shown.items p.targets.items };
}

impl Local {
    ghost use Rattle.std.specs.Prelude.{◌≡◌, ◌+◌, ◌*◌, ◌^◌, ◌<◌, ◌≤◌, unsigned_abs, length, All, IfOk};
    ghost use Rattle.primal_dual.specs.Locals.{IsLocal, IsShown, IsTarget, AreItsLines};

    /// The problem of so many coordinates that can't move yet.
    pub(crate) fn make(
        alloc: Global,
        count: usize,
        limit: u64,
        shows_reflected: bool,
    ) -> Result<Local, AllocError>
        requires count { count ≤ 16384 }
        requires least { 1 ≤ limit }
        requires greatest { limit ≤ 2 ^ 50 }
        ensures { IfOk result (λ local. local ≡ record { count = count; limit = limit }) }
    {
        Ok(Local {
            limit,
            shows_reflected,
            coordinates: vec![in alloc; Coordinate::STILL; count]?,
            shown: vec![in alloc; 0; count]?,
            targets: vec![in alloc; 0; count]?,
        })
    }

    /// What the other side reads of the coordinates.
    pub(crate) fn shown(&self) -> &[i64]
        ensures count { length result.now ≡ self.now.count }
        ensures small { All (IsShown self.now.limit) result.now }
    {
        self.shown.as_slice()
    }

    /// Where the last step led, as noted.
    pub(crate) fn targets(&self) -> &[i64]
        ensures count { length result.now ≡ self.now.count }
        ensures small { All (IsTarget self.now.limit) result.now }
        ensures shown { All (IsShown self.now.limit) result.now }
    {
        self.targets.as_slice()
    }

    /// The greatest change, in local units.
    pub(crate) fn limit(&self) -> u64
        ensures same { result ≡ self.now.limit }
        ensures least { 1 ≤ result }
        ensures greatest { result ≤ 2 ^ 50 }
    {
        self.limit
    }

    /// Puts a coordinate in its place.
    pub(crate) fn put(&mut self, line: usize, coordinate: Coordinate)
        requires line { line < self.old.count }
        requires local { IsLocal self.old.limit coordinate }
        ensures { self.new ≡ self.old }
    {
        self.coordinates[line] = coordinate;
        self.shown[line] = 0;
    }

    /// Takes a step with every coordinate, against what the other side shows. The pull, in units
    /// of 2^-32, is the share of each point that is kept.
    pub(crate) fn sweep(&mut self, lines: &Lines, others: &[i64], pull: u32)
        requires lines { AreItsLines lines.now self.old }
        requires others { length others.now ≡ lines.now.others }
        requires small { All (IsShown self.old.limit) others.now }
        ensures { self.new ≡ self.old }
    {
        self.sweep_couples(lines, others, pull);
        self.sweep_long(lines, others, pull);
    }

    fn sweep_couples(&mut self, lines: &Lines, others: &[i64], pull: u32)
        requires lines { AreItsLines lines.now self.old }
        requires others { length others.now ≡ lines.now.others }
        requires small { All (IsShown self.old.limit) others.now }
        ensures { self.new ≡ self.old }
    {
        let shows_reflected = self.shows_reflected;
        let coordinates = self.coordinates.as_mut_slice();
        let shown = self.shown.as_mut_slice();
        for couple in lines.couples() {
            let line = usize::from(couple.line);
            let given = others[usize::from(couple.plus)] - others[usize::from(couple.minus)];
            let coordinate = &mut coordinates[line];
            coordinate.step(half(coordinate.force - given), pull);
            shown[line] = coordinate.shown(shows_reflected);
        }
    }

    fn sweep_long(&mut self, lines: &Lines, others: &[i64], pull: u32)
        requires lines { AreItsLines lines.now self.old }
        requires others { length others.now ≡ lines.now.others }
        requires small { All (IsShown self.old.limit) others.now }
        ensures { self.new ≡ self.old }
    {
        let shows_reflected = self.shows_reflected;
        let coordinates = self.coordinates.as_mut_slice();
        let shown = self.shown.as_mut_slice();
        for long in lines.long() {
            let line = usize::from(long.line);
            let given = sum_of(lines.terms(line), others);
            let coordinate = &mut coordinates[line];
            coordinate.step(part_of(coordinate.force - given, long.step), pull);
            shown[line] = coordinate.shown(shows_reflected);
        }
    }

    /// Notes where the last step led.
    pub(crate) fn note_targets(&mut self)
        ensures { self.new ≡ self.old }
    {
        copy_targets(self.coordinates.as_slice(), self.targets.as_mut_slice());
    }

    /// How far the last step went, squared and weighed by the sizes of the lines.
    pub(crate) fn error(&self, lines: &Lines) -> u128
        requires { AreItsLines lines.now self.now }
        ensures { result ≤ 2 ^ 124 }
    {
        let mut error = 0;
        for (line, coordinate) in self.coordinates.iter().enumerate() {
            error += weighed_square(coordinate.moved, lines.size(line));
        }
        error
    }

    /// How far the last step led from the anchors, squared.
    pub(crate) fn way(&self) -> u128 {
        way(self.targets.as_slice())
    }

    /// The farthest that the last step led from an anchor.
    pub(crate) fn farthest(&self) -> u64 {
        farthest(self.targets.as_slice())
    }
}

fn copy_targets(coordinates: &[Coordinate], targets: &mut [i64])
    requires { length targets.old ≡ length coordinates.now }
    ensures { (limit : ℕ) → All (IsLocal limit) coordinates.now → All (IsTarget limit) targets.new }
{
    for (line, coordinate) in coordinates.iter().enumerate() {
        targets[line] = coordinate.target;
    }
}
