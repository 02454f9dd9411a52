//! The anchors of a side: where each coordinate stands, exactly, in 128 bits. Restarts move them.

use crate::coordinate::Coordinate;
use crate::exact::{held, moved, near, pulled};
use std::alloc::{AllocError, Global};
use std::marker::Model;

/// How a local problem measures.
#[derive(Clone, Copy)]
pub(crate) struct Measure {
    /// How far a local change is shifted to become one of a place.
    pub(crate) place_shift: u32,
    /// How far a local force is shifted to become an exact one.
    pub(crate) force_shift: u32,
}

/// The anchors of a side.
#[derive(Drop)]
pub(crate) struct Anchors {
    // The greatest place; the least is 0.
    top: u128,
    // Variables in units of 2^-96, or multipliers as whole numbers.
    places: Vec<u128>,
    // What pulls them: reduced costs negated, or what rows lack.
    forces: Vec<i128>,
    // Those that may not move.
    still: Vec<bool>,
    kept: Vec<u128>,
}

impl Model for Anchors {
    ghost use Rattle.std.specs.Prelude.{length};
    ghost use Rattle.primal_dual.specs.Places.{Places, AreAnchors};

    ghost Value = { Places };

    ghost view = { λ a. record { top = a.top; places = a.places.items; kept = a.kept.items } };

    ghost invariant = { λ a. AreAnchors a.top a.places.items a.kept.items a.forces.items (length a.still.items) };
}

impl Anchors {
    ghost use Rattle.std.specs.Prelude.{◌≡◌, ◌^◌, ◌<◌, ◌≤◌, ℕ, unsigned_abs, length, slice_set, IfOk};
    ghost use Rattle.primal_dual.specs.Locals.{IsLocal};
    ghost use Rattle.primal_dual.specs.Places.{AreWithin, HaveMoved};

    /// So many anchors at 0.
    pub(crate) fn make(alloc: Global, count: usize, top: u128) -> Result<Anchors, AllocError>
        requires { top ≤ 2 ^ 100 }
        ensures top { IfOk result (λ anchors. anchors.top ≡ top) }
        ensures count { IfOk result (λ anchors. length anchors.places ≡ count) }
    {
        Ok(Anchors {
            top,
            places: vec![in alloc; 0; count]?,
            forces: vec![in alloc; 0; count]?,
            still: vec![in alloc; false; count]?,
            kept: vec![in alloc; 0; count]?,
        })
    }

    /// Where the anchors stand.
    pub(crate) fn places(&self) -> &[u128]
        ensures same { result.now ≡ self.now.places }
        ensures within { AreWithin self.now.top self.now.places }
        ensures small { AreWithin (2 ^ 100) result.now }
        ensures kept { length self.now.kept ≡ length self.now.places }
        ensures kept_within { AreWithin self.now.top self.now.kept }
    {
        self.places.as_slice()
    }

    /// The greatest place.
    pub(crate) fn top(&self) -> u128
        ensures { result ≡ self.now.top }
    {
        self.top
    }

    /// Keeps where the anchors stand.
    pub(crate) fn keep(&mut self)
        ensures { self.new ≡ record self.old { kept = self.old.places } }
    {
        self.kept
            .as_mut_slice()
            .copy_from_slice(self.places.as_slice());
    }

    /// Goes back to where the anchors were kept.
    pub(crate) fn restore(&mut self)
        ensures { self.new ≡ record self.old { places = self.old.kept } }
    {
        self.places
            .as_mut_slice()
            .copy_from_slice(self.kept.as_slice());
    }

    /// Puts an anchor in a place, where it may be held.
    pub(crate) fn put(&mut self, line: usize, place: u128, is_still: bool)
        requires line { line < length self.old.places }
        requires place { place ≤ self.old.top }
        ensures { HaveMoved self.old self.new }
    {
        self.places[line] = place;
        self.still[line] = is_still;
    }

    /// Writes what pulls an anchor.
    pub(crate) fn pull(&mut self, line: usize, force: i128)
        requires { line < length self.old.places }
        ensures { self.new ≡ self.old }
    {
        self.forces[line] = held(force);
    }

    /// What pulls an anchor.
    pub(crate) fn force(&self, line: usize) -> i128
        requires { line < length self.now.places }
        ensures { unsigned_abs result ≤ 2 ^ 120 }
    {
        self.forces[line]
    }

    /// Where an anchor comes to by so many steps of 2^shift.
    pub(crate) fn standing(&self, line: usize, steps: i64, shift: u32) -> u128
        requires line { line < length self.now.places }
        requires shift { shift < 128 }
        ensures within { result ≤ self.now.top }
        ensures high { result ≤ 2 ^ 100 }
    {
        moved(self.places[line], steps, shift, self.top)
    }

    /// Moves an anchor by so many steps of 2^shift.
    pub(crate) fn advance(&mut self, line: usize, steps: i64, shift: u32)
        requires line { line < length self.old.places }
        requires shift { shift < 128 }
        ensures { HaveMoved self.old self.new }
    {
        self.places[line] = moved(self.places[line], steps, shift, self.top);
    }

    /// The local coordinate of an anchor, with bounds of at most the limit.
    pub(crate) fn local(&self, line: usize, measure: Measure, limit: u64) -> Coordinate
        requires line { line < length self.now.places }
        requires place { measure.place_shift < 128 }
        requires force { measure.force_shift < 128 }
        requires limit { limit ≤ 2 ^ 50 }
        ensures { IsLocal limit result }
    {
        let force = pulled(self.forces[line], measure.force_shift);
        if self.still[line] {
            return Coordinate::resting(force, 0, 0);
        }
        let place = self.places[line];
        Coordinate::resting(
            force,
            near(place, measure.place_shift, limit),
            near(self.top - place, measure.place_shift, limit),
        )
    }
}
