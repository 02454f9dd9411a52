//! The engine, and the rounding where it left the variables.

ghost use Rattle.std.specs.Prelude.{◌≡◌, ◌<◌, length, IfOk, IfSome, IsTrue};
ghost use Rattle.bound_cert.specs.Leaves.{LeafFits};
ghost use Rattle.dual_ascent.specs.Short.{IsSolution};
ghost use Rattle.dual_ascent.specs.Kept.{IsScoutFor};

use crate::rounding::{ONE, Rounding};
use bound_cert::Goal;
use primal_dual::{Engine, Outcome};
use std::alloc::{AllocError, Global};
use std::marker::Model;
use zero_one::{Bits, Fixed, Program};

/// Runs and rounds for one program.
#[derive(Drop)]
pub(crate) struct Scout {
    engine: Engine,
    rounding: Rounding,
    // Where the last run left the variables, in units of 2^-40.
    places: Vec<u64>,
}

impl Model for Scout {
    ghost use Rattle.std.specs.Prelude.{length};
    ghost use Rattle.dual_ascent.specs.Columns.{Extent};
    ghost use Rattle.dual_ascent.specs.Kept.{AreOneSize};

    ghost Value = { Extent };

    ghost view = { λ s. record { variables = s.engine.variables; rows = s.engine.rows } };

    ghost invariant = { λ s. AreOneSize s.engine s.rounding (length s.places.items) };
}

impl Scout {
    /// Takes all memory that is ever needed.
    pub(crate) fn make(alloc: Global, program: &Program) -> Result<Scout, AllocError>
        ensures { IfOk result (IsScoutFor program.now) }
    {
        Ok(Scout {
            engine: Engine::make(alloc, program)?,
            rounding: Rounding::make(alloc, program)?,
            places: vec![in alloc; 0; program.costs().len()]?,
        })
    }

    /// Runs the engine, from where it stands.
    pub(crate) fn run(
        &mut self,
        program: &Program,
        fixed: &Fixed,
        goal: Goal,
        rounds: u32,
        is_patient: bool,
    ) -> Outcome
        requires room { IsScoutFor program.now self.old }
        requires vars { length fixed.now ≡ length program.now.costs }
        ensures { self.new ≡ self.old }
    {
        let outcome = self.engine.run(program, fixed, goal, rounds, is_patient);
        note_places(&self.engine, self.places.as_mut_slice());
        outcome
    }

    /// The engine, for the leaf of its last run.
    pub(crate) fn engine(&self) -> &Engine
        ensures { result.now.rows ≡ self.now.rows }
    {
        &self.engine
    }

    /// Rounds where the last run led. Writes the best assignment that it finds and gives its cost,
    /// if that is below the least so far.
    pub(crate) fn round(
        &mut self,
        program: &Program,
        fixed: &Fixed,
        least: Option<u128>,
        found: &mut Bits,
    ) -> Option<u128>
        requires room { IsScoutFor program.now self.old }
        requires vars { length fixed.now ≡ length program.now.costs }
        requires bits { length found.old ≡ length program.now.costs }
        ensures room { self.new ≡ self.old }
        ensures bits { length found.new ≡ length program.now.costs }
        ensures found { IfSome result (λ _. IsSolution program.now fixed.now found.new) }
    {
        let places = self.places.as_slice();
        self.rounding.round(program, fixed, places, least, found)
    }

    /// The least free variable that the last run left between 1/16 and 15/16.
    pub(crate) fn undecided(&self, fixed: &Fixed) -> Option<usize>
        ensures { IfSome result (λ var. var < length fixed.now) }
    {
        undecided(self.places.as_slice(), fixed.as_slice())
    }

    /// Keeps where the engine stands, over what was kept.
    pub(crate) fn keep(&mut self)
        ensures { self.new ≡ self.old }
    {
        self.engine.keep();
    }

    /// Goes back to where the engine was kept.
    pub(crate) fn restore(&mut self)
        ensures { self.new ≡ self.old }
    {
        self.engine.restore();
        note_places(&self.engine, self.places.as_mut_slice());
    }
}

/// Notes where the engine left the variables.
fn note_places(engine: &Engine, places: &mut [u64])
    requires { length places.old ≡ engine.now.variables }
    ensures { length places.new ≡ length places.old }
{
    for var in 0..places.len() {
        places[var] = engine.place(var) as u64;
    }
}

/// The least free variable between 1/16 and 15/16.
fn undecided(places: &[u64], fixed: &[Option<bool>]) -> Option<usize>
    ensures { IfSome result (λ var. var < length fixed.now) }
{
    for (var, bit) in fixed.iter().enumerate() {
        if bit.is_none() && is_between(places.get(var)) {
            return Some(var);
        }
    }
    None
}

fn is_between(place: Option<&u64>) -> bool {
    match place {
        Some(place) => *place > ONE / 16 && *place < ONE / 16 * 15,
        None => false,
    }
}
