//! The ascent as its callers see it.

ghost use Rattle.std.specs.Prelude.{◌≡◌, ◌↔◌, IfOk, IsTrue, length};
ghost use Rattle.zero_one.specs.Program.{IsFeasible};
ghost use Rattle.bound_cert.specs.declared.leaves.Leaf.{Leaf};
ghost use Rattle.bound_cert.specs.Leaves.{LeafFits};
ghost use Rattle.bound_cert.specs.Closing.{IsShort};
ghost use Rattle.dual_ascent.specs.Kept.{IsFor};
ghost use Rattle.dual_ascent.specs.Short.{EndsPath, IsSolution};

use crate::leaves::Leaves;
use crate::opening;
use crate::scout::Scout;
use crate::short_leaf::{Short, short_end};
use bound_cert::{Goal, Leaf, closes, leaf_value_in};
use primal_dual::Outcome;
use std::alloc::{AllocError, Global};
use std::marker::Model;
use zero_one::{Bits, Fixed, Program};

/// The rounds of a run at a node.
const ROUNDS: u32 = 5_000;

/// Finds leaves and assignments for the nodes of a search over one program.
#[derive(Drop)]
pub struct Ascent {
    leaves: Leaves,
    scout: Scout,
    // A place for each variable, for the bound of a leaf.
    scratch: Vec<i128>,
    // No variable fixed, but during the opening.
    free: Fixed,
}

impl Model for Ascent {
    ghost use Rattle.std.specs.Prelude.{length};
    ghost use Rattle.dual_ascent.specs.Kept.{Kept, IsRoomy};

    ghost Value = { Kept };

    ghost view = { λ a. record { variables = a.scout.variables; rows = a.scout.rows; leaf = a.leaves } };

    ghost invariant = { λ a. IsRoomy a.scout (length a.free) (length a.scratch.items) };
}

impl Ascent {
    /// Takes all memory that the ascent ever needs.
    pub fn make(alloc: Global, program: &Program) -> Result<Ascent, AllocError>
        ensures { IfOk result (λ ascent. IsFor program.now ascent) }
    {
        let variables = program.costs().len();
        Ok(Ascent {
            leaves: Leaves::make(alloc, program.rows().len())?,
            scout: Scout::make(alloc, program)?,
            scratch: vec![in alloc; 0; variables]?,
            free: Fixed::from_vec(vec![in alloc; None; variables]?),
        })
    }

    /// Seeks a leaf that ends the path with these fixed variables, and says whether the leaf that
    /// `leaf` then gives does. Takes no memory.
    pub fn improve(&mut self, program: &Program, fixed: &Fixed, target: Goal) -> bool
        requires room { IsFor program.now self.old }
        requires vars { length fixed.now ≡ length program.now.costs }
        ensures room { IsFor program.now self.new }
        ensures fits { LeafFits program.now self.new.leaf }
        ensures ends { IsTrue result ↔ EndsPath program.now fixed.now target self.new.leaf }
        ensures short { (leaf : Leaf) → IsShort program.now leaf → EndsPath program.now fixed.now target leaf → IsTrue result }
    {
        let outcome = self.scout.run(program, fixed, target, ROUNDS, false);
        if outcome == Outcome::Closed && self.give_multipliers(program, fixed, target) {
            return true;
        }
        match short_end(program, fixed, target) {
            Some(short) => {
                self.leaves.give_short(short);
                true
            }
            None => {
                self.leaves.give_short(Short::Costs);
                false
            }
        }
    }

    /// Gives the leaf of the engine's multipliers, and says whether it ends the path.
    fn give_multipliers(&mut self, program: &Program, fixed: &Fixed, target: Goal) -> bool
        requires room { IsFor program.now self.old }
        requires vars { length fixed.now ≡ length program.now.costs }
        ensures room { IsFor program.now self.new }
        ensures fits { LeafFits program.now self.new.leaf }
        ensures ends { IsTrue result ↔ EndsPath program.now fixed.now target self.new.leaf }
    {
        let engine = self.scout.engine();
        let weight = engine.weight();
        self.leaves.give_multipliers(weight, engine.multipliers());
        let leaf = self.leaves.given();
        let value = leaf_value_in(program, fixed, leaf, self.scratch.as_mut_slice());
        closes(value, weight, target)
    }

    /// The leaf that the last `improve` found.
    pub fn leaf(&self) -> &Leaf
        ensures { result.now ≡ self.now.leaf }
    {
        self.leaves.given()
    }

    /// Seeks a feasible assignment that agrees with the fixed variables, near where the last
    /// `improve` led, and costs less than the least so far. What it writes where it finds none
    /// doesn't matter.
    pub fn round(
        &mut self,
        program: &Program,
        fixed: &Fixed,
        least: Option<u128>,
        found: &mut Bits,
    ) -> bool
        requires room { IsFor program.now self.old }
        requires vars { length fixed.now ≡ length program.now.costs }
        requires bits { length found.old ≡ length program.now.costs }
        ensures room { IsFor program.now self.new }
        ensures bits { length found.new ≡ length program.now.costs }
        ensures found { IsTrue result → IsSolution program.now fixed.now found.new }
    {
        self.scout.round(program, fixed, least, found).is_some()
    }

    /// Seeks a feasible assignment before any variable is fixed, and brings the ascent near the
    /// bound of the whole program. What it writes where it finds none doesn't matter.
    pub fn explore(&mut self, program: &Program, found: &mut Bits) -> bool
        requires room { IsFor program.now self.old }
        requires bits { length found.old ≡ length program.now.costs }
        ensures room { IsFor program.now self.new }
        ensures bits { length found.new ≡ length program.now.costs }
        ensures found { IsTrue result → IsFeasible program.now found.new }
    {
        let cost = opening::explore(&mut self.scout, program, &mut self.free, found);
        cost.is_some() && program.broken_row(found).is_none()
    }

    /// Keeps where the ascent stands, over what was kept.
    pub fn keep(&mut self)
        ensures { self.new ≡ self.old }
    {
        self.scout.keep();
    }

    /// Goes back to where the ascent was kept: at first, where it was made.
    pub fn restore(&mut self)
        ensures { self.new ≡ self.old }
    {
        self.scout.restore();
    }
}
