ghost use Rattle.std.specs.Prelude.{◌≡◌, Some, None, length, option_map, option_copied, IfOk, MatchBool};
ghost use Rattle.zero_one.specs.Program.{value_of};
ghost use Rattle.branch_solver.specs.Best.{Best, goal_of, IsAtMost, IsTaken};

use bound_cert::Goal;
use dual_ascent::copy_bits;
use std::alloc::{AllocError, Global};
use std::marker::Model;
use zero_one::{Bits, Program};

/// The best assignment that a search knows, if it knows one.
#[derive(Drop)]
pub(crate) struct Incumbent {
    // The assignment, where it has a value.
    x: Bits,
    value: Option<u128>,
}

impl Model for Incumbent {
    ghost use Rattle.std.specs.Prelude.{length, option_map};
    ghost use Rattle.branch_solver.specs.Best.{Held};

    ghost Value = { Held };

    ghost view = { λ i. record {
      variables = length i.x;
      best = option_map (λ value. record { x = i.x; value = value }) i.value;
    } };
}

impl Incumbent {
    /// No assignment, and the memory for one.
    pub(crate) fn make(alloc: Global, variables: usize) -> Result<Incumbent, AllocError>
        ensures { IfOk result (λ held. held ≡ record { variables = variables; best = None }) }
    {
        Ok(Incumbent {
            x: Bits::from_vec(vec![in alloc; false; variables]?),
            value: None,
        })
    }

    /// The assignment.
    pub(crate) fn best(&self) -> Option<&Bits>
        ensures { option_copied result ≡ option_map (λ (best : Best). best.x) self.now.best }
    {
        match self.value {
            Some(_) => Some(&self.x),
            None => None,
        }
    }

    /// Its value.
    pub(crate) fn value(&self) -> Option<u128>
        ensures { result ≡ option_map (λ (best : Best). best.value) self.now.best }
    {
        self.value
    }

    /// What is to be shown of the program: that nothing is better.
    pub(crate) fn goal(&self) -> Goal
        ensures { result ≡ goal_of self.now.best }
    {
        match self.value {
            Some(value) => Goal::Cost(value),
            None => Goal::Nothing,
        }
    }

    /// Takes an assignment where it is better. Says whether it is.
    pub(crate) fn offer(&mut self, program: &Program, x: &Bits) -> bool
        requires bits { length x.now ≡ length program.now.costs }
        requires variables { self.old.variables ≡ length program.now.costs }
        ensures { MatchBool result (IsTaken program.now self.old x.now self.new)
            ((self.new ≡ self.old) × IsAtMost self.old.best (value_of program.now.costs x.now)) }
    {
        let value = program.value(x);
        if let Some(held) = self.value {
            if held <= value {
                return false;
            }
        }
        copy_bits(&mut self.x, x);
        self.value = Some(value);
        true
    }
}
