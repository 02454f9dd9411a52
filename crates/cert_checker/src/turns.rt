ghost use Rattle.std.specs.Prelude.{false, ◌≡◌, ◌<◌, ◌↔◌, ◌∷◌, [], if◌then◌else◌, length, IfOk, IsTrue};
ghost use Rattle.bound_cert.specs.Trees.{IsFree};
ghost use Rattle.cert_checker.specs.Paths.{fixed_over, turned_back};

use std::alloc::{AllocError, Global};
use std::marker::Model;
use zero_one::Fixed;

/// A branch on the way to a node.
#[derive(Clone, Copy, Debug, PartialEq, Eq)]
pub struct Turn {
    /// The variable of the branch.
    pub var: u16,
    /// The bit that the path takes there.
    pub bit: bool,
}

/// The path to a node, with room for a turn on each variable.
#[derive(Drop)]
pub struct Path {
    // The turns stand from place `free` on, the deepest one first.
    turns: Vec<Turn>,
    // How many variables the path leaves free.
    free: usize,
    fixed: Fixed,
}

impl Model for Path {
    ghost use Rattle.cert_checker.specs.Paths.{Route};

    ghost Value = { Route };

    ghost use Rattle.std.specs.Prelude.{length, drop};
    ghost use Rattle.cert_checker.specs.Paths.{HoldsPath};

    ghost view = { λ p. record { variables = length p.turns.items; turns = drop p.free p.turns.items } };

    ghost invariant = { λ p. HoldsPath p.turns.items p.free p.fixed };
}

impl Path {
    /// The empty path among so many variables. Past this a path takes no memory.
    pub fn make(alloc: Global, variables: usize) -> Result<Path, AllocError>
        ensures { IfOk result (λ path. path ≡ record { variables = variables; turns = [] }) }
    {
        let turn = Turn { var: 0, bit: false };
        Ok(Path {
            turns: vec![in alloc; turn; variables]?,
            free: variables,
            fixed: Fixed::from_vec(vec![in alloc; None; variables]?),
        })
    }

    /// The variables that the path fixes.
    pub fn fixed(&self) -> &Fixed
        ensures { result.now ≡ fixed_over self.now.variables self.now.turns }
    {
        &self.fixed
    }

    /// Whether the path leaves the variable free.
    pub fn is_free(&self, var: usize) -> bool
        requires { var < self.now.variables }
        ensures { IsTrue result ↔ IsFree (fixed_over self.now.variables self.now.turns) var }
    {
        self.fixed.as_slice()[var].is_none()
    }

    /// How many turns there are.
    pub fn depth(&self) -> usize
        ensures { result ≡ length self.now.turns }
    {
        self.turns.len() - self.free
    }

    /// Goes down to the bit 0 of a variable.
    pub fn go_down(&mut self, var: u16)
        requires { IsFree (fixed_over self.old.variables self.old.turns) var }
        ensures { self.new ≡ record self.old { turns = record { var = var; bit = false } ∷ self.old.turns } }
    {
        self.free -= 1;
        self.turns[self.free] = Turn { var, bit: false };
        self.fixed.set(usize::from(var), Some(false));
    }

    /// Goes back to the deepest turn with bit 0 and takes its bit 1 there. Says whether there was
    /// such a turn.
    pub fn turn_back(&mut self) -> bool
        ensures variables { self.new.variables ≡ self.old.variables }
        ensures turns { turned_back self.old.turns ≡ (if result then Some self.new.turns else None) }
    {
        while self.free < self.turns.len() {
            let turn = self.turns[self.free];
            let var = usize::from(turn.var);
            if !turn.bit {
                self.turns[self.free] = Turn {
                    var: turn.var,
                    bit: true,
                };
                self.fixed.set(var, Some(true));
                return true;
            }
            self.fixed.set(var, None);
            self.free += 1;
        }
        false
    }
}
