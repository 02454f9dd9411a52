ghost use Rattle.std.specs.Prelude.{◌≡◌, ◌+◌, ◌-◌, ◌^◌, ◌<◌, ◌≤◌, ◌∷◌, [], false, Some, None, if◌then◌else◌, length, IfOk, IfNone, IfSome};
ghost use Rattle.bound_cert.specs.Trees.{IsFree};
ghost use Rattle.cert_checker.specs.Paths.{fixed_over, turned_back};
ghost use Rattle.branch_solver.specs.Frames.{Pops};

use cert_checker::Turn;
use slot_pool::{Handle, Pool};
use std::alloc::{AllocError, Global};
use std::marker::Model;
use zero_one::Fixed;

/// A branch on the way to a node.
#[derive(Clone, Copy, Debug)]
struct Frame {
    turn: Turn,
    // The branch above, none at the root.
    parent: Option<Handle>,
}

/// The path to a node, as a stack of frames, with room for a turn on each variable.
///
/// The pool has a slot more than there are variables, so it never is full.
#[derive(Drop)]
pub(crate) struct Frames {
    pool: Pool<Frame>,
    deepest: Option<Handle>,
    fixed: Fixed,
}

impl Model for Frames {
    ghost use Rattle.branch_solver.specs.Frames.{Trail};

    ghost Value = { Trail };

    ghost use Rattle.branch_solver.specs.Frames.{trail_in, HoldsTurns};

    ghost view = { λ f. trail_in f.pool f.deepest f.fixed };

    ghost invariant = { λ f. HoldsTurns f.pool f.deepest f.fixed (trail_in f.pool f.deepest f.fixed).turns };
}

impl Frames {
    /// The empty path among so many variables. Past this a path takes no memory.
    pub(crate) fn make(alloc: Global, variables: usize) -> Result<Frames, AllocError>
        requires { variables < 1000000 }
        ensures { IfOk result (λ frames. frames ≡ record { variables = variables; turns = []; puts = 0 }) }
    {
        Ok(Frames {
            pool: Pool::make(alloc, variables as u32 + 1)?,
            deepest: None,
            fixed: Fixed::from_vec(vec![in alloc; None; variables]?),
        })
    }

    /// The variables that the path fixes.
    pub(crate) fn fixed(&self) -> &Fixed
        ensures { result.now ≡ fixed_over self.now.variables self.now.turns }
    {
        &self.fixed
    }

    /// How many turns there are.
    pub(crate) fn depth(&self) -> usize
        ensures { result ≡ length self.now.turns }
    {
        self.pool.live() as usize
    }

    /// Goes down to the bit 0 of a variable.
    pub(crate) fn go_down(&mut self, var: u16)
        requires { IsFree (fixed_over self.old.variables self.old.turns) var }
        ensures { self.new ≡ record { variables = self.old.variables; turns = record { var = var; bit = false } ∷ self.old.turns; puts = self.old.puts + 1 } }
    {
        self.push(Turn { var, bit: false });
    }

    /// Goes back to the deepest turn with bit 0 and takes its bit 1 there. Says whether there was
    /// such a turn.
    pub(crate) fn turn_back(&mut self) -> bool
        requires { self.old.puts < 2 ^ 32 - 1 }
        ensures variables { self.new.variables ≡ self.old.variables }
        ensures turns { turned_back self.old.turns ≡ (if result then Some self.new.turns else None) }
        ensures puts { self.new.puts ≤ self.old.puts + 1 }
    {
        while let Some(turn) = self.pop() {
            if !turn.bit {
                self.push(Turn {
                    var: turn.var,
                    bit: true,
                });
                return true;
            }
        }
        false
    }

    /// Puts a frame for a turn below the deepest one.
    fn push(&mut self, turn: Turn)
        requires { IsFree (fixed_over self.old.variables self.old.turns) turn.var }
        ensures { self.new ≡ record { variables = self.old.variables; turns = turn ∷ self.old.turns; puts = self.old.puts + 1 } }
    {
        let frame = Frame {
            turn,
            parent: self.deepest,
        };
        self.deepest = self.pool.put(frame).ok();
        self.fixed.set(usize::from(turn.var), Some(turn.bit));
    }

    /// Takes the deepest frame.
    fn pop(&mut self) -> Option<Turn>
        requires { self.old.puts < 2 ^ 32 - 1 }
        ensures none { IfNone result (self.old.turns ≡ []) }
        ensures same { IfNone result (self.new ≡ self.old) }
        ensures some { IfSome result (λ turn. Pops self.old turn self.new) }
    {
        let frame = self.pool.take(self.deepest?)?;
        self.deepest = frame.parent;
        self.fixed.set(usize::from(frame.turn.var), None);
        Some(frame.turn)
    }
}
