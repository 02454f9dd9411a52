ghost use Rattle.std.specs.Prelude.{◌≡◌, ◌<◌, ◌≤◌, ◌^◌, false, Some, None, List, [], length, option_map, option_copied, IfOk};
ghost use Rattle.zero_one.specs.Contents.{Contents};
ghost use Rattle.bound_cert.specs.declared.leaves.Line.{Line};
ghost use Rattle.branch_solver.specs.Best.{Best};
ghost use Rattle.branch_solver.specs.Kept.{StandsFor};
ghost use Rattle.branch_solver.specs.Steps.{Steps, Advances, ended};

use crate::frames::Frames;
use crate::incumbent::Incumbent;
use crate::line_buf::LineBuf;
use crate::node::{Desk, explore, keep_for, restore_for, write_node};
use crate::progress::Progress;
use dual_ascent::Ascent;
use std::alloc::{AllocError, Global};
use std::marker::Model;
use zero_one::{Bits, Program};

/// A search for a least assignment of a program, which gives the lines of its proof one by one.
#[derive(Drop)]
pub struct Search {
    // The path to the node whose line comes next, while the tree isn't whole.
    path: Frames,
    whole: bool,
    // How many lines were given, and how many may be.
    given: u64,
    budget: u64,
    desk: Desk,
}

impl Model for Search {
    ghost use Rattle.branch_solver.specs.Kept.{Kept};

    ghost Value = { Kept };

    ghost use Rattle.branch_solver.specs.Kept.{IsEquipped, HasFewPuts};

    ghost view = { λ s. record {
      variables = s.path.variables;
      rows = s.desk.ascent.rows;
      turns = s.path.turns;
      whole = s.whole;
      count = s.given;
      budget = s.budget;
      best = s.desk.incumbent.best;
    } };

    ghost invariant = { λ s. IsEquipped s.path.variables s.desk × HasFewPuts s.path.puts s.given s.budget };
}

impl Search {
    /// A search that gave no line, and is to give at most `budget`. Past this it takes no memory.
    pub fn make(alloc: Global, program: &Program, budget: u64) -> Result<Search, AllocError>
        requires { budget ≤ 10 ^ 9 }
        ensures stands { IfOk result (λ search. StandsFor program.now [] search) }
        ensures budget { IfOk result (λ search. search.budget ≡ budget) }
    {
        let variables = program.costs().len();
        let desk = Desk {
            ascent: Ascent::make(alloc, program)?,
            incumbent: Incumbent::make(alloc, variables)?,
            found: Bits::from_vec(vec![in alloc; false; variables]?),
            kept_for: None,
        };
        Ok(Search {
            path: Frames::make(alloc, variables)?,
            whole: false,
            given: 0,
            budget,
            desk,
        })
    }

    /// The best assignment so far. There is none only where each leaf so far shows that nothing on
    /// its path is feasible.
    pub fn best(&self) -> Option<&Bits>
        ensures { option_copied result ≡ option_map (λ (best : Best). best.x) self.now.best }
    {
        self.desk.incumbent.best()
    }

    /// Gives the next line of the tree into the buffer, or an end. The program is the one that the
    /// search was made for, and the buffer one for its rows.
    pub fn step(&mut self, program: &Program, line: &mut LineBuf) -> Progress
        requires variables { self.old.variables ≡ length program.now.costs }
        requires rows { self.old.rows ≡ length program.now.rows }
        requires room { length program.now.rows ≤ line.old.room }
        ensures variables { self.new.variables ≡ self.old.variables }
        ensures rows { self.new.rows ≡ self.old.rows }
        ensures room { line.new.room ≡ line.old.room }
        ensures steps { (lines : List Line) → StandsFor program.now lines self.old
            → Steps program.now lines self.old line.new.line self.new result }
    {
        if self.whole {
            return self.end();
        }
        if self.given >= self.budget {
            return Progress::Budget {
                best: self.desk.incumbent.value(),
            };
        }
        self.go_on(program, line);
        Progress::Line
    }

    /// How a search ends whose tree is whole.
    fn end(&self) -> Progress
        ensures { result ≡ ended self.now.best }
    {
        match self.desk.incumbent.value() {
            Some(cost) => Progress::Found { cost },
            None => Progress::NoneThere,
        }
    }

    /// Gives the next line, where the tree isn't whole and there may be one more.
    fn go_on(&mut self, program: &Program, line: &mut LineBuf)
        requires variables { self.old.variables ≡ length program.now.costs }
        requires rows { self.old.rows ≡ length program.now.rows }
        requires more { self.old.count < self.old.budget }
        requires unfinished { self.old.whole ≡ false }
        ensures room { line.new.room ≡ line.old.room }
        ensures line { Advances program.now self.old line.new.line self.new }
    {
        explore(program, &mut self.desk, self.given == 0);
        let branch = write_node(program, self.path.fixed(), &mut self.desk, line);
        self.given += 1;
        match branch {
            Some(var) => {
                self.path.go_down(var);
                keep_for(&mut self.desk, self.path.depth());
            }
            None => {
                self.whole = !self.path.turn_back();
                restore_for(&mut self.desk, self.path.depth());
            }
        }
    }
}
