ghost use Rattle.std.specs.Prelude.{◌≡◌, ℕ, ◌+◌, ◌-◌, ◌^◌, ◌<◌, ◌↔◌, List, [], length, if◌then◌else◌, IfOk, IsOk, false};
ghost use Rattle.zero_one.specs.Contents.{Contents};
ghost use Rattle.bound_cert.specs.declared.leaves.Line.{Line};
ghost use Rattle.bound_cert.specs.Trees.{IsProof};
ghost use Rattle.cert_checker.specs.Kept.{StandsFor};
ghost use Rattle.cert_checker.specs.Fed.{Feeds, Finishes};
ghost use Rattle.cert_checker.specs.Moves.{MovesOrStays};

use crate::ceilings::{Ceilings, compare, with_leaf};
use crate::faults::{CertFault, Step};
use crate::leaf_values::value_of_leaf;
use crate::turns::Path;
use bound_cert::{Goal, Leaf, Line};
use std::alloc::{AllocError, Global};
use std::marker::Model;
use zero_one::Program;

/// Reads the lines of a tree for a program, one after another, and keeps none of them.
#[derive(Drop)]
pub struct Checker {
    // The path to the node whose line comes next, while the tree isn't whole.
    path: Path,
    whole: bool,
    // How many lines were taken.
    lines: u64,
    // What the leaves with `s > 0` showed, if there were any.
    ceilings: Option<Ceilings>,
    // A place for each variable, for the bound of a leaf.
    scratch: Vec<i128>,
}

impl Model for Checker {
    ghost use Rattle.cert_checker.specs.Kept.{Kept};

    ghost Value = { Kept };

    ghost use Rattle.std.specs.Prelude.{◌≡◌, length};

    ghost view = { λ c. record {
      variables = c.path.variables;
      turns = c.path.turns;
      whole = c.whole;
      count = c.lines;
      ceilings = c.ceilings;
    } };

    ghost invariant = { λ c. length c.scratch.items ≡ c.path.variables };
}

impl Checker {
    /// A checker that was fed no line. Past this it takes no memory.
    pub fn make(alloc: Global, program: &Program) -> Result<Checker, AllocError>
        ensures { IfOk result (λ c. StandsFor program.now [] c) }
    {
        let variables = program.costs().len();
        Ok(Checker {
            path: Path::make(alloc, variables)?,
            whole: false,
            lines: 0,
            ceilings: None,
            scratch: vec![in alloc; 0; variables]?,
        })
    }

    /// Takes the next line of the tree, and says whether the tree is whole with it. The program is
    /// the one that the checker was made for. Refused are, the first that holds: a line past a
    /// whole tree, a branch on a variable that isn't there or that its path fixes, a leaf with a row
    /// that isn't there, one that doesn't fit otherwise, and one with `s = 0` whose value isn't above
    /// 0. A refused line changes nothing.
    pub fn feed(&mut self, program: &Program, line: &Line) -> Result<Step, CertFault>
        requires variables { self.old.variables ≡ length program.now.costs }
        requires room { self.old.count < 2 ^ 64 - 1 }
        ensures { (lines : List Line) → StandsFor program.now lines self.old
            → Feeds program.now lines line.now self.old self.new result }
    {
        if self.whole {
            return Err(CertFault::TooLong);
        }
        match line {
            Line::Branch { var } => self.branch(program, *var),
            Line::Close(leaf) => self.close(program, leaf),
        }
    }

    /// Takes a branch, where the tree isn't whole.
    fn branch(&mut self, program: &Program, var: u16) -> Result<Step, CertFault>
        requires variables { self.old.variables ≡ length program.now.costs }
        requires room { self.old.count < 2 ^ 64 - 1 }
        requires unfinished { self.old.whole ≡ false }
        ensures { MovesOrStays program.now self.old (Line.Branch var) self.new result }
    {
        if usize::from(var) >= program.costs().len() {
            return Err(CertFault::NoSuchVar);
        }
        if !self.path.is_free(usize::from(var)) {
            return Err(CertFault::VarTwice);
        }
        self.path.go_down(var);
        self.lines += 1;
        Ok(Step::More)
    }

    /// Takes a leaf, where the tree isn't whole.
    fn close(&mut self, program: &Program, leaf: &Leaf) -> Result<Step, CertFault>
        requires variables { self.old.variables ≡ length program.now.costs }
        requires room { self.old.count < 2 ^ 64 - 1 }
        requires unfinished { self.old.whole ≡ false }
        ensures { MovesOrStays program.now self.old (Line.Close leaf.now) self.new result }
    {
        let line = self.lines + 1;
        let value = value_of_leaf(
            program,
            self.path.fixed(),
            leaf,
            self.scratch.as_mut_slice(),
            line,
        )?;
        self.ceilings = with_leaf(self.ceilings, line, value, leaf.s);
        self.lines = line;
        self.whole = !self.path.turn_back();
        Ok(step(self.whole))
    }

    /// Whether the lines were a proof of the goal. Against nothing the first leaf with `s > 0` is
    /// told, against a cost the first leaf of the least ceiling, where that is below the cost.
    pub fn finish(&self, goal: Goal) -> Result<(), CertFault>
        ensures proof { (program : Contents) (lines : List Line) → StandsFor program lines self.now
            → IsOk result ↔ IsProof program lines goal }
        ensures table { (program : Contents) (lines : List Line) → StandsFor program lines self.now
            → Finishes program lines goal result }
    {
        if !self.whole {
            return Err(CertFault::TooShort);
        }
        match self.ceilings {
            None => Ok(()),
            Some(ceilings) => compare(ceilings, goal),
        }
    }
}

/// What is left of the tree.
fn step(whole: bool) -> Step
    ensures { result ≡ (if whole then Step.Whole else Step.More) }
{
    if whole { Step::Whole } else { Step::More }
}
