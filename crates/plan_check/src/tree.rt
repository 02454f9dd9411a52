ghost use Rattle.std.specs.Prelude.{◌≡◌, ◌+◌, ◌-◌, ◌^◌, ◌<◌, ◌≤◌, ℕ, List, length, IsErrOf};
ghost use Rattle.span_base.specs.Counts.{Rose};
ghost use Rattle.bound_cert.specs.declared.leaves.Line.{Line as Node};
ghost use Rattle.cert_checker.specs.Kept.{StandsFor};
ghost use Rattle.zero_one.specs.Contents.{Contents};
ghost use Rattle.plan_check.specs.Reading.{HasRead};
ghost use Rattle.plan_check.specs.Parts.{TakesNode, ShowsGoal, ReadsLines};

use crate::fault::{CheckFault, refuse};
use crate::lines::PlanLines;
use crate::word::{TreeWord, Unread, read_word};
use bound_cert::{Goal, Line};
use cert_checker::Checker;
use span_base::{Cause, Shelf};
use std::alloc::Global;
use zero_one::Program;

/// A cost that a result tells and its tree shows to be least.
#[derive(Clone, Copy, Debug)]
pub struct Claim {
    /// In pico-dollars.
    pub cost: u128,
    /// The number of the result's line.
    pub line: u64,
}

/// Feeds the next line of a tree, which is the file's line `number`; `before` lines come before the
/// tree.
fn take_node(
    checker: &mut Checker,
    program: &Program,
    node: &Line,
    before: u64,
    number: u64,
) -> Result<(), CheckFault>
    requires variables { checker.old.variables ≡ length program.now.costs }
    requires room { checker.old.count < 2 ^ 64 - 1 }
    ensures { (tree : List Node) → StandsFor program.now tree checker.old → number ≡ before + length tree + 1
        → TakesNode program.now tree before node.now checker.new result }
{
    match checker.feed(program, node) {
        Ok(_) => Ok(()),
        Err(fault) => Err(refuse(fault, before, number)),
    }
}

/// Whether the lines of a tree show what its result says, which is the file's line `number`.
fn show_goal(checker: &Checker, goal: Goal, before: u64, number: u64) -> Result<(), CheckFault>
    ensures { (program : Contents) (tree : List Node) → StandsFor program tree checker.now → number ≡ before + length tree + 1
        → ShowsGoal program tree before goal result }
{
    match checker.finish(goal) {
        Ok(()) => Ok(()),
        Err(fault) => Err(refuse(fault, before, number)),
    }
}

/// Reads the tree of a program and the result behind it: the cost that it shows, or none where it
/// shows that nothing is feasible.
pub fn read_tree<S: Shelf>(
    alloc: Global,
    program: &Program,
    lines: &mut PlanLines,
    shelf: &mut S,
    name: &str,
) -> Result<Option<Claim>, CheckFault>
    ensures reads { (front : List ℕ) → HasRead (S.files shelf.old) name.now front lines.old
        → ReadsLines program.now (S.files shelf.old) name.now front lines.new result }
    ensures files_stay { S.files shelf.new ≡ S.files shelf.old }

    ensures faults_stay { S.faults shelf.old ≤ S.faults shelf.new }
    ensures absences_stay { S.absences shelf.old ≤ S.absences shelf.new }
    ensures failed { IsErrOf result CheckFault.ReadFault → Rose (S.faults shelf.old) (S.faults shelf.new) }
    ensures absent { IsErrOf result CheckFault.Absent → Rose (S.absences shelf.old) (S.absences shelf.new) }
    ensures unwritten { ¬ IsErrOf result CheckFault.WriteFault }
{
    let before = lines.number;
    let mut checker = Checker::make(alloc, program)?;
    'tree: loop {
        lines.next(shelf, name)?;
        let number = lines.number;
        match read_word(alloc, lines.line()) {
            Ok(TreeWord::Node(node)) => take_node(&mut checker, program, &node, before, number)?,
            Ok(TreeWord::Complete { cost }) => {
                show_goal(&checker, Goal::Cost(cost), before, number)?;
                return Ok(Some(Claim { cost, line: number }));
            }
            Ok(TreeWord::Nothing) => {
                show_goal(&checker, Goal::Nothing, before, number)?;
                return Ok(None);
            }
            Ok(TreeWord::Budget) => {
                return Err(CheckFault::Refused {
                    line: number,
                    cause: Cause::Unfinished,
                });
            }
            Err(Unread::Syntax) => {
                return Err(CheckFault::Bad {
                    line: number,
                    cause: Cause::Syntax,
                });
            }
            Err(Unread::NoMemory) => return Err(CheckFault::NoMemory),
        }
    }
}
