//! The lines of a joint plan's file before its tree, and its last one.
ghost use Rattle.std.specs.Prelude.{◌≡◌, ◌↔◌, ◌≤◌, ◌<◌, ◌^◌, ◌++◌, ℕ, List, [], Option, IsTrue, length, codes, IfOk, IsErrOf};
ghost use Rattle.span_base.specs.Counts.{Rose};
ghost use Rattle.span_base.specs.Files.{Files};
ghost use Rattle.plan_check.specs.Reading.{HasRead};
ghost use Rattle.joint_plan.specs.JointText.{joint_line};
ghost use Rattle.joint_plan.specs.Lines.{ReadsExact, RefusesForm, RefusesProgram};
ghost use Rattle.joint_plan.specs.Checks.{ReadsLast};

use crate::due::read_due;
use crate::text::push_joint;
use plan_check::{CheckFault, PlanLines};
use span_base::{Cause, Shelf};
use std::alloc::Global;

/// Reads the first line.
pub(crate) fn read_begin<S: Shelf>(
    lines: &mut PlanLines,
    shelf: &mut S,
    name: &str,
) -> Result<(), CheckFault>
    ensures reads { (files : Option Files) → S.files shelf.old ≡ files → (front : List ℕ) → HasRead files name.now front lines.old
        → ReadsExact files name.now front (codes "span-joint 1\n") RefusesForm lines.new result }
    ensures files_stay { S.files shelf.new ≡ S.files shelf.old }

    ensures faults_stay { S.faults shelf.old ≤ S.faults shelf.new }
    ensures absences_stay { S.absences shelf.old ≤ S.absences shelf.new }
    ensures failed { IsErrOf result CheckFault.ReadFault → Rose (S.faults shelf.old) (S.faults shelf.new) }
    ensures absent { IsErrOf result CheckFault.Absent → Rose (S.absences shelf.old) (S.absences shelf.new) }
    ensures unwritten { ¬ IsErrOf result CheckFault.WriteFault }
{
    let is_due = read_due(b"span-joint 1\n", lines, shelf, name)?;
    if is_due {
        return Ok(());
    }
    Err(CheckFault::Bad {
        line: lines.number,
        cause: Cause::Syntax,
    })
}

/// Reads the line with the number of variables.
pub(crate) fn read_joint<S: Shelf>(
    alloc: Global,
    variables: usize,
    lines: &mut PlanLines,
    shelf: &mut S,
    name: &str,
) -> Result<(), CheckFault>
    ensures reads { (files : Option Files) → S.files shelf.old ≡ files → (front : List ℕ) → HasRead files name.now front lines.old
        → ReadsExact files name.now front (joint_line variables) RefusesProgram lines.new result }
    ensures files_stay { S.files shelf.new ≡ S.files shelf.old }

    ensures faults_stay { S.faults shelf.old ≤ S.faults shelf.new }
    ensures absences_stay { S.absences shelf.old ≤ S.absences shelf.new }
    ensures failed { IsErrOf result CheckFault.ReadFault → Rose (S.faults shelf.old) (S.faults shelf.new) }
    ensures absent { IsErrOf result CheckFault.Absent → Rose (S.absences shelf.old) (S.absences shelf.new) }
    ensures unwritten { ¬ IsErrOf result CheckFault.WriteFault }
{
    let mut due = String::new(alloc);
    push_joint(&mut due, variables)?;
    let is_due = read_due(due.as_bytes(), lines, shelf, name)?;
    if is_due {
        return Ok(());
    }
    Err(CheckFault::Refused {
        line: lines.number,
        cause: Cause::Set,
    })
}

/// Reads the last line, behind which nothing comes.
pub(crate) fn read_last<S: Shelf>(
    lines: &mut PlanLines,
    shelf: &mut S,
    name: &str,
) -> Result<(), CheckFault>
    ensures reads { (files : Option Files) → S.files shelf.old ≡ files → (front : List ℕ) → HasRead files name.now front lines.old
        → ReadsLast files name.now front result }
    ensures files_stay { S.files shelf.new ≡ S.files shelf.old }

    ensures faults_stay { S.faults shelf.old ≤ S.faults shelf.new }
    ensures absences_stay { S.absences shelf.old ≤ S.absences shelf.new }
    ensures failed { IsErrOf result CheckFault.ReadFault → Rose (S.faults shelf.old) (S.faults shelf.new) }
    ensures absent { IsErrOf result CheckFault.Absent → Rose (S.absences shelf.old) (S.absences shelf.new) }
    ensures unwritten { ¬ IsErrOf result CheckFault.WriteFault }
{
    let is_due = read_due(b"end\n", lines, shelf, name)?;
    if is_due {
        return lines.end(shelf, name);
    }
    Err(CheckFault::Bad {
        line: lines.number,
        cause: Cause::Syntax,
    })
}
