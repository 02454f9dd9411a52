ghost use Rattle.std.specs.Prelude.{◌≡◌, ◌<◌, ◌≤◌, List, ℕ, [], IsErrOf};
ghost use Rattle.span_base.specs.Counts.{Rose};
ghost use Rattle.plan_check.specs.Reading.{HasRead};
ghost use Rattle.plan_check.specs.Plans.{ReadsBegin, ReadsEnd};

use crate::fault::CheckFault;
use crate::lines::PlanLines;
use crate::part::is_fed;
use crate::set_word::refuse_set;
use span_base::{Cause, Shelf};

/// Reads the first line of a plan.
pub(crate) fn read_begin<S: Shelf>(
    lines: &mut PlanLines,
    shelf: &mut S,
    name: &str,
) -> Result<(), CheckFault>
    ensures reads { HasRead (S.files shelf.old) name.now [] lines.old → ReadsBegin (S.files shelf.old) name.now lines.new result }
    ensures files_stay { S.files shelf.new ≡ S.files shelf.old }

    ensures faults_stay { S.faults shelf.old ≤ S.faults shelf.new }
    ensures absences_stay { S.absences shelf.old ≤ S.absences shelf.new }
    ensures failed { IsErrOf result CheckFault.ReadFault → Rose (S.faults shelf.old) (S.faults shelf.new) }
    ensures absent { IsErrOf result CheckFault.Absent → Rose (S.absences shelf.old) (S.absences shelf.new) }
    ensures unwritten { ¬ IsErrOf result CheckFault.WriteFault }
{
    lines.next(shelf, name)?;
    if is_fed(lines.line(), b"span-plan 1\n") {
        return Ok(());
    }
    Err(CheckFault::Bad {
        line: lines.number,
        cause: Cause::Syntax,
    })
}

/// Reads the last line of a plan, behind which nothing comes.
pub(crate) fn read_end<S: Shelf>(
    lines: &mut PlanLines,
    shelf: &mut S,
    name: &str,
) -> Result<(), CheckFault>
    ensures reads { (text : List ℕ) → HasRead (S.files shelf.old) name.now text lines.old → ReadsEnd (S.files shelf.old) name.now text result }
    ensures files_stay { S.files shelf.new ≡ S.files shelf.old }

    ensures faults_stay { S.faults shelf.old ≤ S.faults shelf.new }
    ensures absences_stay { S.absences shelf.old ≤ S.absences shelf.new }
    ensures failed { IsErrOf result CheckFault.ReadFault → Rose (S.faults shelf.old) (S.faults shelf.new) }
    ensures absent { IsErrOf result CheckFault.Absent → Rose (S.absences shelf.old) (S.absences shelf.new) }
    ensures unwritten { ¬ IsErrOf result CheckFault.WriteFault }
{
    lines.next(shelf, name)?;
    if is_fed(lines.line(), b"end\n") {
        return lines.end(shelf, name);
    }
    Err(refuse_set(lines.line(), lines.number))
}
