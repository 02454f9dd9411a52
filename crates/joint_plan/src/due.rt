//! The next line of a joint plan's file, where one line alone is due.
ghost use Rattle.std.specs.Prelude.{◌≡◌, ◌≤◌, ◌<◌, ℕ, List, Option, IsErrOf};
ghost use Rattle.span_base.specs.Counts.{Rose};
ghost use Rattle.span_base.specs.Files.{Files};
ghost use Rattle.plan_check.specs.Reading.{HasRead};
ghost use Rattle.joint_plan.specs.Lines.{ReadsDue};

use plan_check::{CheckFault, PlanLines, is_fed};
use span_base::Shelf;

/// Reads the next line, and tells whether it is this one.
pub(crate) fn read_due<S: Shelf>(
    due: &[u8],
    lines: &mut PlanLines,
    shelf: &mut S,
    name: &str,
) -> Result<bool, CheckFault>
    ensures reads { (files : Option Files) → S.files shelf.old ≡ files → (front : List ℕ) → HasRead files name.now front lines.old
        → ReadsDue files name.now front due.now lines.new result }
    ensures files_stay { S.files shelf.new ≡ S.files shelf.old }

    ensures faults_stay { S.faults shelf.old ≤ S.faults shelf.new }
    ensures absences_stay { S.absences shelf.old ≤ S.absences shelf.new }
    ensures failed { IsErrOf result CheckFault.ReadFault → Rose (S.faults shelf.old) (S.faults shelf.new) }
    ensures absent { IsErrOf result CheckFault.Absent → Rose (S.absences shelf.old) (S.absences shelf.new) }
    ensures unwritten { ¬ IsErrOf result CheckFault.WriteFault }
{
    lines.next(shelf, name)?;
    let is_due = is_fed(lines.line(), due);
    Ok(is_due)
}
