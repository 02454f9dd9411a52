ghost use Rattle.std.specs.Prelude.{◌≡◌, ◌+◌, ◌<◌, ◌≤◌, ◌↔◌, List, IsTrue, length, IsErrOf};
ghost use Rattle.span_base.specs.Counts.{Rose};
ghost use Rattle.shelf_lines.specs.Lines.{fed};
ghost use Rattle.plan_text.specs.Parts.{Part};
ghost use Rattle.plan_check.specs.Places.{program_at, parts_read};
ghost use Rattle.plan_check.specs.Reading.{HasRead};
ghost use Rattle.plan_check.specs.Checks.{ReadsSet, ReadsPart};

use crate::fault::CheckFault;
use crate::lines::PlanLines;
use crate::policy::read_policy;
use crate::set_word::refuse_set;
use crate::tree::read_tree;
use placement::encode;
use plan_text::push_set;
use span_base::{SetId, Shelf};
use std::alloc::Global;
use workload::World;

/// Whether a line, with its line feed, is this text.
pub fn is_fed(line: &[u8], text: &[u8]) -> bool
    ensures { IsTrue result ↔ (fed line.now ≡ text.now) }
{
    match text.strip_suffix(b"\n") {
        Some(front) => front == line,
        None => false,
    }
}

/// Reads the line that begins the part of a set, whose program has so many variables.
fn read_set<S: Shelf>(
    alloc: Global,
    world: &World,
    set: SetId,
    variables: usize,
    lines: &mut PlanLines,
    shelf: &mut S,
    name: &str,
) -> Result<(), CheckFault>
    requires { set.0 < length world.now.sets }
    ensures reads { (parts : List Part) → set.0 ≡ length parts → variables ≡ length (program_at world.now parts).costs
        → HasRead (S.files shelf.old) name.now (parts_read world.now parts) lines.old
        → ReadsSet world.now (S.files shelf.old) name.now parts lines.new result }
    ensures files_stay { S.files shelf.new ≡ S.files shelf.old }

    ensures faults_stay { S.faults shelf.old ≤ S.faults shelf.new }
    ensures absences_stay { S.absences shelf.old ≤ S.absences shelf.new }
    ensures failed { IsErrOf result CheckFault.ReadFault → Rose (S.faults shelf.old) (S.faults shelf.new) }
    ensures absent { IsErrOf result CheckFault.Absent → Rose (S.absences shelf.old) (S.absences shelf.new) }
    ensures unwritten { ¬ IsErrOf result CheckFault.WriteFault }
{
    let mut due = String::new(alloc);
    push_set(&mut due, world, set, variables)?;
    lines.next(shelf, name)?;
    if is_fed(lines.line(), due.as_bytes()) {
        return Ok(());
    }
    Err(refuse_set(lines.line(), lines.number))
}

/// Reads the part of a set, and answers the cost that it tells, or none where it tells that the set
/// has no policy.
pub(crate) fn read_part<S: Shelf>(
    alloc: Global,
    world: &World,
    set: SetId,
    lines: &mut PlanLines,
    shelf: &mut S,
    name: &str,
) -> Result<Option<u128>, CheckFault>
    requires { set.0 < length world.now.sets }
    ensures reads { (parts : List Part) → set.0 ≡ length parts → HasRead (S.files shelf.old) name.now (parts_read world.now parts) lines.old
        → ReadsPart world.now (S.files shelf.old) name.now parts lines.new result }
    ensures files_stay { S.files shelf.new ≡ S.files shelf.old }

    ensures faults_stay { S.faults shelf.old ≤ S.faults shelf.new }
    ensures absences_stay { S.absences shelf.old ≤ S.absences shelf.new }
    ensures failed { IsErrOf result CheckFault.ReadFault → Rose (S.faults shelf.old) (S.faults shelf.new) }
    ensures absent { IsErrOf result CheckFault.Absent → Rose (S.absences shelf.old) (S.absences shelf.new) }
    ensures unwritten { ¬ IsErrOf result CheckFault.WriteFault }
{
    // A world is complete and named: what is shown of a set's program is true of the set.
    let _centres = world.centre_count();
    let program = encode(alloc, world, set)?;
    let variables = program.costs().len();
    read_set(alloc, world, set, variables, lines, shelf, name)?;
    match read_tree(alloc, &program, lines, shelf, name)? {
        Some(claim) => {
            read_policy(alloc, world, set, claim, lines, shelf, name)?;
            Ok(Some(claim.cost))
        }
        None => Ok(None),
    }
}
