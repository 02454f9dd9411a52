ghost use Rattle.std.specs.Prelude.{◌≡◌, ◌<◌, ◌≤◌, List, ℕ, [], Option, IsErrOf};
ghost use Rattle.span_base.specs.Counts.{Rose};
ghost use Rattle.sink_buffer.specs.Said.{IsSaid};
ghost use Rattle.plan_check.specs.Places.{parts_read};
ghost use Rattle.plan_check.specs.Reading.{HasRead};
ghost use Rattle.plan_check.specs.Plans.{ChecksSets, ChecksText, ChecksPlan};

use crate::fault::CheckFault;
use crate::frame::{read_begin, read_end};
use crate::lines::PlanLines;
use crate::part::read_part;
use crate::told::{hand_over, is_wanting, say, tell};
use sink_buffer::SinkBuffer;
use span_base::{SetId, Shelf, Sink};
use std::alloc::Global;
use workload::World;

/// Checks the parts of all sets, in order, and tells what each says.
fn check_sets<S: Shelf, K: Sink>(
    alloc: Global,
    world: &World,
    lines: &mut PlanLines,
    shelf: &mut S,
    name: &str,
    told: &mut SinkBuffer,
    out: &mut K,
) -> Result<(), CheckFault>
    ensures checks { (from : Option (List ℕ)) → HasRead (S.files shelf.old) name.now (parts_read world.now []) lines.old → IsSaid from (K.taken out.old) told.old []
        → ChecksSets world.now (S.files shelf.old) name.now from (K.taken out.new) lines.new told.new result }
    ensures files_stay { S.files shelf.new ≡ S.files shelf.old }
    ensures faults_stay { S.faults shelf.old ≤ S.faults shelf.new }
    ensures absences_stay { S.absences shelf.old ≤ S.absences shelf.new }
    ensures write_faults_stay { K.faults out.old ≤ K.faults out.new }
    ensures read_fault { IsErrOf result CheckFault.ReadFault → Rose (S.faults shelf.old) (S.faults shelf.new) }
    ensures absent { IsErrOf result CheckFault.Absent → Rose (S.absences shelf.old) (S.absences shelf.new) }
    ensures write_fault { IsErrOf result CheckFault.WriteFault → Rose (K.faults out.old) (K.faults out.new) }
{
    'sets: for number in 0..world.sets() {
        let set = SetId(number);
        let cost = read_part(alloc, world, set, lines, shelf, name)?;
        tell(alloc, world, set, cost, told, out)?;
    }
    Ok(())
}

/// Checks the text of a plan, and tells of each accepted part, and at its end that it is a plan.
fn check_text<S: Shelf, K: Sink>(
    alloc: Global,
    world: &World,
    shelf: &mut S,
    name: &str,
    told: &mut SinkBuffer,
    out: &mut K,
) -> Result<(), CheckFault>
    ensures checks { (from : Option (List ℕ)) → IsSaid from (K.taken out.old) told.old []
        → ChecksText world.now (S.files shelf.old) name.now from (K.taken out.new) told.new result }
    ensures files_stay { S.files shelf.new ≡ S.files shelf.old }
    ensures faults_stay { S.faults shelf.old ≤ S.faults shelf.new }
    ensures absences_stay { S.absences shelf.old ≤ S.absences shelf.new }
    ensures write_faults_stay { K.faults out.old ≤ K.faults out.new }
    ensures read_fault { IsErrOf result CheckFault.ReadFault → Rose (S.faults shelf.old) (S.faults shelf.new) }
    ensures absent { IsErrOf result CheckFault.Absent → Rose (S.absences shelf.old) (S.absences shelf.new) }
    ensures write_fault { IsErrOf result CheckFault.WriteFault → Rose (K.faults out.old) (K.faults out.new) }
{
    let mut lines = PlanLines::make(alloc)?;
    read_begin(&mut lines, shelf, name)?;
    check_sets(alloc, world, &mut lines, shelf, name, told, out)?;
    read_end(&mut lines, shelf, name)?;
    say(told, out, b"plan ok\n")
}

/// Checks the plan file of this name, line by line, against a world. It writes `set NAME least COST`
/// or `set NAME none` for each set whose part is accepted, and `plan ok` at the end of an accepted
/// plan. The first thing that is met decides.
pub fn check_plan<S: Shelf, K: Sink>(
    alloc: Global,
    world: &World,
    shelf: &mut S,
    name: &str,
    out: &mut K,
) -> Result<(), CheckFault>
    ensures checks { ChecksPlan world.now (S.files shelf.old) name.now (K.taken out.old) (K.taken out.new) result }
    ensures files_stay { S.files shelf.new ≡ S.files shelf.old }
    ensures faults_stay { S.faults shelf.old ≤ S.faults shelf.new }
    ensures absences_stay { S.absences shelf.old ≤ S.absences shelf.new }
    ensures write_faults_stay { K.faults out.old ≤ K.faults out.new }
    ensures read_fault { IsErrOf result CheckFault.ReadFault → Rose (S.faults shelf.old) (S.faults shelf.new) }
    ensures absent { IsErrOf result CheckFault.Absent → Rose (S.absences shelf.old) (S.absences shelf.new) }
    ensures write_fault { IsErrOf result CheckFault.WriteFault → Rose (K.faults out.old) (K.faults out.new) }
{
    let mut told = SinkBuffer::make(alloc)?;
    match check_text(alloc, world, shelf, name, &mut told, out) {
        Ok(()) => hand_over(&mut told, out),
        Err(fault) => {
            if is_wanting(fault) {
                return Err(fault);
            }
            hand_over(&mut told, out)?;
            Err(fault)
        }
    }
}
