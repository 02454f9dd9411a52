//! The command `check`.
ghost use Rattle.std.specs.Prelude.{◌≡◌, ◌≢◌, ◌≤◌};
ghost use Rattle.span_base.specs.Counts.{Rose};
ghost use Rattle.span_top.specs.Checked.{CheckEnds, WorldChecked};

use crate::status::Status;
use crate::world_file::read_world;
use plan_check::{CheckFault, check_plan};
use span_base::{Shelf, Sink};
use std::alloc::Global;
use workload::World;

/// Checks the plan in the second of the named files against the world in the first, and writes what
/// it shows of each set.
#[tactic(auto, using(crate::proofs::Checking::ends))]
pub fn check<S: Shelf, K: Sink>(
    alloc: Global,
    world: &str,
    plan: &str,
    shelf: &mut S,
    out: &mut K,
) -> Status
    ensures ends { CheckEnds (S.files shelf.old) world.now plan.now (K.taken out.old) (K.taken out.new) result }
    ensures read_fault { result ≡ Status.ReadFault → Rose (S.faults shelf.old) (S.faults shelf.new) }
    ensures absent { result ≡ Status.Absent 0 → Rose (S.absences shelf.old) (S.absences shelf.new) }
    ensures absent_plan { result ≡ Status.Absent 1 → Rose (S.absences shelf.old) (S.absences shelf.new) }
    ensures write_fault { result ≡ Status.WriteFault → Rose (K.faults out.old) (K.faults out.new) }
    ensures faults_stay { S.faults shelf.old ≤ S.faults shelf.new }
    ensures absences_stay { S.absences shelf.old ≤ S.absences shelf.new }
    ensures write_faults_stay { K.faults out.old ≤ K.faults out.new }
{
    match read_world(alloc, world, shelf) {
        Ok(lists) => check_world(alloc, &lists, plan, shelf, out),
        Err(status) => status,
    }
}

// Checks a plan against a world.
#[tactic(auto, using(crate::proofs::Checking::checked))]
fn check_world<S: Shelf, K: Sink>(
    alloc: Global,
    world: &World,
    plan: &str,
    shelf: &mut S,
    out: &mut K,
) -> Status
    ensures ends { WorldChecked world.now (S.files shelf.old) plan.now (K.taken out.old) (K.taken out.new) result }
    ensures no_absent { result ≢ Status.Absent 0 }
    ensures read_fault { result ≡ Status.ReadFault → Rose (S.faults shelf.old) (S.faults shelf.new) }
    ensures absent_plan { result ≡ Status.Absent 1 → Rose (S.absences shelf.old) (S.absences shelf.new) }
    ensures write_fault { result ≡ Status.WriteFault → Rose (K.faults out.old) (K.faults out.new) }
    ensures faults_stay { S.faults shelf.old ≤ S.faults shelf.new }
    ensures absences_stay { S.absences shelf.old ≤ S.absences shelf.new }
    ensures write_faults_stay { K.faults out.old ≤ K.faults out.new }
{
    match check_plan(alloc, world, shelf, plan, out) {
        Ok(()) => Status::Done,
        Err(CheckFault::Absent) => Status::Absent { file: 1 },
        Err(CheckFault::ReadFault) => Status::ReadFault,
        Err(CheckFault::TooLarge { line, what, number }) => Status::TooLarge {
            file: 1,
            line,
            what,
            number,
        },
        Err(CheckFault::Bad { line, cause }) => Status::BadInput {
            file: 1,
            line,
            cause,
        },
        Err(CheckFault::Refused { line, cause }) => Status::Refused { line, cause },
        Err(CheckFault::WriteFault) => Status::WriteFault,
        Err(CheckFault::NoMemory) => Status::NoMemory,
    }
}
