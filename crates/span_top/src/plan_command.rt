//! The command `plan`.
ghost use Rattle.std.specs.Prelude.{◌≡◌, ◌≢◌, ◌≤◌, ◌^◌};
ghost use Rattle.span_base.specs.Counts.{Rose};
ghost use Rattle.span_top.specs.Planned.{PlanEnds, WorldEnds};

use crate::status::Status;
use crate::world_file::read_world;
use planner::{PlanEnd, PlanFault, Watch, plan_all};
use span_base::{Shelf, Sink};
use std::alloc::Global;
use workload::World;

/// Plans the world of the named file, with at most so many tree lines a set, and writes the plan.
#[tactic(auto, using(crate::proofs::Endings::plans))]
pub fn plan<S: Shelf, K: Sink, W: Watch>(
    alloc: Global,
    name: &str,
    budget: u64,
    shelf: &mut S,
    out: &mut K,
    watch: &mut W,
) -> Status
    requires { budget ≤ 10 ^ 9 }
    ensures ends { PlanEnds (S.files shelf.old) name.now budget (K.taken out.old) (K.taken out.new) result }
    ensures read_fault { result ≡ Status.ReadFault → Rose (S.faults shelf.old) (S.faults shelf.new) }
    ensures absent { result ≡ Status.Absent 0 → Rose (S.absences shelf.old) (S.absences shelf.new) }
    ensures write_fault { result ≡ Status.WriteFault → Rose (K.faults out.old) (K.faults out.new) }
    ensures faults_stay { S.faults shelf.old ≤ S.faults shelf.new }
    ensures absences_stay { S.absences shelf.old ≤ S.absences shelf.new }
    ensures write_faults_stay { K.faults out.old ≤ K.faults out.new }
{
    match read_world(alloc, name, shelf) {
        Ok(world) => plan_world(alloc, &world, budget, out, watch),
        Err(status) => status,
    }
}

// Plans a world, and writes the plan.
#[tactic(auto, using(crate::proofs::Endings::plans))]
fn plan_world<K: Sink, W: Watch>(
    alloc: Global,
    world: &World,
    budget: u64,
    out: &mut K,
    watch: &mut W,
) -> Status
    requires { budget ≤ 10 ^ 9 }
    ensures ends { WorldEnds world.now budget (K.taken out.old) (K.taken out.new) result }
    ensures no_read_fault { result ≢ Status.ReadFault }
    ensures no_absent { result ≢ Status.Absent 0 }
    ensures write_fault { result ≡ Status.WriteFault → Rose (K.faults out.old) (K.faults out.new) }
    ensures write_faults_stay { K.faults out.old ≤ K.faults out.new }
{
    match plan_all(alloc, world, budget, out, watch) {
        Ok(PlanEnd::Complete) => Status::Done,
        Ok(PlanEnd::NoPolicy { set }) => Status::NoPolicy { set },
        Ok(PlanEnd::Budget { set }) => Status::Budget { set },
        Err(PlanFault::WriteFault) => Status::WriteFault,
        Err(PlanFault::NoMemory) => Status::NoMemory,
    }
}
