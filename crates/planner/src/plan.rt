ghost use Rattle.std.specs.Prelude.{◌<◌, ◌≤◌, ◌^◌, length, IsErrOf};
ghost use Rattle.span_base.specs.Counts.{Rose};
ghost use Rattle.planner.specs.Writes.{SetWrites, PlanWrites};

use crate::part::write_part;
use crate::pen::Pen;
use crate::{PlanEnd, PlanFault, SetEnd, Unwatched, Watch};
use span_base::{SetId, Sink};
use std::alloc::Global;
use workload::World;

/// Plans a set, and writes its part of a plan, with at most `budget` lines of its tree.
pub fn plan_set<K: Sink>(
    alloc: Global,
    world: &World,
    set: SetId,
    budget: u64,
    out: &mut K,
) -> Result<SetEnd, PlanFault>
    requires set { set.0 < length world.now.sets }
    requires budget { budget ≤ 10 ^ 9 }
    ensures writes { SetWrites world.now budget set.0 (K.taken out.old) (K.taken out.new) result }

    ensures faults_stay { K.faults out.old ≤ K.faults out.new }
    ensures failed { IsErrOf result PlanFault.WriteFault → Rose (K.faults out.old) (K.faults out.new) }
{
    let mut pen = Pen::make(alloc)?;
    let mut nobody = Unwatched;
    let end = write_part(alloc, world, set, budget, &mut pen, out, &mut nobody)?;
    pen.flush(out)?;
    Ok(end)
}

/// Plans every set of a world, in order, and writes the plan, with at most `budget` lines of a tree
/// for each set.
pub fn plan_all<K: Sink, W: Watch>(
    alloc: Global,
    world: &World,
    budget: u64,
    out: &mut K,
    watch: &mut W,
) -> Result<PlanEnd, PlanFault>
    requires { budget ≤ 10 ^ 9 }
    ensures writes { PlanWrites world.now budget (K.taken out.old) (K.taken out.new) result }

    ensures faults_stay { K.faults out.old ≤ K.faults out.new }
    ensures failed { IsErrOf result PlanFault.WriteFault → Rose (K.faults out.old) (K.faults out.new) }
{
    let mut pen = Pen::make(alloc)?;
    pen.put_begin(out)?;
    let mut end = PlanEnd::Complete;
    watch.begin(world.sets());
    for number in 0..world.sets() {
        let set = SetId(number);
        let set_end = write_part(alloc, world, set, budget, &mut pen, out, watch)?;
        watch.set_planned();
        end = end.with(set, set_end);
    }
    pen.put_end(out)?;
    pen.flush(out)?;
    Ok(end)
}
