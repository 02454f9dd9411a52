ghost use Rattle.std.specs.Prelude.{◌≡◌, ◌+◌, ◌<◌, ◌≤◌, List, [], None, length, IsErrOf};
ghost use Rattle.span_base.specs.Counts.{Rose};
ghost use Rattle.bound_cert.specs.declared.leaves.Line.{Line as Node};
ghost use Rattle.bound_cert.specs.declared.leaves.Goal.TheVariants as goal_kind;
ghost use Rattle.bound_cert.specs.Trees.{IsProof};
ghost use Rattle.slo_rules.specs.PolicyReading.{due_of};
ghost use Rattle.plan_text.specs.Parts.{Part};
ghost use Rattle.plan_text.specs.Plans.{begun_plan};
ghost use Rattle.plan_check.specs.Places.{program_at, policy_read};
ghost use Rattle.plan_check.specs.Reading.{HasRead, line_count};
ghost use Rattle.plan_check.specs.Parts.{JudgesPolicy, ReadsPolicy};

use crate::fault::{CheckFault, refuse_policy};
use crate::lines::PlanLines;
use crate::tree::Claim;
use slo_rules::{Next, PolicyReader, cost, fault_of};
use span_base::{Cause, SetId, Shelf};
use std::alloc::Global;
use workload::World;

/// Whether the policy whose lines were read is allowed, and costs what its result says.
#[tactic(auto, using(crate::proofs::Drafts::allowed_fits, crate::proofs::Drafts::policy_there))]
fn judge(world: &World, set: SetId, reader: PolicyReader, claim: Claim) -> Result<(), CheckFault>
    requires there { set.0 < length world.now.sets }
    requires of_set { reader.set ≡ set.0 }
    requires whole { due_of world.now reader ≡ None }
    ensures { JudgesPolicy world.now set.0 claim reader result }
{
    let Some(policy) = reader.into_policy(world) else {
        unreachable!()
    };
    if fault_of(world, set, &policy).is_some() {
        return Err(CheckFault::Refused {
            line: claim.line,
            cause: Cause::Rule,
        });
    }
    if cost(world, set, &policy) != claim.cost {
        return Err(CheckFault::Refused {
            line: claim.line,
            cause: Cause::Cost,
        });
    }
    Ok(())
}

/// Reads the lines of a set's policy.
pub(crate) fn read_policy<S: Shelf>(
    alloc: Global,
    world: &World,
    set: SetId,
    claim: Claim,
    lines: &mut PlanLines,
    shelf: &mut S,
    name: &str,
) -> Result<(), CheckFault>
    requires { set.0 < length world.now.sets }
    ensures reads { (parts : List Part) (tree : List Node) → set.0 ≡ length parts → IsProof (program_at world.now parts) tree (goal_kind.Cost claim.cost)
        → claim.line ≡ line_count (begun_plan world.now parts tree) + 1
        → HasRead (S.files shelf.old) name.now (policy_read world.now parts tree claim.cost []) lines.old
        → ReadsPolicy world.now (S.files shelf.old) name.now parts tree claim.cost lines.new result }
    ensures files_stay { S.files shelf.new ≡ S.files shelf.old }

    ensures faults_stay { S.faults shelf.old ≤ S.faults shelf.new }
    ensures absences_stay { S.absences shelf.old ≤ S.absences shelf.new }
    ensures failed { IsErrOf result CheckFault.ReadFault → Rose (S.faults shelf.old) (S.faults shelf.new) }
    ensures absent { IsErrOf result CheckFault.Absent → Rose (S.absences shelf.old) (S.absences shelf.new) }
    ensures unwritten { ¬ IsErrOf result CheckFault.WriteFault }
{
    // A world is complete: its sets are judged by what it says of every centre.
    let _centres = world.centre_count();
    let mut reader = PolicyReader::make(alloc, set)?;
    'policy: loop {
        lines.next(shelf, name)?;
        match reader.take(world, lines.line()) {
            Ok(Next::More) => {}
            Ok(Next::Done) => return judge(world, set, reader, claim),
            Err(fault) => return Err(refuse_policy(fault, lines.number)),
        }
    }
}
