ghost use Rattle.std.specs.Prelude.{◌≡◌, ◌<◌, ◌≤◌, List, ℕ, Some, None, length, IsErrOf};
ghost use Rattle.span_base.specs.Counts.{Rose};
ghost use Rattle.slo_rules.specs.PolicyReading.{due_of, policy_of};
ghost use Rattle.plan_check.specs.Reading.{HasRead};
ghost use Rattle.plan_check.specs.Parts.{ReadsPolicyLines};

use crate::fault::CheckFault;
use crate::lines::PlanLines;
use slo_rules::{Next, PolicyFault, PolicyReader};
use span_base::{Policy, SetId, Shelf};
use std::alloc::Global;
use workload::World;

/// The policy whose lines were read.
#[tactic(auto, using(crate::proofs::Drafts::policy_there))]
fn whole(world: &World, set: SetId, reader: PolicyReader) -> Policy
    requires there { set.0 < length world.now.sets }
    requires of_set { reader.set ≡ set.0 }
    requires whole { due_of world.now reader ≡ None }
    ensures { policy_of world.now reader ≡ Some result }
{
    let Some(policy) = reader.into_policy(world) else {
        unreachable!()
    };
    policy
}

/// Reads the lines of a set's policy, up to the one with which it is whole, or to the first line that
/// isn't due: this is then the line last given.
pub fn read_policy_lines<S: Shelf>(
    alloc: Global,
    world: &World,
    set: SetId,
    lines: &mut PlanLines,
    shelf: &mut S,
    name: &str,
) -> Result<Result<Policy, PolicyFault>, CheckFault>
    requires { set.0 < length world.now.sets }
    ensures reads { (front : List ℕ) → HasRead (S.files shelf.old) name.now front lines.old
        → ReadsPolicyLines world.now set.0 (S.files shelf.old) name.now front lines.new result }
    ensures files_stay { S.files shelf.new ≡ S.files shelf.old }

    ensures faults_stay { S.faults shelf.old ≤ S.faults shelf.new }
    ensures absences_stay { S.absences shelf.old ≤ S.absences shelf.new }
    ensures failed { IsErrOf result CheckFault.ReadFault → Rose (S.faults shelf.old) (S.faults shelf.new) }
    ensures absent { IsErrOf result CheckFault.Absent → Rose (S.absences shelf.old) (S.absences shelf.new) }
    ensures unwritten { ¬ IsErrOf result CheckFault.WriteFault }
{
    let mut reader = PolicyReader::make(alloc, set)?;
    'policy: loop {
        lines.next(shelf, name)?;
        match reader.take(world, lines.line()) {
            Ok(Next::More) => {}
            Ok(Next::Done) => return Ok(Ok(whole(world, set, reader))),
            Err(fault) => return Ok(Err(fault)),
        }
    }
}
