//! The policies in a joint plan's file.
ghost use Rattle.std.specs.Prelude.{◌≡◌, ◌↔◌, ◌≤◌, ◌<◌, ◌^◌, ◌++◌, ℕ, List, [], ◌∷◌, Option, OnOk, IsTrue, MatchOption, MatchResult, length, codes, IfOk, IsErrOf, Result, Ok, Err};
ghost use Rattle.span_base.specs.Counts.{Rose};
ghost use Rattle.span_base.specs.Files.{Files};
ghost use Rattle.plan_check.specs.Reading.{HasRead};
ghost use Rattle.joint_plan.specs.JointText.{named_line};
ghost use Rattle.joint_plan.specs.Lines.{ReadsExact, RefusesPlanLine};
ghost use Rattle.joint_plan.specs.Stops.{ReadsSet, HasSets, StopsInSets};

use crate::due::read_due;
use crate::forms::{refuse_line, refuse_policy_line};
use crate::text::push_named;
use plan_check::{CheckFault, PlanLines, read_policy_lines};
use span_base::{Policy, SetId, Shelf};
use std::alloc::{AllocError, Global};
use workload::World;

/// Reads the line that names a set.
fn read_named<S: Shelf>(
    alloc: Global,
    world: &World,
    set: SetId,
    lines: &mut PlanLines,
    shelf: &mut S,
    name: &str,
) -> Result<(), CheckFault>
    requires { set.0 < length world.now.sets }
    ensures reads { (files : Option Files) → S.files shelf.old ≡ files → (front : List ℕ) → HasRead files name.now front lines.old
        → ReadsExact files name.now front (named_line world.now set.0) (RefusesPlanLine world.now) lines.new result }
    ensures files_stay { S.files shelf.new ≡ S.files shelf.old }

    ensures faults_stay { S.faults shelf.old ≤ S.faults shelf.new }
    ensures absences_stay { S.absences shelf.old ≤ S.absences shelf.new }
    ensures failed { IsErrOf result CheckFault.ReadFault → Rose (S.faults shelf.old) (S.faults shelf.new) }
    ensures absent { IsErrOf result CheckFault.Absent → Rose (S.absences shelf.old) (S.absences shelf.new) }
    ensures unwritten { ¬ IsErrOf result CheckFault.WriteFault }
{
    let mut due = String::new(alloc);
    push_named(&mut due, world, set)?;
    let is_due = read_due(due.as_bytes(), lines, shelf, name)?;
    if is_due {
        return Ok(());
    }
    let fault = refuse_line(alloc, world, lines.line(), lines.number)?;
    Err(fault)
}

/// Reads the name of a set and the lines of its policy.
fn read_set<S: Shelf>(
    alloc: Global,
    world: &World,
    set: SetId,
    lines: &mut PlanLines,
    shelf: &mut S,
    name: &str,
) -> Result<Policy, CheckFault>
    requires { set.0 < length world.now.sets }
    ensures reads { (files : Option Files) → S.files shelf.old ≡ files → (front : List ℕ) → HasRead files name.now front lines.old
        → ReadsSet world.now set.0 files name.now front lines.new result }
    ensures files_stay { S.files shelf.new ≡ S.files shelf.old }

    ensures faults_stay { S.faults shelf.old ≤ S.faults shelf.new }
    ensures absences_stay { S.absences shelf.old ≤ S.absences shelf.new }
    ensures failed { IsErrOf result CheckFault.ReadFault → Rose (S.faults shelf.old) (S.faults shelf.new) }
    ensures absent { IsErrOf result CheckFault.Absent → Rose (S.absences shelf.old) (S.absences shelf.new) }
    ensures unwritten { ¬ IsErrOf result CheckFault.WriteFault }
{
    let _centres = world.centre_count();
    read_named(alloc, world, set, lines, shelf, name)?;
    let read = read_policy_lines(alloc, world, set, lines, shelf, name)?;
    match read {
        Ok(policy) => Ok(policy),
        Err(fault) => Err(refuse_policy_line(fault, lines.line(), lines.number)),
    }
}

/// Keeps a policy behind those before it.
fn keep(policies: &mut Vec<Policy>, policy: Policy) -> Result<(), AllocError>
    ensures { OnOk result (policies.new.items ≡ policies.old.items ++ policy ∷ []) }
{
    policies.push(policy)?;
    Ok(())
}

/// Reads the names of all sets and their policies.
pub(crate) fn read_sets<S: Shelf>(
    alloc: Global,
    world: &World,
    lines: &mut PlanLines,
    shelf: &mut S,
    name: &str,
) -> Result<Vec<Policy>, CheckFault>
    ensures reads { (files : Option Files) → S.files shelf.old ≡ files → (front : List ℕ) → HasRead files name.now front lines.old
        → MatchResult result (λ policies. HasSets world.now files name.now front lines.new policies.items) (StopsInSets world.now files name.now front) }
    ensures many { IfOk result (λ policies. length policies.items ≡ length world.now.sets) }
    ensures files_stay { S.files shelf.new ≡ S.files shelf.old }

    ensures faults_stay { S.faults shelf.old ≤ S.faults shelf.new }
    ensures absences_stay { S.absences shelf.old ≤ S.absences shelf.new }
    ensures failed { IsErrOf result CheckFault.ReadFault → Rose (S.faults shelf.old) (S.faults shelf.new) }
    ensures absent { IsErrOf result CheckFault.Absent → Rose (S.absences shelf.old) (S.absences shelf.new) }
    ensures unwritten { ¬ IsErrOf result CheckFault.WriteFault }
{
    let mut policies = Vec::with_capacity(alloc, usize::from(world.sets()))?;
    for set in 0..world.sets() {
        let policy = read_set(alloc, world, SetId(set), lines, shelf, name)?;
        keep(&mut policies, policy)?;
    }
    Ok(policies)
}
