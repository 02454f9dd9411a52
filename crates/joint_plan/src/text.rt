//! The lines of a joint plan that no other plan has.
ghost use Rattle.std.specs.Prelude.{◌≡◌, ◌++◌, ◌<◌, codes, length, OnOk, string_bytes};
ghost use Rattle.std.specs.List.{flat_map};
ghost use Rattle.workload.specs.World.{centre_count};
ghost use Rattle.placement_rows.specs.Centres.{centres};
ghost use Rattle.joint_placement.specs.JointPlans.{sets, machines_in};
ghost use Rattle.joint_plan.specs.JointText.{joint_line, opening_text, named_line, NamesAll, set_text, machines_words, machines_line, plan_text};

use joint_placement::JointPlan;
use slo_rules::push_policy;
use span_base::{DcId, SetId};
use std::alloc::AllocError;
use workload::World;

/// Adds the line with the number of variables.
#[tactic(auto, unfolding(crate::specs::JointText::joint_line))]
pub(crate) fn push_joint(text: &mut String, variables: usize) -> Result<(), AllocError>
    ensures { OnOk result (string_bytes text.new ≡ string_bytes text.old ++ joint_line variables) }
{
    write!(text, "joint {variables}\n")
}

/// Adds the first lines of a joint plan, whose program has so many variables.
pub(crate) fn push_opening(text: &mut String, variables: usize) -> Result<(), AllocError>
    ensures { OnOk result (string_bytes text.new ≡ string_bytes text.old ++ opening_text variables) }
{
    write!(text, "span-joint 1\n")?;
    push_joint(text, variables)
}

/// Adds the line that names a set.
pub(crate) fn push_named(text: &mut String, world: &World, set: SetId) -> Result<(), AllocError>
    requires { set.0 < length world.now.sets }
    ensures { OnOk result (string_bytes text.new ≡ string_bytes text.old ++ named_line world.now set.0) }
{
    let name = world.set_name(set).as_str();
    write!(text, "set {name}\n")
}

/// Adds the first words of the line of a centre's machines.
pub(crate) fn push_machines_words(
    text: &mut String,
    world: &World,
    dc: DcId,
) -> Result<(), AllocError>
    requires { dc.0 < centre_count world.now }
    ensures { OnOk result (string_bytes text.new ≡ string_bytes text.old ++ machines_words world.now dc.0) }
{
    let name = world.name(dc).as_str();
    write!(text, "machines {name} ")
}

/// Adds the line of a centre's machines.
#[tactic(auto, unfolding(crate::specs::JointText::machines_line))]
fn push_machines(text: &mut String, world: &World, dc: DcId, number: u128) -> Result<(), AllocError>
    requires { dc.0 < centre_count world.now }
    ensures { OnOk result (string_bytes text.new ≡ string_bytes text.old ++ machines_line world.now dc.0 number) }
{
    push_machines_words(text, world, dc)?;
    write!(text, "{number}\n")
}

/// Adds the names of all sets, each with its policy.
fn push_sets(text: &mut String, world: &World, plan: &JointPlan) -> Result<(), AllocError>
    requires policies { length plan.now.policies ≡ length world.now.sets }
    requires names { NamesAll world.now plan.now }
    ensures { OnOk result (string_bytes text.new ≡ string_bytes text.old ++ flat_map (set_text world.now plan.now) (sets world.now)) }
{
    let policies = plan.policies();
    for set in 0..world.sets() {
        push_named(text, world, SetId(set))?;
        push_policy(text, world, &policies[set as usize])?;
    }
    Ok(())
}

/// Adds the lines of all centres' machines.
fn push_fleet(text: &mut String, world: &World, plan: &JointPlan) -> Result<(), AllocError>
    requires { length plan.now.machines ≡ centre_count world.now }
    ensures { OnOk result (string_bytes text.new ≡ string_bytes text.old ++ flat_map (λ d. machines_line world.now d (machines_in plan.now d)) (centres world.now)) }
{
    let machines = plan.machines();
    for d in 0..world.centre_count() {
        push_machines(text, world, DcId(d), machines[d as usize])?;
    }
    Ok(())
}

/// Adds the lines of a joint plan's policies and machines.
#[tactic(auto, unfolding(crate::specs::JointText::plan_text))]
pub(crate) fn push_plan(
    text: &mut String,
    world: &World,
    plan: &JointPlan,
) -> Result<(), AllocError>
    requires policies { length plan.now.policies ≡ length world.now.sets }
    requires machines { length plan.now.machines ≡ centre_count world.now }
    requires names { NamesAll world.now plan.now }
    ensures { OnOk result (string_bytes text.new ≡ string_bytes text.old ++ plan_text world.now plan.now) }
{
    push_sets(text, world, plan)?;
    push_fleet(text, world, plan)
}
