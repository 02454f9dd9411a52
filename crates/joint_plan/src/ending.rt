//! How the search of a joint program ends, as its text tells it.
ghost use Rattle.std.specs.Prelude.{◌≡◌, ◌≤◌, ◌<◌, ◌^◌, ◌++◌, ℕ, Some, true, length, IfOk, IfSome, IsSome, option_map, string_bytes};
ghost use Rattle.workload.specs.World.{Lists};
ghost use Rattle.machine_text.specs.Machines.{Fleet};
ghost use Rattle.joint_placement.specs.JointPlans.{IsJointPlan, joint_cost};
ghost use Rattle.joint_placement.specs.Programs.{joint_program};
ghost use Rattle.joint_placement.specs.Placed.{decoded};
ghost use Rattle.zero_one.specs.Program.{IsWithinLimits};
ghost use Rattle.branch_solver.specs.Best.{Best, IsBest};
ghost use Rattle.joint_plan.specs.Endings.{Ending, complete, none_there, cut_off, found_of};
ghost use Rattle.joint_plan.specs.JointText.{NamesAll};
ghost use Rattle.joint_plan.specs.Writes.{IsSearched, AddsEnding, EndsSo};

use crate::cost::plan_cost;
use crate::text::push_plan;
use branch_solver::{Progress, Search};
use joint_placement::{JointPlan, decode_joint};
use machine_text::Machines;
use plan_text::{push_cost, push_cut, push_none};
use planner::SetEnd;
use std::alloc::{AllocError, Global};
use workload::World;

/// The joint plan that the best choice of a search is, if it has one.
fn best_plan(
    alloc: Global,
    world: &World,
    machines: &Machines,
    search: &Search,
) -> Result<Option<JointPlan>, AllocError>
    requires limits { IsWithinLimits (joint_program world.now machines.now) }
    requires best { IsBest (joint_program world.now machines.now) search.now.best }
    ensures plan { IfOk result (λ plan. plan ≡ option_map (λ (best : Best). decoded world.now machines.now best.x) search.now.best) }
    ensures joint { IfOk result (λ plan. IfSome plan (IsJointPlan world.now machines.now)) }
    ensures names { IfOk result (λ plan. IfSome plan (NamesAll world.now)) }
    ensures small { IfOk result (λ plan. IfSome plan (λ p. joint_cost world.now machines.now p < 2 ^ 128)) }
{
    let _centres = world.centre_count();
    match search.best() {
        Some(x) => Ok(Some(decode_joint(alloc, world, machines, x)?)),
        None => Ok(None),
    }
}

/// Adds the result of a search that found a least choice, and its plan.
fn push_complete(
    text: &mut String,
    alloc: Global,
    world: &World,
    machines: &Machines,
    search: &Search,
    cost: u128,
) -> Result<SetEnd, AllocError>
    requires limits { IsWithinLimits (joint_program world.now machines.now) }
    requires best { IsBest (joint_program world.now machines.now) search.now.best }
    requires found { IsSome search.now.best }
    ensures adds { IfOk result (λ end. (best : Best) → search.now.best ≡ Some best → (lines : ℕ)
        → AddsEnding world.now lines (complete cost (decoded world.now machines.now best.x)) end (string_bytes text.old) (string_bytes text.new)) }
{
    let Some(plan) = best_plan(alloc, world, machines, search)? else {
        unreachable!();
    };
    push_cost(text, cost)?;
    push_plan(text, world, &plan)?;
    Ok(SetEnd::Complete { cost })
}

/// Adds the result of a search that was cut off behind so many lines, and the best plan found, if
/// one was.
fn push_cut_off(
    text: &mut String,
    alloc: Global,
    world: &World,
    machines: &Machines,
    search: &Search,
    lines: u64,
) -> Result<SetEnd, AllocError>
    requires limits { IsWithinLimits (joint_program world.now machines.now) }
    requires best { IsBest (joint_program world.now machines.now) search.now.best }
    ensures adds { IfOk result (λ end.
        AddsEnding world.now lines (cut_off (found_of world.now machines.now search.now.best)) end (string_bytes text.old) (string_bytes text.new)) }
{
    match best_plan(alloc, world, machines, search)? {
        Some(plan) => {
            let cost = plan_cost(world, machines, &plan);
            push_cut(text, lines, Some(cost))?;
            push_plan(text, world, &plan)?;
            Ok(SetEnd::Budget { best: Some(cost) })
        }
        None => {
            push_cut(text, lines, None)?;
            Ok(SetEnd::Budget { best: None })
        }
    }
}

/// Adds how a search ended, within a budget of lines.
pub(crate) fn push_ending(
    text: &mut String,
    alloc: Global,
    world: &World,
    machines: &Machines,
    budget: u64,
    search: &Search,
    end: Progress,
) -> Result<SetEnd, AllocError>
    requires searched { IsSearched (joint_program world.now machines.now) budget search.now end }
    ensures adds { IfOk result (λ told. (searched : IsSearched (joint_program world.now machines.now) budget search.now end)
        → EndsSo world.now machines.now budget searched.lines told (string_bytes text.old) (string_bytes text.new)) }
{
    // A world is complete and named: what is shown of the joint program is true of its plans.
    let _centres = world.centre_count();
    match end {
        Progress::Line => unreachable!(),
        Progress::Found { cost } => push_complete(text, alloc, world, machines, search, cost),
        Progress::NoneThere => {
            push_none(text)?;
            Ok(SetEnd::NoPolicy)
        }
        Progress::Budget { .. } => push_cut_off(text, alloc, world, machines, search, budget),
    }
}
