//! Whether a joint plan that was read meets the rules and the capacity, and costs what it says.
ghost use Rattle.std.specs.Prelude.{◌≡◌, ◌↔◌, ◌≤◌, ◌<◌, ◌^◌, IsTrue, length};
ghost use Rattle.workload.specs.World.{centre_count};
ghost use Rattle.zero_one.specs.Program.{IsWithinLimits};
ghost use Rattle.joint_placement.specs.JointPlans.{machines_in};
ghost use Rattle.joint_placement.specs.Programs.{joint_program};
ghost use Rattle.joint_plan.specs.Stops.{IsBorne, AllAllowed, AllBorne, IsWholePlan, JudgesPlan};

use crate::cost::plan_cost;
use joint_placement::{JointPlan, load_on};
use machine_text::Machines;
use plan_check::{CheckFault, Claim};
use slo_rules::fault_of;
use span_base::{Cause, DcId, SetId};
use workload::World;

/// Whether every policy is allowed.
fn are_allowed(world: &World, plan: &JointPlan) -> bool
    requires { length plan.now.policies ≡ length world.now.sets }
    ensures { IsTrue result ↔ AllAllowed world.now plan.now }
{
    let policies = plan.policies();
    for set in 0..world.sets() {
        if fault_of(world, SetId(set), &policies[set as usize]).is_some() {
            return false;
        }
    }
    true
}

/// Whether so many machines of a centre are within their digits, and bear its load.
fn is_borne(world: &World, machines: &Machines, plan: &JointPlan, dc: DcId, number: u128) -> bool
    requires policies { length plan.now.policies ≡ length world.now.sets }
    requires number { number ≡ machines_in plan.now dc.0 }
    ensures { IsTrue result ↔ IsBorne world.now machines.now plan.now dc.0 }
{
    let machine = machines.machine(dc);
    if number >= most(machine.digits) {
        return false;
    }
    let load = load_on(world, machines, plan, dc);
    u128::from(load) <= number * u128::from(machine.capacity)
}

/// The numbers with so many binary digits are those below this one.
fn most(digits: u8) -> u128
    requires { digits ≤ 10 }
    ensures most { result ≡ 2 ^ digits }
    ensures small { result ≤ 1024 }
{
    1 << digits
}

/// Whether all machines are within their digits, and bear the loads.
fn are_borne(world: &World, machines: &Machines, plan: &JointPlan) -> bool
    requires { IsWholePlan world.now plan.now }
    ensures { IsTrue result ↔ AllBorne world.now machines.now plan.now }
{
    let numbers = plan.machines();
    for d in 0..world.centre_count() {
        let is_borne = is_borne(world, machines, plan, DcId(d), numbers[d as usize]);
        if !is_borne {
            return false;
        }
    }
    true
}

fn refused(claim: Claim, cause: Cause) -> CheckFault
    ensures { result ≡ CheckFault.Refused claim.line cause }
{
    CheckFault::Refused {
        line: claim.line,
        cause,
    }
}

/// Judges a plan that is claimed to be least at a cost.
pub(crate) fn judge(
    world: &World,
    machines: &Machines,
    plan: &JointPlan,
    claim: Claim,
) -> Result<(), CheckFault>
    requires whole { IsWholePlan world.now plan.now }
    requires limits { IsWithinLimits (joint_program world.now machines.now) }
    ensures { JudgesPlan world.now machines.now claim.cost claim.line plan.now result }
{
    let _centres = world.centre_count();
    if !are_allowed(world, plan) {
        return Err(refused(claim, Cause::Rule));
    }
    if !are_borne(world, machines, plan) {
        return Err(refused(claim, Cause::Machines));
    }
    if plan_cost(world, machines, plan) != claim.cost {
        return Err(refused(claim, Cause::Cost));
    }
    Ok(())
}
