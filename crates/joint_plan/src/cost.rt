ghost use Rattle.std.specs.Prelude.{◌≡◌, ◌<◌, ◌≤◌, ◌*◌, ◌^◌, sum_by};
ghost use Rattle.workload.specs.World.{centre_count};
ghost use Rattle.slo_rules.specs.Cost.{policy_cost};
ghost use Rattle.placement_rows.specs.Centres.{centres};
ghost use Rattle.machine_text.specs.Machines.{machine_of};
ghost use Rattle.joint_placement.specs.JointPlans.{IsJointPlan, sets, policy_of, machines_in, joint_cost};

use joint_placement::JointPlan;
use machine_text::Machines;
use slo_rules::cost;
use span_base::{DcId, SetId};
use workload::World;

/// What the policies of all sets cost.
fn policies_cost(world: &World, machines: &Machines, plan: &JointPlan) -> u128
    requires joint { IsJointPlan world.now machines.now plan.now }
    requires small { sum_by (λ set. policy_cost world.now set (policy_of plan.now set)) (sets world.now) < 2 ^ 128 }
    ensures { result ≡ sum_by (λ set. policy_cost world.now set (policy_of plan.now set)) (sets world.now) }
{
    let policies = plan.policies();
    let mut total = 0;
    for set in 0..world.sets() {
        total += cost(world, SetId(set), &policies[set as usize]);
    }
    total
}

/// What so many machines of a centre cost.
fn machine_cost(machines: &Machines, dc: DcId, number: u128) -> u128
    requires { number < 2 ^ (machine_of machines.now dc.0).digits }
    ensures cost { result ≡ number * (machine_of machines.now dc.0).price }
    ensures small { result ≤ 1023 * 10 ^ 9 }
{
    let machine = machines.machine(dc);
    number * u128::from(machine.price)
}

/// What the machines of all centres cost.
fn machines_cost(world: &World, machines: &Machines, plan: &JointPlan) -> u128
    requires { IsJointPlan world.now machines.now plan.now }
    ensures cost { result ≡ sum_by (λ d. machines_in plan.now d * (machine_of machines.now d).price) (centres world.now) }
    ensures small { result ≤ 16 * (1023 * 10 ^ 9) }
{
    let numbers = plan.machines();
    let mut total = 0;
    for d in 0..world.centre_count() {
        total += machine_cost(machines, DcId(d), numbers[d as usize]);
    }
    total
}

/// What a joint plan costs for a billing period, in pico-dollars: its policies and its machines.
#[tactic(auto, unfolding(joint_placement::specs::JointPlans::joint_cost))]
pub(crate) fn plan_cost(world: &World, machines: &Machines, plan: &JointPlan) -> u128
    requires joint { IsJointPlan world.now machines.now plan.now }
    requires small { joint_cost world.now machines.now plan.now < 2 ^ 128 }
    ensures { result ≡ joint_cost world.now machines.now plan.now }
{
    policies_cost(world, machines, plan) + machines_cost(world, machines, plan)
}
