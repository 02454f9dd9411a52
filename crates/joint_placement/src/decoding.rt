ghost use Rattle.std.specs.Prelude.{◌≡◌, ◌+◌, ◌<◌, ◌≤◌, ◌^◌, if◌then◌else◌, length, map, IfOk};
ghost use Rattle.workload.specs.World.{centre_count};
ghost use Rattle.zero_one.specs.Program.{IsFeasible, value_of};
ghost use Rattle.placement.specs.Placement as set_policy;
ghost use Rattle.placement_rows.specs.Centres.{centres};
ghost use Rattle.machine_text.specs.Machines.{IsMachineWithin, machine_of};
ghost use Rattle.joint_placement.specs.JointPlans.{IsJointPlan, MeetsCapacity, joint_cost, sets};
ghost use Rattle.joint_placement.specs.Variables.{variables_of, first_of, first_digit, joint_costs};
ghost use Rattle.joint_placement.specs.Programs.{joint_program};
ghost use Rattle.joint_placement.specs.Placed.{part_of, number_at, decoded};

use crate::capacity::digit;
use crate::plan::JointPlan;
use crate::variables::{set_variables, variables_of};
use machine_text::{Machine, Machines};
use span_base::{DcId, Policy, SetId};
use std::alloc::{AllocError, Global};
use workload::World;
use zero_one::Bits;

/// The part of a choice that is a set's, whose variables begin with `first`.
fn part_of<'a>(world: &World, set: SetId, x: &'a [bool], first: usize) -> &'a [bool]
    requires set { set.0 < length world.now.sets }
    requires first { first ≡ first_of world.now set.0 }
    requires room { first + variables_of world.now set.0 ≤ length x.now }
    ensures { result.now ≡ part_of world.now x.now set.0 }
{
    let end = first + variables_of(world, set);
    &x[first..end]
}

/// The policy that a set's part of a choice is.
fn decoded_policy(
    alloc: Global,
    world: &World,
    set: SetId,
    part: &[bool],
) -> Result<Policy, AllocError>
    requires set { set.0 < length world.now.sets }
    requires feasible { IsFeasible (set_policy.program_of world.now set.0) part.now }
    ensures { IfOk result (λ policy. policy ≡ set_policy.decoded world.now set.0 part.now) }
{
    let bits = Bits::from_vec(Vec::from_slice(alloc, part)?);
    placement::decode(alloc, world, set, &bits)
}

/// The policies of all sets.
#[tactic(auto, using(crate::proofs::ReadingOff::policies))]
fn decoded_policies(
    alloc: Global,
    world: &World,
    machines: &Machines,
    x: &[bool],
) -> Result<Vec<Policy>, AllocError>
    requires { IsFeasible (joint_program world.now machines.now) x.now }
    ensures { IfOk result (λ policies. policies.items ≡ map (λ set. set_policy.decoded world.now set (part_of world.now x.now set)) (sets world.now)) }
{
    let _centres = world.centre_count();
    let mut policies = Vec::with_capacity(alloc, usize::from(world.sets()))?;
    let mut first = 0;
    for set in 0..world.sets() {
        let part = part_of(world, SetId(set), x, first);
        policies.push(decoded_policy(alloc, world, SetId(set), part)?)?;
        first += variables_of(world, SetId(set));
    }
    Ok(policies)
}

/// How many machines a digit counts: none where it is 0.
fn counted(bit: bool, j: u8) -> u128
    requires { j < 10 }
    ensures count { result ≡ (if bit then 2 ^ j else 0) }
    ensures small { result ≤ 1023 }
{
    if bit { u128::from(digit(j)) } else { 0 }
}

/// The number whose digits a choice has from a variable on.
#[tactic(auto, using(crate::proofs::Stacks::sums), unfolding(crate::specs::Placed::number_at))]
fn number_at(x: &[bool], first: usize, machine: &Machine) -> u128
    requires within { IsMachineWithin machine.now }
    requires bits { first + machine.now.digits ≤ length x.now }
    ensures { result ≡ number_at x.now first machine.now }
{
    let mut number = 0;
    for j in 0..machine.digits {
        number += counted(x[first + usize::from(j)], j);
    }
    number
}

/// The numbers of machines of all centres.
#[tactic(auto, using(crate::proofs::ReadingOff::numbers))]
fn decoded_numbers(
    alloc: Global,
    world: &World,
    machines: &Machines,
    x: &[bool],
) -> Result<Vec<u128>, AllocError>
    requires { length x.now ≡ length (joint_costs world.now machines.now) }
    ensures { IfOk result (λ numbers. numbers.items ≡ map (λ d. number_at x.now (first_digit world.now machines.now d) (machine_of machines.now d)) (centres world.now)) }
{
    let mut numbers = Vec::with_capacity(alloc, usize::from(world.centre_count()))?;
    let mut first = set_variables(world);
    for d in 0..world.centre_count() {
        let machine = machines.machine(DcId(d));
        numbers.push(number_at(x, first, &machine))?;
        first += usize::from(machine.digits);
    }
    Ok(numbers)
}

/// The joint plan that a choice is: each set's policy, and the machines that the digits count. It
/// meets capacity, and costs at most the choice's value.
pub fn decode_joint(
    alloc: Global,
    world: &World,
    machines: &Machines,
    x: &Bits,
) -> Result<JointPlan, AllocError>
    requires feasible { IsFeasible (joint_program world.now machines.now) x.now }
    ensures plan { IfOk result (λ plan. plan ≡ decoded world.now machines.now x.now) }
    ensures joint { IfOk result (λ plan. IsJointPlan world.now machines.now plan) }
    ensures capacity { IfOk result (λ plan. MeetsCapacity world.now machines.now plan) }
    ensures cost { IfOk result (λ plan. joint_cost world.now machines.now plan ≤ value_of (joint_costs world.now machines.now) x.now) }
{
    let _centres = world.centre_count();
    let x = x.as_slice();
    let policies = decoded_policies(alloc, world, machines, x)?;
    let numbers = decoded_numbers(alloc, world, machines, x)?;
    Ok(JointPlan::make(policies, numbers))
}
