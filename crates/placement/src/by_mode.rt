//! Each mode's own program serves its sets.
ghost use Rattle.std.specs.Prelude.{◌≡◌, ◌<◌, ◌≤◌, length, false, true, IfOk};
ghost use Rattle.zero_one.specs.Program.{IsFeasible, value_of};
ghost use Rattle.slo_rules.specs.Rules.{IsAllowed};
ghost use Rattle.slo_rules.specs.Cost.{policy_cost};
ghost use Rattle.placement_relay.specs.Laws.{IsEventualSet};
ghost use Rattle.placement_strong.specs.Laws.{IsStrongSet};
ghost use Rattle.placement.specs.Placement.{program_of, placed, decoded};

use span_base::{Policy, SetId};
use std::alloc::{AllocError, Global};
use workload::{Mode, World};
use zero_one::{Bits, Program};

/// Whether a set is strong; else it is direct or relay.
fn is_strong(world: &World, set: SetId) -> bool
    requires { set.0 < length world.now.sets }
    ensures strong { result ≡ true → IsStrongSet world.now set.0 }
    ensures eventual { result ≡ false → IsEventualSet world.now set.0 }
{
    let _count = world.centre_count();
    world.rule(set).mode == Mode::Strong
}

/// How many variables a set's program has, at most 2,208.
pub fn variable_count(world: &World, set: SetId) -> usize
    requires { set.0 < length world.now.sets }
    ensures { result ≡ length (program_of world.now set.0).costs }
{
    if is_strong(world, set) {
        placement_strong::variable_count(world, set)
    } else {
        placement_relay::variable_count(world, set)
    }
}

/// The program of a set. It keeps the limits of programs, so that only memory can lack.
pub fn encode(alloc: Global, world: &World, set: SetId) -> Result<Program, AllocError>
    requires { set.0 < length world.now.sets }
    ensures { IfOk result (λ program. program ≡ program_of world.now set.0) }
{
    if is_strong(world, set) {
        placement_strong::encode(alloc, world, set)
    } else {
        placement_relay::encode(alloc, world, set)
    }
}

/// The choice that an allowed policy is: it meets the program, and its value is the policy's cost.
pub fn place(alloc: Global, world: &World, set: SetId, policy: &Policy) -> Result<Bits, AllocError>
    requires set { set.0 < length world.now.sets }
    requires allowed { IsAllowed world.now set.0 policy.now }
    ensures { IfOk result (λ x. x ≡ placed world.now set.0 policy.now) }
{
    if is_strong(world, set) {
        placement_strong::place(alloc, world, set, policy)
    } else {
        placement_relay::place(alloc, world, set, policy)
    }
}

/// The policy that a choice is: it is allowed, and costs at most the choice's value.
pub fn decode(alloc: Global, world: &World, set: SetId, x: &Bits) -> Result<Policy, AllocError>
    requires set { set.0 < length world.now.sets }
    requires feasible { IsFeasible (program_of world.now set.0) x.now }
    ensures policy { IfOk result (λ policy. policy ≡ decoded world.now set.0 x.now) }
    ensures allowed { IfOk result (IsAllowed world.now set.0) }
    ensures cost { IfOk result (λ policy. policy_cost world.now set.0 policy ≤ value_of (program_of world.now set.0).costs x.now) }
{
    if is_strong(world, set) {
        placement_strong::decode(alloc, world, set, x)
    } else {
        placement_relay::decode(alloc, world, set, x)
    }
}
