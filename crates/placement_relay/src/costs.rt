//! What the variables of a set cost, in pico-dollars.
ghost use Rattle.std.specs.Prelude.{◌≡◌, ◌<◌, ◌==◌, ◌++◌, if◌then◌else◌, length, map, IfOk, OnOk};
ghost use Rattle.std.specs.List.{flat_map};
ghost use Rattle.workload.specs.World.{IsDemandWithin, centre_count, rule_of, members_of};
ghost use Rattle.slo_rules.specs.Cost.{stored_cost, gets_cost, puts_cost};
ghost use Rattle.placement_rows.specs.Centres.{centres};
ghost use Rattle.placement_rows.specs.FirstCentres.{AreFound};
ghost use Rattle.placement_relay.specs.Reading.{reading_costs};
ghost use Rattle.placement_relay.specs.Direct.{replica_cost, direct_costs};
ghost use Rattle.placement_relay.specs.Relay.{passed_cost, hop_costs, relay_costs};
ghost use Rattle.placement_relay.specs.Programs.{mode_costs, set_costs};
ghost use Rattle.placement_relay.specs.Laws.{IsEventualSet};

use crate::variables::most_variables;
use placement_rows::{FirstCentres, push_provider_costs};
use slo_rules::{gets_cost, puts_cost, stored_cost};
use span_base::{DcId, SetId};
use std::alloc::{AllocError, Global};
use workload::{Demand, Mode, World};

/// What a replica of a direct set costs: its storage, and the puts of all members.
fn replica_cost(world: &World, set: SetId, dc: DcId) -> u128
    requires set { IsEventualSet world.now set.0 }
    requires dc { dc.0 < centre_count world.now }
    ensures cost { result ≡ replica_cost world.now set.0 dc.0 }
{
    let rule = world.rule(set);
    let mut total = stored_cost(world, &rule, dc);
    for member in world.members(set) {
        total += puts_cost(world, &rule, member, member.dc, dc);
    }
    total
}

/// Puts what the replicas of a direct set cost at the end.
#[tactic(auto, using(placement_rows::proofs::Loops::loops))]
fn push_replica_costs(costs: &mut Vec<u128>, world: &World, set: SetId) -> Result<(), AllocError>
    requires { IsEventualSet world.now set.0 }
    ensures { OnOk result (costs.new.items ≡ costs.old.items ++ map (replica_cost world.now set.0) (centres world.now)) }
{
    for d in 0..world.centre_count() {
        costs.push(replica_cost(world, set, DcId(d)))?;
    }
    Ok(())
}

/// Puts what it costs to keep the set at each centre at the end.
#[tactic(auto, using(placement_rows::proofs::Loops::loops))]
fn push_stored_costs(costs: &mut Vec<u128>, world: &World, set: SetId) -> Result<(), AllocError>
    requires { IsEventualSet world.now set.0 }
    ensures { OnOk result (costs.new.items ≡ costs.old.items ++ map (stored_cost world.now (rule_of world.now set.0)) (centres world.now)) }
{
    let rule = world.rule(set);
    for d in 0..world.centre_count() {
        costs.push(stored_cost(world, &rule, DcId(d)))?;
    }
    Ok(())
}

/// Puts what the gets of a member cost at the end.
#[tactic(auto, using(placement_rows::proofs::Loops::loops))]
fn push_gets_costs(
    costs: &mut Vec<u128>,
    world: &World,
    set: SetId,
    member: &Demand,
) -> Result<(), AllocError>
    requires set { IsEventualSet world.now set.0 }
    requires member { IsDemandWithin (centre_count world.now) member.now }
    ensures { OnOk result (costs.new.items ≡ costs.old.items ++ map (gets_cost world.now (rule_of world.now set.0) member.now) (centres world.now)) }
{
    let rule = world.rule(set);
    for d in 0..world.centre_count() {
        costs.push(gets_cost(world, &rule, member, DcId(d)))?;
    }
    Ok(())
}

/// Puts what the gets of all members cost at the end.
fn push_reading_costs(costs: &mut Vec<u128>, world: &World, set: SetId) -> Result<(), AllocError>
    requires { IsEventualSet world.now set.0 }
    ensures { OnOk result (costs.new.items ≡ costs.old.items ++ reading_costs world.now set.0) }
{
    for member in world.members(set) {
        push_gets_costs(costs, world, set, member)?;
    }
    Ok(())
}

/// From where a put comes to a centre: from the member itself where the two centres are one.
fn source(member: DcId, from: DcId, dc: DcId) -> DcId
    ensures { result.0 ≡ (if from.0 == dc.0 then member.0 else from.0) }
{
    if from.0 == dc.0 { member } else { from }
}

/// What the puts of a member cost that come to a centre from another.
fn passed_cost(world: &World, set: SetId, member: &Demand, from: DcId, dc: DcId) -> u128
    requires set { IsEventualSet world.now set.0 }
    requires member { IsDemandWithin (centre_count world.now) member.now }
    ensures { result ≡ passed_cost world.now set.0 member.now from.0 dc.0 }
{
    puts_cost(
        world,
        &world.rule(set),
        member,
        source(member.dc, from, dc),
        dc,
    )
}

/// Puts what the puts of a member cost that come from one centre at the end.
#[tactic(auto, using(placement_rows::proofs::Loops::loops))]
fn push_costs_from(
    costs: &mut Vec<u128>,
    world: &World,
    set: SetId,
    member: &Demand,
    from: DcId,
) -> Result<(), AllocError>
    requires set { IsEventualSet world.now set.0 }
    requires member { IsDemandWithin (centre_count world.now) member.now }
    ensures { OnOk result (costs.new.items ≡ costs.old.items ++ map (passed_cost world.now set.0 member.now from.0) (centres world.now)) }
{
    for d in 0..world.centre_count() {
        costs.push(passed_cost(world, set, member, from, DcId(d)))?;
    }
    Ok(())
}

/// Puts what the puts of a member cost at the end, from each centre to each.
#[tactic(auto, using(placement_rows::proofs::Loops::loops))]
fn push_hop_costs(
    costs: &mut Vec<u128>,
    world: &World,
    set: SetId,
    member: &Demand,
) -> Result<(), AllocError>
    requires set { IsEventualSet world.now set.0 }
    requires member { IsDemandWithin (centre_count world.now) member.now }
    ensures { OnOk result (costs.new.items ≡ costs.old.items ++ hop_costs world.now set.0 member.now) }
{
    for p in 0..world.centre_count() {
        push_costs_from(costs, world, set, member, DcId(p))?;
    }
    Ok(())
}

/// Puts what the puts of all members cost at the end, each member's from each centre to each.
fn push_writing_costs(costs: &mut Vec<u128>, world: &World, set: SetId) -> Result<(), AllocError>
    requires { IsEventualSet world.now set.0 }
    ensures { OnOk result (costs.new.items ≡ costs.old.items ++ flat_map (hop_costs world.now set.0) (members_of world.now set.0)) }
{
    for member in world.members(set) {
        push_hop_costs(costs, world, set, member)?;
    }
    Ok(())
}

/// Puts the costs of a direct set's own variables at the end.
fn push_direct_costs(costs: &mut Vec<u128>, world: &World, set: SetId) -> Result<(), AllocError>
    requires { IsEventualSet world.now set.0 }
    ensures { OnOk result (costs.new.items ≡ costs.old.items ++ direct_costs world.now set.0) }
{
    push_replica_costs(costs, world, set)?;
    push_reading_costs(costs, world, set)
}

/// Puts the costs of a relay set's own variables at the end.
fn push_relay_costs(costs: &mut Vec<u128>, world: &World, set: SetId) -> Result<(), AllocError>
    requires { IsEventualSet world.now set.0 }
    ensures { OnOk result (costs.new.items ≡ costs.old.items ++ relay_costs world.now set.0) }
{
    push_stored_costs(costs, world, set)?;
    push_reading_costs(costs, world, set)?;
    push_writing_costs(costs, world, set)
}

/// Puts the costs of the mode's own variables at the end.
fn push_mode_costs(costs: &mut Vec<u128>, world: &World, set: SetId) -> Result<(), AllocError>
    requires { IsEventualSet world.now set.0 }
    ensures { OnOk result (costs.new.items ≡ costs.old.items ++ mode_costs world.now set.0) }
{
    match world.rule(set).mode {
        Mode::Direct => push_direct_costs(costs, world, set),
        Mode::Relay => push_relay_costs(costs, world, set),
        Mode::Strong => unreachable!(),
    }
}

/// The costs of all variables.
pub(crate) fn set_costs(
    alloc: Global,
    world: &World,
    set: SetId,
    firsts: &FirstCentres,
) -> Result<Vec<u128>, AllocError>
    requires set { IsEventualSet world.now set.0 }
    requires found { AreFound world.now set.0 firsts.now }
    ensures { IfOk result (λ costs. costs.items ≡ set_costs world.now set.0) }
{
    let mut costs = Vec::with_capacity(alloc, most_variables(world, set))?;
    push_mode_costs(&mut costs, world, set)?;
    push_provider_costs(&mut costs, world, set, firsts)?;
    Ok(costs)
}
