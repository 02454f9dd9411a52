//! What the variables of a strong set cost, in pico-dollars.
ghost use Rattle.std.specs.Prelude.{◌≡◌, ◌<◌, ◌++◌, map, replicate, IfOk, OnOk};
ghost use Rattle.workload.specs.World.{centre_count, rule_of};
ghost use Rattle.slo_rules.specs.Cost.{gets_cost, quorum_puts_cost};
ghost use Rattle.placement_rows.specs.Centres.{centres};
ghost use Rattle.placement_rows.specs.FirstCentres.{AreFound};
ghost use Rattle.placement_strong.specs.Variables.{member_count, member_at, storing_costs, reading_costs, writing_costs};
ghost use Rattle.placement_strong.specs.Programs.{set_costs};
ghost use Rattle.placement_strong.specs.Laws.{IsStrongSet};

use crate::blocks::{meeting_variables, variables};
use crate::members::{member_at, member_count};
use placement_rows::{FirstCentres, push_provider_costs};
use slo_rules::{gets_cost, quorum_puts_cost, stored_cost};
use span_base::{DcId, SetId};
use std::alloc::{AllocError, Global};
use workload::World;

/// Puts what storing costs in each centre at the end.
#[tactic(auto, using(placement_rows::proofs::Loops::loops))]
fn push_storing(costs: &mut Vec<u128>, world: &World, set: SetId) -> Result<(), AllocError>
    requires { IsStrongSet world.now set.0 }
    ensures { OnOk result (costs.new.items ≡ costs.old.items ++ storing_costs world.now set.0) }
{
    let rule = world.rule(set);
    for d in 0..world.centre_count() {
        costs.push(stored_cost(world, &rule, DcId(d)))?;
    }
    Ok(())
}

/// Puts what the gets of a member cost in each centre at the end.
#[tactic(auto, using(placement_rows::proofs::Loops::loops))]
fn push_reading_of(
    costs: &mut Vec<u128>,
    world: &World,
    set: SetId,
    a: u16,
) -> Result<(), AllocError>
    requires strong { IsStrongSet world.now set.0 }
    requires number { a < member_count world.now set.0 }
    ensures { OnOk result (costs.new.items ≡ costs.old.items ++ map (gets_cost world.now (rule_of world.now set.0) (member_at world.now set.0 a)) (centres world.now)) }
{
    let rule = world.rule(set);
    let member = member_at(world, set, a);
    for d in 0..world.centre_count() {
        costs.push(gets_cost(world, &rule, &member, DcId(d)))?;
    }
    Ok(())
}

/// Puts what the gets of all members cost at the end.
#[tactic(auto, using(placement_rows::proofs::Loops::pieces))]
fn push_reading(costs: &mut Vec<u128>, world: &World, set: SetId) -> Result<(), AllocError>
    requires { IsStrongSet world.now set.0 }
    ensures { OnOk result (costs.new.items ≡ costs.old.items ++ reading_costs world.now set.0) }
{
    for a in 0..member_count(world, set) {
        push_reading_of(costs, world, set, a)?;
    }
    Ok(())
}

/// Puts what the puts of a member cost in each centre at the end.
#[tactic(auto, using(placement_rows::proofs::Loops::loops))]
fn push_writing_of(
    costs: &mut Vec<u128>,
    world: &World,
    set: SetId,
    a: u16,
) -> Result<(), AllocError>
    requires strong { IsStrongSet world.now set.0 }
    requires number { a < member_count world.now set.0 }
    ensures { OnOk result (costs.new.items ≡ costs.old.items ++ map (quorum_puts_cost world.now (rule_of world.now set.0) (member_at world.now set.0 a)) (centres world.now)) }
{
    let rule = world.rule(set);
    let member = member_at(world, set, a);
    for d in 0..world.centre_count() {
        costs.push(quorum_puts_cost(world, &rule, &member, DcId(d)))?;
    }
    Ok(())
}

/// Puts what the puts of all members cost at the end.
#[tactic(auto, using(placement_rows::proofs::Loops::pieces))]
fn push_writing(costs: &mut Vec<u128>, world: &World, set: SetId) -> Result<(), AllocError>
    requires { IsStrongSet world.now set.0 }
    ensures { OnOk result (costs.new.items ≡ costs.old.items ++ writing_costs world.now set.0) }
{
    for a in 0..member_count(world, set) {
        push_writing_of(costs, world, set, a)?;
    }
    Ok(())
}

/// Puts that many variables at the end that cost nothing.
#[tactic(auto, using(placement_rows::proofs::Loops::copies))]
fn push_nothing(costs: &mut Vec<u128>, count: u16) -> Result<(), AllocError>
    ensures { OnOk result (costs.new.items ≡ costs.old.items ++ replicate count 0) }
{
    for _i in 0..count {
        costs.push(0)?;
    }
    Ok(())
}

/// The costs of all variables.
pub(crate) fn set_costs(
    alloc: Global,
    world: &World,
    set: SetId,
    firsts: &FirstCentres,
) -> Result<Vec<u128>, AllocError>
    requires strong { IsStrongSet world.now set.0 }
    requires found { AreFound world.now set.0 firsts.now }
    ensures { IfOk result (λ costs. costs.items ≡ set_costs world.now set.0) }
{
    let mut costs = Vec::with_capacity(alloc, variables(world, set, firsts))?;
    push_storing(&mut costs, world, set)?;
    push_reading(&mut costs, world, set)?;
    push_writing(&mut costs, world, set)?;
    push_nothing(&mut costs, meeting_variables(world, set))?;
    push_provider_costs(&mut costs, world, set, firsts)?;
    Ok(costs)
}
