//! The variables and rows of a set that asks for more than one provider.
ghost use Rattle.std.specs.Prelude.{◌≡◌, ◌<◌, ◌≤◌, ◌++◌, if◌then◌else◌, true, length, All, IfOk, OnOk};
ghost use Rattle.std.specs.List.{list_any};
ghost use Rattle.span_base.specs.DcSet.{centres_of};
ghost use Rattle.workload.specs.World.{centre_count};
ghost use Rattle.slo_rules.specs.Rules.{lies_below};
ghost use Rattle.placement_rows.specs.Providers.{providers, asks_providers, provider_costs, provider_rows, provider_bits};
ghost use Rattle.placement_rows.specs.FirstCentres.{AreFound, is_same, kept_by};

use crate::first_centres::{FirstCentres, asks_providers};
use crate::rows::{minus, plus};
use span_base::{CENTRES, DcId, DcSet, Listed, SetId};
use std::alloc::{AllocError, Global};
use workload::World;
use zero_one::Row;

/// Whether one of the replicas is in a centre of the provider with this first centre.
#[tactic(auto, using(crate::proofs::ProviderLoops::among))]
fn has_replica(firsts: &FirstCentres, replicas: &DcSet, first_centre: u8) -> bool
    requires { first_centre < 16 }
    ensures { result ≡ list_any (is_same firsts.now first_centre) (centres_of replicas.now) }
{
    for d in 0..CENTRES {
        if replicas.has(DcId(d)) && firsts.is_same(first_centre, d) {
            return true;
        }
    }
    false
}

/// The row that says that the provider with this first centre keeps a replica where its variable is
/// 1. Each variable that keeps a replica stands beside its centre.
#[tactic(auto, using(crate::proofs::ProviderLoops::items))]
fn keeps_replica(
    alloc: Global,
    firsts: &FirstCentres,
    keeping: &[(u16, u8)],
    var: u16,
    first_centre: u8,
) -> Result<Row, AllocError>
    requires first_centre { first_centre < 16 }
    requires few { length keeping.now ≤ 256 }
    requires centres { All (λ k. k.1 < 16) keeping.now }
    ensures { IfOk result (λ row. row ≡ kept_by firsts.now keeping.now (var, first_centre)) }
{
    let mut entries = Vec::with_capacity(alloc, keeping.len() + 1)?;
    for kept in keeping {
        if firsts.is_same(first_centre, kept.1) {
            entries.push(plus(kept.0))?;
        }
    }
    entries.push(minus(var))?;
    Ok(Row {
        entries: Listed::from_vec(entries),
        bound: 0,
    })
}

/// How many variables of providers a set's program has, at most 16: none where the set asks for one
/// provider.
#[tactic(auto, using(crate::proofs::ProviderLoops::numbered))]
pub fn provider_variables(world: &World, set: SetId, firsts: &FirstCentres) -> u16
    requires known { set.0 < length world.now.sets }
    requires found { AreFound world.now set.0 firsts.now }
    ensures count { result ≡ (if asks_providers world.now set.0 then length (providers world.now) else 0) }
    ensures few { result ≤ 16 }
{
    let mut count = 0;
    if !asks_providers(world, set) {
        return count;
    }
    for d in 0..world.centre_count() {
        if firsts.is_first(d) {
            count += 1;
        }
    }
    count
}

/// Puts what the variables of providers cost at the end, which is nothing: none where the set asks
/// for one provider.
#[tactic(auto, using(crate::proofs::ProviderLoops::made))]
pub fn push_provider_costs(
    costs: &mut Vec<u128>,
    world: &World,
    set: SetId,
    firsts: &FirstCentres,
) -> Result<(), AllocError>
    requires known { set.0 < length world.now.sets }
    requires found { AreFound world.now set.0 firsts.now }
    ensures { OnOk result (costs.new.items ≡ costs.old.items ++ provider_costs world.now set.0) }
{
    if !asks_providers(world, set) {
        return Ok(());
    }
    for d in 0..world.centre_count() {
        if firsts.is_first(d) {
            costs.push(0)?;
        }
    }
    Ok(())
}

/// Puts a bit for each provider at the end: whether one of the replicas lies with it. There is none
/// where the set asks for one provider.
#[tactic(auto, using(crate::proofs::ProviderLoops::made))]
pub fn push_provider_bits(
    bits: &mut Vec<bool>,
    world: &World,
    set: SetId,
    firsts: &FirstCentres,
    replicas: &DcSet,
) -> Result<(), AllocError>
    requires known { set.0 < length world.now.sets }
    requires found { AreFound world.now set.0 firsts.now }
    requires below { lies_below (centre_count world.now) replicas.now ≡ true }
    ensures { OnOk result (bits.new.items ≡ bits.old.items ++ provider_bits world.now set.0 (centres_of replicas.now)) }
{
    if !asks_providers(world, set) {
        return Ok(());
    }
    for d in 0..world.centre_count() {
        if firsts.is_first(d) {
            bits.push(has_replica(firsts, replicas, d))?;
        }
    }
    Ok(())
}

/// Puts the rows of providers at the end, whose variables begin with `first`. Each variable that
/// keeps a replica stands beside its centre.
#[tactic(auto, using(crate::proofs::ProviderLoops::numbered))]
pub fn push_provider_rows(
    rows: &mut Vec<Row>,
    alloc: Global,
    world: &World,
    set: SetId,
    firsts: &FirstCentres,
    first: u16,
    keeping: &[(u16, u8)],
) -> Result<(), AllocError>
    requires known { set.0 < length world.now.sets }
    requires asked { asks_providers world.now set.0 ≡ true }
    requires found { AreFound world.now set.0 firsts.now }
    requires first { first ≤ 4096 }
    requires few { length keeping.now ≤ 256 }
    requires centres { All (λ k. k.1 < centre_count world.now) keeping.now }
    ensures { OnOk result (rows.new.items ≡ rows.old.items ++ provider_rows world.now set.0 first keeping.now) }
{
    let mut var = first;
    let mut sum = Vec::with_capacity(alloc, usize::from(world.centre_count()))?;
    for d in 0..world.centre_count() {
        if firsts.is_first(d) {
            rows.push(keeps_replica(alloc, firsts, keeping, var, d)?)?;
            sum.push(plus(var))?;
            var += 1;
        }
    }
    rows.push(Row {
        entries: Listed::from_vec(sum),
        bound: i32::from(world.rule(set).providers),
    })?;
    Ok(())
}
