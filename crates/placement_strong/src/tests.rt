//! Programs, choices and policies of small worlds.
ghost use Rattle.std.specs.Prelude.{◌≤◌, IfOk};
ghost use Rattle.span_base.specs.Name.{IsName};
ghost use Rattle.placement_strong.specs.Laws.{IsStrongSet};

use crate::{decode, encode, is_strong_set, place, variable_count};
use price_tables::{DcPrice, Fare, Tables};
use slo_rules::{cost, fault_of, fits};
use span_base::{DcId, DcSet, Listed, Policy, Quorum, SetId, Word, read_name};
use std::alloc::{AllocError, Global};
use std::test::Fail;
use workload::{Demand, Mode, SetRule, Workload, World};
use zero_one::{Bits, Program};

const SET: SetId = SetId(0);

fn name(alloc: Global, text: &str) -> Result<Word, Fail>
    ensures { IfOk result IsName }
{
    let name = Word::from_string(String::from_str(alloc, text)?);
    read_name(name.as_bytes())?;
    Ok(name)
}

/// Adds centres, each with its provider and its prices of a KiB, a get and a put.
fn add_centres(
    alloc: Global,
    tables: &mut Tables,
    centres: &[(&str, &str, u64, u64, u64)],
) -> Result<(), Fail> {
    for (centre, provider, store, get, put) in centres {
        let price = DcPrice {
            store: *store,
            get: *get,
            put: *put,
        };
        tables.add_dc(alloc, &name(alloc, centre)?, &name(alloc, provider)?, price)?;
    }
    Ok(())
}

/// Adds a link from each of these centres to each: within one 1 ms, else 20 ms, and a price of a
/// KiB.
fn add_links(alloc: Global, tables: &mut Tables, centres: &[&str]) -> Result<(), Fail> {
    for from in centres {
        for to in centres {
            let fare = if from == to {
                Fare {
                    transfer: 0,
                    latency: 1,
                }
            } else {
                Fare {
                    transfer: 1,
                    latency: 20,
                }
            };
            tables.add_link(&name(alloc, from)?, &name(alloc, to)?, fare)?;
        }
    }
    Ok(())
}

/// Three centres of three prices, of two providers.
fn three_centres(alloc: Global) -> Result<Tables, Fail> {
    let mut tables = Tables::make(alloc)?;
    let centres = [
        ("x", "p", 3, 2, 3),
        ("y", "p", 1, 4, 1),
        ("z", "q", 2, 1, 9),
    ];
    add_centres(alloc, &mut tables, &centres)?;
    add_links(alloc, &mut tables, &["x", "y", "z"])?;
    Ok(tables)
}

/// One strong set with one member, in the first centre, that stands no failure and asks for so many
/// providers.
fn one_set(alloc: Global, providers: u8) -> Result<Workload, Fail>
    requires { 1 ≤ providers }
{
    let rule = SetRule {
        mode: Mode::Strong,
        f: 0,
        read_slo: 20,
        write_slo: 40,
        stored: 10,
        object: 1,
        providers,
    };
    let member = Demand {
        dc: DcId(0),
        gets: 5,
        puts: 2,
    };
    let set = name(alloc, "s")?;
    let mut load = Workload::make(alloc);
    load.add_set(alloc, &set, rule)?;
    load.add_demand(&set, member)?;
    Ok(load)
}

/// The world of these, whose one set is strong.
fn world_of(tables: Tables, load: Workload) -> Result<World, Fail>
    ensures { IfOk result (λ world. IsStrongSet world 0) }
{
    if !load.are_in_centres(tables.count()) {
        return Err(Fail::new("a member in no centre"));
    }
    let world = World::make(tables, load)?;
    if world.sets() == 0 || !is_strong_set(&world, SET) {
        return Err(Fail::new("no strong set"));
    }
    Ok(world)
}

/// A choice by the bits of a number.
fn choice(alloc: Global, count: usize, bits: u32) -> Result<Bits, AllocError> {
    let mut x = Vec::with_capacity(alloc, count)?;
    for i in 0..count {
        x.push(i < 32 && bits >> i & 1 == 1)?;
    }
    Ok(Bits::from_vec(x))
}

/// The least value of all choices that meet a program.
fn least_value(alloc: Global, program: &Program) -> Result<u128, AllocError> {
    let count = program.costs().len();
    let mut least = u128::MAX;
    for bits in 0..1_u32 << count.min(16) {
        let x = choice(alloc, count, bits)?;
        if x.len() == count && program.broken_row(&x).is_none() {
            least = least.min(program.value(&x));
        }
    }
    Ok(least)
}

/// A policy of the one member, with these sets.
fn policy(alloc: Global, read: u16, write: u16) -> Result<Policy, AllocError> {
    let quorum = Quorum {
        dc: DcId(0),
        read: DcSet::from_bits(read),
        write: DcSet::from_bits(write),
    };
    Ok(Policy::Strong {
        f: 0,
        replicas: DcSet::from_bits(read | write),
        members: Listed::from_vec(vec![in alloc; quorum]?),
    })
}

/// The least cost of all policies over three centres.
fn least_cost(alloc: Global, world: &World) -> Result<u128, AllocError>
    requires { IsStrongSet world.now 0 }
{
    let mut least = u128::MAX;
    for sets in 0..64_u16 {
        let policy = policy(alloc, sets % 8, sets / 8)?;
        if fits(world, SET, &policy) && fault_of(world, SET, &policy).is_none() {
            least = least.min(cost(world, SET, &policy));
        }
    }
    Ok(least)
}

/// Whether an allowed policy has these bits, and they give the policy.
fn there_and_back(
    alloc: Global,
    world: &World,
    policy: &Policy,
    bits: &[bool],
) -> Result<bool, AllocError>
    requires { IsStrongSet world.now 0 }
{
    if fault_of(world, SET, policy).is_some() {
        return Ok(false);
    }
    let x = place(alloc, world, SET, policy)?;
    let back = decode(alloc, world, SET, &x)?;
    Ok(x.as_slice() == bits && back == *policy)
}

#[test]
fn policies_are_choices(rt: HostRuntime) -> Result<(), Fail> {
    let alloc = rt.alloc();
    let world = world_of(three_centres(alloc)?, one_set(alloc, 2)?)?;
    let bits = [
        true, false, true, true, false, false, true, false, true, true, false, false, true, true,
    ];
    let policy = policy(alloc, 1, 5)?;
    assert!(rt; there_and_back(alloc, &world, &policy, bits.as_slice())?);
    Ok(())
}

#[test]
fn least_value_is_least_cost(rt: HostRuntime) -> Result<(), Fail> {
    let alloc = rt.alloc();
    for (providers, variables, least) in [(1, 12, 47), (2, 14, 74)] {
        let world = world_of(three_centres(alloc)?, one_set(alloc, providers)?)?;
        let program = encode(alloc, &world, SET)?;
        assert_eq!(rt;
            variable_count(&world, SET),
            variables,
            "providers {providers}"
        );
        assert_eq!(rt;
            least_value(alloc, &program)?,
            least,
            "providers {providers}"
        );
        assert_eq!(rt; least_cost(alloc, &world)?, least, "providers {providers}");
    }
    Ok(())
}
