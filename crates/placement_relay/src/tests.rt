//! Programs, choices and policies of small worlds.
ghost use Rattle.placement_relay.specs.Laws.{IsEventualSet};

use crate::worlds::{three_centres, two_centres};
use crate::{decode, encode, place};
use slo_rules::{cost, fault_of, fits};
use span_base::{DcId, DcSet, Hop, Listed, Near, Policy, SetId};
use std::alloc::{AllocError, Global};
use std::test::Fail;
use workload::World;
use zero_one::{Bits, Program};

const SET: SetId = SetId(0);

/// A policy with the primary of the one member.
fn at(alloc: Global, bits: u16, primary: u8) -> Result<Policy, AllocError> {
    let near = Near {
        member: DcId(0),
        at: DcId(primary),
    };
    Ok(Policy::Direct {
        f: 0,
        replicas: DcSet::from_bits(bits),
        primary: Listed::from_vec(vec![in alloc; near]?),
    })
}

/// Whether an allowed policy has these bits, and they give the policy.
fn there_and_back(
    alloc: Global,
    world: &World,
    policy: &Policy,
    bits: &[bool],
) -> Result<bool, AllocError>
    requires { IsEventualSet world.now 0 }
{
    if fault_of(world, SET, policy).is_some() {
        return Ok(false);
    }
    let x = place(alloc, world, SET, policy)?;
    let back = decode(alloc, world, SET, &x)?;
    Ok(x.as_slice() == bits && back == *policy)
}

#[test]
fn policies_are_choices(rt: HostRuntime) -> Result<(), Fail> {
    let alloc = rt.alloc();
    let world = two_centres(alloc, 1)?;
    assert!(rt; encode(alloc, &world, SET)?.costs() == [1028, 152, 50, 110].as_slice());
    for (replicas, primary, bits) in [
        (1, 0, [true, false, true, false]),
        (2, 1, [false, true, false, true]),
        (3, 0, [true, true, true, false]),
    ] {
        let policy = at(alloc, replicas, primary)?;
        assert!(rt; there_and_back(alloc, &world, &policy, bits.as_slice())?);
    }
    Ok(())
}

#[test]
fn two_providers_are_chosen(rt: HostRuntime) -> Result<(), Fail> {
    let alloc = rt.alloc();
    let world = two_centres(alloc, 2)?;
    assert!(rt; encode(alloc, &world, SET)?.costs() == [1028, 152, 50, 110, 0, 0].as_slice());
    let policy = at(alloc, 3, 0)?;
    let bits = [true, true, true, false, true, true];
    assert!(rt; there_and_back(alloc, &world, &policy, bits.as_slice())?);
    Ok(())
}

/// The relay policy of the three centres with this number: its replicas, then the primary of the one
/// member, then the parent for each centre.
fn relay_policy(alloc: Global, number: u16) -> Result<Policy, AllocError> {
    let replicas = DcSet::from_bits(number % 8);
    let near = Near {
        member: DcId(0),
        at: DcId((number / 8 % 3) as u8),
    };
    let mut rest = number / 24;
    let mut parent = Listed::new(alloc);
    for d in 0..3 {
        if replicas.has(DcId(d)) {
            parent.push(Hop {
                member: DcId(0),
                child: DcId(d),
                parent: DcId((rest % 3) as u8),
            })?;
        }
        rest /= 3;
    }
    Ok(Policy::Relay {
        f: 0,
        replicas,
        primary: Listed::from_vec(vec![in alloc; near]?),
        parent,
    })
}

/// The least cost of an allowed policy of the three centres.
fn least_cost(alloc: Global, world: &World) -> Result<u128, AllocError>
    requires { IsEventualSet world.now 0 }
{
    let mut least = u128::MAX;
    for number in 0..8 * 3 * 27 {
        let policy = relay_policy(alloc, number)?;
        if fault_of(world, SET, &policy).is_none() && fits(world, SET, &policy) {
            least = least.min(cost(world, SET, &policy));
        }
    }
    Ok(least)
}

/// The choice whose bits are the last ones of a number, the least first.
fn choice(alloc: Global, number: u32, count: usize) -> Result<Bits, AllocError> {
    let mut bits = Vec::with_capacity(alloc, count)?;
    let mut rest = number;
    for _ in 0..count {
        bits.push(rest % 2 == 1)?;
        rest /= 2;
    }
    Ok(Bits::from_vec(bits))
}

/// The least value of a choice that meets the program of the three centres.
fn least_value(alloc: Global, program: &Program) -> Result<u128, AllocError> {
    let mut least = u128::MAX;
    for number in 0..1 << 15 {
        let x = choice(alloc, number, program.costs().len())?;
        if x.as_slice().len() == program.costs().len() && program.broken_row(&x).is_none() {
            least = least.min(program.value(&x));
        }
    }
    Ok(least)
}

#[test]
fn a_relayed_hop_is_least(rt: HostRuntime) -> Result<(), Fail> {
    let alloc = rt.alloc();
    let world = three_centres(alloc)?;
    let program = encode(alloc, &world, SET)?;
    assert_eq!(rt; program.costs().len(), 15);
    assert_eq!(rt; least_value(alloc, &program)?, 22);
    assert_eq!(rt; least_cost(alloc, &world)?, 22);
    Ok(())
}

#[test]
fn a_relay_policy_is_a_choice(rt: HostRuntime) -> Result<(), Fail> {
    let alloc = rt.alloc();
    let world = three_centres(alloc)?;
    // Replicas in `b` and `c`, reads at `c`, and `b` passes writes on to `c`.
    let policy = relay_policy(alloc, 6 + 8 * 2 + 24 * (3 + 9))?;
    let no = false;
    let yes = true;
    let bits = [
        no, yes, yes, no, no, yes, no, no, no, no, yes, yes, no, no, no,
    ];
    assert!(rt; there_and_back(alloc, &world, &policy, bits.as_slice())?);
    Ok(())
}
