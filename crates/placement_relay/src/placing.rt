ghost use Rattle.std.specs.Prelude.{◌≡◌, ◌+◌, ◌*◌, ◌<◌, ◌++◌, map, replicate, ◌==◌, false, All, IfOk, OnOk};
ghost use Rattle.std.specs.List.{flat_map};
ghost use Rattle.span_base.specs.DcSet.{has};
ghost use Rattle.workload.specs.World.{centre_count};
ghost use Rattle.slo_rules.specs.Rules.{IsAllowed};
ghost use Rattle.slo_rules.specs.Cost.{policy_cost};
ghost use Rattle.zero_one.specs.Program.{IsFeasible, value_of};
ghost use Rattle.placement_rows.specs.Centres.{centres};
ghost use Rattle.placement_relay.specs.Programs.{set_program, set_costs};
ghost use Rattle.placement_relay.specs.Placed.{placed, reading_bits, hop_bits, mode_bits};
ghost use Rattle.placement_relay.specs.HopPlaces.{AreNumbers, IsHopOf};
ghost use Rattle.placement_relay.specs.Laws.{IsEventualSet};

use crate::variables::most_variables;
use placement_rows::{FirstCentres, push_provider_bits};
use span_base::{DcId, DcSet, Hop, Near, Policy, SetId};
use std::alloc::{AllocError, Global};
use workload::World;
use zero_one::Bits;

/// Puts a bit for each centre at the end: whether it keeps a replica.
#[tactic(auto, using(placement_rows::proofs::Loops::loops))]
fn push_replicas(bits: &mut Vec<bool>, world: &World, replicas: &DcSet) -> Result<(), AllocError>
    ensures { OnOk result (bits.new.items ≡ bits.old.items ++ map (has replicas.now) (centres world.now)) }
{
    for d in 0..world.centre_count() {
        bits.push(replicas.has(DcId(d)))?;
    }
    Ok(())
}

/// Puts a bit for each centre at the end: whether it is the primary.
#[tactic(auto, using(placement_rows::proofs::Loops::loops))]
fn push_primary(bits: &mut Vec<bool>, world: &World, primary: DcId) -> Result<(), AllocError>
    ensures { OnOk result (bits.new.items ≡ bits.old.items ++ map (λ d. primary.0 == d) (centres world.now)) }
{
    for d in 0..world.centre_count() {
        bits.push(primary.0 == d)?;
    }
    Ok(())
}

/// Puts a bit for each primary and each centre at the end: whether it is the primary.
fn push_primaries(bits: &mut Vec<bool>, world: &World, primary: &[Near]) -> Result<(), AllocError>
    ensures { OnOk result (bits.new.items ≡ bits.old.items ++ flat_map (λ near. map (λ d. near.at.0 == d) (centres world.now)) primary.now) }
{
    for near in primary {
        push_primary(bits, world, near.at)?;
    }
    Ok(())
}

/// The members' numbers, each at the member's centre.
fn member_numbers(world: &World, set: SetId) -> [u8; 16]
    requires { IsEventualSet world.now set.0 }
    ensures { AreNumbers world.now set.0 result }
{
    let _count = world.centre_count();
    let mut numbers = [0; 16];
    for (a, member) in world.members(set).iter().enumerate() {
        numbers[usize::from(member.dc.0)] = a as u8;
    }
    numbers
}

/// Puts that many bits at the end that are 0.
#[tactic(auto, using(placement_rows::proofs::Loops::copies))]
fn push_zeros(bits: &mut Vec<bool>, count: usize) -> Result<(), AllocError>
    ensures { OnOk result (bits.new.items ≡ bits.old.items ++ replicate count false) }
{
    for _i in 0..count {
        bits.push(false)?;
    }
    Ok(())
}

/// Where the bit of a hop stands among those of all hops; the member is counted from 0.
fn hop_place(world: &World, a: u8, p: u8, d: u8) -> usize
    requires number { a < 8 }
    requires from { p < centre_count world.now }
    requires to { d < centre_count world.now }
    ensures place { result ≡ a * (centre_count world.now * centre_count world.now) + (p * centre_count world.now + d) }
    ensures small { result < 2048 }
{
    let n = usize::from(world.centre_count());
    usize::from(a) * (n * n) + (usize::from(p) * n + usize::from(d))
}

/// Puts the bits of the hops of all members at the end: one for each member and two centres, of
/// which each hop's own is 1.
fn push_hops(
    bits: &mut Vec<bool>,
    world: &World,
    set: SetId,
    hops: &[Hop],
) -> Result<(), AllocError>
    requires set { IsEventualSet world.now set.0 }
    requires hops { All (IsHopOf world.now set.0) hops.now }
    ensures { OnOk result (bits.new.items ≡ bits.old.items ++ hop_bits world.now set.0 hops.now) }
{
    let n = usize::from(world.centre_count());
    let numbers = member_numbers(world, set);
    let first = bits.len();
    push_zeros(bits, world.members(set).len() * (n * n))?;
    for hop in hops {
        let a = numbers[usize::from(hop.member.0)];
        bits[first + hop_place(world, a, hop.parent.0, hop.child.0)] = true;
    }
    Ok(())
}

/// Puts the bits of where replicas are kept and where each member reads at the end.
fn push_reading(
    bits: &mut Vec<bool>,
    world: &World,
    replicas: &DcSet,
    primary: &[Near],
) -> Result<(), AllocError>
    ensures { OnOk result (bits.new.items ≡ bits.old.items ++ reading_bits world.now replicas.now primary.now) }
{
    push_replicas(bits, world, replicas)?;
    push_primaries(bits, world, primary)
}

/// Puts the bits of the mode's own variables at the end. A strong policy has none here.
fn push_mode_bits(
    bits: &mut Vec<bool>,
    world: &World,
    set: SetId,
    policy: &Policy,
) -> Result<(), AllocError>
    requires set { IsEventualSet world.now set.0 }
    requires allowed { IsAllowed world.now set.0 policy.now }
    ensures { OnOk result (bits.new.items ≡ bits.old.items ++ mode_bits world.now set.0 policy.now) }
{
    match policy {
        Policy::Direct {
            replicas,
            primary,
            ..
        } => push_reading(bits, world, replicas, primary.as_slice()),
        Policy::Relay {
            replicas,
            primary,
            parent,
            ..
        } => {
            push_reading(bits, world, replicas, primary.as_slice())?;
            push_hops(bits, world, set, parent.as_slice())
        }
        Policy::Strong { .. } => Ok(()),
    }
}

/// The choice that an allowed policy is: 1 for each replica, for each member's primary, in a relay
/// set for each hop, and for each provider with a replica.
pub fn place(alloc: Global, world: &World, set: SetId, policy: &Policy) -> Result<Bits, AllocError>
    requires set { IsEventualSet world.now set.0 }
    requires allowed { IsAllowed world.now set.0 policy.now }
    ensures bits { IfOk result (λ x. x ≡ placed world.now set.0 policy.now) }
    ensures feasible { IfOk result (IsFeasible (set_program world.now set.0)) }
    ensures value { IfOk result (λ x. value_of (set_costs world.now set.0) x ≡ policy_cost world.now set.0 policy.now) }
{
    let mut bits = Vec::with_capacity(alloc, most_variables(world, set))?;
    push_mode_bits(&mut bits, world, set, policy)?;
    let firsts = FirstCentres::find(world, set);
    push_provider_bits(&mut bits, world, set, &firsts, &policy.replicas())?;
    Ok(Bits::from_vec(bits))
}
