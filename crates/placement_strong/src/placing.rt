ghost use Rattle.std.specs.Prelude.{◌≡◌, ◌<◌, ◌++◌, length, All, IfOk, OnOk};
ghost use Rattle.std.specs.List.{flat_map};
ghost use Rattle.span_base.specs.DcSet.{meet};
ghost use Rattle.slo_rules.specs.Rules.{IsAllowed};
ghost use Rattle.slo_rules.specs.Cost.{policy_cost};
ghost use Rattle.zero_one.specs.Program.{IsFeasible, value_of};
ghost use Rattle.placement_strong.specs.Programs.{set_program, set_costs};
ghost use Rattle.placement_strong.specs.Placed.{set_bits, write_meeting_bits, placed};
ghost use Rattle.placement_strong.specs.Laws.{IsStrongSet};

use crate::blocks::variables;
use crate::members::{member_count, pairs};
use placement_rows::{FirstCentres, push_provider_bits};
use span_base::{DcId, DcSet, Policy, Quorum, SetId};
use std::alloc::{AllocError, Global};
use workload::World;
use zero_one::Bits;

/// Puts a bit for each centre at the end: whether it is in the set.
#[tactic(auto, using(placement_rows::proofs::Loops::loops))]
fn push_set(bits: &mut Vec<bool>, world: &World, set: &DcSet) -> Result<(), AllocError>
    ensures { OnOk result (bits.new.items ≡ bits.old.items ++ set_bits world.now set.now) }
{
    for d in 0..world.centre_count() {
        bits.push(set.has(DcId(d)))?;
    }
    Ok(())
}

/// Puts the read sets at the end.
fn push_reads(bits: &mut Vec<bool>, world: &World, quorums: &[Quorum]) -> Result<(), AllocError>
    ensures { OnOk result (bits.new.items ≡ bits.old.items ++ flat_map (λ q. set_bits world.now q.read) quorums.now) }
{
    for q in quorums {
        push_set(bits, world, &q.read)?;
    }
    Ok(())
}

/// Puts the write sets at the end.
fn push_writes(bits: &mut Vec<bool>, world: &World, quorums: &[Quorum]) -> Result<(), AllocError>
    ensures { OnOk result (bits.new.items ≡ bits.old.items ++ flat_map (λ q. set_bits world.now q.write) quorums.now) }
{
    for q in quorums {
        push_set(bits, world, &q.write)?;
    }
    Ok(())
}

/// Puts at the end where a read set meets each write set.
fn push_meetings_of(
    bits: &mut Vec<bool>,
    world: &World,
    read: &DcSet,
    quorums: &[Quorum],
) -> Result<(), AllocError>
    ensures { OnOk result (bits.new.items ≡ bits.old.items ++ flat_map (λ p. set_bits world.now (meet read.now p.write)) quorums.now) }
{
    for writer in quorums {
        push_set(bits, world, &read.meet(&writer.write))?;
    }
    Ok(())
}

/// Puts at the end where each read set meets each write set.
fn push_meetings(bits: &mut Vec<bool>, world: &World, quorums: &[Quorum]) -> Result<(), AllocError>
    ensures { OnOk result (bits.new.items ≡ bits.old.items ++ flat_map (λ q. flat_map (λ p. set_bits world.now (meet q.read p.write)) quorums.now) quorums.now) }
{
    for reader in quorums {
        push_meetings_of(bits, world, &reader.read, quorums)?;
    }
    Ok(())
}

/// Puts at the end where the write sets of each pair meet.
fn push_write_meetings(
    bits: &mut Vec<bool>,
    world: &World,
    quorums: &[Quorum],
    pairs: &[(u16, u16)],
) -> Result<(), AllocError>
    requires { All (λ ab. (ab.0 < length quorums.now) × (ab.1 < length quorums.now)) pairs.now }
    ensures { OnOk result (bits.new.items ≡ bits.old.items ++ flat_map (write_meeting_bits world.now quorums.now) pairs.now) }
{
    for pair in pairs {
        let first = &quorums[usize::from(pair.0)];
        let second = &quorums[usize::from(pair.1)];
        push_set(bits, world, &first.write.meet(&second.write))?;
    }
    Ok(())
}

/// The choice that an allowed policy is: 1 for each replica, for each centre of a quorum and for
/// each where two quorums meet, and for each provider with a replica.
pub fn place(alloc: Global, world: &World, set: SetId, policy: &Policy) -> Result<Bits, AllocError>
    requires strong { IsStrongSet world.now set.0 }
    requires allowed { IsAllowed world.now set.0 policy.now }
    ensures bits { IfOk result (λ x. x ≡ placed world.now set.0 policy.now) }
    ensures feasible { IfOk result (IsFeasible (set_program world.now set.0)) }
    ensures value { IfOk result (λ x. value_of (set_costs world.now set.0) x ≡ policy_cost world.now set.0 policy.now) }
{
    let Policy::Strong {
        replicas,
        members,
        ..
    } = policy
    else {
        unreachable!()
    };
    let quorums = members.as_slice();
    let pairs = pairs(alloc, member_count(world, set))?;
    let firsts = FirstCentres::find(world, set);
    let mut bits = Vec::with_capacity(alloc, variables(world, set, &firsts))?;
    push_set(&mut bits, world, replicas)?;
    push_reads(&mut bits, world, quorums)?;
    push_writes(&mut bits, world, quorums)?;
    push_meetings(&mut bits, world, quorums)?;
    push_write_meetings(&mut bits, world, quorums, pairs.as_slice())?;
    push_provider_bits(&mut bits, world, set, &firsts, replicas)?;
    Ok(Bits::from_vec(bits))
}
