ghost use Rattle.std.specs.Prelude.{◌≡◌, ◌+◌, ◌*◌, ◌<◌, ◌≤◌, ◌++◌, length, map, IfOk, OnOk};
ghost use Rattle.std.specs.List.{filter};
ghost use Rattle.workload.specs.World.{IsDemandWithin, centre_count, members_of};
ghost use Rattle.slo_rules.specs.Rules.{IsAllowed};
ghost use Rattle.slo_rules.specs.Cost.{policy_cost};
ghost use Rattle.zero_one.specs.Rows.{bit_of};
ghost use Rattle.zero_one.specs.Program.{IsFeasible, value_of};
ghost use Rattle.placement_rows.specs.Centres.{centres, numbered_members};
ghost use Rattle.placement_relay.specs.Relay.{relay_costs};
ghost use Rattle.placement_relay.specs.Programs.{set_program, set_costs};
ghost use Rattle.placement_relay.specs.Placed.{decoded, chosen_replicas, chosen_primary, chosen_parent, chosen_hop, chosen_hops};
ghost use Rattle.placement_relay.specs.Laws.{IsEventualSet};

use crate::variables::{first_read, hop};
use slo_rules::is_read_near;
use span_base::{DcId, DcSet, Hop, Listed, Near, Policy, SetId};
use std::alloc::{AllocError, Global};
use workload::{Demand, Mode, World};
use zero_one::Bits;

/// The centres whose variable is 1.
#[tactic(auto, using(placement_rows::proofs::Loops::folds))]
fn chosen_replicas(world: &World, x: &[bool]) -> DcSet
    requires few { centre_count world.now ≤ 16 }
    requires bits { centre_count world.now ≤ length x.now }
    ensures { result ≡ chosen_replicas world.now x.now }
{
    let mut replicas = DcSet::empty();
    for d in 0..world.centre_count() {
        if x[usize::from(d)] {
            replicas = replicas.with(DcId(d));
        }
    }
    replicas
}

/// The least read-near centre at which the member reads; the member is counted from 0.
fn chosen_primary(world: &World, set: SetId, x: &[bool], a: usize, member: &Demand) -> Near
    requires set { IsEventualSet world.now set.0 }
    requires number { a < length (members_of world.now set.0) }
    requires member { IsDemandWithin (centre_count world.now) member.now }
    requires bits { centre_count world.now + length (members_of world.now set.0) * centre_count world.now ≤ length x.now }
    ensures { result ≡ chosen_primary world.now set.0 x.now (a, member.now) }
{
    let rule = world.rule(set);
    let first = usize::from(first_read(world, a));
    for d in 0..world.centre_count() {
        if is_read_near(world, &rule, member.dc, DcId(d)) && x[first + usize::from(d)] {
            return Near {
                member: member.dc,
                at: DcId(d),
            };
        }
    }
    Near {
        member: member.dc,
        at: DcId(0),
    }
}

/// The primaries of all members.
fn chosen_primaries(
    alloc: Global,
    world: &World,
    set: SetId,
    x: &[bool],
) -> Result<Listed<Near>, AllocError>
    requires set { IsEventualSet world.now set.0 }
    requires bits { centre_count world.now + length (members_of world.now set.0) * centre_count world.now ≤ length x.now }
    ensures { IfOk result (λ primary. primary ≡ map (chosen_primary world.now set.0 x.now) (numbered_members world.now set.0)) }
{
    let mut primary = Listed::new(alloc);
    for (a, member) in world.members(set).iter().enumerate() {
        primary.push(chosen_primary(world, set, x, a, member))?;
    }
    Ok(primary)
}

/// From where a member's writes come to a centre: from the member itself, or from the least centre
/// that passes them on. The member is counted from 0.
fn chosen_parent(world: &World, set: SetId, x: &[bool], a: usize, d: u8) -> u8
    requires set { IsEventualSet world.now set.0 }
    requires number { a < length (members_of world.now set.0) }
    requires centre { d < centre_count world.now }
    requires bits { length (relay_costs world.now set.0) ≤ length x.now }
    ensures { result ≡ chosen_parent world.now set.0 x.now a d }
{
    if x[usize::from(hop(world, set, a, d, d))] {
        return d;
    }
    for p in 0..world.centre_count() {
        if x[usize::from(hop(world, set, a, p, d))] {
            return p;
        }
    }
    0
}

/// Puts the hops of a member at the end, one for each replica.
#[tactic(auto, using(placement_rows::proofs::Loops::kept))]
fn push_chosen_hops(
    hops: &mut Vec<Hop>,
    world: &World,
    set: SetId,
    x: &[bool],
    a: usize,
    member: &Demand,
) -> Result<(), AllocError>
    requires set { IsEventualSet world.now set.0 }
    requires number { a < length (members_of world.now set.0) }
    requires bits { length (relay_costs world.now set.0) ≤ length x.now }
    ensures { OnOk result (hops.new.items ≡ hops.old.items ++ map (chosen_hop world.now set.0 x.now (a, member.now)) (filter (bit_of x.now) (centres world.now))) }
{
    for d in 0..world.centre_count() {
        if x[usize::from(d)] {
            hops.push(Hop {
                member: member.dc,
                child: DcId(d),
                parent: DcId(chosen_parent(world, set, x, a, d)),
            })?;
        }
    }
    Ok(())
}

/// The hops of all members.
fn chosen_hops(
    alloc: Global,
    world: &World,
    set: SetId,
    x: &[bool],
) -> Result<Listed<Hop>, AllocError>
    requires set { IsEventualSet world.now set.0 }
    requires bits { length (relay_costs world.now set.0) ≤ length x.now }
    ensures { IfOk result (λ hops. hops ≡ chosen_hops world.now set.0 x.now) }
{
    let mut hops = Vec::new(alloc);
    for (a, member) in world.members(set).iter().enumerate() {
        push_chosen_hops(&mut hops, world, set, x, a, member)?;
    }
    Ok(Listed::from_vec(hops))
}

/// The policy that a choice is: the replicas whose variable is 1, for each member the least
/// read-near centre at which it reads, and in a relay set for each member and replica the member
/// itself where it writes there, else the least centre that passes its writes on.
pub fn decode(alloc: Global, world: &World, set: SetId, x: &Bits) -> Result<Policy, AllocError>
    requires set { IsEventualSet world.now set.0 }
    requires feasible { IsFeasible (set_program world.now set.0) x.now }
    ensures policy { IfOk result (λ policy. policy ≡ decoded world.now set.0 x.now) }
    ensures allowed { IfOk result (IsAllowed world.now set.0) }
    ensures cost { IfOk result (λ policy. policy_cost world.now set.0 policy ≤ value_of (set_costs world.now set.0) x.now) }
{
    let x = x.as_slice();
    let rule = world.rule(set);
    let replicas = chosen_replicas(world, x);
    let primary = chosen_primaries(alloc, world, set, x)?;
    match rule.mode {
        Mode::Direct => Ok(Policy::Direct {
            f: rule.f,
            replicas,
            primary,
        }),
        Mode::Relay => Ok(Policy::Relay {
            f: rule.f,
            replicas,
            primary,
            parent: chosen_hops(alloc, world, set, x)?,
        }),
        Mode::Strong => unreachable!(),
    }
}
