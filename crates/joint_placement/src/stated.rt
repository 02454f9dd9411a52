//! What a joint plan loads on the centres, as one may state it.
ghost use Rattle.std.specs.Prelude.{◌≡◌, ◌+◌, ◌<◌, ◌≤◌, ◌^◌, ◌*◌, length, sum_by, zip, All};
ghost use Rattle.workload.specs.Limits.{AreCountsWithin};
ghost use Rattle.workload.specs.World.{IsDemandWithin, centre_count};
ghost use Rattle.joint_placement.specs.Loads.{get_load, put_load, quorum_load, policy_load};
ghost use Rattle.joint_placement.specs.JointPlans.{load_on};

use crate::loads::units;
use crate::plan::JointPlan;
use machine_text::Machines;
use span_base::{DcId, DcSet, Near, Policy, Quorum, SetId};
use workload::{Demand, World};

/// What the gets of a member load on a centre.
fn get_load(unit: u64, dc: DcId, m: &Demand, near: &Near) -> u64
    requires member { AreCountsWithin m.now }
    requires some { 1 ≤ unit }
    requires unit { unit ≤ 10 ^ 9 }
    ensures load { result ≡ get_load unit dc.0 m.now near.now }
    ensures small { result ≤ 2 * 10 ^ 9 }
{
    if near.at.0 == dc.0 {
        units(unit, m.gets)
    } else {
        0
    }
}

/// What the gets of all members load on a centre, each at its primary.
fn gets_load(world: &World, unit: u64, dc: DcId, members: &[Demand], primary: &[Near]) -> u64
    requires some { 1 ≤ unit }
    requires unit { unit ≤ 10 ^ 9 }
    requires few { length members.now ≤ 8 }
    requires within { All (IsDemandWithin (centre_count world.now)) members.now }
    ensures load { result ≡ sum_by (λ pair. get_load unit dc.0 pair.0 pair.1) (zip members.now primary.now) }
    ensures small { result ≤ 8 * (2 * 10 ^ 9) }
{
    let mut total = 0;
    for (m, near) in members.iter().zip(primary) {
        total += get_load(unit, dc, m, near);
    }
    total
}

/// What the puts of a member load on a centre.
fn put_load(unit: u64, dc: DcId, replicas: &DcSet, m: &Demand) -> u64
    requires member { AreCountsWithin m.now }
    requires some { 1 ≤ unit }
    requires unit { unit ≤ 10 ^ 9 }
    ensures load { result ≡ put_load unit dc.0 replicas.now m.now }
    ensures small { result ≤ 2 * 10 ^ 9 }
{
    if replicas.has(dc) {
        units(unit, m.puts)
    } else {
        0
    }
}

/// What the puts of all members load on a centre.
fn puts_load(world: &World, unit: u64, dc: DcId, replicas: &DcSet, members: &[Demand]) -> u64
    requires some { 1 ≤ unit }
    requires unit { unit ≤ 10 ^ 9 }
    requires few { length members.now ≤ 8 }
    requires within { All (IsDemandWithin (centre_count world.now)) members.now }
    ensures load { result ≡ sum_by (put_load unit dc.0 replicas.now) members.now }
    ensures small { result ≤ 8 * (2 * 10 ^ 9) }
{
    let mut total = 0;
    for m in members {
        total += put_load(unit, dc, replicas, m);
    }
    total
}

/// What the requests of a member load on a centre of its quorums.
fn quorum_load(unit: u64, dc: DcId, m: &Demand, q: &Quorum) -> u64
    requires member { AreCountsWithin m.now }
    requires some { 1 ≤ unit }
    requires unit { unit ≤ 10 ^ 9 }
    ensures load { result ≡ quorum_load unit dc.0 m.now q.now }
    ensures small { result ≤ 6 * 10 ^ 9 }
{
    let read = if q.read.has(dc) {
        units(unit, m.gets)
    } else {
        0
    };
    let written = if q.write.has(dc) {
        2 * units(unit, m.puts)
    } else {
        0
    };
    read + written
}

/// What the requests of all members load on a centre of their quorums.
fn quorums_load(world: &World, unit: u64, dc: DcId, members: &[Demand], quorums: &[Quorum]) -> u64
    requires some { 1 ≤ unit }
    requires unit { unit ≤ 10 ^ 9 }
    requires few { length members.now ≤ 8 }
    requires within { All (IsDemandWithin (centre_count world.now)) members.now }
    ensures load { result ≡ sum_by (λ pair. quorum_load unit dc.0 pair.0 pair.1) (zip members.now quorums.now) }
    ensures small { result ≤ 8 * (6 * 10 ^ 9) }
{
    let mut total = 0;
    for (m, q) in members.iter().zip(quorums) {
        total += quorum_load(unit, dc, m, q);
    }
    total
}

/// What the policy of a set loads on a centre.
#[tactic(auto, unfolding(crate::specs::Loads::policy_load))]
fn policy_load(world: &World, unit: u64, dc: DcId, set: SetId, policy: &Policy) -> u64
    requires set { set.0 < length world.now.sets }
    requires some { 1 ≤ unit }
    requires unit { unit ≤ 10 ^ 9 }
    ensures load { result ≡ policy_load world.now unit dc.0 set.0 policy.now }
    ensures small { result ≤ 6 * 10 ^ 10 }
{
    let members = world.members(set);
    match policy {
        Policy::Direct {
            replicas,
            primary,
            ..
        } => {
            gets_load(world, unit, dc, members, primary.as_slice())
                + puts_load(world, unit, dc, replicas, members)
        }
        Policy::Relay {
            replicas,
            primary,
            ..
        } => {
            gets_load(world, unit, dc, members, primary.as_slice())
                + puts_load(world, unit, dc, replicas, members)
        }
        Policy::Strong {
            members: quorums,
            ..
        } => quorums_load(world, unit, dc, members, quorums.as_slice()),
    }
}

/// What all policies of a joint plan load on a centre, in units.
pub fn load_on(world: &World, machines: &Machines, plan: &JointPlan, dc: DcId) -> u64
    requires policies { length plan.now.policies ≡ length world.now.sets }
    ensures { result ≡ load_on world.now machines.now plan.now dc.0 }
{
    let unit = machines.unit();
    let policies = plan.policies();
    let mut total = 0;
    for set in 0..world.sets() {
        total += policy_load(world, unit, dc, SetId(set), &policies[set as usize]);
    }
    total
}
