//! What a policy costs for a billing period, in pico-dollars.
ghost use Rattle.std.specs.Prelude.{◌≡◌, ◌+◌, ◌*◌, ◌^◌, ◌<◌, ◌≤◌, true, length, sum_by, All};
ghost use Rattle.span_base.specs.DcSet.{centres_of};
ghost use Rattle.workload.specs.Limits.{IsRuleWithin, AreCountsWithin};
ghost use Rattle.workload.specs.World.{IsDemandWithin, centre_count};
ghost use Rattle.slo_rules.specs.Rules.{fits_set};
ghost use Rattle.slo_rules.specs.Cost.{storing_cost, gets_cost, quorum_puts_cost, reading_cost, direct_cost, source_of, hop_cost, hops_cost, hops_of, quorum_cost, quorum_costs, request_cost, policy_cost};

use crate::charges::{gets_cost, puts_cost, quorum_puts_cost, stored_cost};
use span_base::{CENTRES, DcId, DcSet, Hop, Near, Policy, Quorum, SetId};
use workload::{Demand, SetRule, World};

#[tactic(auto, using(crate::proofs::Centres::centre_sums))]
fn storing_cost(world: &World, rule: &SetRule, replicas: &DcSet) -> u128
    requires { IsRuleWithin rule.now }
    ensures cost { result ≡ storing_cost world.now rule.now replicas.now }
    ensures small { result ≤ 16 * 10 ^ 21 }
{
    let mut total = 0;
    for d in 0..CENTRES {
        if replicas.has(DcId(d)) {
            total += stored_cost(world, rule, DcId(d));
        }
    }
    total
}

#[tactic(auto, using(crate::proofs::Centres::centre_sums))]
fn direct_cost(world: &World, rule: &SetRule, replicas: &DcSet, m: &Demand) -> u128
    requires rule { IsRuleWithin rule.now }
    requires member { AreCountsWithin m.now }
    ensures cost { result ≡ direct_cost world.now rule.now replicas.now m.now }
    ensures small { result ≤ 16 * 10 ^ 24 }
{
    let mut total = 0;
    for d in 0..CENTRES {
        if replicas.has(DcId(d)) {
            total += puts_cost(world, rule, m, m.dc, DcId(d));
        }
    }
    total
}

/// What the puts of all members cost that write to every replica themselves.
fn direct_costs(world: &World, rule: &SetRule, replicas: &DcSet, members: &[Demand]) -> u128
    requires rule { IsRuleWithin rule.now }
    requires few { length members.now ≤ 8 }
    requires within { All (IsDemandWithin (centre_count world.now)) members.now }
    ensures cost { result ≡ sum_by (direct_cost world.now rule.now replicas.now) members.now }
    ensures small { result ≤ 8 * (16 * 10 ^ 24) }
{
    let mut total = 0;
    for m in members {
        total += direct_cost(world, rule, replicas, m);
    }
    total
}

/// What the gets of the members cost, each at its primary.
fn reading_cost(world: &World, rule: &SetRule, members: &[Demand], primary: &[Near]) -> u128
    requires rule { IsRuleWithin rule.now }
    requires few { length members.now ≤ 8 }
    requires within { All (IsDemandWithin (centre_count world.now)) members.now }
    ensures cost { result ≡ reading_cost world.now rule.now members.now primary.now }
    ensures small { result ≤ 8 * 10 ^ 24 }
{
    let mut total = 0;
    for (m, near) in members.iter().zip(primary) {
        total += gets_cost(world, rule, m, near.at);
    }
    total
}

/// Where a hop's put comes from: the member itself, or the parent.
fn source_of(hop: &Hop) -> DcId
    ensures { result.0 ≡ source_of hop.now }
{
    if hop.parent.0 == hop.child.0 {
        hop.member
    } else {
        hop.parent
    }
}

/// What the puts of a member cost that go along a hop: nothing where it is another member's.
fn hop_cost(world: &World, rule: &SetRule, m: &Demand, hop: &Hop) -> u128
    requires rule { IsRuleWithin rule.now }
    requires member { AreCountsWithin m.now }
    ensures cost { result ≡ hop_cost world.now rule.now m.now hop.now }
    ensures small { result ≤ 10 ^ 24 }
{
    if hop.member.0 == m.dc.0 {
        puts_cost(world, rule, m, source_of(hop), hop.child)
    } else {
        0
    }
}

/// What the puts of a member cost that go along its hops.
fn hops_cost(world: &World, rule: &SetRule, m: &Demand, hops: &[Hop]) -> u128
    requires rule { IsRuleWithin rule.now }
    requires member { AreCountsWithin m.now }
    requires few_hops { length hops.now ≤ 128 }
    ensures cost { result ≡ hops_cost world.now rule.now hops.now m.now }
    ensures small { result ≤ 128 * 10 ^ 24 }
{
    let mut total = 0;
    for hop in hops {
        total += hop_cost(world, rule, m, hop);
    }
    total
}

/// What the puts of all members cost that go along hops.
fn relay_costs(world: &World, rule: &SetRule, members: &[Demand], hops: &[Hop]) -> u128
    requires rule { IsRuleWithin rule.now }
    requires few { length members.now ≤ 8 }
    requires within { All (IsDemandWithin (centre_count world.now)) members.now }
    requires few_hops { length hops.now ≤ 128 }
    ensures cost { result ≡ sum_by (hops_cost world.now rule.now hops.now) members.now }
    ensures small { result ≤ 8 * (128 * 10 ^ 24) }
{
    let mut total = 0;
    for m in members {
        total += hops_cost(world, rule, m, hops);
    }
    total
}

/// What the gets of a member cost that reads at each centre of a set.
#[tactic(auto, using(crate::proofs::Centres::centre_sums))]
fn read_set_cost(world: &World, rule: &SetRule, m: &Demand, set: &DcSet) -> u128
    requires rule { IsRuleWithin rule.now }
    requires member { AreCountsWithin m.now }
    ensures cost { result ≡ sum_by (gets_cost world.now rule.now m.now) (centres_of set.now) }
    ensures small { result ≤ 16 * 10 ^ 24 }
{
    let mut total = 0;
    for d in 0..CENTRES {
        if set.has(DcId(d)) {
            total += gets_cost(world, rule, m, DcId(d));
        }
    }
    total
}

/// What the puts of a member cost that writes at each centre of a set.
#[tactic(auto, using(crate::proofs::Centres::centre_sums))]
fn write_set_cost(world: &World, rule: &SetRule, m: &Demand, set: &DcSet) -> u128
    requires rule { IsRuleWithin rule.now }
    requires member { AreCountsWithin m.now }
    ensures cost { result ≡ sum_by (quorum_puts_cost world.now rule.now m.now) (centres_of set.now) }
    ensures small { result ≤ 16 * (2 * 10 ^ 24) }
{
    let mut total = 0;
    for d in 0..CENTRES {
        if set.has(DcId(d)) {
            total += quorum_puts_cost(world, rule, m, DcId(d));
        }
    }
    total
}

fn quorum_cost(world: &World, rule: &SetRule, m: &Demand, q: &Quorum) -> u128
    requires rule { IsRuleWithin rule.now }
    requires within { IsDemandWithin (centre_count world.now) m.now }
    ensures cost { result ≡ quorum_cost world.now rule.now m.now q.now }
    ensures small { result ≤ 48 * 10 ^ 24 }
{
    read_set_cost(world, rule, m, &q.read) + write_set_cost(world, rule, m, &q.write)
}

/// What the requests of all members cost that go to quorums.
fn quorum_costs(world: &World, rule: &SetRule, members: &[Demand], quorums: &[Quorum]) -> u128
    requires rule { IsRuleWithin rule.now }
    requires few { length members.now ≤ 8 }
    requires within { All (IsDemandWithin (centre_count world.now)) members.now }
    ensures cost { result ≡ quorum_costs world.now rule.now members.now quorums.now }
    ensures small { result ≤ 8 * (48 * 10 ^ 24) }
{
    let mut total = 0;
    for (m, q) in members.iter().zip(quorums) {
        total += quorum_cost(world, rule, m, q);
    }
    total
}

/// What the requests of a set cost under a policy.
fn request_cost(world: &World, rule: &SetRule, members: &[Demand], policy: &Policy) -> u128
    requires rule { IsRuleWithin rule.now }
    requires few { length members.now ≤ 8 }
    requires within { All (IsDemandWithin (centre_count world.now)) members.now }
    requires few_hops { length (hops_of policy.now) ≤ 128 }
    ensures cost { result ≡ request_cost world.now rule.now members.now policy.now }
    ensures small { result ≤ 10 ^ 28 }
{
    match policy {
        Policy::Direct {
            replicas,
            primary,
            ..
        } => {
            reading_cost(world, rule, members, primary.as_slice())
                + direct_costs(world, rule, replicas, members)
        }
        Policy::Relay {
            primary,
            parent,
            ..
        } => {
            reading_cost(world, rule, members, primary.as_slice())
                + relay_costs(world, rule, members, parent.as_slice())
        }
        Policy::Strong {
            members: quorums,
            ..
        } => quorum_costs(world, rule, members, quorums.as_slice()),
    }
}

/// What a policy of a set costs for a billing period, in pico-dollars: below 10^29. It asks that
/// the policy fits the set; whether it is allowed doesn't matter.
#[tactic(auto, using(crate::proofs::Hops::few_hops), unfolding(crate::specs::Cost::policy_cost))]
pub fn cost(world: &World, set: SetId, policy: &Policy) -> u128
    requires known { set.0 < length world.now.sets }
    requires fitting { fits_set world.now set.0 policy.now ≡ true }
    ensures { result ≡ policy_cost world.now set.0 policy.now }
{
    let rule = world.rule(set);
    storing_cost(world, &rule, &policy.replicas())
        + request_cost(world, &rule, world.members(set), policy)
}
