//! What one centre charges: for a replica, and for the gets and puts of one member. All costs are
//! in pico-dollars for a billing period.
ghost use Rattle.std.specs.Prelude.{◌≡◌, ◌+◌, ◌*◌, ◌^◌, ◌≤◌};
ghost use Rattle.workload.specs.Limits.{IsRuleWithin, AreCountsWithin};
ghost use Rattle.slo_rules.specs.Cost.{stored_cost, get_cost, put_cost, gets_cost, puts_cost, quorum_puts_cost};

use span_base::DcId;
use workload::{Demand, SetRule, World};

/// What it costs to keep the set's objects at a centre.
#[tactic(auto, using(crate::proofs::Sums::products))]
pub fn stored_cost(world: &World, rule: &SetRule, dc: DcId) -> u128
    requires { IsRuleWithin rule.now }
    ensures cost { result ≡ stored_cost world.now rule.now dc.0 }
    ensures small { result ≤ 10 ^ 21 }
{
    u128::from(rule.stored) * u128::from(world.price(dc).store)
}

/// What one get costs that a centre serves to a member.
#[tactic(auto, using(crate::proofs::Sums::products))]
fn get_cost(world: &World, rule: &SetRule, dc: DcId, member: DcId) -> u128
    requires { IsRuleWithin rule.now }
    ensures cost { result ≡ get_cost world.now rule.now dc.0 member.0 }
    ensures small { result ≤ 10 ^ 9 + 10 ^ 14 }
{
    let sent = u128::from(rule.object) * u128::from(world.fare(dc, member).transfer);
    u128::from(world.price(dc).get) + sent
}

/// What one put costs that reaches a centre from another.
#[tactic(auto, using(crate::proofs::Sums::products))]
fn put_cost(world: &World, rule: &SetRule, from: DcId, dc: DcId) -> u128
    requires { IsRuleWithin rule.now }
    ensures cost { result ≡ put_cost world.now rule.now from.0 dc.0 }
    ensures small { result ≤ 10 ^ 9 + 10 ^ 14 }
{
    let sent = u128::from(rule.object) * u128::from(world.fare(from, dc).transfer);
    u128::from(world.price(dc).put) + sent
}

/// What the gets of a member cost that a centre serves.
#[tactic(auto, using(crate::proofs::Sums::products))]
pub fn gets_cost(world: &World, rule: &SetRule, m: &Demand, dc: DcId) -> u128
    requires rule { IsRuleWithin rule.now }
    requires member { AreCountsWithin m.now }
    ensures cost { result ≡ gets_cost world.now rule.now m.now dc.0 }
    ensures small { result ≤ 10 ^ 18 + 10 ^ 23 }
{
    u128::from(m.gets) * get_cost(world, rule, dc, m.dc)
}

/// What the puts of a member cost that reach a centre from another: from the member's own, or from
/// a replica that passes them on.
#[tactic(auto, using(crate::proofs::Sums::products))]
pub fn puts_cost(world: &World, rule: &SetRule, m: &Demand, from: DcId, dc: DcId) -> u128
    requires rule { IsRuleWithin rule.now }
    requires member { AreCountsWithin m.now }
    ensures cost { result ≡ puts_cost world.now rule.now m.now from.0 dc.0 }
    ensures small { result ≤ 10 ^ 18 + 10 ^ 23 }
{
    u128::from(m.puts) * put_cost(world, rule, from, dc)
}

/// What the puts of a member cost at a centre of its write set, which each of them reads and
/// writes.
#[tactic(auto, using(crate::proofs::Sums::products))]
pub fn quorum_puts_cost(world: &World, rule: &SetRule, m: &Demand, dc: DcId) -> u128
    requires rule { IsRuleWithin rule.now }
    requires member { AreCountsWithin m.now }
    ensures cost { result ≡ quorum_puts_cost world.now rule.now m.now dc.0 }
    ensures small { result ≤ 2 * 10 ^ 18 + 10 ^ 23 }
{
    let one = u128::from(world.price(dc).get) + put_cost(world, rule, m.dc, dc);
    u128::from(m.puts) * one
}
