//! What a relay policy must meet: as a direct one, but a member writes to some replicas itself,
//! and these pass its writes on.
ghost use Rattle.std.specs.Prelude.{◌≡◌, ◌<◌, ◌&&◌, length};
ghost use Rattle.workload.specs.World.{rule_of, members_of};
ghost use Rattle.slo_rules.specs.Rules.{is_write_near, count_in, first_breach, or_else, is_direct_for, breach_of_primary, breach_of_reading, breach_of_hop, breach_of_writing};

use crate::direct::{breach_of_primaries, breach_of_readings};
use crate::near::is_write_near;
use crate::rules::Rule;
use span_base::{CENTRES, DcId, DcSet, Hop, Near, SetId};
use workload::{Demand, SetRule, World};

/// Whether a member writes to a centre itself.
fn is_direct_for(hops: &[Hop], member: DcId, dc: DcId) -> bool
    ensures { result ≡ is_direct_for hops.now member.0 dc.0 }
{
    hops.iter().any(|hop| hop.member.0 == member.0
        && hop.child.0 == dc.0
        && hop.parent.0 == hop.child.0)
}

fn breach_of_hop(replicas: &DcSet, hops: &[Hop], hop: &Hop) -> Option<Rule>
    ensures { result ≡ breach_of_hop replicas.now hops.now hop.now }
{
    if replicas.has(hop.parent) && is_direct_for(hops, hop.member, hop.parent) {
        None
    } else {
        Some(Rule::Parent {
            member: hop.member,
            child: hop.child,
        })
    }
}

fn breach_of_hops(replicas: &DcSet, hops: &[Hop]) -> Option<Rule>
    ensures { result ≡ first_breach (breach_of_hop replicas.now hops.now) hops.now }
{
    for hop in hops {
        if let Some(broken) = breach_of_hop(replicas, hops, hop) {
            return Some(broken);
        }
    }
    None
}

#[tactic(auto, using(crate::proofs::Centres::centre_counts))]
fn direct_near_count(
    world: &World,
    rule: &SetRule,
    replicas: &DcSet,
    hops: &[Hop],
    member: DcId,
) -> u8
    ensures { result ≡ count_in (λ dc. is_direct_for hops.now member.0 dc && is_write_near world.now rule.now member.0 dc) replicas.now }
{
    let mut count = 0;
    for d in 0..CENTRES {
        if replicas.has(DcId(d)) && is_direct_near(world, rule, hops, member, DcId(d)) {
            count += 1;
        }
    }
    count
}

/// Whether a member writes to a centre itself, within the goal.
fn is_direct_near(world: &World, rule: &SetRule, hops: &[Hop], member: DcId, dc: DcId) -> bool
    ensures { result ≡ (is_direct_for hops.now member.0 dc.0 && is_write_near world.now rule.now member.0 dc.0) }
{
    is_direct_for(hops, member, dc) && is_write_near(world, rule, member, dc)
}

fn breach_of_writing(
    world: &World,
    rule: &SetRule,
    replicas: &DcSet,
    hops: &[Hop],
    m: &Demand,
) -> Option<Rule>
    ensures { result ≡ breach_of_writing world.now rule.now replicas.now (is_direct_for hops.now) m.now }
{
    if direct_near_count(world, rule, replicas, hops, m.dc) > rule.f {
        None
    } else {
        Some(Rule::WriteSlo { member: m.dc })
    }
}

fn breach_of_writings(
    world: &World,
    rule: &SetRule,
    replicas: &DcSet,
    hops: &[Hop],
    members: &[Demand],
) -> Option<Rule>
    ensures { result ≡ first_breach (breach_of_writing world.now rule.now replicas.now (is_direct_for hops.now)) members.now }
{
    for m in members {
        if let Some(broken) = breach_of_writing(world, rule, replicas, hops, m) {
            return Some(broken);
        }
    }
    None
}

/// The first rule that a relay policy breaks.
pub(crate) fn breach_of_relay(
    world: &World,
    set: SetId,
    replicas: &DcSet,
    primary: &[Near],
    hops: &[Hop],
) -> Option<Rule>
    requires { set.0 < length world.now.sets }
    ensures { let w = world.now in let r = rule_of w set.0 in
        result ≡ or_else (first_breach (breach_of_primary w r replicas.now) primary.now)
        (or_else (first_breach (breach_of_reading w r replicas.now) (members_of w set.0))
        (or_else (first_breach (breach_of_hop replicas.now hops.now) hops.now)
        (first_breach (breach_of_writing w r replicas.now (is_direct_for hops.now)) (members_of w set.0)))) }
{
    let rule = world.rule(set);
    let members = world.members(set);
    breach_of_primaries(world, &rule, replicas, primary)
        .or_else(|| breach_of_readings(world, &rule, replicas, members))
        .or_else(|| breach_of_hops(replicas, hops))
        .or_else(|| breach_of_writings(world, &rule, replicas, hops, members))
}
