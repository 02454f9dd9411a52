//! What a direct policy must meet: a primary for each member, and replicas that are near enough.
ghost use Rattle.std.specs.Prelude.{◌≡◌, ◌<◌, true, ◌&&◌, length};
ghost use Rattle.workload.specs.World.{rule_of, members_of};
ghost use Rattle.slo_rules.specs.Rules.{is_read_near, is_write_near, count_in, first_breach, breach_of_primary, breach_of_reading, breach_of_writing, or_else};

use crate::near::{is_read_near, is_write_near};
use crate::rules::Rule;
use span_base::{CENTRES, DcId, DcSet, Near, SetId};
use workload::{Demand, SetRule, World};

fn breach_of_primary(world: &World, rule: &SetRule, replicas: &DcSet, near: &Near) -> Option<Rule>
    ensures { result ≡ breach_of_primary world.now rule.now replicas.now near.now }
{
    if replicas.has(near.at) && is_read_near(world, rule, near.member, near.at) {
        None
    } else {
        Some(Rule::Primary {
            member: near.member,
        })
    }
}

pub(crate) fn breach_of_primaries(
    world: &World,
    rule: &SetRule,
    replicas: &DcSet,
    primary: &[Near],
) -> Option<Rule>
    ensures { result ≡ first_breach (breach_of_primary world.now rule.now replicas.now) primary.now }
{
    for near in primary {
        if let Some(broken) = breach_of_primary(world, rule, replicas, near) {
            return Some(broken);
        }
    }
    None
}

#[tactic(auto, using(crate::proofs::Centres::centre_counts))]
fn read_near_count(world: &World, rule: &SetRule, replicas: &DcSet, member: DcId) -> u8
    ensures { result ≡ count_in (is_read_near world.now rule.now member.0) replicas.now }
{
    let mut count = 0;
    for d in 0..CENTRES {
        if replicas.has(DcId(d)) && is_read_near(world, rule, member, DcId(d)) {
            count += 1;
        }
    }
    count
}

fn breach_of_reading(world: &World, rule: &SetRule, replicas: &DcSet, m: &Demand) -> Option<Rule>
    ensures { result ≡ breach_of_reading world.now rule.now replicas.now m.now }
{
    if read_near_count(world, rule, replicas, m.dc) > rule.f {
        None
    } else {
        Some(Rule::ReadSlo { member: m.dc })
    }
}

pub(crate) fn breach_of_readings(
    world: &World,
    rule: &SetRule,
    replicas: &DcSet,
    members: &[Demand],
) -> Option<Rule>
    ensures { result ≡ first_breach (breach_of_reading world.now rule.now replicas.now) members.now }
{
    for m in members {
        if let Some(broken) = breach_of_reading(world, rule, replicas, m) {
            return Some(broken);
        }
    }
    None
}

#[tactic(auto, using(crate::proofs::Centres::centre_counts))]
fn write_near_count(world: &World, rule: &SetRule, replicas: &DcSet, member: DcId) -> u8
    ensures { result ≡ count_in (λ dc. true && is_write_near world.now rule.now member.0 dc) replicas.now }
{
    let mut count = 0;
    for d in 0..CENTRES {
        if replicas.has(DcId(d)) && is_write_near(world, rule, member, DcId(d)) {
            count += 1;
        }
    }
    count
}

fn breach_of_writing(world: &World, rule: &SetRule, replicas: &DcSet, m: &Demand) -> Option<Rule>
    ensures { result ≡ breach_of_writing world.now rule.now replicas.now (λ member dc. true) m.now }
{
    if write_near_count(world, rule, replicas, m.dc) > rule.f {
        None
    } else {
        Some(Rule::WriteSlo { member: m.dc })
    }
}

pub(crate) fn breach_of_writings(
    world: &World,
    rule: &SetRule,
    replicas: &DcSet,
    members: &[Demand],
) -> Option<Rule>
    ensures { result ≡ first_breach (breach_of_writing world.now rule.now replicas.now (λ member dc. true)) members.now }
{
    for m in members {
        if let Some(broken) = breach_of_writing(world, rule, replicas, m) {
            return Some(broken);
        }
    }
    None
}

/// The first rule that a direct policy breaks.
pub(crate) fn breach_of_direct(
    world: &World,
    set: SetId,
    replicas: &DcSet,
    primary: &[Near],
) -> Option<Rule>
    requires { set.0 < length world.now.sets }
    ensures { let w = world.now in let r = rule_of w set.0 in
        result ≡ or_else (first_breach (breach_of_primary w r replicas.now) primary.now)
        (or_else (first_breach (breach_of_reading w r replicas.now) (members_of w set.0))
        (first_breach (breach_of_writing w r replicas.now (λ member dc. true)) (members_of w set.0))) }
{
    let rule = world.rule(set);
    let members = world.members(set);
    breach_of_primaries(world, &rule, replicas, primary)
        .or_else(|| breach_of_readings(world, &rule, replicas, members))
        .or_else(|| breach_of_writings(world, &rule, replicas, members))
}
