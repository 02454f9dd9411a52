//! What a strong policy must meet: quorums that are near enough and meet in enough replicas.
ghost use Rattle.std.specs.Prelude.{◌≡◌, ◌<◌, length};
ghost use Rattle.std.specs.List.{list_all};
ghost use Rattle.span_base.specs.DcSet.{centres_of};
ghost use Rattle.workload.specs.World.{rule_of};
ghost use Rattle.slo_rules.specs.Rules.{is_read_near, is_write_near, first_breach, or_else, unless, same_list, union_of, breach_of_read_set, breach_of_write_set, meets, breach_of_meeting, breach_of_write_meeting};

use crate::near::{is_read_near, is_write_near};
use crate::rules::Rule;
use span_base::{CENTRES, DcId, DcSet, Quorum, SetId};
use workload::{SetRule, World};

/// All centres of the quorums.
fn union_of(quorums: &[Quorum]) -> DcSet
    ensures { result ≡ union_of quorums.now }
{
    match quorums.split_first() {
        Some((q, rest)) => q.read.join(&q.write).join(&union_of(rest)),
        None => DcSet::empty(),
    }
}

#[tactic(auto, using(crate::proofs::Unions::sets))]
fn breach_of_union(replicas: &DcSet, quorums: &[Quorum]) -> Option<Rule>
    ensures { result ≡ unless (same_list (centres_of replicas.now) (centres_of (union_of quorums.now))) Rule.Union }
{
    if replicas.bits() == union_of(quorums).bits() {
        None
    } else {
        Some(Rule::Union)
    }
}

/// Whether all centres of a set are read-near to a member.
#[tactic(auto, using(crate::proofs::Centres::centre_tests))]
fn are_read_near(world: &World, rule: &SetRule, member: DcId, set: &DcSet) -> bool
    ensures { result ≡ list_all (is_read_near world.now rule.now member.0) (centres_of set.now) }
{
    for d in 0..CENTRES {
        if set.has(DcId(d)) && !is_read_near(world, rule, member, DcId(d)) {
            return false;
        }
    }
    true
}

/// Whether all centres of a set are write-near to a member.
#[tactic(auto, using(crate::proofs::Centres::centre_tests))]
fn are_write_near(world: &World, rule: &SetRule, member: DcId, set: &DcSet) -> bool
    ensures { result ≡ list_all (is_write_near world.now rule.now member.0) (centres_of set.now) }
{
    for d in 0..CENTRES {
        if set.has(DcId(d)) && !is_write_near(world, rule, member, DcId(d)) {
            return false;
        }
    }
    true
}

fn breach_of_read_set(world: &World, rule: &SetRule, q: &Quorum) -> Option<Rule>
    ensures { result ≡ breach_of_read_set world.now rule.now q.now }
{
    if are_read_near(world, rule, q.dc, &q.read) {
        None
    } else {
        Some(Rule::ReadSlo { member: q.dc })
    }
}

fn breach_of_read_sets(world: &World, rule: &SetRule, quorums: &[Quorum]) -> Option<Rule>
    ensures { result ≡ first_breach (breach_of_read_set world.now rule.now) quorums.now }
{
    for q in quorums {
        if let Some(broken) = breach_of_read_set(world, rule, q) {
            return Some(broken);
        }
    }
    None
}

fn breach_of_write_set(world: &World, rule: &SetRule, q: &Quorum) -> Option<Rule>
    ensures { result ≡ breach_of_write_set world.now rule.now q.now }
{
    if are_write_near(world, rule, q.dc, &q.write) {
        None
    } else {
        Some(Rule::WriteSlo { member: q.dc })
    }
}

fn breach_of_write_sets(world: &World, rule: &SetRule, quorums: &[Quorum]) -> Option<Rule>
    ensures { result ≡ first_breach (breach_of_write_set world.now rule.now) quorums.now }
{
    for q in quorums {
        if let Some(broken) = breach_of_write_set(world, rule, q) {
            return Some(broken);
        }
    }
    None
}

/// Whether two sets meet in at least `2f + 1` centres.
fn meets(f: u8, a: &DcSet, b: &DcSet) -> bool
    ensures { result ≡ meets f a.now b.now }
{
    2 * u32::from(f) + 1 <= a.meet(b).count()
}

fn breach_of_pair(f: u8, reader: &Quorum, writer: &Quorum) -> Option<Rule>
    ensures { result ≡ unless (meets f reader.now.read writer.now.write) (Rule.Meet reader.now.dc writer.now.dc) }
{
    if meets(f, &reader.read, &writer.write) {
        None
    } else {
        Some(Rule::Meet {
            reader: reader.dc,
            writer: writer.dc,
        })
    }
}

fn breach_of_meeting(f: u8, quorums: &[Quorum], reader: &Quorum) -> Option<Rule>
    ensures { result ≡ breach_of_meeting f quorums.now reader.now }
{
    for writer in quorums {
        if let Some(broken) = breach_of_pair(f, reader, writer) {
            return Some(broken);
        }
    }
    None
}

fn breach_of_meetings(f: u8, quorums: &[Quorum]) -> Option<Rule>
    ensures { result ≡ first_breach (breach_of_meeting f quorums.now) quorums.now }
{
    for reader in quorums {
        if let Some(broken) = breach_of_meeting(f, quorums, reader) {
            return Some(broken);
        }
    }
    None
}

fn breach_of_write_pair(f: u8, first: &Quorum, second: &Quorum) -> Option<Rule>
    ensures { result ≡ unless (meets f first.now.write second.now.write) (Rule.MeetWrites first.now.dc second.now.dc) }
{
    if meets(f, &first.write, &second.write) {
        None
    } else {
        Some(Rule::MeetWrites {
            first: first.dc,
            second: second.dc,
        })
    }
}

fn breach_of_write_meeting(f: u8, quorums: &[Quorum], first: &Quorum) -> Option<Rule>
    ensures { result ≡ breach_of_write_meeting f quorums.now first.now }
{
    for second in quorums {
        if let Some(broken) = breach_of_write_pair(f, first, second) {
            return Some(broken);
        }
    }
    None
}

fn breach_of_write_meetings(f: u8, quorums: &[Quorum]) -> Option<Rule>
    ensures { result ≡ first_breach (breach_of_write_meeting f quorums.now) quorums.now }
{
    for first in quorums {
        if let Some(broken) = breach_of_write_meeting(f, quorums, first) {
            return Some(broken);
        }
    }
    None
}

/// The first rule that a strong policy breaks.
pub(crate) fn breach_of_strong(
    world: &World,
    set: SetId,
    f: u8,
    replicas: &DcSet,
    quorums: &[Quorum],
) -> Option<Rule>
    requires { set.0 < length world.now.sets }
    ensures { let w = world.now in let r = rule_of w set.0 in
        result ≡ or_else (unless (same_list (centres_of replicas.now) (centres_of (union_of quorums.now))) Rule.Union)
        (or_else (first_breach (breach_of_read_set w r) quorums.now)
        (or_else (first_breach (breach_of_write_set w r) quorums.now)
        (or_else (first_breach (breach_of_meeting f quorums.now) quorums.now)
        (first_breach (breach_of_write_meeting f quorums.now) quorums.now)))) }
{
    let rule = world.rule(set);
    breach_of_union(replicas, quorums)
        .or_else(|| breach_of_read_sets(world, &rule, quorums))
        .or_else(|| breach_of_write_sets(world, &rule, quorums))
        .or_else(|| breach_of_meetings(f, quorums))
        .or_else(|| breach_of_write_meetings(f, quorums))
}
