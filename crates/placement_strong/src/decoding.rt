ghost use Rattle.std.specs.Prelude.{◌≡◌, ◌+◌, ◌<◌, ◌≤◌, ◌&&◌, length, IfOk};
ghost use Rattle.std.specs.List.{filter};
ghost use Rattle.span_base.specs.DcSet.{has};
ghost use Rattle.workload.specs.World.{centre_count};
ghost use Rattle.slo_rules.specs.Rules.{IsAllowed, union_of};
ghost use Rattle.slo_rules.specs.Cost.{policy_cost};
ghost use Rattle.zero_one.specs.Rows.{bit_of};
ghost use Rattle.zero_one.specs.Program.{IsFeasible, value_of};
ghost use Rattle.placement_rows.specs.Centres.{centres, set_of_centres};
ghost use Rattle.placement_strong.specs.Variables.{member_count, strong_costs};
ghost use Rattle.placement_strong.specs.Programs.{set_program, set_costs};
ghost use Rattle.placement_strong.specs.Placed.{chosen_quorum, chosen_quorums, decoded};
ghost use Rattle.placement_strong.specs.Laws.{IsStrongSet};

use crate::blocks::{first_read, first_write};
use crate::members::{member_at, member_count};
use placement_rows::{read_near, write_near};
use span_base::{DcId, DcSet, Listed, Policy, Quorum, SetId};
use std::alloc::{AllocError, Global};
use workload::World;
use zero_one::Bits;

/// Whether a centre is among the near ones and its variable is 1.
fn is_chosen(x: &[bool], first: usize, near: &DcSet, d: u8) -> bool
    requires { first + d < length x.now }
    ensures { result ≡ (has near.now d && bit_of x.now (first + d)) }
{
    near.has(DcId(d)) && x[first + usize::from(d)]
}

/// The near centres whose variable is 1, where centre 0 has the variable `first`.
#[tactic(auto, using(placement_rows::proofs::Loops::folds))]
fn chosen(world: &World, x: &[bool], first: u16, near: &DcSet) -> DcSet
    requires few { centre_count world.now ≤ 16 }
    requires bits { first + centre_count world.now ≤ length x.now }
    ensures { result ≡ set_of_centres (filter (λ d. has near.now d && bit_of x.now (first + d)) (centres world.now)) }
{
    let mut chosen = DcSet::empty();
    for d in 0..world.centre_count() {
        if is_chosen(x, usize::from(first), near, d) {
            chosen = chosen.with(DcId(d));
        }
    }
    chosen
}

/// The quorums of a member: of the centres that a choice has in them, those that are near enough.
fn chosen_quorum(world: &World, set: SetId, x: &[bool], a: u16) -> Quorum
    requires strong { IsStrongSet world.now set.0 }
    requires number { a < member_count world.now set.0 }
    requires bits { length (strong_costs world.now set.0) ≤ length x.now }
    ensures { result ≡ chosen_quorum world.now set.0 x.now a }
{
    let _count = world.centre_count();
    let member = member_at(world, set, a);
    let reading = read_near(world, set, &member);
    let writing = write_near(world, set, &member);
    let read = chosen(world, x, first_read(world, set, a), &reading);
    let write = chosen(world, x, first_write(world, set, a), &writing);
    Quorum {
        dc: member.dc,
        read,
        write,
    }
}

/// The quorums of all members.
#[tactic(auto, using(placement_rows::proofs::Loops::loops))]
fn chosen_quorums(
    alloc: Global,
    world: &World,
    set: SetId,
    x: &[bool],
) -> Result<Listed<Quorum>, AllocError>
    requires strong { IsStrongSet world.now set.0 }
    requires bits { length (strong_costs world.now set.0) ≤ length x.now }
    ensures { IfOk result (λ quorums. quorums ≡ chosen_quorums world.now set.0 x.now) }
{
    let mut quorums = Listed::new(alloc);
    for a in 0..member_count(world, set) {
        quorums.push(chosen_quorum(world, set, x, a))?;
    }
    Ok(quorums)
}

/// All centres of the quorums.
fn union_of(quorums: &[Quorum]) -> DcSet
    ensures { result ≡ union_of quorums.now }
{
    match quorums.split_first() {
        Some((q, rest)) => q.read.join(&q.write).join(&union_of(rest)),
        None => DcSet::empty(),
    }
}

/// The policy that a choice is: each member's quorums are the near centres that the choice has in
/// them, and each centre of a quorum keeps a replica.
pub fn decode(alloc: Global, world: &World, set: SetId, x: &Bits) -> Result<Policy, AllocError>
    requires strong { IsStrongSet world.now set.0 }
    requires feasible { IsFeasible (set_program world.now set.0) x.now }
    ensures policy { IfOk result (λ policy. policy ≡ decoded world.now set.0 x.now) }
    ensures allowed { IfOk result (IsAllowed world.now set.0) }
    ensures cost { IfOk result (λ policy. policy_cost world.now set.0 policy ≤ value_of (set_costs world.now set.0) x.now) }
{
    let quorums = chosen_quorums(alloc, world, set, x.as_slice())?;
    Ok(Policy::Strong {
        f: world.rule(set).f,
        replicas: union_of(quorums.as_slice()),
        members: quorums,
    })
}
