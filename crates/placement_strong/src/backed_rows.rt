//! Rows that bind variables to one another: where quorums meet, both have the centre, and a centre
//! of a quorum keeps a replica.
ghost use Rattle.std.specs.Prelude.{◌≡◌, ◌+◌, ◌<◌, ◌≤◌, [], ◌∷◌, ◌++◌, map, OnOk};
ghost use Rattle.std.specs.List.{flat_map};
ghost use Rattle.placement_rows.specs.Centres.{centres};
ghost use Rattle.placement_strong.specs.Variables.{member_count, members, pairs};
ghost use Rattle.placement_strong.specs.Rows.{only_where, meets_within, writes_meet_within, reads_replica, writes_replica, numbered_pairs};
ghost use Rattle.placement_strong.specs.Laws.{IsStrongSet};

use crate::blocks::{first_meeting, first_read, first_write, first_write_meeting};
use crate::members::member_count;
use placement_rows::backed_row;
use span_base::SetId;
use std::alloc::{AllocError, Global};
use workload::World;
use zero_one::Row;

/// Puts at the end, for each centre, that two variables are 1 where a later one is. The three are
/// those of centre 0.
#[tactic(auto, using(placement_rows::proofs::Loops::pieces))]
fn push_within(
    rows: &mut Vec<Row>,
    alloc: Global,
    world: &World,
    one: u16,
    other: u16,
    both: u16,
) -> Result<(), AllocError>
    requires one { one ≤ 2000 }
    requires other { other ≤ 2000 }
    requires both { both ≤ 2000 }
    ensures { OnOk result (rows.new.items ≡ rows.old.items ++ flat_map (λ d. only_where (one + d) (both + d) ∷ only_where (other + d) (both + d) ∷ []) (centres world.now)) }
{
    for d in 0..world.centre_count() {
        let d = u16::from(d);
        rows.push(backed_row(alloc, one + d, both + d)?)?;
        rows.push(backed_row(alloc, other + d, both + d)?)?;
    }
    Ok(())
}

/// Puts at the end, for each centre, that it keeps a replica where a variable is 1, of which `low`
/// is that of centre 0.
#[tactic(auto, using(placement_rows::proofs::Loops::loops))]
fn push_replica(
    rows: &mut Vec<Row>,
    alloc: Global,
    world: &World,
    low: u16,
) -> Result<(), AllocError>
    requires { low ≤ 2000 }
    ensures { OnOk result (rows.new.items ≡ rows.old.items ++ map (λ d. only_where d (low + d)) (centres world.now)) }
{
    for d in 0..world.centre_count() {
        let d = u16::from(d);
        rows.push(backed_row(alloc, d, low + d)?)?;
    }
    Ok(())
}

/// Puts at the end that a centre where a read set and a write set meet is in both.
fn push_meets_within_pair(
    rows: &mut Vec<Row>,
    alloc: Global,
    world: &World,
    set: SetId,
    a: u16,
    b: u16,
) -> Result<(), AllocError>
    requires strong { IsStrongSet world.now set.0 }
    requires reader { a < member_count world.now set.0 }
    requires writer { b < member_count world.now set.0 }
    ensures { OnOk result (rows.new.items ≡ rows.old.items ++ flat_map (meets_within world.now set.0 a b) (centres world.now)) }
{
    let read = first_read(world, set, a);
    let write = first_write(world, set, b);
    push_within(
        rows,
        alloc,
        world,
        read,
        write,
        first_meeting(world, set, a, b),
    )
}

/// Puts that at the end for a reader and every writer.
#[tactic(auto, using(placement_rows::proofs::Loops::pieces))]
fn push_meets_within_of(
    rows: &mut Vec<Row>,
    alloc: Global,
    world: &World,
    set: SetId,
    a: u16,
) -> Result<(), AllocError>
    requires strong { IsStrongSet world.now set.0 }
    requires number { a < member_count world.now set.0 }
    ensures { OnOk result (rows.new.items ≡ rows.old.items ++ flat_map (λ b. flat_map (meets_within world.now set.0 a b) (centres world.now)) (members world.now set.0)) }
{
    for b in 0..member_count(world, set) {
        push_meets_within_pair(rows, alloc, world, set, a, b)?;
    }
    Ok(())
}

/// Puts that at the end for every reader and writer.
#[tactic(auto, using(placement_rows::proofs::Loops::pieces))]
pub(crate) fn push_meets_within(
    rows: &mut Vec<Row>,
    alloc: Global,
    world: &World,
    set: SetId,
) -> Result<(), AllocError>
    requires { IsStrongSet world.now set.0 }
    ensures { OnOk result (rows.new.items ≡ rows.old.items ++ flat_map (λ a. flat_map (λ b. flat_map (meets_within world.now set.0 a b) (centres world.now)) (members world.now set.0)) (members world.now set.0)) }
{
    for a in 0..member_count(world, set) {
        push_meets_within_of(rows, alloc, world, set, a)?;
    }
    Ok(())
}

/// Puts at the end that a centre where two write sets meet, a pair of this number, is in both.
fn push_writes_meet_within_pair(
    rows: &mut Vec<Row>,
    alloc: Global,
    world: &World,
    set: SetId,
    pair: u16,
    a: u16,
    b: u16,
) -> Result<(), AllocError>
    requires strong { IsStrongSet world.now set.0 }
    requires pair { pair ≤ 28 }
    requires first { a < member_count world.now set.0 }
    requires second { b < member_count world.now set.0 }
    ensures { OnOk result (rows.new.items ≡ rows.old.items ++ flat_map (writes_meet_within world.now set.0 (pair, (a, b))) (centres world.now)) }
{
    let one = first_write(world, set, a);
    let other = first_write(world, set, b);
    push_within(
        rows,
        alloc,
        world,
        one,
        other,
        first_write_meeting(world, set, pair),
    )
}

/// Puts that at the end for every pair.
pub(crate) fn push_writes_meet_within(
    rows: &mut Vec<Row>,
    alloc: Global,
    world: &World,
    set: SetId,
    list: &[(u16, u16)],
) -> Result<(), AllocError>
    requires strong { IsStrongSet world.now set.0 }
    requires pairs { list.now ≡ pairs (member_count world.now set.0) }
    ensures { OnOk result (rows.new.items ≡ rows.old.items ++ flat_map (λ p. flat_map (writes_meet_within world.now set.0 p) (centres world.now)) (numbered_pairs world.now set.0)) }
{
    for (pair, (a, b)) in list.iter().enumerate() {
        push_writes_meet_within_pair(rows, alloc, world, set, pair as u16, *a, *b)?;
    }
    Ok(())
}

/// Puts at the end that every centre of a read set keeps a replica.
#[tactic(auto, using(placement_rows::proofs::Loops::pieces))]
pub(crate) fn push_reads_replica(
    rows: &mut Vec<Row>,
    alloc: Global,
    world: &World,
    set: SetId,
) -> Result<(), AllocError>
    requires { IsStrongSet world.now set.0 }
    ensures { OnOk result (rows.new.items ≡ rows.old.items ++ flat_map (λ a. map (reads_replica world.now a) (centres world.now)) (members world.now set.0)) }
{
    for a in 0..member_count(world, set) {
        push_replica(rows, alloc, world, first_read(world, set, a))?;
    }
    Ok(())
}

/// Puts at the end that every centre of a write set keeps a replica.
#[tactic(auto, using(placement_rows::proofs::Loops::pieces))]
pub(crate) fn push_writes_replica(
    rows: &mut Vec<Row>,
    alloc: Global,
    world: &World,
    set: SetId,
) -> Result<(), AllocError>
    requires { IsStrongSet world.now set.0 }
    ensures { OnOk result (rows.new.items ≡ rows.old.items ++ flat_map (λ a. map (writes_replica world.now set.0 a) (centres world.now)) (members world.now set.0)) }
{
    for a in 0..member_count(world, set) {
        push_replica(rows, alloc, world, first_write(world, set, a))?;
    }
    Ok(())
}
