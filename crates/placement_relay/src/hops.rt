//! The rows of a relay set's program that say how the members' writes come to the replicas.
ghost use Rattle.std.specs.Prelude.{◌≡◌, ◌<◌, ◌++◌, length, map, IfOk, OnOk};
ghost use Rattle.std.specs.List.{flat_map};
ghost use Rattle.workload.specs.World.{centre_count};
ghost use Rattle.placement_rows.specs.Centres.{centres, member_numbers, numbered_members};
ghost use Rattle.placement_relay.specs.Relay.{comes_from_somewhere, implied, has_them_itself, others, writes_a_replica, writes_near, hop_rows};
ghost use Rattle.placement_relay.specs.Laws.{IsEventualSet};

use crate::variables::{first_hop, hop};
use placement_rows::{answered_row, backed_row, minus, plus, sum_row, write_near};
use span_base::{Listed, SetId};
use std::alloc::{AllocError, Global};
use workload::{Demand, World};
use zero_one::Row;

/// A member's writes come to a replica from somewhere. Here and below a member is counted from 0.
#[tactic(auto, using(placement_rows::proofs::Loops::loops))]
fn comes_from_somewhere(
    alloc: Global,
    world: &World,
    set: SetId,
    a: usize,
    d: u8,
) -> Result<Row, AllocError>
    requires set { set.0 < length world.now.sets }
    requires number { a < 8 }
    requires centre { d < centre_count world.now }
    ensures { IfOk result (λ row. row ≡ comes_from_somewhere world.now set.0 a d) }
{
    let mut entries = Vec::with_capacity(alloc, usize::from(world.centre_count()) + 1)?;
    entries.push(minus(u16::from(d)))?;
    for p in 0..world.centre_count() {
        entries.push(plus(hop(world, set, a, p, d)))?;
    }
    Ok(Row {
        entries: Listed::from_vec(entries),
        bound: 0,
    })
}

/// The row that says that the variable `up` is 1 where `low` is.
fn implied_row(alloc: Global, up: u16, low: u16) -> Result<Row, AllocError>
    ensures { IfOk result (λ row. row ≡ implied up low) }
{
    if up < low {
        backed_row(alloc, up, low)
    } else {
        answered_row(alloc, low, up)
    }
}

/// Puts at the end that writes of a member come to each replica from somewhere.
#[tactic(auto, using(placement_rows::proofs::Loops::loops))]
fn push_comes_of(
    rows: &mut Vec<Row>,
    alloc: Global,
    world: &World,
    set: SetId,
    a: usize,
) -> Result<(), AllocError>
    requires set { set.0 < length world.now.sets }
    requires number { a < 8 }
    ensures { OnOk result (rows.new.items ≡ rows.old.items ++ map (comes_from_somewhere world.now set.0 a) (centres world.now)) }
{
    for d in 0..world.centre_count() {
        rows.push(comes_from_somewhere(alloc, world, set, a, d)?)?;
    }
    Ok(())
}

/// Puts at the end that writes of all members come to each replica from somewhere.
#[tactic(auto, using(placement_rows::proofs::Loops::loops))]
fn push_comes_from_somewhere(
    rows: &mut Vec<Row>,
    alloc: Global,
    world: &World,
    set: SetId,
) -> Result<(), AllocError>
    requires { IsEventualSet world.now set.0 }
    ensures { OnOk result (rows.new.items ≡ rows.old.items ++ flat_map (λ a. map (comes_from_somewhere world.now set.0 a) (centres world.now)) (member_numbers world.now set.0)) }
{
    for a in 0..world.members(set).len() {
        push_comes_of(rows, alloc, world, set, a)?;
    }
    Ok(())
}

/// Puts at the end that `p`, which passes writes of a member on, has them from the member itself.
#[tactic(auto, using(placement_rows::proofs::Loops::kept))]
fn push_itself_from(
    rows: &mut Vec<Row>,
    alloc: Global,
    world: &World,
    set: SetId,
    a: usize,
    p: u8,
) -> Result<(), AllocError>
    requires set { set.0 < length world.now.sets }
    requires number { a < 8 }
    requires centre { p < centre_count world.now }
    ensures { OnOk result (rows.new.items ≡ rows.old.items ++ map (has_them_itself world.now set.0 a p) (others world.now p)) }
{
    let own = hop(world, set, a, p, p);
    for d in 0..world.centre_count() {
        if p != d {
            rows.push(implied_row(alloc, own, hop(world, set, a, p, d))?)?;
        }
    }
    Ok(())
}

/// Puts at the end that what passes writes of a member on has them from the member itself.
#[tactic(auto, using(placement_rows::proofs::Loops::loops))]
fn push_itself_of(
    rows: &mut Vec<Row>,
    alloc: Global,
    world: &World,
    set: SetId,
    a: usize,
) -> Result<(), AllocError>
    requires set { set.0 < length world.now.sets }
    requires number { a < 8 }
    ensures { OnOk result (rows.new.items ≡ rows.old.items ++ flat_map (λ p. map (has_them_itself world.now set.0 a p) (others world.now p)) (centres world.now)) }
{
    for p in 0..world.centre_count() {
        push_itself_from(rows, alloc, world, set, a, p)?;
    }
    Ok(())
}

/// Puts at the end that what passes writes of any member on has them from the member itself.
#[tactic(auto, using(placement_rows::proofs::Loops::loops))]
fn push_has_them_itself(
    rows: &mut Vec<Row>,
    alloc: Global,
    world: &World,
    set: SetId,
) -> Result<(), AllocError>
    requires { IsEventualSet world.now set.0 }
    ensures { OnOk result (rows.new.items ≡ rows.old.items ++ flat_map (λ a. flat_map (λ p. map (has_them_itself world.now set.0 a p) (others world.now p)) (centres world.now)) (member_numbers world.now set.0)) }
{
    for a in 0..world.members(set).len() {
        push_itself_of(rows, alloc, world, set, a)?;
    }
    Ok(())
}

/// Puts at the end that a member writes to replicas alone.
#[tactic(auto, using(placement_rows::proofs::Loops::loops))]
fn push_writes_of(
    rows: &mut Vec<Row>,
    alloc: Global,
    world: &World,
    set: SetId,
    a: usize,
) -> Result<(), AllocError>
    requires set { set.0 < length world.now.sets }
    requires number { a < 8 }
    ensures { OnOk result (rows.new.items ≡ rows.old.items ++ map (writes_a_replica world.now set.0 a) (centres world.now)) }
{
    for p in 0..world.centre_count() {
        let own = hop(world, set, a, p, p);
        rows.push(backed_row(alloc, u16::from(p), own)?)?;
    }
    Ok(())
}

/// Puts at the end that all members write to replicas alone.
#[tactic(auto, using(placement_rows::proofs::Loops::loops))]
fn push_writes_a_replica(
    rows: &mut Vec<Row>,
    alloc: Global,
    world: &World,
    set: SetId,
) -> Result<(), AllocError>
    requires { IsEventualSet world.now set.0 }
    ensures { OnOk result (rows.new.items ≡ rows.old.items ++ flat_map (λ a. map (writes_a_replica world.now set.0 a) (centres world.now)) (member_numbers world.now set.0)) }
{
    for a in 0..world.members(set).len() {
        push_writes_of(rows, alloc, world, set, a)?;
    }
    Ok(())
}

/// The member writes to more of its write-near centres itself than may fail.
fn writes_near(
    alloc: Global,
    world: &World,
    set: SetId,
    a: usize,
    member: &Demand,
) -> Result<Row, AllocError>
    requires set { IsEventualSet world.now set.0 }
    requires number { a < 8 }
    ensures { IfOk result (λ row. row ≡ writes_near world.now set.0 (a, member.now)) }
{
    let near = write_near(world, set, member);
    let step = u16::from(world.centre_count()) + 1;
    sum_row(
        alloc,
        &near,
        first_hop(world, set, a),
        step,
        world.rule(set).f + 1,
    )
}

/// Puts at the end that each member writes to enough centres itself.
fn push_writes_near(
    rows: &mut Vec<Row>,
    alloc: Global,
    world: &World,
    set: SetId,
) -> Result<(), AllocError>
    requires { IsEventualSet world.now set.0 }
    ensures { OnOk result (rows.new.items ≡ rows.old.items ++ map (writes_near world.now set.0) (numbered_members world.now set.0)) }
{
    for (a, member) in world.members(set).iter().enumerate() {
        rows.push(writes_near(alloc, world, set, a, member)?)?;
    }
    Ok(())
}

/// Puts the rows on writing at the end.
pub(crate) fn push_hop_rows(
    rows: &mut Vec<Row>,
    alloc: Global,
    world: &World,
    set: SetId,
) -> Result<(), AllocError>
    requires { IsEventualSet world.now set.0 }
    ensures { OnOk result (rows.new.items ≡ rows.old.items ++ hop_rows world.now set.0) }
{
    push_comes_from_somewhere(rows, alloc, world, set)?;
    push_has_them_itself(rows, alloc, world, set)?;
    push_writes_a_replica(rows, alloc, world, set)?;
    push_writes_near(rows, alloc, world, set)
}
