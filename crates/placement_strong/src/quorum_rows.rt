//! Rows that ask for enough centres: where a read set meets a write set, in a write set, and where
//! two write sets meet.
ghost use Rattle.std.specs.Prelude.{◌≡◌, ◌+◌, ◌*◌, ◌<◌, ◌≤◌, pos, ◌++◌, map, IfOk, OnOk};
ghost use Rattle.std.specs.List.{flat_map, filter};
ghost use Rattle.span_base.specs.DcSet.{has};
ghost use Rattle.workload.specs.World.{rule_of};
ghost use Rattle.placement_rows.specs.Centres.{centres, read_near, set_of_centres};
ghost use Rattle.placement_rows.specs.NearSets.{read_near_sets, write_near_sets};
ghost use Rattle.placement_rows.specs.Rows.{plus};
ghost use Rattle.placement_strong.specs.Variables.{member_count, members, member_at, pairs};
ghost use Rattle.placement_strong.specs.Rows.{meets, writes, writes_meet, numbered_pairs};
ghost use Rattle.placement_strong.specs.Laws.{IsStrongSet};

use crate::blocks::{first_meeting, first_write, first_write_meeting};
use crate::members::member_count;
use placement_rows::plus;
use span_base::{DcId, DcSet, Listed, SetId};
use std::alloc::{AllocError, Global};
use workload::World;
use zero_one::Row;

/// More than twice `f` of the variables of these places are 1, where centre 0 has the variable
/// `first`.
#[tactic(auto, using(placement_rows::proofs::Loops::kept))]
fn quorum_row(
    alloc: Global,
    world: &World,
    set: SetId,
    first: u16,
    places: &DcSet,
) -> Result<Row, AllocError>
    requires strong { IsStrongSet world.now set.0 }
    requires first { first ≤ 2000 }
    ensures { IfOk result (λ row. row ≡ record { entries = map (λ d. plus (first + d)) (filter (has places.now) (centres world.now)); bound = pos (2 * (rule_of world.now set.0).f + 1) }) }
{
    let mut entries = Vec::with_capacity(alloc, places.count() as usize)?;
    for d in 0..world.centre_count() {
        if places.has(DcId(d)) {
            entries.push(plus(first + u16::from(d)))?;
        }
    }
    Ok(Row {
        entries: Listed::from_vec(entries),
        bound: 2 * i32::from(world.rule(set).f) + 1,
    })
}

/// A read set and a write set meet in enough centres, each read-near to the one member and
/// write-near to the other.
fn meets(
    alloc: Global,
    world: &World,
    set: SetId,
    a: u16,
    b: u16,
    reading: &DcSet,
    writing: &[DcSet],
) -> Result<Row, AllocError>
    requires strong { IsStrongSet world.now set.0 }
    requires reader { a < member_count world.now set.0 }
    requires writer { b < member_count world.now set.0 }
    requires reading { reading.now ≡ set_of_centres (read_near world.now set.0 (member_at world.now set.0 a)) }
    requires writing { writing.now ≡ write_near_sets world.now set.0 }
    ensures { IfOk result (λ row. row ≡ meets world.now set.0 a b) }
{
    let places = reading.meet(&writing[usize::from(b)]);
    quorum_row(alloc, world, set, first_meeting(world, set, a, b), &places)
}

/// A write set has enough centres.
fn writes(
    alloc: Global,
    world: &World,
    set: SetId,
    a: u16,
    writing: &[DcSet],
) -> Result<Row, AllocError>
    requires strong { IsStrongSet world.now set.0 }
    requires number { a < member_count world.now set.0 }
    requires writing { writing.now ≡ write_near_sets world.now set.0 }
    ensures { IfOk result (λ row. row ≡ writes world.now set.0 a) }
{
    let places = &writing[usize::from(a)];
    quorum_row(alloc, world, set, first_write(world, set, a), places)
}

/// Two write sets, of a pair of this number, meet in enough centres.
fn writes_meet(
    alloc: Global,
    world: &World,
    set: SetId,
    pair: u16,
    a: u16,
    b: u16,
    writing: &[DcSet],
) -> Result<Row, AllocError>
    requires strong { IsStrongSet world.now set.0 }
    requires pair { pair ≤ 28 }
    requires first { a < member_count world.now set.0 }
    requires second { b < member_count world.now set.0 }
    requires writing { writing.now ≡ write_near_sets world.now set.0 }
    ensures { IfOk result (λ row. row ≡ writes_meet world.now set.0 (pair, (a, b))) }
{
    let places = writing[usize::from(a)].meet(&writing[usize::from(b)]);
    quorum_row(
        alloc,
        world,
        set,
        first_write_meeting(world, set, pair),
        &places,
    )
}

/// Puts at the end that the read set of a member meets every write set.
#[tactic(auto, using(placement_rows::proofs::Loops::loops))]
fn push_meets_of(
    rows: &mut Vec<Row>,
    alloc: Global,
    world: &World,
    set: SetId,
    a: u16,
    reading: &[DcSet],
    writing: &[DcSet],
) -> Result<(), AllocError>
    requires strong { IsStrongSet world.now set.0 }
    requires number { a < member_count world.now set.0 }
    requires reading { reading.now ≡ read_near_sets world.now set.0 }
    requires writing { writing.now ≡ write_near_sets world.now set.0 }
    ensures { OnOk result (rows.new.items ≡ rows.old.items ++ map (meets world.now set.0 a) (members world.now set.0)) }
{
    let near = &reading[usize::from(a)];
    for b in 0..member_count(world, set) {
        rows.push(meets(alloc, world, set, a, b, near, writing)?)?;
    }
    Ok(())
}

/// Puts at the end that every read set meets every write set.
#[tactic(auto, using(placement_rows::proofs::Loops::pieces))]
pub(crate) fn push_meets(
    rows: &mut Vec<Row>,
    alloc: Global,
    world: &World,
    set: SetId,
    reading: &[DcSet],
    writing: &[DcSet],
) -> Result<(), AllocError>
    requires strong { IsStrongSet world.now set.0 }
    requires reading { reading.now ≡ read_near_sets world.now set.0 }
    requires writing { writing.now ≡ write_near_sets world.now set.0 }
    ensures { OnOk result (rows.new.items ≡ rows.old.items ++ flat_map (λ a. map (meets world.now set.0 a) (members world.now set.0)) (members world.now set.0)) }
{
    for a in 0..member_count(world, set) {
        push_meets_of(rows, alloc, world, set, a, reading, writing)?;
    }
    Ok(())
}

/// Puts at the end that every write set has enough centres.
#[tactic(auto, using(placement_rows::proofs::Loops::loops))]
pub(crate) fn push_writes(
    rows: &mut Vec<Row>,
    alloc: Global,
    world: &World,
    set: SetId,
    writing: &[DcSet],
) -> Result<(), AllocError>
    requires strong { IsStrongSet world.now set.0 }
    requires writing { writing.now ≡ write_near_sets world.now set.0 }
    ensures { OnOk result (rows.new.items ≡ rows.old.items ++ map (writes world.now set.0) (members world.now set.0)) }
{
    for a in 0..member_count(world, set) {
        rows.push(writes(alloc, world, set, a, writing)?)?;
    }
    Ok(())
}

/// Puts at the end that every two write sets meet.
pub(crate) fn push_writes_meet(
    rows: &mut Vec<Row>,
    alloc: Global,
    world: &World,
    set: SetId,
    list: &[(u16, u16)],
    writing: &[DcSet],
) -> Result<(), AllocError>
    requires strong { IsStrongSet world.now set.0 }
    requires writing { writing.now ≡ write_near_sets world.now set.0 }
    requires pairs { list.now ≡ pairs (member_count world.now set.0) }
    ensures { OnOk result (rows.new.items ≡ rows.old.items ++ map (writes_meet world.now set.0) (numbered_pairs world.now set.0)) }
{
    for (pair, (a, b)) in list.iter().enumerate() {
        rows.push(writes_meet(alloc, world, set, pair as u16, *a, *b, writing)?)?;
    }
    Ok(())
}
