//! The rows of a set's program, and those that direct and relay sets share.
ghost use Rattle.std.specs.Prelude.{◌≡◌, ◌+◌, ◌*◌, ◌<◌, ◌≤◌, ◌++◌, length, map, IfOk, OnOk};
ghost use Rattle.std.specs.List.{enumerate_from, flat_map};
ghost use Rattle.span_base.specs.DcSet.{centres_of};
ghost use Rattle.workload.specs.World.{members_of};
ghost use Rattle.placement_rows.specs.Centres.{centres, member_numbers, write_near};
ghost use Rattle.placement_rows.specs.Rows.{at_least};
ghost use Rattle.placement_rows.specs.Providers.{provider_rows};
ghost use Rattle.placement_rows.specs.FirstCentres.{AreFound};
ghost use Rattle.placement_relay.specs.Reading.{h, reads_a_replica, has_replicas, reading_rows};
ghost use Rattle.placement_relay.specs.Programs.{mode_costs, mode_rows, set_rows, keeping};
ghost use Rattle.placement_relay.specs.Laws.{IsEventualSet};

use crate::hops::push_hop_rows;
use crate::variables::{first_provider, first_read};
use placement_rows::{
    FirstCentres, asks_providers, backed_row, push_provider_rows, read_near_sets, sum_row,
    write_near_sets,
};
use span_base::{DcSet, SetId};
use std::alloc::{AllocError, Global};
use workload::{Mode, World};
use zero_one::Row;

/// The member, which is counted from 0, reads at one of these centres.
fn reads_somewhere(alloc: Global, world: &World, a: usize, near: &DcSet) -> Result<Row, AllocError>
    requires { a < 8 }
    ensures { IfOk result (λ row. row ≡ at_least 1 (h world.now a) (centres_of near.now)) }
{
    sum_row(alloc, near, first_read(world, a), 1, 1)
}

/// More of these centres than may fail keep a replica.
fn has_replicas(alloc: Global, world: &World, set: SetId, near: &DcSet) -> Result<Row, AllocError>
    requires { IsEventualSet world.now set.0 }
    ensures { IfOk result (λ row. row ≡ has_replicas world.now set.0 (centres_of near.now)) }
{
    sum_row(alloc, near, 0, 1, world.rule(set).f + 1)
}

/// Puts at the end that each member reads at one of its near centres.
fn push_reads_somewhere(
    rows: &mut Vec<Row>,
    alloc: Global,
    world: &World,
    near_sets: &[DcSet],
) -> Result<(), AllocError>
    requires { length near_sets.now ≤ 8 }
    ensures { OnOk result (rows.new.items ≡ rows.old.items ++ map (λ an. at_least 1 (h world.now an.0) (centres_of an.1)) (enumerate_from 0 near_sets.now)) }
{
    for (a, near) in near_sets.iter().enumerate() {
        rows.push(reads_somewhere(alloc, world, a, near)?)?;
    }
    Ok(())
}

/// Puts at the end that the member, which is counted from 0, reads at replicas alone.
#[tactic(auto, using(placement_rows::proofs::Loops::loops))]
fn push_reads_of(
    rows: &mut Vec<Row>,
    alloc: Global,
    world: &World,
    a: usize,
) -> Result<(), AllocError>
    requires { a < 8 }
    ensures { OnOk result (rows.new.items ≡ rows.old.items ++ map (reads_a_replica world.now a) (centres world.now)) }
{
    let first = first_read(world, a);
    for d in 0..world.centre_count() {
        rows.push(backed_row(alloc, u16::from(d), first + u16::from(d))?)?;
    }
    Ok(())
}

/// Puts at the end that all members read at replicas alone.
#[tactic(auto, using(placement_rows::proofs::Loops::loops))]
fn push_reads_a_replica(
    rows: &mut Vec<Row>,
    alloc: Global,
    world: &World,
    set: SetId,
) -> Result<(), AllocError>
    requires { IsEventualSet world.now set.0 }
    ensures { OnOk result (rows.new.items ≡ rows.old.items ++ flat_map (λ a. map (reads_a_replica world.now a) (centres world.now)) (member_numbers world.now set.0)) }
{
    for a in 0..world.members(set).len() {
        push_reads_of(rows, alloc, world, a)?;
    }
    Ok(())
}

/// Puts at the end that each member has enough replicas in its near centres.
fn push_has_replicas(
    rows: &mut Vec<Row>,
    alloc: Global,
    world: &World,
    set: SetId,
    near_sets: &[DcSet],
) -> Result<(), AllocError>
    requires { IsEventualSet world.now set.0 }
    ensures { OnOk result (rows.new.items ≡ rows.old.items ++ map (λ near. has_replicas world.now set.0 (centres_of near)) near_sets.now) }
{
    for near in near_sets {
        rows.push(has_replicas(alloc, world, set, near)?)?;
    }
    Ok(())
}

/// Puts at the end that each member has enough write-near replicas.
fn push_write_near(
    rows: &mut Vec<Row>,
    alloc: Global,
    world: &World,
    set: SetId,
) -> Result<(), AllocError>
    requires { IsEventualSet world.now set.0 }
    ensures { OnOk result (rows.new.items ≡ rows.old.items ++ map (λ m. has_replicas world.now set.0 (write_near world.now set.0 m)) (members_of world.now set.0)) }
{
    let near_sets = write_near_sets(alloc, world, set)?;
    push_has_replicas(rows, alloc, world, set, near_sets.as_slice())?;
    Ok(())
}

/// Puts the rows on reading at the end.
fn push_reading_rows(
    rows: &mut Vec<Row>,
    alloc: Global,
    world: &World,
    set: SetId,
) -> Result<(), AllocError>
    requires { IsEventualSet world.now set.0 }
    ensures { OnOk result (rows.new.items ≡ rows.old.items ++ reading_rows world.now set.0) }
{
    let near_sets = read_near_sets(alloc, world, set)?;
    push_reads_somewhere(rows, alloc, world, near_sets.as_slice())?;
    push_reads_a_replica(rows, alloc, world, set)?;
    push_has_replicas(rows, alloc, world, set, near_sets.as_slice())?;
    Ok(())
}

/// Puts the mode's own rows at the end.
fn push_mode_rows(
    rows: &mut Vec<Row>,
    alloc: Global,
    world: &World,
    set: SetId,
) -> Result<(), AllocError>
    requires { IsEventualSet world.now set.0 }
    ensures { OnOk result (rows.new.items ≡ rows.old.items ++ mode_rows world.now set.0) }
{
    push_reading_rows(rows, alloc, world, set)?;
    match world.rule(set).mode {
        Mode::Direct => push_write_near(rows, alloc, world, set),
        Mode::Relay => push_hop_rows(rows, alloc, world, set),
        Mode::Strong => unreachable!(),
    }
}

/// A number of rows that the program of the set doesn't pass.
fn most_rows(world: &World, set: SetId) -> usize
    requires { IsEventualSet world.now set.0 }
    ensures { length (set_rows world.now set.0) ≤ result }
{
    let members = world.members(set).len();
    let centres = usize::from(world.centre_count());
    match world.rule(set).mode {
        Mode::Direct => members * (3 + centres) + centres + 1,
        Mode::Relay => members * (3 + 3 * centres + centres * centres) + centres + 1,
        Mode::Strong => unreachable!(),
    }
}

/// What keeps a replica in each centre: its variable, which has the centre's number.
#[tactic(auto, using(placement_rows::proofs::Loops::loops))]
fn keeping(alloc: Global, world: &World) -> Result<Vec<(u16, u8)>, AllocError>
    ensures { IfOk result (λ vars. vars.items ≡ keeping world.now) }
{
    let mut vars = Vec::with_capacity(alloc, usize::from(world.centre_count()))?;
    for d in 0..world.centre_count() {
        vars.push((u16::from(d), d))?;
    }
    Ok(vars)
}

/// Puts the rows of providers at the end, where the set asks for more than one.
#[tactic(auto, using(placement_rows::proofs::ProviderLoops::made))]
fn push_asked_rows(
    rows: &mut Vec<Row>,
    alloc: Global,
    world: &World,
    set: SetId,
    firsts: &FirstCentres,
) -> Result<(), AllocError>
    requires set { IsEventualSet world.now set.0 }
    requires found { AreFound world.now set.0 firsts.now }
    ensures { OnOk result (rows.new.items ≡ rows.old.items ++ provider_rows world.now set.0 (length (mode_costs world.now set.0)) (keeping world.now)) }
{
    if !asks_providers(world, set) {
        return Ok(());
    }
    let vars = keeping(alloc, world)?;
    let first = first_provider(world, set);
    push_provider_rows(rows, alloc, world, set, firsts, first, vars.as_slice())
}

/// All rows.
pub(crate) fn set_rows(
    alloc: Global,
    world: &World,
    set: SetId,
    firsts: &FirstCentres,
) -> Result<Vec<Row>, AllocError>
    requires set { IsEventualSet world.now set.0 }
    requires found { AreFound world.now set.0 firsts.now }
    ensures { IfOk result (λ rows. rows.items ≡ set_rows world.now set.0) }
{
    let mut rows = Vec::with_capacity(alloc, most_rows(world, set))?;
    push_mode_rows(&mut rows, alloc, world, set)?;
    push_asked_rows(&mut rows, alloc, world, set, firsts)?;
    Ok(rows)
}
