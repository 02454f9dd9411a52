//! The rows of a strong set's program.
ghost use Rattle.std.specs.Prelude.{◌≡◌, ◌+◌, ◌<◌, ◌≤◌, ◌++◌, length, map, IfOk, OnOk};
ghost use Rattle.std.specs.List.{filter, flat_map};
ghost use Rattle.span_base.specs.DcSet.{has};
ghost use Rattle.placement_rows.specs.Centres.{centres, read_near, write_near};
ghost use Rattle.placement_rows.specs.Providers.{provider_rows};
ghost use Rattle.placement_rows.specs.FirstCentres.{AreFound};
ghost use Rattle.placement_rows.specs.NearSets.{read_near_sets, write_near_sets};
ghost use Rattle.placement_strong.specs.Variables.{members, member_at, strong_costs, g_var, w_var};
ghost use Rattle.placement_strong.specs.Rows.{strong_rows, keeping};
ghost use Rattle.placement_strong.specs.Programs.{set_rows};
ghost use Rattle.placement_strong.specs.Laws.{IsStrongSet};

use crate::backed_rows::{
    push_meets_within, push_reads_replica, push_writes_meet_within, push_writes_replica,
};
use crate::blocks::{first_provider, first_read, first_write};
use crate::members::{member_count, pair_count, pairs};
use crate::quorum_rows::{push_meets, push_writes, push_writes_meet};
use placement_rows::{
    FirstCentres, asks_providers, push_provider_rows, read_near_sets, write_near_sets,
};
use span_base::{DcId, DcSet, SetId};
use std::alloc::{AllocError, Global};
use workload::World;
use zero_one::Row;

/// How many rows a strong set's program has at most: 17 of them are of providers.
fn row_room(world: &World, set: SetId) -> usize
    requires { IsStrongSet world.now set.0 }
{
    let n = usize::from(world.centre_count());
    let k = member_count(world, set);
    let meetings = usize::from(k * k + pair_count(k));
    let k = usize::from(k);
    meetings + 2 * meetings * n + k + 2 * k * n + 17
}

/// The mode's own rows, from the near centres of the members.
fn strong_rows(
    alloc: Global,
    world: &World,
    set: SetId,
    reading: &[DcSet],
    writing: &[DcSet],
) -> Result<Vec<Row>, AllocError>
    requires strong { IsStrongSet world.now set.0 }
    requires reading { reading.now ≡ read_near_sets world.now set.0 }
    requires writing { writing.now ≡ write_near_sets world.now set.0 }
    ensures { IfOk result (λ rows. rows.items ≡ strong_rows world.now set.0) }
{
    let pairs = pairs(alloc, member_count(world, set))?;
    let pairs = pairs.as_slice();
    let mut rows = Vec::with_capacity(alloc, row_room(world, set))?;
    push_meets(&mut rows, alloc, world, set, reading, writing)?;
    push_meets_within(&mut rows, alloc, world, set)?;
    push_writes(&mut rows, alloc, world, set, writing)?;
    push_writes_meet(&mut rows, alloc, world, set, pairs, writing)?;
    push_writes_meet_within(&mut rows, alloc, world, set, pairs)?;
    push_reads_replica(&mut rows, alloc, world, set)?;
    push_writes_replica(&mut rows, alloc, world, set)?;
    Ok(rows)
}

/// Puts near centres at the end, each behind its variable, of which `first` is that of centre 0.
#[tactic(auto, using(placement_rows::proofs::Loops::kept))]
fn push_keepers(
    vars: &mut Vec<(u16, u8)>,
    world: &World,
    first: u16,
    near: &DcSet,
) -> Result<(), AllocError>
    requires { first ≤ 2000 }
    ensures { OnOk result (vars.new.items ≡ vars.old.items ++ map (λ d. (first + d, d)) (filter (has near.now) (centres world.now))) }
{
    for d in 0..world.centre_count() {
        if near.has(DcId(d)) {
            vars.push((first + u16::from(d), d))?;
        }
    }
    Ok(())
}

/// Puts what the read sets keep at the end.
fn push_read_keepers(
    vars: &mut Vec<(u16, u8)>,
    world: &World,
    set: SetId,
    reading: &[DcSet],
) -> Result<(), AllocError>
    requires strong { IsStrongSet world.now set.0 }
    requires reading { reading.now ≡ read_near_sets world.now set.0 }
    ensures { OnOk result (vars.new.items ≡ vars.old.items ++ flat_map (λ a. map (λ d. (g_var world.now a d, d)) (read_near world.now set.0 (member_at world.now set.0 a))) (members world.now set.0)) }
{
    for a in 0..member_count(world, set) {
        let first = first_read(world, set, a);
        push_keepers(vars, world, first, &reading[usize::from(a)])?;
    }
    Ok(())
}

/// Puts what the write sets keep at the end.
fn push_write_keepers(
    vars: &mut Vec<(u16, u8)>,
    world: &World,
    set: SetId,
    writing: &[DcSet],
) -> Result<(), AllocError>
    requires strong { IsStrongSet world.now set.0 }
    requires writing { writing.now ≡ write_near_sets world.now set.0 }
    ensures { OnOk result (vars.new.items ≡ vars.old.items ++ flat_map (λ a. map (λ d. (w_var world.now set.0 a d, d)) (write_near world.now set.0 (member_at world.now set.0 a))) (members world.now set.0)) }
{
    for a in 0..member_count(world, set) {
        let first = first_write(world, set, a);
        push_keepers(vars, world, first, &writing[usize::from(a)])?;
    }
    Ok(())
}

/// What keeps a replica in each centre: its places in the read sets, then in the write sets.
fn keeping(
    alloc: Global,
    world: &World,
    set: SetId,
    reading: &[DcSet],
    writing: &[DcSet],
) -> Result<Vec<(u16, u8)>, AllocError>
    requires strong { IsStrongSet world.now set.0 }
    requires reading { reading.now ≡ read_near_sets world.now set.0 }
    requires writing { writing.now ≡ write_near_sets world.now set.0 }
    ensures { IfOk result (λ vars. vars.items ≡ keeping world.now set.0) }
{
    let room = 2 * member_count(world, set) * u16::from(world.centre_count());
    let mut vars = Vec::with_capacity(alloc, usize::from(room))?;
    push_read_keepers(&mut vars, world, set, reading)?;
    push_write_keepers(&mut vars, world, set, writing)?;
    Ok(vars)
}

/// Puts the rows of providers at the end, where the set asks for more than one.
#[tactic(auto, using(placement_rows::proofs::ProviderLoops::made))]
fn push_asked_rows(
    rows: &mut Vec<Row>,
    alloc: Global,
    world: &World,
    set: SetId,
    firsts: &FirstCentres,
    reading: &[DcSet],
    writing: &[DcSet],
) -> Result<(), AllocError>
    requires strong { IsStrongSet world.now set.0 }
    requires found { AreFound world.now set.0 firsts.now }
    requires reading { reading.now ≡ read_near_sets world.now set.0 }
    requires writing { writing.now ≡ write_near_sets world.now set.0 }
    ensures { OnOk result (rows.new.items ≡ rows.old.items ++ provider_rows world.now set.0 (length (strong_costs world.now set.0)) (keeping world.now set.0)) }
{
    if !asks_providers(world, set) {
        return Ok(());
    }
    let vars = keeping(alloc, world, set, reading, writing)?;
    let first = first_provider(world, set);
    push_provider_rows(rows, alloc, world, set, firsts, first, vars.as_slice())
}

/// All rows.
pub(crate) fn set_rows(
    alloc: Global,
    world: &World,
    set: SetId,
    firsts: &FirstCentres,
) -> Result<Vec<Row>, AllocError>
    requires strong { IsStrongSet world.now set.0 }
    requires found { AreFound world.now set.0 firsts.now }
    ensures { IfOk result (λ rows. rows.items ≡ set_rows world.now set.0) }
{
    let reading = read_near_sets(alloc, world, set)?;
    let reading = reading.as_slice();
    let writing = write_near_sets(alloc, world, set)?;
    let writing = writing.as_slice();
    let mut rows = strong_rows(alloc, world, set, reading, writing)?;
    push_asked_rows(&mut rows, alloc, world, set, firsts, reading, writing)?;
    Ok(rows)
}
