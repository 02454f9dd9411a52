//! What the variables of the sets load on a centre. A load stands behind its variable.
ghost use Rattle.std.specs.Prelude.{◌≡◌, ◌+◌, ◌<◌, ◌≤◌, ◌^◌, ◌*◌, ◌++◌, map, length, sum_by, All, IfOk, OnOk};
ghost use Rattle.workload.specs.World.{centre_count, members_of};
ghost use Rattle.placement_rows.specs.Centres.{numbered_members};
ghost use Rattle.placement_relay.specs.Reading.{h};
ghost use Rattle.placement_strong.specs.Variables.{w_var};
ghost use Rattle.joint_placement.specs.Loads.{units};
ghost use Rattle.joint_placement.specs.Variables.{variables_of, first_of};
ghost use Rattle.joint_placement.specs.Capacity.{eventual_loads, strong_loads, set_loads, joint_loads, load_from};

use crate::variables::variables_of;
use span_base::{DcId, SetId};
use std::alloc::{AllocError, Global};
use workload::{Mode, World};

/// How many units so many requests make.
pub(crate) fn units(unit: u64, requests: u64) -> u64
    requires some { 1 ≤ unit }
    requires unit { unit ≤ 10 ^ 9 }
    requires requests { requests ≤ 10 ^ 9 }
    ensures units { result ≡ units unit requests }
    ensures small { result ≤ 2 * 10 ^ 9 }
{
    (requests + (unit - 1)) / unit
}

/// What the puts of all members load on a replica.
fn puts_load(world: &World, unit: u64, set: SetId) -> u64
    requires set { set.0 < length world.now.sets }
    requires some { 1 ≤ unit }
    requires unit { unit ≤ 10 ^ 9 }
    ensures load { result ≡ sum_by (λ m. units unit m.puts) (members_of world.now set.0) }
    ensures small { result ≤ 8 * (2 * 10 ^ 9) }
{
    let mut load = 0;
    for member in world.members(set) {
        load += units(unit, member.puts);
    }
    load
}

/// The variable that says that a member reads at a centre; the member is counted from 0.
fn reading(world: &World, a: usize, dc: DcId) -> u16
    requires a { a < 8 }
    requires dc { dc.0 < 16 }
    ensures variable { result ≡ h world.now a dc.0 }
    ensures small { result < 160 }
{
    let centres = u16::from(world.centre_count());
    centres + a as u16 * centres + u16::from(dc.0)
}

/// The variable that says that a centre is in a member's write set; the member is counted from 0.
fn writing(world: &World, set: SetId, a: usize, dc: DcId) -> u16
    requires set { set.0 < length world.now.sets }
    requires a { a < 8 }
    requires dc { dc.0 < 16 }
    ensures variable { result ≡ w_var world.now set.0 a dc.0 }
    ensures small { result < 300 }
{
    let centres = u16::from(world.centre_count());
    let members = world.members(set).len() as u16;
    centres + members * centres + a as u16 * centres + u16::from(dc.0)
}

/// Puts what the gets of the members load on a centre at the end.
fn push_gets(
    loads: &mut Vec<(u16, u64)>,
    world: &World,
    unit: u64,
    dc: DcId,
    set: SetId,
    first: u16,
) -> Result<(), AllocError>
    requires set { set.0 < length world.now.sets }
    requires dc { dc.0 < centre_count world.now }
    requires some { 1 ≤ unit }
    requires unit { unit ≤ 10 ^ 9 }
    requires first { first ≤ 4096 }
    ensures { OnOk result (loads.new.items ≡ loads.old.items ++ map (λ am. (first + h world.now am.0 dc.0, units unit am.1.gets)) (numbered_members world.now set.0)) }
{
    let _count = world.centre_count();
    for (a, member) in world.members(set).iter().enumerate() {
        loads.push((first + reading(world, a, dc), units(unit, member.gets)))?;
    }
    Ok(())
}

/// Puts what the puts of the members load on a centre of their write sets at the end.
fn push_quorum_puts(
    loads: &mut Vec<(u16, u64)>,
    world: &World,
    unit: u64,
    dc: DcId,
    set: SetId,
    first: u16,
) -> Result<(), AllocError>
    requires set { set.0 < length world.now.sets }
    requires dc { dc.0 < centre_count world.now }
    requires some { 1 ≤ unit }
    requires unit { unit ≤ 10 ^ 9 }
    requires first { first ≤ 4096 }
    ensures { OnOk result (loads.new.items ≡ loads.old.items ++ map (λ am. (first + w_var world.now set.0 am.0 dc.0, 2 * units unit am.1.puts)) (numbered_members world.now set.0)) }
{
    let _count = world.centre_count();
    for (a, member) in world.members(set).iter().enumerate() {
        loads.push((
            first + writing(world, set, a, dc),
            2 * units(unit, member.puts),
        ))?;
    }
    Ok(())
}

/// Puts what the variables of a direct or relay set load on a centre at the end.
#[tactic(auto, using(crate::proofs::LoadLoops::moved))]
fn push_eventual(
    loads: &mut Vec<(u16, u64)>,
    world: &World,
    unit: u64,
    dc: DcId,
    set: SetId,
    first: u16,
) -> Result<(), AllocError>
    requires set { set.0 < length world.now.sets }
    requires dc { dc.0 < centre_count world.now }
    requires some { 1 ≤ unit }
    requires unit { unit ≤ 10 ^ 9 }
    requires first { first ≤ 4096 }
    ensures { OnOk result (loads.new.items ≡ loads.old.items ++ map (load_from first) (eventual_loads world.now unit dc.0 set.0)) }
{
    loads.push((first + u16::from(dc.0), puts_load(world, unit, set)))?;
    push_gets(loads, world, unit, dc, set, first)
}

/// Puts what the variables of a strong set load on a centre at the end.
#[tactic(auto, using(crate::proofs::LoadLoops::moved))]
fn push_strong(
    loads: &mut Vec<(u16, u64)>,
    world: &World,
    unit: u64,
    dc: DcId,
    set: SetId,
    first: u16,
) -> Result<(), AllocError>
    requires set { set.0 < length world.now.sets }
    requires dc { dc.0 < centre_count world.now }
    requires some { 1 ≤ unit }
    requires unit { unit ≤ 10 ^ 9 }
    requires first { first ≤ 4096 }
    ensures { OnOk result (loads.new.items ≡ loads.old.items ++ map (load_from first) (strong_loads world.now unit dc.0 set.0)) }
{
    push_gets(loads, world, unit, dc, set, first)?;
    push_quorum_puts(loads, world, unit, dc, set, first)
}

/// Puts what the variables of a set load on a centre at the end, where the first of them is `first`.
#[tactic(auto, unfolding(crate::specs::Capacity::set_loads))]
fn push_set(
    loads: &mut Vec<(u16, u64)>,
    world: &World,
    unit: u64,
    dc: DcId,
    set: SetId,
    first: u16,
) -> Result<(), AllocError>
    requires set { set.0 < length world.now.sets }
    requires dc { dc.0 < centre_count world.now }
    requires some { 1 ≤ unit }
    requires unit { unit ≤ 10 ^ 9 }
    requires first { first ≤ 4096 }
    ensures { OnOk result (loads.new.items ≡ loads.old.items ++ map (load_from first) (set_loads world.now unit dc.0 set.0)) }
{
    match world.rule(set).mode {
        Mode::Direct => push_eventual(loads, world, unit, dc, set, first),
        Mode::Relay => push_eventual(loads, world, unit, dc, set, first),
        Mode::Strong => push_strong(loads, world, unit, dc, set, first),
    }
}

/// What the variables of all sets load on a centre.
#[tactic(auto, using(crate::proofs::LoadLoops::sets), unfolding(crate::specs::Capacity::joint_loads))]
pub(crate) fn loads_of(
    alloc: Global,
    world: &World,
    unit: u64,
    dc: DcId,
) -> Result<Vec<(u16, u64)>, AllocError>
    requires dc { dc.0 < centre_count world.now }
    requires some { 1 ≤ unit }
    requires unit { unit ≤ 10 ^ 9 }
    requires variables { first_of world.now (length world.now.sets) ≤ 4096 }
    ensures loads { IfOk result (λ loads. loads.items ≡ joint_loads world.now unit dc.0) }
    ensures small { IfOk result (λ loads. All (λ load. load.1 ≤ 2 ^ 34) loads.items) }
{
    let _centres = world.centre_count();
    let mut loads = Vec::new(alloc);
    let mut first: u16 = 0;
    for set in 0..world.sets() {
        push_set(&mut loads, world, unit, dc, SetId(set), first)?;
        first += variables_of(world, SetId(set)) as u16;
    }
    Ok(loads)
}
