//! The rows that say that the machines of each centre bear its load.
ghost use Rattle.std.specs.Prelude.{◌≡◌, ◌+◌, ◌<◌, ◌≤◌, ◌^◌, ◌*◌, ◌++◌, map, length, sum_by, All, IfOk, OnOk};
ghost use Rattle.std.specs.List.{filter, range_with_len};
ghost use Rattle.zero_one.specs.Rows.{row_weight};
ghost use Rattle.workload.specs.World.{centre_count};
ghost use Rattle.placement_rows.specs.Centres.{centres};
ghost use Rattle.machine_text.specs.Machines.{IsMachineWithin, machine_of};
ghost use Rattle.joint_placement.specs.Variables.{first_of, first_digit, places};
ghost use Rattle.joint_placement.specs.Capacity.{load_entry, digit_entry, is_load, capacity_row};

use crate::loads::loads_of;
use machine_text::{Machine, Machines};
use span_base::{DcId, Listed};
use std::alloc::{AllocError, Global};
use workload::World;
use zero_one::{Entry, Row};

/// How many machines the digit at a place counts.
pub(crate) fn digit(j: u8) -> u32
    requires { j < 10 }
    ensures value { result ≡ 2 ^ j }
    ensures small { result ≤ 1023 }
{
    1 << j
}

/// What so many machines bear as the digit at a place says.
fn digit_capacity(machine: &Machine, j: u8) -> u32
    requires within { IsMachineWithin machine.now }
    requires place { j < 10 }
    ensures capacity { result ≡ 2 ^ j * machine.now.capacity }
    ensures small { result ≤ 1023 * 10 ^ 6 }
{
    digit(j) * machine.capacity
}

/// All loads together.
fn sum_of(loads: &[(u16, u64)]) -> u128
    requires { All (λ load. load.1 ≤ 2 ^ 34) loads.now }
    ensures sum { result ≡ sum_by (λ load. load.1) loads.now }
    ensures small { result ≤ 2 ^ 100 }
{
    let mut sum = 0;
    for load in loads {
        sum += u128::from(load.1);
    }
    sum
}

/// What all digits of a centre bear together.
#[tactic(auto, using(crate::proofs::Stacks::sums))]
fn most_capacity(machine: &Machine) -> u128
    requires { IsMachineWithin machine.now }
    ensures sum { result ≡ sum_by (λ j. 2 ^ j * machine.now.capacity) (places machine.now) }
    ensures small { result ≤ 10 * (1023 * 10 ^ 6) }
{
    let mut sum = 0;
    for j in 0..machine.digits {
        sum += u128::from(digit_capacity(machine, j));
    }
    sum
}

/// What the row of a centre weighs.
pub(crate) fn capacity_weight(
    alloc: Global,
    world: &World,
    machines: &Machines,
    dc: DcId,
) -> Result<u128, AllocError>
    requires dc { dc.0 < centre_count world.now }
    requires variables { first_of world.now (length world.now.sets) ≤ 4096 }
    ensures weight { IfOk result (λ weight. weight ≡ row_weight (capacity_row world.now machines.now dc.0)) }
    ensures small { IfOk result (λ weight. weight < 2 ^ 101) }
{
    let loads = loads_of(alloc, world, machines.unit(), dc)?;
    Ok(sum_of(loads.as_slice()) + most_capacity(&machines.machine(dc)))
}

/// The entries of loads; what loads nothing has none.
#[tactic(auto, using(placement_rows::proofs::ProviderLoops::items))]
fn load_entries(alloc: Global, loads: &[(u16, u64)]) -> Result<Vec<Entry>, AllocError>
    requires { All (λ load. load.1 ≤ 10 ^ 7) loads.now }
    ensures { IfOk result (λ entries. entries.items ≡ map load_entry (filter is_load loads.now)) }
{
    let mut entries = Vec::new(alloc);
    for load in loads {
        if load.1 > 0 {
            entries.push(Entry {
                var: load.0,
                coef: -(load.1 as i32),
            })?;
        }
    }
    Ok(entries)
}

/// Puts the entries of a centre's digits at the end, of which the first has this variable.
#[tactic(auto, using(placement_rows::proofs::Loops::loops))]
fn push_digit_entries(
    entries: &mut Vec<Entry>,
    machine: &Machine,
    first: u16,
) -> Result<(), AllocError>
    requires within { IsMachineWithin machine.now }
    requires first { first ≤ 4096 }
    ensures { OnOk result (entries.new.items ≡ entries.old.items ++ map (digit_entry first machine.now) (places machine.now)) }
{
    for j in 0..machine.digits {
        entries.push(Entry {
            var: first + u16::from(j),
            coef: digit_capacity(machine, j) as i32,
        })?;
    }
    Ok(())
}

/// The row of a centre, whose digits' variables begin with `first`.
pub(crate) fn capacity_row(
    alloc: Global,
    world: &World,
    machines: &Machines,
    dc: DcId,
    first: u16,
) -> Result<Row, AllocError>
    requires dc { dc.0 < centre_count world.now }
    requires variables { first_of world.now (length world.now.sets) ≤ 4096 }
    requires first { first ≡ first_digit world.now machines.now dc.0 }
    requires low { first ≤ 4096 }
    requires light { row_weight (capacity_row world.now machines.now dc.0) ≤ 10 ^ 7 }
    ensures { IfOk result (λ row. row ≡ capacity_row world.now machines.now dc.0) }
{
    let loads = loads_of(alloc, world, machines.unit(), dc)?;
    let mut entries = load_entries(alloc, loads.as_slice())?;
    push_digit_entries(&mut entries, &machines.machine(dc), first)?;
    Ok(Row {
        entries: Listed::from_vec(entries),
        bound: 0,
    })
}
