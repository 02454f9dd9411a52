//! The joint program of a world.
ghost use Rattle.std.specs.Prelude.{◌≡◌, ◌+◌, ◌<◌, ◌≤◌, ◌^◌, ◌*◌, ◌++◌, [], map, length, sum_by, All, IfOk, IfErr, OnOk};
ghost use Rattle.std.specs.List.{flat_map, range_with_len};
ghost use Rattle.zero_one.specs.Rows.{row_weight, weight_of};
ghost use Rattle.workload.specs.World.{centre_count};
ghost use Rattle.placement.specs.Placement.{program_of};
ghost use Rattle.placement_rows.specs.Centres.{centres};
ghost use Rattle.machine_text.specs.Machines.{IsMachineWithin, machine_of};
ghost use Rattle.joint_placement.specs.JointPlans.{sets};
ghost use Rattle.joint_placement.specs.Variables.{first_of, variables_of, first_digit, digit_costs, joint_costs};
ghost use Rattle.joint_placement.specs.Capacity.{capacity_row};
ghost use Rattle.joint_placement.specs.Programs.{moved_entry, moved_row, set_rows, joint_rows, joint_program};
ghost use Rattle.joint_placement.specs.Faults.{IsRefused};

use crate::capacity::{capacity_row, capacity_weight, digit};
use crate::variables::variable_count;
use machine_text::{Machine, Machines};
use span_base::{DcId, Listed, SetId, What};
use std::alloc::{AllocError, Global};
use workload::World;
use zero_one::{Entry, MAX_ROWS, MAX_VARIABLES, MAX_WEIGHT, Program, Row};

/// Why a world has no joint program.
#[derive(Clone, Copy, Debug, PartialEq, Eq)]
pub enum JointFault {
    /// The program would pass a limit: on its variables, else on its rows, else on their weight.
    Limit { what: What, number: u128 },
    /// There was no memory.
    NoMemory(AllocError),
}

impl From<AllocError> for JointFault {
    ghost use Rattle.std.specs.Prelude.{◌≡◌};
    ghost use Rattle.joint_placement.specs.declared.encoding.JointFault.TheVariants as fault;

    ghost from_gives = { λ error told. told ≡ fault.NoMemory error };

    fn from(error: AllocError) -> JointFault {
        JointFault::NoMemory(error)
    }
}

/// A row whose variables are so much further up.
#[tactic(auto, using(placement_rows::proofs::Loops::loops))]
fn moved_row(alloc: Global, first: u16, row: &Row) -> Result<Row, AllocError>
    requires { All (λ entry. first + entry.var ≤ 4096) row.now.entries }
    ensures { IfOk result (λ moved. moved ≡ moved_row first row.now) }
{
    let mut entries = Vec::with_capacity(alloc, row.entries.len())?;
    for entry in row.entries.as_slice() {
        entries.push(Entry {
            var: first + entry.var,
            coef: entry.coef,
        })?;
    }
    Ok(Row {
        entries: Listed::from_vec(entries),
        bound: row.bound,
    })
}

/// Puts rows at the end, with their variables so much further up.
fn push_moved(
    rows: &mut Vec<Row>,
    alloc: Global,
    first: u16,
    more: &[Row],
) -> Result<(), AllocError>
    requires { All (λ row. All (λ entry. first + entry.var ≤ 4096) row.entries) more.now }
    ensures { OnOk result (rows.new.items ≡ rows.old.items ++ map (moved_row first) more.now) }
{
    for row in more {
        rows.push(moved_row(alloc, first, row)?)?;
    }
    Ok(())
}

/// Puts costs at the end.
fn push_costs(costs: &mut Vec<u128>, more: &[u128]) -> Result<(), AllocError>
    ensures { OnOk result (costs.new.items ≡ costs.old.items ++ more.now) }
{
    for cost in more {
        costs.push(*cost)?;
    }
    Ok(())
}

/// Puts the costs and the rows of a set's program at the end of those of the sets before it.
fn push_set(
    costs: &mut Vec<u128>,
    rows: &mut Vec<Row>,
    alloc: Global,
    world: &World,
    set: SetId,
) -> Result<(), AllocError>
    requires set { set.0 < length world.now.sets }
    requires first { length costs.old.items ≡ first_of world.now set.0 }
    requires room { length costs.old.items + variables_of world.now set.0 ≤ 4096 }
    ensures costs { OnOk result (costs.new.items ≡ costs.old.items ++ (program_of world.now set.0).costs) }
    ensures rows { OnOk result (rows.new.items ≡ rows.old.items ++ set_rows world.now set.0) }
{
    let program = placement::encode(alloc, world, set)?;
    let more = program.rows();
    push_moved(rows, alloc, costs.len() as u16, more)?;
    push_costs(costs, program.costs())
}

/// Puts the costs and the rows of all sets' programs at the end of nothing.
fn push_sets(
    costs: &mut Vec<u128>,
    rows: &mut Vec<Row>,
    alloc: Global,
    world: &World,
) -> Result<(), AllocError>
    requires no_costs { costs.old.items ≡ [] }
    requires no_rows { rows.old.items ≡ [] }
    requires room { first_of world.now (length world.now.sets) ≤ 4096 }
    ensures costs { OnOk result (costs.new.items ≡ flat_map (λ set. (program_of world.now set).costs) (sets world.now)) }
    ensures rows { OnOk result (rows.new.items ≡ flat_map (set_rows world.now) (sets world.now)) }
{
    for set in 0..world.sets() {
        push_set(costs, rows, alloc, world, SetId(set))?;
    }
    Ok(())
}

/// What so many machines cost as the digit at a place says.
fn digit_cost(machine: &Machine, j: u8) -> u128
    requires within { IsMachineWithin machine.now }
    requires place { j < 10 }
    ensures { result ≡ 2 ^ j * machine.now.price }
{
    u128::from(digit(j)) * u128::from(machine.price)
}

/// Puts what the digits of a centre's machines cost at the end.
#[tactic(auto, using(placement_rows::proofs::Loops::loops))]
fn push_digit_costs(costs: &mut Vec<u128>, machine: &Machine) -> Result<(), AllocError>
    requires { IsMachineWithin machine.now }
    ensures { OnOk result (costs.new.items ≡ costs.old.items ++ digit_costs machine.now) }
{
    for j in 0..machine.digits {
        costs.push(digit_cost(machine, j))?;
    }
    Ok(())
}

/// Puts what the digits of all centres' machines cost at the end.
#[tactic(auto, using(placement_rows::proofs::Loops::loops))]
fn push_machine_costs(
    costs: &mut Vec<u128>,
    world: &World,
    machines: &Machines,
) -> Result<(), AllocError>
    ensures { OnOk result (costs.new.items ≡ costs.old.items ++ flat_map (λ d. digit_costs (machine_of machines.now d)) (centres world.now)) }
{
    for d in 0..world.centre_count() {
        push_digit_costs(costs, &machines.machine(DcId(d)))?;
    }
    Ok(())
}

/// What a row weighs: the absolute values of its bound and its coefficients.
fn row_weight(row: &Row) -> u128
    ensures weight { result ≡ row_weight row.now }
    ensures small { result < 2 ^ 100 }
{
    let mut weight = u128::from(row.bound.unsigned_abs());
    for entry in row.entries.as_slice() {
        weight += u128::from(entry.coef.unsigned_abs());
    }
    weight
}

/// What rows weigh together.
fn rows_weight(rows: &[Row]) -> u128
    requires { length rows.now ≤ 16384 }
    ensures weight { result ≡ weight_of rows.now }
    ensures small { result ≤ 2 ^ 114 }
{
    let mut weight = 0;
    for row in rows {
        weight += row_weight(row);
    }
    weight
}

/// What the rows of all centres weigh together.
#[tactic(auto, using(crate::proofs::Stacks::sums))]
fn capacities_weight(alloc: Global, world: &World, machines: &Machines) -> Result<u128, AllocError>
    requires variables { first_of world.now (length world.now.sets) ≤ 4096 }
    ensures weight { IfOk result (λ weight. weight ≡ sum_by (λ d. row_weight (capacity_row world.now machines.now d)) (centres world.now)) }
    ensures small { IfOk result (λ weight. weight < 2 ^ 120) }
{
    let mut weight = 0;
    for d in 0..world.centre_count() {
        weight += capacity_weight(alloc, world, machines, DcId(d))?;
    }
    Ok(weight)
}

/// Puts the rows of all centres at the end; the first of their digits has the variable `first`.
fn push_capacity_rows(
    rows: &mut Vec<Row>,
    alloc: Global,
    world: &World,
    machines: &Machines,
    first: usize,
) -> Result<(), AllocError>
    requires first { first ≡ first_of world.now (length world.now.sets) }
    requires variables { length (joint_costs world.now machines.now) ≤ 4096 }
    requires light { sum_by (λ d. row_weight (capacity_row world.now machines.now d)) (centres world.now) ≤ 10 ^ 7 }
    ensures { OnOk result (rows.new.items ≡ rows.old.items ++ map (capacity_row world.now machines.now) (centres world.now)) }
{
    let mut digit = first;
    for d in 0..world.centre_count() {
        rows.push(capacity_row(alloc, world, machines, DcId(d), digit as u16)?)?;
        digit += usize::from(machines.machine(DcId(d)).digits);
    }
    Ok(())
}

/// A number that is within its limit, or its refusal.
fn within(what: What, number: u128, most: u128) -> Result<u128, JointFault>
    ensures same { IfOk result (λ n. n ≡ number) }
    ensures within { OnOk result (number ≤ most) }
    ensures past { IfErr result (λ fault. (fault ≡ JointFault.Limit what number) × (most < number)) }
{
    if number > most {
        Err(JointFault::Limit { what, number })
    } else {
        Ok(number)
    }
}

/// The program of a world's joint plans, or the first limit that it would pass, with the whole number
/// of its variables, of its rows, or their whole weight.
pub fn encode_joint(
    alloc: Global,
    world: &World,
    machines: &Machines,
) -> Result<Program, JointFault>
    ensures program { IfOk result (λ program. program ≡ joint_program world.now machines.now) }
    ensures fault { IfErr result (IsRefused world.now machines.now) }
{
    let _unit = machines.unit();
    let _centres = world.centre_count();
    let count = variable_count(world, machines);
    let _variables = within(What::Variables, count as u128, MAX_VARIABLES as u128)?;
    let mut costs = Vec::with_capacity(alloc, count)?;
    let mut rows = Vec::new(alloc);
    push_sets(&mut costs, &mut rows, alloc, world)?;
    let row_count = rows.len() as u128 + u128::from(world.centre_count());
    let _rows = within(What::Rows, row_count, MAX_ROWS as u128)?;
    let weight = rows_weight(rows.as_slice()) + capacities_weight(alloc, world, machines)?;
    let _weight = within(What::Weight, weight, u128::from(MAX_WEIGHT))?;
    push_capacity_rows(&mut rows, alloc, world, machines, costs.len())?;
    push_machine_costs(&mut costs, world, machines)?;
    let Ok(program) = Program::make(costs, rows) else {
        unreachable!()
    };
    Ok(program)
}
