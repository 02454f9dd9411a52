ghost use Rattle.std.specs.Prelude.{◌≡◌, ◌+◌, ◌≤◌, ◌++◌, [], ◌∷◌, Some, Ok, All, IfOk, IfErr, OnOk, length};
ghost use Rattle.machine_text.specs.Machines.{IsMachineWithin};
ghost use Rattle.machine_text.specs.Spelled.{opening_of, unit_of, machine_of};
ghost use Rattle.machine_text.specs.ReadMachines.{Reads, machines_in, machines_say, next_as, machines_at, ended};
ghost use Rattle.machine_text.specs.Rows.{IsReading, IsNext, IsLacking, IsDue, records_left};

use crate::fault::MachineFault;
use crate::machines::{Machine, Machines};
use crate::rows::{Rows, next_row, rows_of};
use crate::spelled::{machine_of, opening_of, unit_of};
use csv::ByteRecord;
use span_base::DcId;
use std::alloc::{AllocError, Global};
use workload::World;

/// The next record, which has to be there, as the one at this line.
fn due_row(rows: &mut Rows, line: u64) -> Result<ByteRecord, MachineFault>
    requires { IsReading rows.old }
    ensures row { IfOk result (λ row. IsNext (Some row) (records_left rows.old) (records_left rows.new)) }
    ensures reading { OnOk result (IsReading rows.new) }
    ensures fault { IfErr result (IsLacking line (records_left rows.old)) }
{
    match next_row(rows)? {
        Some(row) => Ok(row),
        None => Err(MachineFault::Bad { line }),
    }
}

/// Takes the record that begins a machine file.
fn take_opening(rows: &mut Rows, line: u64) -> Result<(), MachineFault>
    requires { IsReading rows.old }
    ensures opening { OnOk result (next_as opening_of line (records_left rows.old) ≡ Ok (tt, records_left rows.new)) }
    ensures fault { IfErr result (IsDue (next_as opening_of line (records_left rows.old))) }
    ensures reading { OnOk result (IsReading rows.new) }
{
    let row = due_row(rows, line)?;
    match opening_of(&row) {
        Ok(()) => Ok(()),
        Err(fault) => Err(fault.at(line)),
    }
}

/// Takes the record of the unit.
fn take_unit(rows: &mut Rows, line: u64) -> Result<u64, MachineFault>
    requires { IsReading rows.old }
    ensures unit { IfOk result (λ unit. next_as unit_of line (records_left rows.old) ≡ Ok (unit, records_left rows.new)) }
    ensures fault { IfErr result (IsDue (next_as unit_of line (records_left rows.old))) }
    ensures reading { OnOk result (IsReading rows.new) }
    ensures some { IfOk result (λ n. 1 ≤ n) }
    ensures within { IfOk result (λ n. n ≤ 1_000_000_000) }
{
    let row = due_row(rows, line)?;
    match unit_of(&row) {
        Ok(unit) => Ok(unit),
        Err(fault) => Err(fault.at(line)),
    }
}

/// Takes the record of the machines of the centre of this name.
fn take_machine(rows: &mut Rows, line: u64, name: &[u8]) -> Result<Machine, MachineFault>
    requires { IsReading rows.old }
    ensures machine { IfOk result (λ machine. next_as (machine_of name.now) line (records_left rows.old) ≡ Ok (machine, records_left rows.new)) }
    ensures fault { IfErr result (IsDue (next_as (machine_of name.now) line (records_left rows.old))) }
    ensures reading { OnOk result (IsReading rows.new) }
    ensures within { IfOk result (λ machine. IsMachineWithin machine) }
{
    let row = due_row(rows, line)?;
    match machine_of(name, &row) {
        Ok(machine) => Ok(machine),
        Err(fault) => Err(fault.at(line)),
    }
}

/// Puts a machine behind the others.
fn push(machines: &mut Vec<Machine>, machine: Machine) -> Result<(), AllocError>
    ensures { OnOk result (machines.new.items ≡ machines.old.items ++ machine ∷ []) }
{
    machines.push(machine)?;
    Ok(())
}

/// Takes the records of the machines of all centres, from this line on.
fn take_machines(
    alloc: Global,
    rows: &mut Rows,
    line: u64,
    world: &World,
) -> Result<Vec<Machine>, MachineFault>
    requires reading { IsReading rows.old }
    requires line { line ≤ 3 }
    ensures machines { IfOk result (λ machines. machines_at line world.now.centres (records_left rows.old) ≡ Ok (machines.items, records_left rows.new)) }
    ensures fault { IfErr result (IsDue (machines_at line world.now.centres (records_left rows.old))) }
    ensures reading { OnOk result (IsReading rows.new) }
    ensures within { IfOk result (λ machines. All IsMachineWithin machines.items) }
    ensures few { IfOk result (λ machines. length machines.items ≤ 16) }
{
    let mut machines = Vec::with_capacity(alloc, usize::from(world.centre_count()))?;
    for d in 0..world.centre_count() {
        let name = world.name(DcId(d)).as_bytes();
        push(
            &mut machines,
            take_machine(rows, line + u64::from(d), name)?,
        )?;
    }
    Ok(machines)
}

/// That no record is left, where the next one would be at this line.
fn take_end(rows: &mut Rows, line: u64) -> Result<(), MachineFault>
    requires { IsReading rows.old }
    ensures ended { OnOk result (ended line (records_left rows.old) ≡ Ok tt) }
    ensures fault { IfErr result (IsDue (ended line (records_left rows.old))) }
{
    match next_row(rows)? {
        None => Ok(()),
        Some(_) => Err(MachineFault::Bad { line }),
    }
}

/// What the records say.
//
// The reader is lent here: its owner drops it on each way out, and has the fewer of these.
fn take_all(alloc: Global, rows: &mut Rows, world: &World) -> Result<Machines, MachineFault>
    requires { IsReading rows.old }
    ensures { Reads (machines_in world.now (records_left rows.old)) result }
{
    take_opening(rows, 1)?;
    let unit = take_unit(rows, 2)?;
    let machines = take_machines(alloc, rows, 3, world)?;
    take_end(rows, 3 + u64::from(world.centre_count()))?;
    Ok(Machines::make(unit, machines))
}

/// The machines that a text in CSV names for the centres of a world, or its first fault.
pub fn read_machines(alloc: Global, bytes: &[u8], world: &World) -> Result<Machines, MachineFault>
    ensures { Reads (machines_say world.now bytes.now) result }
{
    let mut rows = rows_of(alloc, bytes);
    take_all(alloc, &mut rows, world)
}
