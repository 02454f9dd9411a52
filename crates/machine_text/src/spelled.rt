//! What the records of a machine file spell, or the first fault from left to right.
ghost use Rattle.std.specs.Prelude.{◌≡◌, ◌<◌, ◌≤◌, length, IfOk};
ghost use Rattle.csv.specs.Records.{fields_of};
ghost use Rattle.machine_text.specs.Machines.{IsMachineWithin};
ghost use Rattle.machine_text.specs.Spelled.{field, told, number_in, opening_of, unit_of, machine_of};

use crate::fault::Fault;
use crate::machines::Machine;
use csv::ByteRecord;
use price_tables::MAX_PRICE;
use span_base::{NumberFault, What, read_number};

/// The greatest number of requests that make one unit of load.
const MAX_UNIT: u64 = 1_000_000_000;
/// The greatest number of units of load that a machine bears.
const MAX_CAPACITY: u64 = 1_000_000;
/// The greatest number of digits of a number of machines.
const MAX_DIGITS: u64 = 10;

/// A field that the record has.
fn field(row: &ByteRecord, i: usize) -> &[u8]
    requires { i < length (fields_of row.now) }
    ensures { result.now ≡ field (fields_of row.now) i }
{
    match row.get(i) {
        Some(field) => field,
        None => unreachable!(),
    }
}

/// That the text is a word.
#[tactic(auto, unfolding(crate::specs::Spelled::told))]
fn told(word: &[u8], text: &[u8]) -> Result<(), Fault>
    ensures { result ≡ told word.now text.now }
{
    if text == word {
        Ok(())
    } else {
        Err(Fault::Bad)
    }
}

/// The text as a number from `least` to `most`.
#[tactic(auto, unfolding(crate::specs::Spelled::number_in))]
fn number_in(least: u64, most: u64, what: What, text: &[u8]) -> Result<u64, Fault>
    requires { least ≤ most }
    ensures number { result ≡ number_in least most what text.now }
    ensures least { IfOk result (λ n. least ≤ n) }
    ensures most { IfOk result (λ n. n ≤ most) }
{
    match read_number(text, u128::from(most)) {
        Ok(number) if number < u128::from(least) => Err(Fault::Bad),
        Ok(number) => Ok(number as u64),
        Err(NumberFault::Limit { number }) => Err(Fault::Limit { what, number }),
        Err(NumberFault::Bad { .. }) => Err(Fault::Bad),
    }
}

/// The record that begins a machine file.
#[tactic(auto, unfolding(crate::specs::Spelled::opening_of))]
pub(crate) fn opening_of(row: &ByteRecord) -> Result<(), Fault>
    ensures { result ≡ opening_of (fields_of row.now) }
{
    if row.len() != 2 {
        return Err(Fault::Bad);
    }
    told(b"span-machines", field(row, 0))?;
    told(b"1", field(row, 1))
}

/// The record of the unit: how many requests make one unit of load.
#[tactic(auto, unfolding(crate::specs::Spelled::unit_of))]
pub(crate) fn unit_of(row: &ByteRecord) -> Result<u64, Fault>
    ensures unit { result ≡ unit_of (fields_of row.now) }
    ensures some { IfOk result (λ n. 1 ≤ n) }
    ensures within { IfOk result (λ n. n ≤ 1_000_000_000) }
{
    if row.len() != 2 {
        return Err(Fault::Bad);
    }
    told(b"unit", field(row, 0))?;
    number_in(1, MAX_UNIT, What::Unit, field(row, 1))
}

/// The record of the machines of the centre of this name.
#[tactic(auto, unfolding(crate::specs::Spelled::machine_of))]
pub(crate) fn machine_of(name: &[u8], row: &ByteRecord) -> Result<Machine, Fault>
    ensures machine { result ≡ machine_of name.now (fields_of row.now) }
    ensures within { IfOk result (λ machine. IsMachineWithin machine) }
{
    if row.len() != 5 {
        return Err(Fault::Bad);
    }
    told(b"machine", field(row, 0))?;
    told(name, field(row, 1))?;
    Ok(Machine {
        price: number_in(0, MAX_PRICE, What::Price, field(row, 2))?,
        capacity: number_in(1, MAX_CAPACITY, What::Capacity, field(row, 3))? as u32,
        digits: number_in(1, MAX_DIGITS, What::Digits, field(row, 4))? as u8,
    })
}
