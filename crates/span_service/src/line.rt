//! The lines that a service writes.

ghost use Rattle.std.specs.Prelude.{◌≡◌, ◌++◌, ◌≤◌, OnOk, IsErrOf, string_bytes};
ghost use Rattle.span_base.specs.Counts.{Rose};
ghost use Rattle.span_base.specs.Taken.{Appends};
ghost use Rattle.span_service.specs.Visits.{opening_line, served_line};
ghost use Rattle.span_service.specs.Endings.{word_of, OnlyWrites};

use crate::ending::Ending;
use crate::visit_fault::VisitFault;
use span_base::{DeviceFault, Sink, write_all};
use std::alloc::{AllocError, Global};

/// Writes how many records the replica of this number has.
pub(crate) fn write_opening<K: Sink>(
    alloc: Global,
    number: u8,
    records: u64,
    out: &mut K,
) -> Result<(), VisitFault>
    ensures line { OnOk result (Appends (K.taken out.old) (K.taken out.new) (opening_line number records)) }
    ensures write_fault { IsErrOf result VisitFault.WriteFault → Rose (K.faults out.old) (K.faults out.new) }
    ensures faults_stay { K.faults out.old ≤ K.faults out.new }
    ensures others { OnlyWrites result }
{
    let mut text = String::new(alloc);
    push_opening(&mut text, number, records)?;
    write_text(text.as_bytes(), out)
}

#[tactic(auto, unfolding(crate::specs::Visits::opening_line))]
fn push_opening(text: &mut String, number: u8, records: u64) -> Result<(), AllocError>
    ensures { OnOk result (string_bytes text.new ≡ string_bytes text.old ++ opening_line number records) }
{
    write!(text, "replica {number} records {records}\n")
}

/// Writes how many requests of a connection were answered, and how its service ended.
pub(crate) fn write_served<K: Sink>(
    alloc: Global,
    answered: u64,
    ending: Ending,
    out: &mut K,
) -> Result<(), VisitFault>
    ensures line { OnOk result (Appends (K.taken out.old) (K.taken out.new) (served_line answered (word_of ending))) }
    ensures write_fault { IsErrOf result VisitFault.WriteFault → Rose (K.faults out.old) (K.faults out.new) }
    ensures faults_stay { K.faults out.old ≤ K.faults out.new }
    ensures others { OnlyWrites result }
{
    let mut text = String::new(alloc);
    push_served(&mut text, answered, ending.word())?;
    write_text(text.as_bytes(), out)
}

#[tactic(auto, unfolding(crate::specs::Visits::served_line))]
fn push_served(text: &mut String, answered: u64, word: &str) -> Result<(), AllocError>
    ensures { OnOk result (string_bytes text.new ≡ string_bytes text.old ++ served_line answered word.now) }
{
    write!(text, "served {answered} {word}\n")
}

fn write_text<K: Sink>(text: &[u8], out: &mut K) -> Result<(), VisitFault>
    ensures text { OnOk result (Appends (K.taken out.old) (K.taken out.new) text.now) }
    ensures write_fault { IsErrOf result VisitFault.WriteFault → Rose (K.faults out.old) (K.faults out.new) }
    ensures faults_stay { K.faults out.old ≤ K.faults out.new }
    ensures others { OnlyWrites result }
{
    match write_all(out, text) {
        Ok(()) => Ok(()),
        Err(DeviceFault::Failed) => Err(VisitFault::WriteFault),
        Err(DeviceFault::NoMemory) => Err(VisitFault::NoMemory(AllocError)),
    }
}
