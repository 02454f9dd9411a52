//! The command `gen`.
ghost use Rattle.std.specs.Prelude.{◌≡◌, ◌≢◌, ◌≤◌, ◌++◌, OnOk, string_bytes};
ghost use Rattle.span_base.specs.Counts.{Rose};
ghost use Rattle.run_generator.specs.Told.{IsGenerated};
ghost use Rattle.run_marks.specs.Text.{messages_line};
ghost use Rattle.span_top.specs.Generated.{GenEnds, calls_line, waiting_line, ends_text, generated_text, waiting};

use crate::status::Status;
use run_generator::{Generated, generate};
use span_base::{DeviceFault, Sink, write_all};
use std::alloc::{AllocError, Global};

/// Runs so many calls whose events are drawn, and writes how they ended.
#[tactic(auto, using(crate::proofs::Generating::ends))]
pub fn generate_calls<K: Sink>(alloc: Global, calls: u32, out: &mut K) -> Status
    requires { calls ≤ 20000 }
    ensures ends { GenEnds calls (K.taken out.old) (K.taken out.new) result }
    ensures no_read_fault { result ≢ Status.ReadFault }
    ensures no_absent { result ≢ Status.Absent 0 }
    ensures write_fault { result ≡ Status.WriteFault → Rose (K.faults out.old) (K.faults out.new) }
    ensures write_faults_stay { K.faults out.old ≤ K.faults out.new }
{
    match generate(alloc, calls) {
        Ok(generated) => write_generated(alloc, calls, &generated, out),
        Err(_) => Status::NoMemory,
    }
}

// Writes how the calls of a generated run ended.
#[tactic(auto, using(crate::proofs::Generating::written))]
fn write_generated<K: Sink>(alloc: Global, calls: u32, generated: &Generated, out: &mut K) -> Status
    requires { IsGenerated calls generated.now }
    ensures ends { GenEnds calls (K.taken out.old) (K.taken out.new) result }
    ensures no_read_fault { result ≢ Status.ReadFault }
    ensures no_absent { result ≢ Status.Absent 0 }
    ensures write_fault { result ≡ Status.WriteFault → Rose (K.faults out.old) (K.faults out.new) }
    ensures write_faults_stay { K.faults out.old ≤ K.faults out.new }
{
    let mut text = String::new(alloc);
    let Ok(()) = push_generated(&mut text, calls, generated) else {
        return Status::NoMemory;
    };
    match write_all(out, text.as_bytes()) {
        Ok(()) => Status::Done,
        Err(DeviceFault::Failed) => Status::WriteFault,
        Err(DeviceFault::NoMemory) => Status::NoMemory,
    }
}

fn push_generated(text: &mut String, calls: u32, generated: &Generated) -> Result<(), AllocError>
    ensures { OnOk result (string_bytes text.new ≡ string_bytes text.old ++ generated_text calls generated.now) }
{
    push_calls(text, calls)?;
    push_ends(text, generated)?;
    push_waiting(text, waiting(calls, generated))?;
    push_messages(text, generated)
}

#[tactic(auto, unfolding(crate::specs::Generated::calls_line))]
fn push_calls(text: &mut String, calls: u32) -> Result<(), AllocError>
    ensures { OnOk result (string_bytes text.new ≡ string_bytes text.old ++ calls_line calls) }
{
    write!(text, "calls {calls}\n")
}

fn push_ends(text: &mut String, generated: &Generated) -> Result<(), AllocError>
    ensures { OnOk result (string_bytes text.new ≡ string_bytes text.old ++ ends_text generated.now) }
{
    let ok = generated.ok;
    let ended = generated.ended;
    write!(text, "ok {ok}\nended {ended}\n")
}

#[tactic(auto, unfolding(crate::specs::Generated::waiting_line))]
fn push_waiting(text: &mut String, calls: u64) -> Result<(), AllocError>
    ensures { OnOk result (string_bytes text.new ≡ string_bytes text.old ++ waiting_line calls) }
{
    write!(text, "waiting {calls}\n")
}

fn push_messages(text: &mut String, generated: &Generated) -> Result<(), AllocError>
    ensures { OnOk result (string_bytes text.new ≡ string_bytes text.old ++ messages_line generated.now.messages) }
{
    let messages = generated.messages;
    write!(text, "messages {messages}\n")
}

// How many calls have no end.
fn waiting(calls: u32, generated: &Generated) -> u64
    ensures { result ≡ waiting calls generated.now }
{
    let ends = u64::from(generated.ok) + u64::from(generated.ended);
    u64::from(calls).saturating_sub(ends)
}
