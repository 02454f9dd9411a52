//! The text of a run on its way to a sink.

ghost use Rattle.std.specs.Prelude.{◌≡◌, ◌≤◌, ◌++◌, [], ℕ, List, Option, IfOk, IsErrOf, OnOk, codes, string_bytes};
ghost use Rattle.span_base.specs.Counts.{Rose};
ghost use Rattle.run_marks.specs.Text.{mark_text, marks_text, messages_line};
ghost use Rattle.sink_buffer.specs.Said.{IsSaid, Says, Flushes};

use run_marks::{Mark, push_mark};
use sink_buffer::SinkBuffer;
use span_base::{DeviceFault, Sink};
use std::alloc::{AllocError, Global};
use std::marker::Model;
use world_core::Marks;

/// The text of a run on its way to a sink. Contracts see the bytes that are kept. After a call
/// that failed it isn't used again.
#[derive(Drop)]
pub struct Log {
    /// The lines that are written next.
    lines: String,
    buffer: SinkBuffer,
}

impl Model for Log {
    ghost use Rattle.std.specs.Prelude.{List, ℕ};

    ghost Value = { List ℕ };

    ghost view = { λ l. l.buffer };
}

impl Log {
    /// A log that keeps nothing.
    pub fn make(alloc: Global) -> Result<Log, AllocError>
        ensures { IfOk result (λ log. log ≡ []) }
    {
        Ok(Log {
            lines: String::new(alloc),
            buffer: SinkBuffer::make(alloc)?,
        })
    }

    /// Passes on the lines of the marks of an event.
    pub fn put<K: Sink>(&mut self, marks: Marks, out: &mut K) -> Result<(), DeviceFault>
        ensures puts { (from : Option (List ℕ)) (text : List ℕ) → IsSaid from (K.taken out.old) self.old text
            → Says from (K.taken out.new) self.new (text ++ marks_text marks) result }

        ensures faults_stay { K.faults out.old ≤ K.faults out.new }
        ensures failed { IsErrOf result DeviceFault.Failed → Rose (K.faults out.old) (K.faults out.new) }
    {
        if marks.len() == 0 {
            return Ok(());
        }
        self.lines.clear();
        if push_marks(&mut self.lines, &marks).is_err() {
            return Err(DeviceFault::NoMemory);
        }
        self.buffer.put(out, self.lines.as_bytes())
    }

    /// Passes on how many messages were sent, and all that is kept.
    pub fn close<K: Sink>(&mut self, messages: u32, out: &mut K) -> Result<(), DeviceFault>
        ensures closes { (from : Option (List ℕ)) (text : List ℕ) → IsSaid from (K.taken out.old) self.old text
            → Flushes from (K.taken out.new) self.new (text ++ messages_line messages) result }

        ensures faults_stay { K.faults out.old ≤ K.faults out.new }
        ensures failed { IsErrOf result DeviceFault.Failed → Rose (K.faults out.old) (K.faults out.new) }
    {
        self.lines.clear();
        if push_messages(&mut self.lines, messages).is_err() {
            return Err(DeviceFault::NoMemory);
        }
        self.buffer.put(out, self.lines.as_bytes())?;
        self.buffer.flush(out)
    }

    /// Passes on all that is kept.
    pub fn flush<K: Sink>(&mut self, out: &mut K) -> Result<(), DeviceFault>
        ensures flushes { (from : Option (List ℕ)) (text : List ℕ) → IsSaid from (K.taken out.old) self.old text
            → Flushes from (K.taken out.new) self.new text result }

        ensures faults_stay { K.faults out.old ≤ K.faults out.new }
        ensures failed { IsErrOf result DeviceFault.Failed → Rose (K.faults out.old) (K.faults out.new) }
    {
        self.buffer.flush(out)
    }
}

/// Puts a line for each mark at the end.
fn push_marks(text: &mut String, marks: &Marks) -> Result<(), AllocError>
    ensures { OnOk result (string_bytes text.new ≡ string_bytes text.old ++ marks_text marks.now) }
{
    for number in 0..marks.len() {
        if let Some(mark) = marks.get(number) {
            push_line(text, mark)?;
        }
    }
    Ok(())
}

/// Puts the line of a mark at the end.
fn push_line(text: &mut String, mark: &Mark) -> Result<(), AllocError>
    ensures { OnOk result (string_bytes text.new ≡ string_bytes text.old ++ (mark_text mark.now ++ codes "\n")) }
{
    push_mark(text, mark)?;
    text.push('\n')
}

/// Puts the line at the end that tells how many messages were sent.
fn push_messages(text: &mut String, messages: u32) -> Result<(), AllocError>
    ensures { OnOk result (string_bytes text.new ≡ string_bytes text.old ++ messages_line messages) }
{
    write!(text, "messages {messages}\n")
}
