ghost use Rattle.std.specs.Prelude.{◌≡◌, ℕ, ◌+◌, ◌-◌, ◌<◌, ◌≤◌, [], ◌++◌, List, Ok, length, take, drop, IfOk, IfErr, IsErrOf, OnOk, slice_range, vec_len};
ghost use Rattle.span_base.specs.Counts.{Rose};
ghost use Rattle.span_base.specs.Files.{Reads};
ghost use Rattle.shelf_lines.specs.Finds.{IsShelfFault};

use crate::limits::LinesFault;
use span_base::{Shelf, ShelfError};
use std::alloc::{AllocError, Global};
use std::marker::Model;

/// How many bytes a window has room for at first.
const ROOM: usize = 65_536;

/// Bytes of a file that were read and not passed over yet.
#[derive(Drop)]
pub(crate) struct Window {
    buffer: Vec<u8>,
    // They lie in the buffer from `start` up to `end`.
    start: usize,
    end: usize,
}

impl Model for Window {
    ghost use Rattle.std.specs.Prelude.{List, ℕ, ◌≤◌, slice_range, vec_len};

    ghost Value = { List ℕ };

    ghost view = { λ w. slice_range w.buffer.items w.start w.end };

    ghost invariant = { λ w. (w.start ≤ w.end) × (w.end ≤ vec_len w.buffer) };
}

// Makes room behind the bytes from `start` up to `end`, where there is none: by moving them to the
// buffer's front, or else by a buffer twice as large.
fn make_room(buffer: &mut Vec<u8>, start: &mut usize, end: &mut usize) -> Result<(), AllocError>
    requires order { start.old ≤ end.old }
    requires within { end.old ≤ vec_len buffer.old }
    ensures bytes { slice_range buffer.new.items start.new end.new ≡ slice_range buffer.old.items start.old end.old }
    ensures order { start.new ≤ end.new }
    ensures within { end.new ≤ vec_len buffer.new }
    ensures room { OnOk result (end.new < vec_len buffer.new) }
{
    let len = buffer.len();
    if *end < len {
        return Ok(());
    }
    if *start > 0 {
        buffer.copy_within(*start..*end, 0);
        *end -= *start;
        *start = 0;
        return Ok(());
    }
    buffer.resize(len + len.max(ROOM), 0)
}

// Reads bytes of the file from `at` on into the buffer, behind its first `kept` bytes.
fn read_behind<S: Shelf>(
    shelf: &mut S,
    name: &str,
    at: u64,
    buffer: &mut [u8],
    kept: usize,
) -> Result<usize, ShelfError>
    requires { kept < length buffer.old }
    ensures kept { take kept buffer.new ≡ take kept buffer.old }
    ensures within { IfOk result (λ n. kept + n ≤ length buffer.new) }
    ensures reads { Reads (S.files shelf.old) name.now at (drop kept buffer.new) result }
    ensures files_stay { S.files shelf.new ≡ S.files shelf.old }

    ensures faults_stay { S.faults shelf.old ≤ S.faults shelf.new }
    ensures absences_stay { S.absences shelf.old ≤ S.absences shelf.new }
    ensures failed { IsErrOf result ShelfError.Failed → Rose (S.faults shelf.old) (S.faults shelf.new) }
    ensures absent { IsErrOf result ShelfError.Absent → Rose (S.absences shelf.old) (S.absences shelf.new) }
{
    shelf.read_at(name, at, &mut buffer[kept..])
}

impl Window {
    /// A window without bytes.
    pub(crate) fn make(alloc: Global) -> Result<Window, AllocError>
        ensures { IfOk result (λ window. window ≡ []) }
    {
        Ok(Window {
            buffer: vec![in alloc; 0; ROOM]?,
            start: 0,
            end: 0,
        })
    }

    /// The bytes.
    pub(crate) fn bytes(&self) -> &[u8]
        ensures { result.now ≡ self.now }
    {
        &self.buffer[self.start..self.end]
    }

    /// Passes over the first `count` bytes.
    pub(crate) fn skip(&mut self, count: usize)
        requires { count ≤ length self.old }
        ensures { self.new ≡ drop count self.old }
    {
        self.start += count;
    }

    /// Reads bytes of the file from `at` on, and adds them. It answers how many; none are the end of
    /// the file.
    pub(crate) fn read<S: Shelf>(
        &mut self,
        shelf: &mut S,
        name: &str,
        at: u64,
    ) -> Result<usize, LinesFault>
        ensures adds { IfOk result (λ n. (piece : List ℕ) × (n ≤ length piece) × Reads (S.files shelf.old) name.now at piece (Ok n) × (self.new ≡ self.old ++ take n piece)) }
        ensures files_stay { S.files shelf.new ≡ S.files shelf.old }

        ensures faults_stay { S.faults shelf.old ≤ S.faults shelf.new }
        ensures absences_stay { S.absences shelf.old ≤ S.absences shelf.new }
        ensures failed { IsErrOf result LinesFault.ReadFault → Rose (S.faults shelf.old) (S.faults shelf.new) }
        ensures absent { IsErrOf result LinesFault.Absent → Rose (S.absences shelf.old) (S.absences shelf.new) }
        ensures fails { IfErr result (IsShelfFault (S.files shelf.old) name.now) }
    {
        make_room(&mut self.buffer, &mut self.start, &mut self.end)?;
        let count = read_behind(shelf, name, at, self.buffer.as_mut_slice(), self.end)?;
        self.end += count;
        Ok(count)
    }
}
