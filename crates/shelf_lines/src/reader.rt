ghost use Rattle.std.specs.Prelude.{◌≡◌, ℕ, ◌+◌, ◌-◌, ◌^◌, ◌<◌, ◌≤◌, List, [], ◌++◌, length, take, slice_get, Some, IfOk, IsErrOf};
ghost use Rattle.span_base.specs.Counts.{Rose};
ghost use Rattle.shelf_lines.specs.Lines.{Begins, GivesNext, HasGiven};
ghost use Rattle.shelf_lines.specs.Finds.{Finds, FindsWithin};

use crate::limits::{LinesFault, allow};
use crate::window::Window;
use memchr::memchr;
use span_base::Shelf;
use std::alloc::{AllocError, Global};
use std::marker::Model;

/// What comes next in a file.
#[derive(Clone, Copy, Debug, PartialEq, Eq)]
pub enum Found {
    /// A line that ends with a line feed.
    Line,
    /// Bytes without a line feed, with which the file ends.
    Cut,
    /// The end of the file.
    End,
}

/// Gives the lines of a file, one after another.
#[derive(Drop)]
pub struct ShelfLines {
    // The line last given, then what was read behind it.
    window: Window,
    // The length of that line, and with its line feed.
    line: usize,
    passed: usize,
    // How many bytes of the file lie before those not given yet.
    given: u64,
    line_limit: u64,
    file_limit: u64,
}

impl Model for ShelfLines {
    ghost use Rattle.std.specs.Prelude.{◌≤◌, length, take, drop};
    ghost use Rattle.shelf_lines.specs.Lines.{Kept};

    ghost Value = { Kept };

    ghost view = { λ r. record {
      line = take r.line r.window;
      ahead = drop r.passed r.window;
      given = r.given;
      line_limit = r.line_limit;
      file_limit = r.file_limit;
    } };

    ghost invariant = { λ r. (r.line ≤ r.passed) × (r.passed ≤ length r.window) × (r.given ≤ r.file_limit) };
}

// Reads on until the bytes in the window have a line feed, or the file ends with them.
fn find<S: Shelf>(
    window: &mut Window,
    shelf: &mut S,
    name: &str,
    given: u64,
    line_limit: u64,
    file_limit: u64,
) -> Result<Option<usize>, LinesFault>
    requires { given ≤ file_limit }
    ensures finds { (front : List ℕ) → given ≡ length front → Begins (S.files shelf.old) name.now (front ++ window.old)
        → Finds (S.files shelf.old) name.now front line_limit file_limit window.new result }
    ensures within { FindsWithin line_limit (file_limit - given) window.new result }
    ensures files_stay { S.files shelf.new ≡ S.files shelf.old }

    ensures faults_stay { S.faults shelf.old ≤ S.faults shelf.new }
    ensures absences_stay { S.absences shelf.old ≤ S.absences shelf.new }
    ensures failed { IsErrOf result LinesFault.ReadFault → Rose (S.faults shelf.old) (S.faults shelf.new) }
    ensures absent { IsErrOf result LinesFault.Absent → Rose (S.absences shelf.old) (S.absences shelf.new) }
{
    let room = file_limit - given;
    let mut searched = 0;
    'search: loop {
        let bytes = window.bytes();
        if let Some(at) = memchr(b'\n', &bytes[searched..]) {
            let len = searched + at;
            allow(line_limit, room, len as u64, len as u64 + 1)?;
            return Ok(Some(len));
        }
        searched = bytes.len();
        allow(line_limit, room, searched as u64, searched as u64)?;
        let count = window.read(shelf, name, given + searched as u64)?;
        if count == 0 {
            return Ok(None);
        }
    }
}

impl ShelfLines {
    /// A reader at the front of a file that has at most `file_limit` bytes, and in each line at most
    /// `line_limit`, its line feed not counted.
    pub fn make(alloc: Global, line_limit: u64, file_limit: u64) -> Result<ShelfLines, AllocError>
        ensures { IfOk result (λ r. r ≡ record { line = []; ahead = []; given = 0; line_limit = line_limit; file_limit = file_limit }) }
    {
        Ok(ShelfLines {
            window: Window::make(alloc)?,
            line: 0,
            passed: 0,
            given: 0,
            line_limit,
            file_limit,
        })
    }

    /// The line last given, without its line feed.
    pub fn line(&self) -> &[u8]
        ensures { result.now ≡ self.now.line }
    {
        &self.window.bytes()[..self.line]
    }

    /// Reads on in the file of this name, which has to be that of each call, and says what comes
    /// next. Of the two faults of length the one is told whose byte comes first. After a fault the
    /// reader is of no more use.
    pub fn next<S: Shelf>(&mut self, shelf: &mut S, name: &str) -> Result<Found, LinesFault>
        ensures gives { (given : List ℕ) → HasGiven (S.files shelf.old) name.now given self.old
            → GivesNext (S.files shelf.old) name.now given self.new result }
        ensures rises { self.old.given ≤ self.new.given }
        ensures counts { result ≡ Ok Found.Line → self.old.given < self.new.given }
        ensures within { self.new.given ≤ self.new.file_limit }
        ensures line_limit { self.new.line_limit ≡ self.old.line_limit }
        ensures file_limit { self.new.file_limit ≡ self.old.file_limit }
        ensures files_stay { S.files shelf.new ≡ S.files shelf.old }

        ensures faults_stay { S.faults shelf.old ≤ S.faults shelf.new }
        ensures absences_stay { S.absences shelf.old ≤ S.absences shelf.new }
        ensures failed { IsErrOf result LinesFault.ReadFault → Rose (S.faults shelf.old) (S.faults shelf.new) }
        ensures absent { IsErrOf result LinesFault.Absent → Rose (S.absences shelf.old) (S.absences shelf.new) }
    {
        self.window.skip(self.passed);
        self.line = 0;
        self.passed = 0;
        let found = find(
            &mut self.window,
            shelf,
            name,
            self.given,
            self.line_limit,
            self.file_limit,
        )?;
        match found {
            Some(len) => {
                self.line = len;
                self.passed = len + 1;
                self.given += len as u64 + 1;
                Ok(Found::Line)
            }
            None => {
                self.line = self.window.bytes().len();
                self.passed = self.line;
                self.given += self.line as u64;
                if self.line == 0 {
                    Ok(Found::End)
                } else {
                    Ok(Found::Cut)
                }
            }
        }
    }
}
