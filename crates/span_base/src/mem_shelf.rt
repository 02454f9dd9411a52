ghost use Rattle.std.specs.Prelude.{◌≡◌, ◌<◌, ◌≤◌, ◌↔◌, length, IfOk, IsErrOf};
ghost use Rattle.span_base.specs.Calls.{NextFails};
ghost use Rattle.span_base.specs.Files.{ReadsFile, file_of};
ghost use Rattle.span_base.specs.Memory.{after_read, files_of};

use crate::failing_calls::FailingCalls;
use crate::{CalmShelf, FileEntry, Shelf, ShelfError};
use std::marker::Model;

/// A shelf in memory of which given calls fail.
#[derive(Debug, Drop)]
pub struct MemShelf {
    shelf: CalmShelf,
    calls: FailingCalls,
}

impl Model for MemShelf {
    ghost use Rattle.span_base.specs.Memory.{HeldShelf};

    ghost Value = { HeldShelf };

    ghost view = { λ s. record { files = s.shelf.files; absences = s.shelf.absences; calls = s.calls } };
}

impl MemShelf {
    /// A shelf with these files, the first of equal names. `failing` are the numbers of the
    /// calls that fail, counted from 1. Calls past the end of a `u64` all have its last number.
    pub fn make(files: Vec<FileEntry>, failing: Vec<u64>) -> MemShelf
        ensures { result ≡ record { files = files_of files.items; absences = 0; calls = record { failing = failing.items; made = 0; faults = 0 } } }
    {
        MemShelf {
            shelf: CalmShelf::make(files),
            calls: FailingCalls::make(failing),
        }
    }
}

impl Shelf for MemShelf {
    ghost use Rattle.std.specs.Prelude.{Some};

    ghost files = { λ s. Some s.files };

    ghost faults = { λ s. s.calls.faults };

    ghost absences = { λ s. s.absences };

    fn read_at(&mut self, name: &str, at: u64, buf: &mut [u8]) -> Result<usize, ShelfError>
        requires { 0 < length buf.old }

        ensures within { IfOk result (λ n. n ≤ length buf.new) }
        ensures reads { ReadsFile (file_of name.now self.old.files) at buf.new result }
        ensures after { self.new ≡ after_read self.old result }
        ensures fails { IsErrOf result ShelfError.Failed ↔ NextFails self.old.calls }
        ensures never_wants_memory { IsErrOf result ShelfError.NoMemory → ⊥ }
    {
        if self.calls.next_fails() {
            return Err(ShelfError::Failed);
        }
        self.shelf.read_at(name, at, buf)
    }
}
