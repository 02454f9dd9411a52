ghost use Rattle.std.specs.Prelude.{◌≡◌, ◌<◌, ◌≤◌, length, IfOk, IsErrOf};
ghost use Rattle.span_base.specs.Calm.{HeldFiles, after_calm_read};
ghost use Rattle.span_base.specs.Counts.{Rose};
ghost use Rattle.span_base.specs.Files.{ReadsFile, file_of};
ghost use Rattle.span_base.specs.Memory.{files_of};

use crate::entries::{copy_from, find_file};
use crate::{FileEntry, Shelf, ShelfError};
use std::marker::Model;

/// A shelf in memory that never fails. It still counts absences.
#[derive(Debug, Drop)]
pub struct CalmShelf {
    entries: Vec<FileEntry>,
    absences: u64,
}

impl Model for CalmShelf {
    ghost use Rattle.span_base.specs.Calm.{HeldFiles};

    ghost Value = { HeldFiles };

    ghost use Rattle.span_base.specs.Memory.{files_of};

    ghost view = { λ s. record { files = files_of s.entries.items; absences = s.absences } };
}

impl CalmShelf {
    /// A shelf with these files, the first of equal names.
    pub fn make(files: Vec<FileEntry>) -> CalmShelf
        ensures { result ≡ record { files = files_of files.items; absences = 0 } }
    {
        CalmShelf {
            entries: files,
            absences: 0,
        }
    }
}

impl Shelf for CalmShelf {
    ghost use Rattle.std.specs.Prelude.{Some};

    ghost files = { λ s. Some s.files };

    ghost faults = { λ _. 0 };

    ghost absences = { λ s. s.absences };

    fn read_at(&mut self, name: &str, at: u64, buf: &mut [u8]) -> Result<usize, ShelfError>
        requires { 0 < length buf.old }

        ensures within { IfOk result (λ n. n ≤ length buf.new) }
        ensures reads { ReadsFile (file_of name.now self.old.files) at buf.new result }
        ensures after { self.new ≡ after_calm_read self.old result }
        ensures never_fails { IsErrOf result ShelfError.Failed → ⊥ }
        ensures never_wants_memory { IsErrOf result ShelfError.NoMemory → ⊥ }
    {
        match find_file(&self.entries, name) {
            Some(file) => Ok(copy_from(file, at, buf)),
            None => {
                self.absences = self.absences.saturating_add(1);
                Err(ShelfError::Absent)
            }
        }
    }
}
