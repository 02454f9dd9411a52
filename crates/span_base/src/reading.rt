ghost use Rattle.std.specs.Prelude.{◌≡◌, ◌≤◌, length, vec_len, IfOk, IsErrOf};
ghost use Rattle.span_base.specs.Counts.{Rose};
ghost use Rattle.span_base.specs.Whole.{ReadsWhole};

use crate::{Bytes, Shelf, ShelfError};
use std::alloc::{AllocError, Global};

/// Why a file can't be read whole.
#[derive(Clone, Copy, Debug, PartialEq, Eq)]
pub enum FileFault {
    /// There is no file of this name.
    Absent,
    /// The shelf failed.
    ReadFault,
    /// The file has more bytes than the limit.
    TooLarge,
    /// There was no memory for the bytes.
    NoMemory,
}

impl From<AllocError> for FileFault {
    ghost use Rattle.std.specs.Prelude.{◌≡◌};
    ghost use Rattle.span_base.specs.declared.reading.FileFault.TheVariants.{NoMemory};

    ghost from_gives = { λ _ e. e ≡ NoMemory };

    fn from(_: AllocError) -> FileFault {
        FileFault::NoMemory
    }
}

impl From<ShelfError> for FileFault {
    ghost use Rattle.std.specs.Prelude.{◌≡◌};
    ghost use Rattle.span_base.specs.Faults.{fault_of};

    ghost from_gives = { λ error fault. fault ≡ fault_of error };

    fn from(error: ShelfError) -> FileFault {
        match error {
            ShelfError::Absent => FileFault::Absent,
            ShelfError::Failed => FileFault::ReadFault,
            ShelfError::NoMemory => FileFault::NoMemory,
        }
    }
}

/// How many bytes are read at once.
const PIECE: usize = 65_536;

// So many zero bytes.
fn zeros(alloc: Global, len: usize) -> Result<Vec<u8>, AllocError>
    ensures { IfOk result (λ zeros. vec_len zeros ≡ len) }
{
    vec![in alloc; 0; len]
}

/// Reads a whole file of at most `limit` bytes, in pieces of at most 65,536 bytes.
pub fn read_whole<S: Shelf>(
    alloc: Global,
    shelf: &mut S,
    name: &str,
    limit: u64,
) -> Result<Bytes, FileFault>
    ensures reads { ReadsWhole (S.files shelf.old) name.now limit result }
    ensures within { IfOk result (λ bytes. length bytes ≤ limit) }
    ensures files_stay { S.files shelf.new ≡ S.files shelf.old }

    ensures faults_stay { S.faults shelf.old ≤ S.faults shelf.new }
    ensures absences_stay { S.absences shelf.old ≤ S.absences shelf.new }
    ensures failed { IsErrOf result FileFault.ReadFault → Rose (S.faults shelf.old) (S.faults shelf.new) }
    ensures absent { IsErrOf result FileFault.Absent → Rose (S.absences shelf.old) (S.absences shelf.new) }
{
    let mut bytes = Vec::new(alloc);
    let mut buffer = zeros(alloc, PIECE)?;
    let piece = buffer.as_mut_slice();
    loop {
        let count = shelf.read_at(name, bytes.len() as u64, piece)?;
        if count == 0 {
            return Ok(Bytes::from_vec(bytes));
        }
        if limit - (bytes.len() as u64) < count as u64 {
            return Err(FileFault::TooLarge);
        }
        bytes.extend_from_slice(&piece[..count])?;
    }
}
