ghost use Rattle.std.specs.Prelude.{◌≡◌, ◌+◌, ◌<◌, ◌≤◌};
ghost use Rattle.shelf_lines.specs.Limits.{Allows};

use span_base::ShelfError;
use std::alloc::AllocError;

/// Why no more lines are given.
#[derive(Clone, Copy, Debug, PartialEq, Eq)]
pub enum LinesFault {
    /// There is no file of this name.
    Absent,
    /// The shelf failed.
    ReadFault,
    /// The line is longer than a line may be.
    LineTooLong,
    /// The line goes on behind the greatest size of a file.
    FileTooLarge,
    /// There was no memory.
    NoMemory,
}

impl From<AllocError> for LinesFault {
    ghost use Rattle.std.specs.Prelude.{◌≡◌};
    ghost use Rattle.shelf_lines.specs.declared.limits.LinesFault.TheVariants.{NoMemory};

    ghost from_gives = { λ _ fault. fault ≡ NoMemory };

    fn from(_: AllocError) -> LinesFault {
        LinesFault::NoMemory
    }
}

impl From<ShelfError> for LinesFault {
    ghost use Rattle.std.specs.Prelude.{◌≡◌};
    ghost use Rattle.shelf_lines.specs.Faults.{fault_of};

    ghost from_gives = { λ error fault. fault ≡ fault_of error };

    fn from(error: ShelfError) -> LinesFault {
        match error {
            ShelfError::Absent => LinesFault::Absent,
            ShelfError::Failed => LinesFault::ReadFault,
            ShelfError::NoMemory => LinesFault::NoMemory,
        }
    }
}

/// Whether a line may have `len` bytes and go on `end` bytes far, its line feed counted, where at
/// most `line` bytes are allowed and the file has room for `room`. Of the two faults the one is
/// told whose byte comes first.
pub(crate) fn allow(line: u64, room: u64, len: u64, end: u64) -> Result<(), LinesFault>
    requires feed { (len ≤ end) × (end ≤ len + 1) }
    ensures { Allows line room len end result }
{
    if len <= line && end <= room {
        Ok(())
    } else if room <= line {
        Err(LinesFault::FileTooLarge)
    } else {
        Err(LinesFault::LineTooLong)
    }
}
