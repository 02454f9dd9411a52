use span_base::{Cause, What};
use std::alloc::AllocError;
use thiserror::Error;

/// Why a text is no schedule, by the first line that is refused. Lines are counted from 1; a text
/// that stops before its events is refused at the line after the last.
#[derive(Debug, Drop, PartialEq, Eq, Error)]
pub enum ScheduleFault {
    /// The line is refused for this cause.
    #[error("line {line}: {}", .cause.word())]
    Bad { line: u64, cause: Cause },
    /// In the line this number passes the limit on what is named.
    #[error("line {line}: {number} passes the limit on {}", .what.word())]
    Limit { line: u64, what: What, number: u128 },
    /// There was no memory.
    #[error("out of memory")]
    NoMemory(AllocError),
}

impl From<AllocError> for ScheduleFault {
    ghost use Rattle.std.specs.Prelude.{◌≡◌};
    ghost use Rattle.schedule_text.specs.declared.fault.ScheduleFault.TheVariants.{NoMemory};

    ghost from_gives = { λ error fault. fault ≡ NoMemory error };

    fn from(error: AllocError) -> ScheduleFault {
        ScheduleFault::NoMemory(error)
    }
}
