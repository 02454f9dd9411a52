ghost use Rattle.std.specs.Prelude.{◌≡◌};
ghost use Rattle.world_text.specs.declared.fault.Fault.TheVariants.{Bad};
ghost use Rattle.world_text.specs.Faults.{at_line};

use price_tables::TableFault;
use span_base::{Cause, What};
use std::alloc::AllocError;
use thiserror::Error;
use workload::{Gap, LoadFault};

/// Why a world is refused. A line is the number of a record, counted from 1; what only the end
/// shows stands one line after the last record.
#[derive(Debug, Drop, PartialEq, Eq, Error)]
pub enum WorldFault {
    /// The record at this line, or at line 0 the whole text, is refused for this cause.
    #[error("line {line}: {}", .cause.word())]
    Bad { line: u64, cause: Cause },
    /// In the record at this line this number passes the limit on what is named.
    #[error("line {line}: {number} passes the limit on {}", .what.word())]
    Limit { line: u64, what: What, number: u128 },
    /// There was no memory.
    #[error("out of memory")]
    NoMemory(AllocError),
}

/// What a record, or the end, is refused for.
#[derive(Clone, Copy, Debug)]
pub(crate) enum Fault {
    Bad(Cause),
    /// This number passes its limit.
    Limit { what: What, number: u128 },
}

/// Why a record, or the end, could not be taken.
#[derive(Clone, Copy, Debug)]
pub(crate) enum Refusal {
    Fault(Fault),
    NoMemory(AllocError),
}

impl Refusal {
    pub(crate) fn at(self, line: u64) -> WorldFault
        ensures { result ≡ at_line line self }
    {
        match self {
            Refusal::Fault(Fault::Bad(cause)) => WorldFault::Bad { line, cause },
            Refusal::Fault(Fault::Limit { what, number }) => {
                WorldFault::Limit { line, what, number }
            }
            Refusal::NoMemory(error) => WorldFault::NoMemory(error),
        }
    }
}

/// The refusal for this cause.
pub(crate) fn bad(cause: Cause) -> Refusal
    ensures { result ≡ Refusal.Fault (Bad cause) }
{
    Refusal::Fault(Fault::Bad(cause))
}

impl From<Fault> for Refusal {
    ghost use Rattle.std.specs.Prelude.{◌≡◌};
    ghost use Rattle.world_text.specs.declared.fault.Refusal.TheVariants as refusal;

    ghost from_gives = { λ fault told. told ≡ refusal.Fault fault };

    fn from(fault: Fault) -> Refusal {
        Refusal::Fault(fault)
    }
}

impl From<AllocError> for Refusal {
    ghost use Rattle.std.specs.Prelude.{◌≡◌};
    ghost use Rattle.world_text.specs.declared.fault.Refusal.TheVariants as refusal;

    ghost from_gives = { λ error told. told ≡ refusal.NoMemory error };

    fn from(error: AllocError) -> Refusal {
        Refusal::NoMemory(error)
    }
}

impl From<TableFault> for Refusal {
    ghost use Rattle.std.specs.Prelude.{◌≡◌};
    ghost use Rattle.world_text.specs.Faults.{table_refusal};

    ghost from_gives = { λ fault told. told ≡ table_refusal fault };

    fn from(fault: TableFault) -> Refusal {
        match fault {
            TableFault::Limit { what, number } => Refusal::Fault(Fault::Limit { what, number }),
            TableFault::Twice => bad(Cause::Twice),
            TableFault::UnknownFrom | TableFault::UnknownTo => bad(Cause::Unknown),
            TableFault::NoMemory(error) => Refusal::NoMemory(error),
        }
    }
}

impl From<LoadFault> for Refusal {
    ghost use Rattle.std.specs.Prelude.{◌≡◌};
    ghost use Rattle.world_text.specs.Faults.{load_refusal};

    ghost from_gives = { λ fault told. told ≡ load_refusal fault };

    fn from(fault: LoadFault) -> Refusal {
        match fault {
            LoadFault::Limit { what, number } => Refusal::Fault(Fault::Limit { what, number }),
            LoadFault::Unknown => bad(Cause::Unknown),
            LoadFault::Twice => bad(Cause::Twice),
            LoadFault::NoMemory(error) => Refusal::NoMemory(error),
        }
    }
}

impl From<Gap> for Refusal {
    ghost use Rattle.std.specs.Prelude.{◌≡◌};
    ghost use Rattle.world_text.specs.Faults.{gap_refusal};

    ghost from_gives = { λ gap told. told ≡ gap_refusal gap };

    fn from(gap: Gap) -> Refusal {
        match gap {
            Gap::NoLink { .. } => bad(Cause::Link),
            Gap::NoMember { .. } => bad(Cause::Members),
        }
    }
}

impl From<AllocError> for WorldFault {
    ghost use Rattle.std.specs.Prelude.{◌≡◌};
    ghost use Rattle.world_text.specs.declared.fault.WorldFault.TheVariants as world;

    ghost from_gives = { λ error told. told ≡ world.NoMemory error };

    fn from(error: AllocError) -> WorldFault {
        WorldFault::NoMemory(error)
    }
}
