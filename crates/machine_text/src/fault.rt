ghost use Rattle.machine_text.specs.ReadMachines.{at_line};

use span_base::What;
use std::alloc::AllocError;

/// Why a machine file is refused. A line is the number of a record, counted from 1; an absent
/// record counts as the one after the last.
#[derive(Debug, Drop, PartialEq, Eq)]
pub enum MachineFault {
    /// The record at this line isn't the one that has to stand there.
    Bad { line: u64 },
    /// In the record at this line this number passes the limit on what is named.
    Limit { line: u64, what: What, number: u128 },
    /// There was no memory.
    NoMemory(AllocError),
}

/// What a record is refused for.
#[derive(Clone, Copy, Debug)]
pub(crate) enum Fault {
    Bad,
    /// This number passes its limit.
    Limit { what: What, number: u128 },
}

impl Fault {
    ghost use Rattle.std.specs.Prelude.{◌≡◌};

    /// The refusal of the record at this line.
    pub(crate) fn at(self, line: u64) -> MachineFault
        ensures { result ≡ at_line line self }
    {
        match self {
            Fault::Bad => MachineFault::Bad { line },
            Fault::Limit { what, number } => MachineFault::Limit { line, what, number },
        }
    }
}

impl From<AllocError> for MachineFault {
    ghost use Rattle.std.specs.Prelude.{◌≡◌};
    ghost use Rattle.machine_text.specs.declared.fault.MachineFault.TheVariants as machine;

    ghost from_gives = { λ error told. told ≡ machine.NoMemory error };

    fn from(error: AllocError) -> MachineFault {
        MachineFault::NoMemory(error)
    }
}
