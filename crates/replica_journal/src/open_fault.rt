use crate::disk::Failed;
use span_base::DeviceFault;
use std::alloc::AllocError;

/// Why a journal isn't opened.
#[derive(Clone, Copy, Debug, PartialEq, Eq)]
pub enum OpenCause {
    /// Memory ran out.
    NoMemory(AllocError),
    /// The disk failed.
    DiskFault,
    /// No sound record follows the open gate at this place, counted from 0.
    Damaged { at: u64 },
}

/// A refused opening, with the disk that was to be opened.
#[derive(Debug, Drop)]
pub struct OpenFault<D> {
    pub disk: D,
    pub cause: OpenCause,
}

impl From<AllocError> for OpenCause {
    ghost use Rattle.std.specs.Prelude.{◌≡◌};
    ghost use Rattle.replica_journal.specs.declared.open_fault.OpenCause.TheVariants.{NoMemory};

    ghost from_gives = { λ error cause. cause ≡ NoMemory error };

    fn from(error: AllocError) -> OpenCause {
        OpenCause::NoMemory(error)
    }
}

impl From<Failed> for OpenCause {
    ghost use Rattle.std.specs.Prelude.{◌≡◌};
    ghost use Rattle.replica_journal.specs.declared.open_fault.OpenCause.TheVariants.{DiskFault};

    ghost from_gives = { λ _ cause. cause ≡ DiskFault };

    fn from(_: Failed) -> OpenCause {
        OpenCause::DiskFault
    }
}

impl From<DeviceFault> for OpenCause {
    ghost use Rattle.std.specs.Prelude.{◌≡◌};
    ghost use Rattle.replica_journal.specs.Causes.{cause_of};

    ghost from_gives = { λ fault cause. cause ≡ cause_of fault };

    fn from(fault: DeviceFault) -> OpenCause {
        match fault {
            DeviceFault::Failed => OpenCause::DiskFault,
            DeviceFault::NoMemory => OpenCause::NoMemory(AllocError),
        }
    }
}
