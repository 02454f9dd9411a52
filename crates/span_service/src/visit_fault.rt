ghost use Rattle.std.specs.Prelude.{◌≡◌};

use std::alloc::AllocError;

/// Why the serving of connections ended before its time.
#[derive(Clone, Copy, Debug, PartialEq, Eq)]
pub(crate) enum VisitFault {
    /// Memory ran out.
    NoMemory(AllocError),
    /// The sink failed.
    WriteFault,
    /// The replica's disk failed.
    DiskFault,
    /// The door failed to accept a connection.
    DoorFault,
    /// The replica's journal would have this many bytes, which is too many.
    Full { bytes: u64 },
}

impl From<AllocError> for VisitFault {
    ghost use Rattle.span_service.specs.declared.visit_fault.VisitFault.TheVariants.{NoMemory};

    ghost from_gives = { λ error fault. fault ≡ NoMemory error };

    fn from(error: AllocError) -> VisitFault {
        VisitFault::NoMemory(error)
    }
}
