ghost use Rattle.std.specs.Prelude.{◌≡◌};
ghost use Rattle.wire_msg.specs.declared.fault.Fault.TheVariants.{NoMemory};

use std::alloc::{AllocError, AllocFailed};

/// Why a frame wasn't decoded.
#[derive(Clone, Copy, Debug, PartialEq, Eq)]
pub enum FrameFault {
    /// The frame is no message's. The first fault stands at this place, counted from 0.
    BadFrame { at: usize },
    /// Memory ran out, whatever the frame is.
    NoMemory(AllocError),
}

/// Why reading a frame stops.
#[derive(Debug, Drop)]
pub(crate) enum Fault {
    /// The first fault stands so many bytes before the frame's end.
    Wrong { left: usize },
    NoMemory(AllocError),
}

impl From<AllocError> for Fault {
    ghost from_gives = { λ e fault. fault ≡ NoMemory e };

    fn from(error: AllocError) -> Fault {
        Fault::NoMemory(error)
    }
}

impl<T: Drop> From<AllocFailed<T>> for Fault {
    ghost use Rattle.std.specs.Prelude.{alloc_error};

    ghost from_gives = { λ _ fault. fault ≡ NoMemory alloc_error };

    fn from(_failed: AllocFailed<T>) -> Fault {
        Fault::NoMemory(AllocError)
    }
}
