ghost use Rattle.std.specs.Prelude.{◌≡◌};

use replica_core::TakeFault;
use std::alloc::AllocError;

/// Why a service ended before its input did. Requests are counted from 1.
#[derive(Clone, Copy, Debug, PartialEq, Eq)]
pub enum ServeFault {
    /// Request `frame` is no request. The first fault stands at the place `at` of its frame, counted
    /// from 0.
    Bad { frame: u64, at: usize },
    /// The input ended inside request `frame`.
    Torn { frame: u64 },
    /// One more byte came after the most requests that are served, of which this would be the
    /// number.
    Limit { number: u64 },
    /// The stream failed to give bytes. So many requests were answered whole.
    ReadFault { answered: u64 },
    /// The stream failed to take bytes. So many requests were answered whole.
    WriteFault { answered: u64 },
    /// The replica took a request no more. It is never for want of memory.
    Taker(TakeFault),
    /// Memory ran out.
    NoMemory(AllocError),
}

impl From<AllocError> for ServeFault {
    ghost use Rattle.span_service.specs.declared.serve_fault.ServeFault.TheVariants.{NoMemory};

    ghost from_gives = { λ error fault. fault ≡ NoMemory error };

    fn from(error: AllocError) -> ServeFault {
        ServeFault::NoMemory(error)
    }
}
