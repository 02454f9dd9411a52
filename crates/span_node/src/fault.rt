ghost use Rattle.std.specs.Prelude.{◌≡◌};
ghost use Rattle.span_node.specs.Faults.{uncarried, IsToldStrange};

use schedule_replay::ReplayFault;
use schedule_text::ScheduleFault;
use span_base::{Bytes, Cause, DeviceFault, What};
use std::alloc::{AllocError, Global};
use thiserror::Error;

/// Why a script isn't run to its end. Lines are counted from 1.
#[derive(Debug, PartialEq, Eq, Drop, Error)]
pub enum LoopFault {
    /// The text is no script: this line is refused for this cause.
    #[error("line {line}: {}", .cause.word())]
    Bad { line: u64, cause: Cause },
    /// In this line the number passes the limit on what is named; or its event, or a delivery
    /// behind it, would pass it.
    #[error("line {line}: {number} passes the limit on {}", .what.word())]
    Limit { line: u64, what: What, number: u128 },
    /// The store refuses the event of this line for this cause.
    #[error("event of line {line}: {}", .cause.word())]
    BadEvent { line: u64, cause: Cause },
    /// The sink failed; it has taken a front of the run's text.
    #[error("the sink failed")]
    WriteFault,
    /// The link failed.
    #[error("the link failed")]
    LinkFault,
    /// This frame arrived for the node `to`, and no such message was sent.
    #[error("a frame that wasn't sent arrived for node {to}")]
    Strange { to: u16, frame: Bytes },
    /// There was no memory; nothing was written, or a front of the run's text.
    #[error("out of memory")]
    NoMemory,
}

impl From<ScheduleFault> for LoopFault {
    ghost use Rattle.std.specs.Prelude.{◌≡◌};
    ghost use Rattle.span_node.specs.Faults.{unread};

    ghost from_gives = { λ fault told. told ≡ unread fault };

    fn from(fault: ScheduleFault) -> LoopFault {
        match fault {
            ScheduleFault::Bad { line, cause } => LoopFault::Bad { line, cause },
            ScheduleFault::Limit { line, what, number } => LoopFault::Limit { line, what, number },
            ScheduleFault::NoMemory(_) => LoopFault::NoMemory,
        }
    }
}

impl From<ReplayFault> for LoopFault {
    ghost use Rattle.std.specs.Prelude.{◌≡◌};
    ghost use Rattle.span_node.specs.Faults.{of_replay};

    ghost from_gives = { λ fault told. told ≡ of_replay fault };

    fn from(fault: ReplayFault) -> LoopFault {
        match fault {
            ReplayFault::Bad { line, cause } => LoopFault::Bad { line, cause },
            ReplayFault::Limit { line, what, number } => LoopFault::Limit { line, what, number },
            ReplayFault::BadEvent { line, cause } => LoopFault::BadEvent { line, cause },
            ReplayFault::WriteFault => LoopFault::WriteFault,
            ReplayFault::NoMemory => LoopFault::NoMemory,
        }
    }
}

/// A device whose fault goes on as it is, is the sink.
impl From<DeviceFault> for LoopFault {
    ghost use Rattle.std.specs.Prelude.{◌≡◌};
    ghost use Rattle.span_node.specs.Faults.{unwritten};

    ghost from_gives = { λ fault told. told ≡ unwritten fault };

    fn from(fault: DeviceFault) -> LoopFault {
        match fault {
            DeviceFault::Failed => LoopFault::WriteFault,
            DeviceFault::NoMemory => LoopFault::NoMemory,
        }
    }
}

impl From<AllocError> for LoopFault {
    ghost use Rattle.std.specs.Prelude.{◌≡◌};
    ghost use Rattle.span_node.specs.declared.fault.LoopFault.TheVariants.{NoMemory};

    ghost from_gives = { λ error told. told ≡ NoMemory };

    fn from(_error: AllocError) -> LoopFault {
        LoopFault::NoMemory
    }
}

/// What is told of a link that carries nothing.
pub(crate) fn uncarried(fault: DeviceFault) -> LoopFault
    ensures { result ≡ uncarried fault }
{
    match fault {
        DeviceFault::Failed => LoopFault::LinkFault,
        DeviceFault::NoMemory => LoopFault::NoMemory,
    }
}

/// What is told of a frame that wasn't sent.
pub(crate) fn strange(alloc: Global, to: u16, frame: &[u8]) -> LoopFault
    ensures { IsToldStrange result to frame.now }
{
    match Vec::from_slice(alloc, frame) {
        Ok(bytes) => LoopFault::Strange {
            to,
            frame: Bytes::from_vec(bytes),
        },
        Err(_) => LoopFault::NoMemory,
    }
}
