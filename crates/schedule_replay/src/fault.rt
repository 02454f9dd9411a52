ghost use Rattle.std.specs.Prelude.{◌≡◌};
ghost use Rattle.schedule_replay.specs.Replays.{refused_at};

use schedule_text::ScheduleFault;
use span_base::{Cause, DeviceFault, What};
use std::alloc::AllocError;
use thiserror::Error;
use world_core::StepFault;

/// Why a schedule isn't run to its end. Lines are counted from 1.
#[derive(Clone, Copy, Debug, PartialEq, Eq, Error)]
pub enum ReplayFault {
    /// The text is no schedule: this line is refused for this cause.
    #[error("line {line}: {}", .cause.word())]
    Bad { line: u64, cause: Cause },
    /// In this line the number passes the limit on what is named, or its event would pass it.
    #[error("line {line}: {number} passes the limit on {}", .what.word())]
    Limit { line: u64, what: What, number: u128 },
    /// The store refuses the event of this line for this cause.
    #[error("event of line {line}: {}", .cause.word())]
    BadEvent { line: u64, cause: Cause },
    /// The sink failed; it has taken a front of the run's text.
    #[error("the sink failed")]
    WriteFault,
    /// There was no memory; nothing was written, or a front of the run's text.
    #[error("out of memory")]
    NoMemory,
}

impl From<ScheduleFault> for ReplayFault {
    ghost use Rattle.std.specs.Prelude.{◌≡◌};
    ghost use Rattle.schedule_replay.specs.Replays.{unread};

    ghost from_gives = { λ fault told. told ≡ unread fault };

    fn from(fault: ScheduleFault) -> ReplayFault {
        match fault {
            ScheduleFault::Bad { line, cause } => ReplayFault::Bad { line, cause },
            ScheduleFault::Limit { line, what, number } => ReplayFault::Limit {
                line,
                what,
                number,
            },
            ScheduleFault::NoMemory(_) => ReplayFault::NoMemory,
        }
    }
}

impl From<DeviceFault> for ReplayFault {
    ghost use Rattle.std.specs.Prelude.{◌≡◌};
    ghost use Rattle.schedule_replay.specs.Replays.{unwritten};

    ghost from_gives = { λ fault told. told ≡ unwritten fault };

    fn from(fault: DeviceFault) -> ReplayFault {
        match fault {
            DeviceFault::Failed => ReplayFault::WriteFault,
            DeviceFault::NoMemory => ReplayFault::NoMemory,
        }
    }
}

impl From<AllocError> for ReplayFault {
    ghost use Rattle.std.specs.Prelude.{◌≡◌};
    ghost use Rattle.schedule_replay.specs.declared.fault.ReplayFault.TheVariants.{NoMemory};

    ghost from_gives = { λ error told. told ≡ NoMemory };

    fn from(_error: AllocError) -> ReplayFault {
        ReplayFault::NoMemory
    }
}

/// What is told of an event of this line that isn't taken.
pub fn refused_at(line: u64, fault: StepFault) -> ReplayFault
    ensures { result ≡ refused_at line fault }
{
    match fault {
        StepFault::NoActor => bad_event(line, Cause::Actor),
        StepFault::NoKey => bad_event(line, Cause::Key),
        StepFault::WrongMode => bad_event(line, Cause::Mode),
        StepFault::NoMessage { .. } => bad_event(line, Cause::Message),
        StepFault::NoCall => bad_event(line, Cause::Call),
        StepFault::Limit { what, number } => ReplayFault::Limit { line, what, number },
        // A replica in memory never answers this.
        StepFault::Taker(_) => ReplayFault::NoMemory,
        StepFault::NoMemory(_) => ReplayFault::NoMemory,
    }
}

fn bad_event(line: u64, cause: Cause) -> ReplayFault
    ensures { result ≡ ReplayFault.BadEvent line cause }
{
    ReplayFault::BadEvent { line, cause }
}
