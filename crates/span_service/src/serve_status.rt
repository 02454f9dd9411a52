use crate::visit_fault::VisitFault;
use replica_journal::OpenCause;
use std::fmt;

/// How the serving of a replica ends.
#[derive(Clone, Copy, Debug, PartialEq, Eq)]
pub enum ServeStatus {
    /// All connections were served.
    Done,
    /// There was no memory.
    NoMemory,
    /// The words are of another form.
    Usage,
    /// The output can't be written.
    WriteFault,
    /// The disk failed.
    DiskFault,
    /// The door failed to accept a connection.
    DoorFault,
    /// No sound record follows the open gate at this place of the journal, counted from 0.
    Damaged { at: u64 },
    /// The journal would have this many bytes, which is too many.
    Full { bytes: u64 },
}

impl ServeStatus {
    ghost use Rattle.std.specs.Prelude.{◌≡◌};
    ghost use Rattle.span_service.specs.Statuses.{code_of};

    /// The exit status of the program.
    pub fn code(&self) -> u8
        ensures { result ≡ code_of self.now }
    {
        match self {
            ServeStatus::Done => 0,
            ServeStatus::NoMemory => 1,
            ServeStatus::Usage => 2,
            ServeStatus::WriteFault => 10,
            ServeStatus::DiskFault => 17,
            ServeStatus::DoorFault => 18,
            ServeStatus::Damaged { .. } => 19,
            ServeStatus::Full { .. } => 20,
        }
    }

    /// What the program writes on standard error: nothing at `Done`, else one line.
    pub fn line(&self) -> ServeStatusLine<'_> {
        ServeStatusLine { status: self }
    }
}

/// What the program writes on standard error where it ends so: nothing at `Done`, else
/// `span_replica: `, the status, and a line feed.
#[derive(Clone, Copy, Debug)]
pub struct ServeStatusLine<'a> {
    status: &'a ServeStatus,
}

impl fmt::Display for ServeStatusLine<'_> {
    fn fmt<W: fmt::Write>(&self, f: &mut fmt::Formatter<W>) -> fmt::Result {
        match self.status {
            ServeStatus::Done => Ok(()),
            status => write!(f, "span_replica: {status}\n"),
        }
    }
}

/// The status's name and its fields in order, each after one space.
impl fmt::Display for ServeStatus {
    fn fmt<W: fmt::Write>(&self, f: &mut fmt::Formatter<W>) -> fmt::Result {
        match self {
            ServeStatus::Done => f.write_str("Done"),
            ServeStatus::NoMemory => f.write_str("NoMemory"),
            ServeStatus::Usage => f.write_str("Usage"),
            ServeStatus::WriteFault => f.write_str("WriteFault"),
            ServeStatus::DiskFault => f.write_str("DiskFault"),
            ServeStatus::DoorFault => f.write_str("DoorFault"),
            ServeStatus::Damaged { at } => write!(f, "Damaged {at}"),
            ServeStatus::Full { bytes } => write!(f, "Full {bytes}"),
        }
    }
}

impl From<OpenCause> for ServeStatus {
    ghost use Rattle.std.specs.Prelude.{◌≡◌};
    ghost use Rattle.span_service.specs.Statuses.{refusal};

    ghost from_gives = { λ cause status. status ≡ refusal cause };

    fn from(cause: OpenCause) -> ServeStatus {
        match cause {
            OpenCause::NoMemory(_) => ServeStatus::NoMemory,
            OpenCause::DiskFault => ServeStatus::DiskFault,
            OpenCause::Damaged { at } => ServeStatus::Damaged { at },
        }
    }
}

impl From<VisitFault> for ServeStatus {
    ghost use Rattle.std.specs.Prelude.{◌≡◌};
    ghost use Rattle.span_service.specs.Statuses.{ended};

    ghost from_gives = { λ fault status. status ≡ ended fault };

    fn from(fault: VisitFault) -> ServeStatus {
        match fault {
            VisitFault::NoMemory(_) => ServeStatus::NoMemory,
            VisitFault::WriteFault => ServeStatus::WriteFault,
            VisitFault::DiskFault => ServeStatus::DiskFault,
            VisitFault::DoorFault => ServeStatus::DoorFault,
            VisitFault::Full { bytes } => ServeStatus::Full { bytes },
        }
    }
}
