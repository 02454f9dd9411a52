use span_base::{Bytes, Cause, SetId, What};
use std::fmt;

/// How a run of the program ends.
#[derive(Debug, Drop, PartialEq, Eq)]
pub enum Status {
    /// All was done.
    Done,
    /// There was no memory.
    NoMemory,
    /// The words are of no command.
    Usage,
    /// There is no file of this name; files are counted from 0 in the order of the words.
    Absent {
        file: u8,
    },
    /// A line of a file is refused for this cause; files are counted from 0, lines from 1.
    BadInput {
        file: u8,
        line: u64,
        cause: Cause,
    },
    /// The plan is written, and no policy of this set is allowed.
    NoPolicy {
        set: SetId,
    },
    /// The plan is written, and the search for the policy of this set, the first such, was cut off
    /// at the budget of tree lines.
    Budget {
        set: SetId,
    },
    /// A plan isn't accepted, or a log isn't one of single registers: this line, counted from 1, is
    /// refused for this cause, in a log the first clause that it breaks.
    Refused {
        line: u64,
        cause: Cause,
    },
    /// An event of a schedule, that of this line, is refused for this cause; the marks of the events
    /// before it are written.
    BadEvent {
        line: u64,
        cause: Cause,
    },
    /// A file can't be read.
    ReadFault,
    /// The output can't be written.
    WriteFault,
    /// The link failed.
    LinkFault,
    /// What was counted in a file passes its limit.
    TooLarge {
        file: u8,
        line: u64,
        what: What,
        number: u128,
    },
    /// This frame arrived for the node `to`, and no message that was sent is it.
    Strange {
        to: u16,
        frame: Bytes,
    },
}

impl Status {
    ghost use Rattle.std.specs.Prelude.{◌≡◌};
    ghost use Rattle.span_top.specs.Codes.{code_of};

    /// The exit status of the program.
    pub fn code(&self) -> u8
        ensures { result ≡ code_of self.now }
    {
        match self {
            Status::Done => 0,
            Status::NoMemory => 1,
            Status::Usage => 2,
            Status::Absent { .. } => 3,
            Status::BadInput { .. } => 4,
            Status::NoPolicy { .. } => 5,
            Status::Budget { .. } => 6,
            Status::Refused { .. } => 7,
            Status::BadEvent { .. } => 8,
            Status::ReadFault => 9,
            Status::WriteFault => 10,
            Status::LinkFault => 11,
            Status::TooLarge { .. } => 12,
            Status::Strange { .. } => 13,
        }
    }

    /// What the program writes on standard error: nothing at `Done`, else one line.
    pub fn line(&self) -> StatusLine<'_> {
        StatusLine { status: self }
    }
}

/// What the program writes on standard error where it ends so: nothing at `Done`, else `span: `, the
/// status, and a line feed.
#[derive(Clone, Copy, Debug)]
pub struct StatusLine<'a> {
    status: &'a Status,
}

impl fmt::Display for StatusLine<'_> {
    fn fmt<W: fmt::Write>(&self, f: &mut fmt::Formatter<W>) -> fmt::Result {
        match self.status {
            Status::Done => Ok(()),
            status => write!(f, "span: {status}\n"),
        }
    }
}

/// The status's name and its fields in order, each after one space.
impl fmt::Display for Status {
    fn fmt<W: fmt::Write>(&self, f: &mut fmt::Formatter<W>) -> fmt::Result {
        match self {
            Status::Done => f.write_str("Done"),
            Status::NoMemory => f.write_str("NoMemory"),
            Status::Usage => f.write_str("Usage"),
            Status::Absent { file } => write!(f, "Absent {file}"),
            Status::BadInput { file, line, cause } => {
                write!(f, "BadInput {file} {line} {}", cause.word())
            }
            Status::NoPolicy { set } => write!(f, "NoPolicy {}", set.0),
            Status::Budget { set } => write!(f, "Budget {}", set.0),
            Status::Refused { line, cause } => write!(f, "Refused {line} {}", cause.word()),
            Status::BadEvent { line, cause } => write!(f, "BadEvent {line} {}", cause.word()),
            Status::ReadFault => f.write_str("ReadFault"),
            Status::WriteFault => f.write_str("WriteFault"),
            Status::TooLarge {
                file,
                line,
                what,
                number,
            } => write!(f, "TooLarge {file} {line} {} {number}", what.word()),
            Status::LinkFault => f.write_str("LinkFault"),
            Status::Strange { to, frame } => {
                write!(f, "Strange {to} ")?;
                write_hex(f, frame.as_slice())
            }
        }
    }
}

/// Two lower-case hexadecimal digits for each byte.
fn write_hex<W: fmt::Write>(f: &mut fmt::Formatter<W>, bytes: &[u8]) -> fmt::Result {
    for byte in bytes {
        write!(f, "{byte:02x}")?;
    }
    Ok(())
}
