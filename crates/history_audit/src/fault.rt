use std::alloc::AllocError;
use thiserror::Error;

/// The rules that the lines of a log keep. At each line they are tried in this order.
#[derive(Clone, Copy, Debug, PartialEq, Eq)]
pub enum Clause {
    /// The calls of a proxy are numbered from 1 on; only a call that has begun and hasn't ended
    /// draws a ticket or ends.
    Call,
    /// Tickets are drawn, and replies given, only by calls whose work has them.
    Kind,
    /// A ticket is its call's and above the call's earlier ones; a write is answered with its
    /// latest one.
    Stamp,
    /// A read gives a ticket of an earlier line with the value of its write, or stamp zero with
    /// the empty value.
    Value,
    /// No read gives the ticket of a write that ended without having stored its value.
    Dead,
    /// A call that began after another was answered has no lesser stamp, a write a greater one;
    /// and a write has one stamp.
    Order,
}

impl Clause {
    /// The word by which a clause is named.
    pub fn word(self) -> &'static str {
        match self {
            Clause::Call => "call",
            Clause::Kind => "kind",
            Clause::Stamp => "stamp",
            Clause::Value => "value",
            Clause::Dead => "dead",
            Clause::Order => "order",
        }
    }
}

/// Why a log is refused. Lines are counted from 1.
#[derive(Debug, Drop, PartialEq, Eq, Error)]
pub enum AuditFault {
    /// The line is none of a log, or may not stand there; or the text stops before its end, at the
    /// line after its last.
    #[error("line {line}: not a line of a log")]
    Bad { line: u64 },
    /// The line is one too many.
    #[error("line {line}: too many lines")]
    Limit { line: u64 },
    /// The log is whole, and this is the first line that breaks a clause, and the first clause
    /// that it breaks.
    #[error("line {line}: breaks {}", .clause.word())]
    Broken { line: u64, clause: Clause },
    /// There was no memory.
    #[error("out of memory")]
    NoMemory(AllocError),
}

impl From<AllocError> for AuditFault {
    ghost use Rattle.std.specs.Prelude.{◌≡◌};
    ghost use Rattle.history_audit.specs.declared.fault.AuditFault.TheVariants as fault;

    ghost from_gives = { λ error told. told ≡ fault.NoMemory error };

    fn from(error: AllocError) -> AuditFault {
        AuditFault::NoMemory(error)
    }
}
