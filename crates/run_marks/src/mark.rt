use span_base::{Call, KeyId, SetId, Value};
use ticket_rules::Stamp;
use wire_msg::Reply;

/// What a call does.
#[derive(Debug, PartialEq, Eq, Drop)]
pub enum Work {
    /// Reads a strong key.
    Read,
    /// Writes a strong key.
    Write(Value),
    /// Reads an eventual key at the member's primary.
    Get,
    /// Reads an eventual key at whichever replica answers first.
    GetAny,
    /// Writes an eventual key.
    Put(Value),
    /// Takes a key from its current epoch to the latest one.
    Move,
}

/// Why a table opened no epoch.
#[derive(Clone, Copy, Debug, PartialEq, Eq)]
pub enum NoEpochCause {
    /// The table doesn't list this strong set.
    MissingSet { set: SetId },
    /// What the table lists for this set is no strong policy whose quorums meet.
    NotQuorum { set: SetId },
}

/// What an event of a run leaves to be read.
#[derive(Debug, PartialEq, Eq, Drop)]
pub enum Mark {
    /// A proxy begins a call of the key. Its calls are counted from 1.
    Begin { call: Call, key: KeyId, work: Work },
    /// A write or a put has drawn a ticket.
    Ticket { call: Call, stamp: Stamp },
    /// A call is over.
    End { call: Call, reply: Reply },
    /// A table was published, and opened this epoch.
    Epoch { epoch: u32 },
    /// A table was published that opened none.
    NoEpoch { cause: NoEpochCause },
}
