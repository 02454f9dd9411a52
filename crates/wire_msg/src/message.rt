use crate::tag::Tag;
use span_base::{DcId, DcSet, KeyId, Policy, Value};
use ticket_rules::Stamp;

/// A message between two actors. Requests go to a replica or to the directory, answers to the
/// proxy of their tag. Epochs count from 1, keys are below 1,000, replicas below 16.
#[derive(Debug, PartialEq, Eq, Drop)]
pub enum Message {
    /// Asks for the version that is kept.
    Read {
        tag: Tag,
        key: KeyId,
        epoch: u32,
    },
    /// Asks to grant a ticket.
    Ask {
        tag: Tag,
        key: KeyId,
        stamp: Stamp,
    },
    /// Stores a value under a ticket that was granted.
    Store {
        tag: Tag,
        key: KeyId,
        stamp: Stamp,
        value: Value,
    },
    /// Stores a value that a read found, before the read answers it.
    Repair {
        tag: Tag,
        key: KeyId,
        epoch: u32,
        stamp: Stamp,
        value: Value,
    },
    /// Tells that a ticket's value is stored at a whole write quorum.
    Confirm {
        tag: Tag,
        key: KeyId,
        stamp: Stamp,
    },
    /// Ends an epoch at a replica.
    Freeze {
        tag: Tag,
        key: KeyId,
        epoch: u32,
    },
    /// Stores what the epoch before left, before this epoch opens.
    Seed {
        tag: Tag,
        key: KeyId,
        epoch: u32,
        stamp: Stamp,
        value: Value,
    },
    /// Stores an eventual value, and passes it on to the replicas of `onward`.
    Push {
        tag: Tag,
        key: KeyId,
        stamp: Stamp,
        onward: DcSet,
        value: Value,
    },
    /// Asks the directory for a key's epochs.
    Lookup {
        tag: Tag,
        key: KeyId,
    },
    /// Asks the directory to make the epoch `opening` current in place of `closing`.
    Switch {
        tag: Tag,
        key: KeyId,
        closing: u32,
        opening: u32,
    },
    /// What a replica keeps: its version with its value, and the greatest confirmed stamp.
    Have {
        tag: Tag,
        replica: DcId,
        version: Stamp,
        mark: Stamp,
        value: Value,
    },
    /// A replica did as it was asked.
    Yes {
        tag: Tag,
        replica: DcId,
    },
    /// A replica holds this greater stamp.
    Held {
        tag: Tag,
        replica: DcId,
        stamp: Stamp,
    },
    /// The epoch is over at a replica, which is frozen up to `epoch` (0 where it isn't at all).
    Gone {
        tag: Tag,
        replica: DcId,
        epoch: u32,
    },
    /// The current epoch of a key and the latest one that is published, with their policies.
    Here {
        tag: Tag,
        key: KeyId,
        epoch: u32,
        policy: Policy,
        latest_epoch: u32,
        latest_policy: Policy,
    },
    /// Whether the directory switched, and the current epoch after it.
    Switched {
        tag: Tag,
        key: KeyId,
        done: bool,
        epoch: u32,
    },
}
