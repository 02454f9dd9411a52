//! What a message changes of what is kept of its key.

ghost use Rattle.std.specs.Prelude.{◌≡◌, IfOk};
ghost use Rattle.replica_core.specs.Keeping.{merge};
ghost use Rattle.replica_core.specs.Verdict.{kept_by};
ghost use Rattle.replica_core.specs.Preparing.{changed_by};

use crate::kept::Kept;
use crate::verdict::Verdict;
use span_base::Value;
use std::alloc::AllocError;
use ticket_rules::{Stamp, greater};
use wire_msg::Message;

/// A change of what is kept of a key, with the memory that it takes.
#[derive(Debug, Drop)]
pub(crate) enum Change {
    Nothing,
    /// A ticket is granted.
    Fence(Stamp),
    /// A version is stored with its value.
    Version { stamp: Stamp, value: Value },
    Mark(Stamp),
    Frozen(u32),
}

impl Kept {
    /// The change that a message asks for, where it isn't refused.
    pub(crate) fn change(&self, message: &Message, verdict: Verdict) -> Result<Change, AllocError>
        ensures { IfOk result (λ change. changed_by change self.now ≡ kept_by verdict self.now message.now) }
    {
        if verdict.is_refusal() {
            return Ok(Change::Nothing);
        }
        match message {
            Message::Ask { stamp, .. } => Ok(Change::Fence(*stamp)),
            Message::Store { stamp, value, .. }
            | Message::Repair { stamp, value, .. }
            | Message::Seed { stamp, value, .. }
            | Message::Push { stamp, value, .. } => self.merge(stamp, value),
            Message::Confirm { stamp, .. } => Ok(Change::Mark(greater(&self.mark, stamp))),
            Message::Freeze { epoch, .. } => Ok(Change::Frozen(self.frozen.max(*epoch))),
            _ => Ok(Change::Nothing),
        }
    }

    /// A version is stored with its value where it is above the one that is kept.
    fn merge(&self, stamp: &Stamp, value: &Value) -> Result<Change, AllocError>
        ensures { IfOk result (λ change. changed_by change self.now ≡ merge self.now stamp.now value.now) }
    {
        if *stamp > self.version {
            Ok(Change::Version {
                stamp: *stamp,
                value: value.clone()?,
            })
        } else {
            Ok(Change::Nothing)
        }
    }

    /// Makes a change. It takes no memory.
    pub(crate) fn apply(&mut self, change: Change)
        ensures { self.new ≡ changed_by change self.old }
    {
        match change {
            Change::Nothing => {}
            Change::Fence(stamp) => self.fence = stamp,
            Change::Version { stamp, value } => {
                self.version = stamp;
                self.value = value;
            }
            Change::Mark(stamp) => self.mark = stamp,
            Change::Frozen(epoch) => self.frozen = epoch,
        }
    }
}
