ghost use Rattle.std.specs.Prelude.{◌<◌, ◌≤◌, length, IfOk};
ghost use Rattle.span_base.specs.Policy.{IsSoundPolicy};
ghost use Rattle.wire_msg.specs.Lawful.{IsLawful, IsLawfulStamp};

use crate::tags::{KEY, centre, tag};
use span_base::{Policy, Value};
use ticket_rules::Stamp;
use wire_msg::Message;

/// A replica did what was asked in this phase.
pub fn yes(phase: u8, replica: u8) -> Message
    ensures { IsLawful result }
{
    Message::Yes {
        tag: tag(phase),
        replica: centre(replica),
    }
}

/// A replica tells its version and its mark.
pub fn have(phase: u8, replica: u8, version: Stamp, mark: Stamp, value: Value) -> Message
    requires version { IsLawfulStamp version }
    requires mark { IsLawfulStamp mark }
    requires value { length value ≤ 4096 }
    ensures { IsLawful result }
{
    Message::Have {
        tag: tag(phase),
        replica: centre(replica),
        version,
        mark,
        value,
    }
}

/// A replica holds a greater stamp.
pub fn held(phase: u8, replica: u8, stamp: Stamp) -> Message
    requires { IsLawfulStamp stamp }
    ensures { IsLawful result }
{
    Message::Held {
        tag: tag(phase),
        replica: centre(replica),
        stamp,
    }
}

/// A replica is frozen up to this epoch.
pub fn gone(phase: u8, replica: u8, epoch: u32) -> Message
    ensures { IsLawful result }
{
    Message::Gone {
        tag: tag(phase),
        replica: centre(replica),
        epoch,
    }
}

/// The directory tells the key's current epoch and the latest one. Epochs are counted from 1.
pub fn here(
    phase: u8,
    epoch: u32,
    policy: Policy,
    latest_epoch: u32,
    latest_policy: Policy,
) -> Message
    requires current { IsSoundPolicy policy }
    requires latest { IsSoundPolicy latest_policy }
    ensures { IsLawful result }
{
    Message::Here {
        tag: tag(phase),
        key: KEY,
        epoch: epoch.max(1),
        policy,
        latest_epoch: latest_epoch.max(1),
        latest_policy,
    }
}
