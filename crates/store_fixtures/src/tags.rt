ghost use Rattle.std.specs.Prelude.{◌≡◌, ◌<◌, ◌≤◌, length, IfOk};
ghost use Rattle.wire_msg.specs.Lawful.{IsLawfulTag, IsLawfulStamp};

use span_base::{Call, DcId, KeyId, Value};
use std::alloc::{AllocError, Global};
use ticket_rules::Stamp;
use wire_msg::Tag;

/// The key of the call.
pub const KEY: KeyId = KeyId(9);

/// The tag of a phase of call 7 of proxy 3. Phases are counted from 1.
pub fn tag(phase: u8) -> Tag
    ensures lawful { IsLawfulTag result }
    ensures phase { 1 ≤ phase → result.phase ≡ phase }
{
    Tag {
        call: Call { proxy: 3, seq: 7 },
        slot: 2,
        generation: 4,
        phase: phase.max(1),
    }
}

/// The call's own ticket of this epoch and number.
pub fn ticket(epoch: u32, number: u64) -> Stamp
    ensures lawful { IsLawfulStamp result }
{
    Stamp {
        epoch,
        number,
        proxy: 3,
        seq: 7,
    }
}

/// A stamp of another proxy in epoch 1.
pub fn other_stamp(number: u8) -> Stamp
    ensures lawful { IsLawfulStamp result }
{
    Stamp {
        epoch: 1,
        number: u64::from(number),
        proxy: 5,
        seq: 1,
    }
}

/// A value of one byte.
pub fn value(alloc: Global, byte: u8) -> Result<Value, AllocError>
    ensures { IfOk result (λ value. length value ≡ 1) }
{
    Ok(Value::from_vec(Vec::from_slice(alloc, &[byte])?))
}

/// The centre of this number, and the last one of a greater number.
pub fn centre(number: u8) -> DcId
    ensures { result.0 < 16 }
{
    DcId(number.min(15))
}
