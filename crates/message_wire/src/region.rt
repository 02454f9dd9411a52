ghost use Rattle.std.specs.Prelude.{◌≡◌, ◌+◌, ◌<◌, ◌≤◌, length, vec_capacity, IfOk, OnOk, OnErr, IsOk};
ghost use Rattle.wire_msg.specs.Lawful.{IsLawful};
ghost use Rattle.wire_msg.specs.Sizes.{frame_size};
ghost use Rattle.message_wire.specs.Region.{IsRegion, IsGrown};

use std::alloc::AllocError;
use wire_msg::{Actor, Message, frame_len, write_frame};

/// Where a message's frame lies in the region, and who takes the message.
#[derive(Clone, Copy, Debug)]
pub(crate) struct Entry {
    pub(crate) start: usize,
    pub(crate) len: u32,
    pub(crate) to: Actor,
}

/// Puts the message's frame at the region's end, and its entry at the end of the entries. It answers
/// how many bytes the frame has.
#[tactic(auto, using(crate::proofs::RegionLaws::grown))]
pub(crate) fn put_frame(
    region: &mut Vec<u8>,
    entries: &mut Vec<Entry>,
    to: Actor,
    message: &Message,
) -> Result<u32, AllocError>
    requires lawful { IsLawful message.now }
    requires few { length entries.old.items < 4000000 }
    requires sound { IsRegion region.old.items entries.old.items }
    ensures ok { OnOk result (IsGrown region.old.items region.new.items entries.old.items entries.new.items to message.now) }
    ensures bytes { IfOk result (λ bytes. bytes ≡ frame_size message.now) }
    ensures err { OnErr result ((region.new.items ≡ region.old.items) × (entries.new.items ≡ entries.old.items)) }
    ensures roomy { length entries.old.items < vec_capacity entries.old → length region.old.items + frame_size message.now ≤ vec_capacity region.old → IsOk result }
    ensures entries_room { vec_capacity entries.old ≤ vec_capacity entries.new }
    ensures region_room { vec_capacity region.old ≤ vec_capacity region.new }
{
    let len = frame_len(message);
    let start = region.len();
    region.reserve(len as usize)?;
    entries.push(Entry { start, len, to })?;
    write_frame(region, message);
    Ok(len)
}
