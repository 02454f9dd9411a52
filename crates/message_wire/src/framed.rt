ghost use Rattle.std.specs.Prelude.{◌≡◌, ◌+◌, ◌<◌, ◌≤◌, All, length, vec_capacity, IfOk, OnOk, OnErr, IsOk};
ghost use Rattle.wire_msg.specs.Lawful.{IsLawful};
ghost use Rattle.wire_msg.specs.Sizes.{frame_size};
ghost use Rattle.message_wire.specs.Framed.{HasFrame, IsSpare, IsLonger};

use crate::spares::take_spare;
use std::alloc::{AllocError, Global};
use wire_msg::{Actor, Message, frame_len, write_frame};

/// A message as its frame, in memory of its own, and who takes it.
#[derive(Debug, Drop)]
pub(crate) struct Framed {
    pub(crate) to: Actor,
    pub(crate) frame: Vec<u8>,
}

/// Puts the message's frame at the end of the frames, in spare memory. It answers how many bytes
/// the frame has.
#[tactic(auto, using(crate::proofs::FramedLaws::longer))]
pub(crate) fn append_frame(
    frames: &mut Vec<Framed>,
    spares: &mut Vec<Vec<u8>>,
    alloc: Global,
    to: Actor,
    message: &Message,
) -> Result<u32, AllocError>
    requires lawful { IsLawful message.now }
    requires whole { All HasFrame frames.old.items }
    requires spares { All IsSpare spares.old.items }
    ensures ok { OnOk result (IsLonger frames.old.items frames.new.items to message.now) }
    ensures bytes { IfOk result (λ bytes. (bytes ≡ frame_size message.now) × (bytes ≤ 8192)) }
    ensures err { OnErr result ((frames.new.items ≡ frames.old.items) × (spares.new.items ≡ spares.old.items)) }
    ensures spares { All IsSpare spares.new.items }
    ensures one { length spares.old.items ≤ length spares.new.items + 1 }
    ensures roomy { length frames.old.items < vec_capacity frames.old → 1 ≤ length spares.old.items → IsOk result }
    ensures room { vec_capacity frames.old ≤ vec_capacity frames.new }
{
    let len = frame_len(message);
    frames.reserve(1)?;
    let mut frame = take_spare(spares, alloc)?;
    write_frame(&mut frame, message);
    frames.push(Framed { to, frame })?;
    Ok(len)
}
