ghost use Rattle.std.specs.Prelude.{◌≡◌, IfOk};
ghost use Rattle.message_wire.specs.Frames.{message_in, IsWhole};

use std::alloc::{AllocError, Global};
use wire_msg::{FrameFault, Message, decode};

/// The message that a frame is.
#[tactic(auto, using(crate::proofs::FrameLaws::frame_says))]
pub(crate) fn message_of(alloc: Global, frame: &[u8]) -> Result<Message, AllocError>
    requires { IsWhole frame.now }
    ensures { IfOk result (λ message. message ≡ message_in frame.now) }
{
    match decode(alloc, frame) {
        Ok(message) => Ok(message),
        Err(FrameFault::NoMemory(error)) => Err(error),
        Err(FrameFault::BadFrame { .. }) => unreachable!(),
    }
}
