//! How messages are sent: the limits are tested and room is made before an actor changes, so that
//! nothing can fail once it has.

ghost use Rattle.std.specs.Prelude.{◌≡◌, ◌+◌, ◌≤◌, ◌++◌, OnOk, length};
ghost use Rattle.wire_msg.specs.Lawful.{AreLawful};
ghost use Rattle.wire_msg.specs.Sizes.{bulk_of};
ghost use Rattle.world_core.specs.Stores.{RoomEnds};

use crate::event::StepFault;
use message_wire::Wire;
use span_base::What;
use std::alloc::Global;
use wire_msg::{Bulk, Post, frame_len};

/// The greatest number of messages, and of bytes of their frames.
const MESSAGES: u64 = 4_000_000;

const FRAME_BYTES: u128 = 536_870_912;

/// Makes room for so many messages, unless they would pass a limit.
pub(crate) fn make_room<W: Wire>(wire: &mut W, alloc: Global, bulk: Bulk) -> Result<(), StepFault>
    ensures kept { W.pushed wire.new ≡ W.pushed wire.old }
    ensures ends { RoomEnds (W.pushed wire.old) bulk result }
    ensures room { OnOk result ((bulk.posts ≤ (W.room wire.new).posts) × (bulk.bytes ≤ (W.room wire.new).bytes)) }
{
    let number = u64::from(wire.sent()) + u64::from(bulk.posts);
    if number > MESSAGES {
        return Err(StepFault::Limit {
            what: What::Messages,
            number: u128::from(number),
        });
    }
    let bytes = u128::from(wire.bytes()) + u128::from(bulk.bytes);
    if bytes > FRAME_BYTES {
        return Err(StepFault::Limit {
            what: What::FrameBytes,
            number: bytes,
        });
    }
    wire.reserve(alloc, bulk.posts, bulk.bytes)?;
    Ok(())
}

/// Sends messages for which there is room.
pub(crate) fn send<W: Wire>(wire: &mut W, alloc: Global, posts: &[Post])
    requires lawful { AreLawful posts.now }
    requires few { length (W.pushed wire.old) + length posts.now ≤ MESSAGES }
    requires room { (bulk_of posts.now).posts ≤ (W.room wire.old).posts }
    requires bytes { (bulk_of posts.now).bytes ≤ (W.room wire.old).bytes }
    ensures { W.pushed wire.new ≡ W.pushed wire.old ++ posts.now }
{
    for post in posts {
        match wire.push(alloc, post.to, &post.message) {
            Ok(()) => {}
            Err(_) => unreachable!(),
        }
    }
}

/// How much these messages are.
pub(crate) fn bulk_of(posts: &[Post]) -> Bulk
    requires lawful { AreLawful posts.now }
    requires few { length posts.now ≤ 16 }
    ensures { result ≡ bulk_of posts.now }
{
    let mut bytes = 0;
    for post in posts {
        bytes += u64::from(frame_len(&post.message));
    }
    Bulk {
        posts: posts.len() as u32,
        bytes,
    }
}
