ghost use Rattle.std.specs.Prelude.{◌≡◌, IfOk};
ghost use Rattle.span_node.specs.Carried.{carried, is_same, FindsFrom, Finds};
ghost use Rattle.span_node.specs.Index.{IsIndex};

use crate::digest::digest_of;
use crate::index::FrameIndex;
use crate::link_wire::LinkWire;
use message_wire::Wire;
use std::alloc::{AllocError, Global};

/// The number of the first message that has this destination and this frame. `room` is memory for
/// a frame.
pub(crate) fn find(
    alloc: Global,
    wire: &LinkWire,
    index: &FrameIndex,
    to: u16,
    frame: &[u8],
    room: &mut Vec<u8>,
) -> Result<Option<u32>, AllocError>
    requires { IsIndex index.now (carried wire.now.posts) }
    ensures { IfOk result (λ found. Finds (carried wire.now.posts) (record { to = to; frame = frame.now }) found) }
{
    match index.first_at(digest_of(to, frame)) {
        Some(first) => first_from(alloc, wire, first, to, frame, room),
        None => Ok(None),
    }
}

/// The number of the first message from this one on that has this destination and this frame.
/// `room` is memory for a frame.
#[tactic(auto, using(crate::proofs::Carrying::none_from, crate::proofs::Carrying::none_more, crate::proofs::Carrying::found_here, crate::proofs::Carrying::many))]
fn first_from(
    alloc: Global,
    wire: &LinkWire,
    from: u32,
    to: u16,
    frame: &[u8],
    room: &mut Vec<u8>,
) -> Result<Option<u32>, AllocError>
    ensures { IfOk result (λ found. FindsFrom (carried wire.now.posts) from (record { to = to; frame = frame.now }) found) }
{
    for number in from..wire.sent() {
        let node = wire.frame(alloc, number, room)?;
        if is_same(to, frame, node, room.as_slice()) {
            return Ok(Some(number));
        }
    }
    Ok(None)
}

/// Whether the two frames are one, and go to one node.
#[tactic(auto, unfolding(crate::specs::Carried::is_same))]
fn is_same(to: u16, frame: &[u8], node: u16, other: &[u8]) -> bool
    ensures { result ≡ is_same (record { to = to; frame = frame.now }) (record { to = node; frame = other.now }) }
{
    node == to && other == frame
}
