//! One record at the front of bytes.

ghost use Rattle.std.specs.Prelude.{◌<◌, ◌↔◌, ◌∷◌, length, IsTrue, IfOk, IfSome};
ghost use Rattle.replica_core.specs.Rule.{request_key};
ghost use Rattle.replica_core.specs.Taking.{IsLogged};
ghost use Rattle.replica_journal.specs.AtGate.{FrameHolds, IsAtGate};

use replica_core::request_key;
use std::alloc::{AllocError, Global};
use wire_msg::{FrameFault, Message, decode};

/// What stands at a gate.
#[derive(Debug, Drop)]
pub(crate) enum AtGate {
    /// An open record, and how many bytes it takes with its gate.
    Record { message: Message, size: usize },
    /// The journal's end.
    Closed,
    /// An open gate, and no sound record behind it.
    Damaged,
}

/// What stands at the gate that the bytes begin with, in the journal of a replica with so many
/// keys, whatever bytes follow. It is `None` where there are too few bytes to tell, which are
/// 65,538 at most.
pub(crate) fn read_record(
    alloc: Global,
    bytes: &[u8],
    keys: u16,
) -> Result<Option<AtGate>, AllocError>
    requires { 0 < length bytes.now }
    ensures { IfOk result (λ found. IsAtGate keys bytes.now found) }
{
    if bytes[0] != 1 {
        return Ok(Some(AtGate::Closed));
    }
    if bytes.len() < 3 {
        return Ok(None);
    }
    let (head, rest) = bytes.split_at(3);
    open_record(alloc, head[1], head[2], rest, keys)
}

/// What stands behind an open gate: the two bytes of the frame's length, and the rest.
fn open_record(
    alloc: Global,
    high: u8,
    low: u8,
    rest: &[u8],
    keys: u16,
) -> Result<Option<AtGate>, AllocError>
    ensures { IfOk result (λ found. IsAtGate keys (1 ∷ high ∷ low ∷ rest.now) found) }
{
    let len = usize::from(u16::from_be_bytes([high, low]));
    if rest.len() <= len {
        return Ok(None);
    }
    let (frame, _) = rest.split_at(len);
    match read_frame(alloc, frame, keys)? {
        Some(message) => Ok(Some(AtGate::Record {
            message,
            size: 3 + len,
        })),
        None => Ok(Some(AtGate::Damaged)),
    }
}

/// The message of this frame, where the journal of a replica with so many keys may hold it.
fn read_frame(alloc: Global, frame: &[u8], keys: u16) -> Result<Option<Message>, AllocError>
    ensures { IfOk result (λ found. FrameHolds keys frame.now found) }
{
    match decode(alloc, frame) {
        Ok(message) => {
            if may_hold(&message, keys) {
                Ok(Some(message))
            } else {
                Ok(None)
            }
        }
        Err(FrameFault::BadFrame { .. }) => Ok(None),
        Err(FrameFault::NoMemory(error)) => Err(error),
    }
}

/// Whether the journal of a replica with so many keys may hold the message.
fn may_hold(message: &Message, keys: u16) -> bool
    ensures { IsTrue result ↔ (IsLogged message.now × IfSome (request_key message.now) (λ key. key.0 < keys)) }
{
    match request_key(message) {
        Some(key) => is_logged(message) && key.0 < keys,
        None => false,
    }
}

/// Whether a journal keeps the message: whether it can change what a replica keeps.
pub(crate) fn is_logged(message: &Message) -> bool
    ensures { IsTrue result ↔ IsLogged message.now }
{
    match message {
        Message::Ask { .. } => true,
        Message::Store { .. } => true,
        Message::Repair { .. } => true,
        Message::Confirm { .. } => true,
        Message::Freeze { .. } => true,
        Message::Seed { .. } => true,
        Message::Push { .. } => true,
        _ => false,
    }
}
