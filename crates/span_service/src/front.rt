//! What stands in front of bytes that were read.

ghost use Rattle.std.specs.Prelude.{◌≡◌, ◌∷◌, IfOk};
ghost use Rattle.span_service.specs.Fronts.{IsFront, ReadsFrame};
ghost use Rattle.span_service.specs.Requests.{wrong_place};

use replica_core::request_key;
use std::alloc::{AllocError, Global};
use wire_msg::{FrameFault, Message, decode};

/// The most bytes that a frame may have.
const FRAME_LIMIT: usize = 8192;

/// Where in its frame a request's key stands.
const KEY_PLACE: usize = 12;

#[derive(Debug, Drop)]
pub(crate) enum Front {
    /// A request, and how many bytes it takes with its length.
    Request { message: Message, size: usize },
    /// No request. The first fault stands at this place of the frame.
    Bad { at: usize },
    /// Too few bytes to tell.
    Short,
}

/// What stands in front of the bytes, read as requests to a replica with so many keys. It is
/// `Short` only where there are fewer than 8,194 bytes.
pub(crate) fn read_front(alloc: Global, bytes: &[u8], keys: u16) -> Result<Front, AllocError>
    ensures { IfOk result (λ front. IsFront keys bytes.now front) }
{
    match bytes {
        [high, low, rest @ ..] => read_behind(alloc, *high, *low, rest, keys),
        _ => Ok(Front::Short),
    }
}

// The two bytes of a frame's length, and the rest.
fn read_behind(
    alloc: Global,
    high: u8,
    low: u8,
    rest: &[u8],
    keys: u16,
) -> Result<Front, AllocError>
    ensures { IfOk result (λ front. IsFront keys (high ∷ low ∷ rest.now) front) }
{
    let len = usize::from(u16::from_be_bytes([high, low]));
    if len == 0 {
        return Ok(Front::Bad { at: 0 });
    }
    if len > FRAME_LIMIT {
        return Ok(Front::Bad { at: 0 });
    }
    if rest.len() < len {
        return Ok(Front::Short);
    }
    let (frame, _) = rest.split_at(len);
    match read_request(alloc, frame, keys) {
        Ok(message) => Ok(Front::Request {
            message,
            size: 2 + len,
        }),
        Err(FrameFault::BadFrame { at }) => Ok(Front::Bad { at }),
        Err(FrameFault::NoMemory(error)) => Err(error),
    }
}

// The request that a frame is.
fn read_request(alloc: Global, frame: &[u8], keys: u16) -> Result<Message, FrameFault>
    ensures { ReadsFrame keys frame.now result }
{
    let message = decode(alloc, frame)?;
    match wrong_place(&message, keys) {
        None => Ok(message),
        Some(at) => Err(FrameFault::BadFrame { at }),
    }
}

// Where in its frame a message is no request to a replica with so many keys.
fn wrong_place(message: &Message, keys: u16) -> Option<usize>
    ensures { result ≡ wrong_place keys message.now }
{
    match request_key(message) {
        Some(key) => { if key.0 < keys { None } else { Some(KEY_PLACE) } }
        None => Some(0),
    }
}
