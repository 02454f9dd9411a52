//! What the tests share: messages to replica 5 on its one key, written short, and its answers. All
//! are of phase 4 of one call, and each stamp is of epoch 2.

ghost use Rattle.std.specs.Prelude.{◌≡◌, ◌<◌, ◌≤◌, length, IfOk, IfSome};
ghost use Rattle.wire_msg.specs.Lawful.{IsLawful};
ghost use Rattle.replica_core.specs.Rule.{request_key};

use super::*;
use span_base::{DcSet, KeyId, Listed, Value};
use std::alloc::{AllocError, Global};
use store_fixtures::{centre, gone, have, held, tag, ticket, value, yes};
use ticket_rules::Stamp;
use wire_msg::{Message, Outputs, Post};

pub const KEY: KeyId = KeyId(0);

/// A message by its epoch, the number of its stamp, and its value's one byte.
#[derive(Clone, Copy)]
pub enum Asked {
    Read(u32),
    Ask(u64),
    Store(u64, u8),
    Repair(u64, u8),
    Confirm(u64),
    Freeze(u32),
    Seed(u64, u8),
    Push(u64, u8),
    /// No request.
    Other,
}

/// An answer by its epoch or the number of its stamp.
#[derive(Clone, Copy)]
pub enum Told {
    /// The version, its byte and the mark.
    Have(u64, u8, u64),
    /// Nothing was stored yet; the mark.
    Empty(u64),
    Yes,
    Held(u64),
    Gone(u32),
    Nothing,
}

/// The stamp of this number, and stamp zero of 0.
pub fn stamp(number: u64) -> Stamp
    ensures { result.proxy < 64 }
{
    if number == 0 {
        Stamp::zero()
    } else {
        ticket(2, number)
    }
}

/// Epochs are counted from 1.
fn epoch_from(epoch: u32) -> u32
    ensures { 1 ≤ result }
{
    epoch.max(1)
}

/// The message. A push goes no further.
pub fn message(alloc: Global, asked: Asked) -> Result<Message, AllocError>
    ensures lawful { IfOk result (λ message. IsLawful message) }
    ensures key { IfOk result (λ message. IfSome (request_key message) (λ key. key.0 ≡ 0)) }
{
    Ok(match asked {
        Asked::Read(epoch) => Message::Read {
            tag: tag(4),
            key: KEY,
            epoch: epoch_from(epoch),
        },
        Asked::Ask(number) => Message::Ask {
            tag: tag(4),
            key: KEY,
            stamp: stamp(number),
        },
        Asked::Store(number, byte) => Message::Store {
            tag: tag(4),
            key: KEY,
            stamp: stamp(number),
            value: value(alloc, byte)?,
        },
        Asked::Repair(number, byte) => Message::Repair {
            tag: tag(4),
            key: KEY,
            epoch: 2,
            stamp: stamp(number),
            value: value(alloc, byte)?,
        },
        Asked::Confirm(number) => Message::Confirm {
            tag: tag(4),
            key: KEY,
            stamp: stamp(number),
        },
        Asked::Freeze(epoch) => Message::Freeze {
            tag: tag(4),
            key: KEY,
            epoch: epoch_from(epoch),
        },
        Asked::Seed(number, byte) => Message::Seed {
            tag: tag(4),
            key: KEY,
            epoch: 2,
            stamp: stamp(number),
            value: value(alloc, byte)?,
        },
        Asked::Push(number, byte) => push(alloc, number, byte, DcSet::empty())?,
        Asked::Other => Message::Yes {
            tag: tag(4),
            replica: centre(5),
        },
    })
}

pub fn push(alloc: Global, number: u64, byte: u8, onward: DcSet) -> Result<Message, AllocError>
    ensures lawful { IfOk result (λ message. IsLawful message) }
    ensures key { IfOk result (λ message. IfSome (request_key message) (λ key. key.0 ≡ 0)) }
{
    Ok(Message::Push {
        tag: tag(4),
        key: KEY,
        stamp: stamp(number),
        onward,
        value: value(alloc, byte)?,
    })
}

/// The answer, where there is one.
pub fn answer(alloc: Global, told: Told) -> Result<Option<Message>, AllocError> {
    Ok(Some(match told {
        Told::Have(version, byte, mark) => {
            have(4, 5, stamp(version), stamp(mark), value(alloc, byte)?)
        }
        Told::Empty(mark) => have(4, 5, Stamp::zero(), stamp(mark), Value::empty(alloc)),
        Told::Yes => yes(4, 5),
        Told::Held(number) => held(4, 5, stamp(number)),
        Told::Gone(epoch) => gone(4, 5, epoch),
        Told::Nothing => return Ok(None),
    }))
}

/// What a taker with one key puts out for a message.
pub fn tell<T: Taker>(
    alloc: Global,
    taker: &mut T,
    message: &Message,
) -> Result<Listed<Post>, TakeFault>
    requires lawful { IsLawful message.now }
    requires key { IfSome (request_key message.now) (λ key. key.0 ≡ 0) }
    requires keys { length (T.state taker.old).kept ≡ 1 }
    ensures { length (T.state taker.new).kept ≡ 1 }
{
    let mut out = Outputs::make(alloc);
    taker.take(alloc, message, &mut out)?;
    Ok(out.posts)
}
