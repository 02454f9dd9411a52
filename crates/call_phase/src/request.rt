ghost use Rattle.std.specs.Prelude.{◌≡◌, ◌++◌, IfOk};
ghost use Rattle.std.specs.List.{range_with_len};
ghost use Rattle.call_phase.specs.Requests.{message_of, posts_to, posts_from};

use span_base::{CENTRES, DcId, DcSet, KeyId, Value};
use std::alloc::{AllocError, Global};
use ticket_rules::Stamp;
use wire_msg::{Actor, Message, Post, Tag};

/// What a phase asks of every one of its replicas. The value is lent: each message gets a copy.
#[derive(Clone, Copy)]
pub enum Request<'a> {
    Read {
        key: KeyId,
        epoch: u32,
    },
    Ask {
        key: KeyId,
        stamp: Stamp,
    },
    Store {
        key: KeyId,
        stamp: Stamp,
        value: &'a Value,
    },
    Repair {
        key: KeyId,
        epoch: u32,
        stamp: Stamp,
        value: &'a Value,
    },
    Confirm {
        key: KeyId,
        stamp: Stamp,
    },
    Freeze {
        key: KeyId,
        epoch: u32,
    },
    Seed {
        key: KeyId,
        epoch: u32,
        stamp: Stamp,
        value: &'a Value,
    },
}

/// The posts that ask each replica of the set, in rising order.
#[tactic(auto, using(crate::proofs::Posts::posts_start, crate::proofs::Posts::posts_there, crate::proofs::Posts::posts_not_there, crate::proofs::Posts::posts_end))]
pub fn send_to_each(
    alloc: Global,
    set: DcSet,
    tag: Tag,
    request: &Request,
) -> Result<Vec<Post>, AllocError>
    ensures { IfOk result (λ posts. posts.items ≡ posts_to set (message_of tag request.now)) }
{
    let mut posts = Vec::with_capacity(alloc, set.count() as usize)?;
    for d in 0..CENTRES {
        if set.has(DcId(d)) {
            posts.push(Post {
                to: Actor::Replica(d),
                message: message(tag, request)?,
            })?;
        }
    }
    Ok(posts)
}

/// The message of a request.
fn message(tag: Tag, request: &Request) -> Result<Message, AllocError>
    ensures { IfOk result (λ message. message ≡ message_of tag request.now) }
{
    Ok(match *request {
        Request::Read { key, epoch } => Message::Read { tag, key, epoch },
        Request::Ask { key, stamp } => Message::Ask { tag, key, stamp },
        Request::Store { key, stamp, value } => Message::Store {
            tag,
            key,
            stamp,
            value: value.clone()?,
        },
        Request::Repair {
            key,
            epoch,
            stamp,
            value,
        } => Message::Repair {
            tag,
            key,
            epoch,
            stamp,
            value: value.clone()?,
        },
        Request::Confirm { key, stamp } => Message::Confirm { tag, key, stamp },
        Request::Freeze { key, epoch } => Message::Freeze { tag, key, epoch },
        Request::Seed {
            key,
            epoch,
            stamp,
            value,
        } => Message::Seed {
            tag,
            key,
            epoch,
            stamp,
            value: value.clone()?,
        },
    })
}
