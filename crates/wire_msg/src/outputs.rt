ghost use Rattle.std.specs.Prelude.{◌≡◌};
ghost use Rattle.wire_msg.specs.Outputs.{nothing_out};

use crate::actor::Actor;
use crate::message::Message;
use span_base::{DcSet, KeyId, Listed, Policy, Value};
use std::alloc::Global;
use ticket_rules::Stamp;

/// A message on its way to an actor.
#[derive(Debug, PartialEq, Eq, Drop)]
pub struct Post {
    pub to: Actor,
    pub message: Message,
}

/// What a proxy knows of a key: its newest epoch that the proxy heard of, and its policy.
#[derive(Debug, PartialEq, Eq, Drop)]
pub struct View {
    pub key: KeyId,
    pub epoch: u32,
    pub policy: Policy,
}

/// How a call ends.
#[derive(Debug, PartialEq, Eq, Drop)]
pub enum Reply {
    /// A read: the value, and the stamp that it was stored with.
    Value { stamp: Stamp, value: Value },
    /// A write: the ticket that the value was stored with.
    Stored { stamp: Stamp },
    /// A move: the epoch that it opened.
    At { epoch: u32 },
    /// The key moved on; `epoch` is over.
    Moved { epoch: u32 },
    /// A write found a greater stamp before it stored anything.
    Fenced { held: Stamp },
    /// A write may be stored or not.
    Unsure,
    /// A move had nothing to do: the latest epoch is current.
    Current { epoch: u32 },
    /// A move came too late.
    Stale { epoch: u32 },
    /// The proxy's centre is no member.
    Outside,
    /// The proxy has as many live calls as it can.
    Full,
    /// The proxy has no number left for a ticket.
    NumbersOut,
    /// The call was given up before its end: a write may be stored or not.
    GivenUp,
}

/// What an actor puts out as it takes one message.
#[derive(Debug, PartialEq, Eq, Drop)]
pub struct Outputs {
    /// In the order in which they are sent.
    pub posts: Listed<Post>,
    /// The ticket of a new leg of a write.
    pub ticket: Option<Stamp>,
    /// What the proxy is to know from now on.
    pub view: Option<View>,
    /// The call's end.
    pub end: Option<Reply>,
}

impl Outputs {
    /// Nothing put out yet. It takes no memory.
    pub fn make(alloc: Global) -> Outputs
        ensures { result ≡ nothing_out }
    {
        Outputs {
            posts: Listed::new(alloc),
            ticket: None,
            view: None,
            end: None,
        }
    }
}

/// How much is put out: the number of posts, and the bytes of their frames together.
#[derive(Clone, Copy, Debug, PartialEq, Eq)]
pub struct Bulk {
    pub posts: u32,
    pub bytes: u64,
}

impl Bulk {
    ghost use Rattle.wire_msg.specs.Bulks.{no_bulk, bulk_of_one, bulk_to};

    /// Nothing is sent.
    pub fn none() -> Bulk
        ensures { result ≡ no_bulk }
    {
        Bulk { posts: 0, bytes: 0 }
    }

    /// One frame of so many bytes.
    pub fn one(bytes: u32) -> Bulk
        ensures { result ≡ bulk_of_one bytes }
    {
        Bulk {
            posts: 1,
            bytes: u64::from(bytes),
        }
    }

    /// One frame of so many bytes to each replica of the set.
    pub fn to_each(set: DcSet, bytes: u32) -> Bulk
        ensures { result ≡ bulk_to set bytes }
    {
        let posts = set.count();
        Bulk {
            posts,
            bytes: u64::from(posts) * u64::from(bytes),
        }
    }
}
