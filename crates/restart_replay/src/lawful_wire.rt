ghost use Rattle.std.specs.Prelude.{◌≡◌, slice_get, IfOk, IfSome};
ghost use Rattle.wire_msg.specs.Lawful.{IsLawful, AreLawful};
ghost use Rattle.message_wire.specs.Sent.{nothing_sent};

use message_wire::{FrameWire, Wire};
use std::alloc::{AllocError, Global};
use std::marker::Model;
use wire_msg::{Actor, Message, Post};

/// Keeps each message as its frame, and tells that all of them are lawful.
#[derive(Debug, Drop)]
pub(crate) struct LawfulWire {
    wire: FrameWire,
}

impl Model for LawfulWire {
    ghost use Rattle.message_wire.specs.Sent.{Sent};
    ghost use Rattle.wire_msg.specs.Lawful.{AreLawful};

    ghost Value = { Sent };

    ghost view = { λ w. w.wire };

    ghost invariant = { λ w. AreLawful w.wire.posts };
}

impl LawfulWire {
    /// A wire on which nothing was sent. It takes no memory.
    pub(crate) fn new(alloc: Global) -> LawfulWire
        ensures { result ≡ nothing_sent }
    {
        LawfulWire {
            wire: FrameWire::new(alloc),
        }
    }

    /// The message of this number, where so many were sent.
    #[tactic(auto, using(crate::proofs::Wires::lawful_found))]
    pub(crate) fn post(&self, alloc: Global, number: u32) -> Result<Option<Post>, AllocError>
        ensures post { IfOk result (λ post. post ≡ slice_get self.now.posts number) }
        ensures lawful { IfOk result (λ post. IfSome post (λ p. IsLawful p.message)) }
    {
        self.wire.pick(alloc, number)
    }

    /// All messages are lawful.
    pub(crate) fn are_lawful(&self)
        ensures { AreLawful self.now.posts }
    {
        let _ = &self.wire;
    }
}

impl Wire for LawfulWire {
    ghost pushed = { λ w. w.posts };

    ghost room = { λ w. w.room };

    fn push(&mut self, alloc: Global, to: Actor, message: &Message) -> Result<(), AllocError> {
        self.wire.push(alloc, to, message)
    }

    fn pick(&self, alloc: Global, n: u32) -> Result<Option<Post>, AllocError> {
        self.wire.pick(alloc, n)
    }

    fn sent(&self) -> u32 {
        self.wire.sent()
    }

    fn bytes(&self) -> u64 {
        self.wire.bytes()
    }

    fn reserve(&mut self, alloc: Global, posts: u32, bytes: u64) -> Result<(), AllocError> {
        self.wire.reserve(alloc, posts, bytes)
    }
}
