ghost use Rattle.std.specs.Prelude.{◌≡◌, ◌<◌, ◌≤◌, length, slice_get, Some, IfOk, OnOk};
ghost use Rattle.wire_msg.specs.Frames.{frame_of};
ghost use Rattle.wire_msg.specs.Lawful.{IsLawful};
ghost use Rattle.message_wire.specs.Sent.{nothing_sent};
ghost use Rattle.span_node.specs.Carried.{carried};

use message_wire::{FrameWire, Wire};
use std::alloc::{AllocError, Global};
use std::marker::Model;
use wire_msg::{Actor, Bulk, Message, Post, frame_len, node_of, write_frame};

/// Keeps the messages of a store that talks over a link, and gives each as the link carries it.
#[derive(Debug, Drop)]
pub(crate) struct LinkWire {
    wire: FrameWire,
}

impl Model for LinkWire {
    ghost use Rattle.message_wire.specs.Sent.{Sent};
    ghost use Rattle.wire_msg.specs.Lawful.{AreLawful};

    ghost Value = { Sent };

    ghost view = { λ w. w.wire };

    ghost invariant = { λ w. AreLawful w.wire.posts };
}

impl LinkWire {
    /// A wire on which nothing was sent. It takes no memory.
    pub(crate) fn new(alloc: Global) -> LinkWire
        ensures { result ≡ nothing_sent }
    {
        LinkWire {
            wire: FrameWire::new(alloc),
        }
    }

    /// Writes the frame of the message of this number, and nothing else, into `frame`. It answers
    /// the node that the frame goes to. Where `frame` has room for it, it takes none.
    #[tactic(auto, using(crate::proofs::Carrying::carried_at))]
    pub(crate) fn frame(
        &self,
        alloc: Global,
        number: u32,
        frame: &mut Vec<u8>,
    ) -> Result<u16, AllocError>
        requires { number < length self.now.posts }
        ensures gives { IfOk result (λ to. slice_get (carried self.now.posts) number ≡ Some (record { to = to; frame = frame.new.items })) }
        ensures short { OnOk result (length frame.new.items ≤ 8192) }
    {
        let post = self.post(alloc, number)?;
        put_frame(frame, &post.message)?;
        Ok(node_of(post.to))
    }

    /// The message of this number, on its way.
    #[tactic(auto, using(crate::proofs::Carrying::lawful_at, crate::proofs::Carrying::none_missing))]
    fn post(&self, alloc: Global, number: u32) -> Result<Post, AllocError>
        requires { number < length self.now.posts }
        ensures post { IfOk result (λ post. slice_get self.now.posts number ≡ Some post) }
        ensures lawful { IfOk result (λ post. IsLawful post.message) }
    {
        match self.wire.pick(alloc, number)? {
            Some(post) => Ok(post),
            None => unreachable!(),
        }
    }
}

/// Writes the message's frame, and nothing else, into `frame`.
fn put_frame(frame: &mut Vec<u8>, message: &Message) -> Result<(), AllocError>
    requires { IsLawful message.now }
    ensures put { OnOk result (frame.new.items ≡ frame_of message.now) }
    ensures short { OnOk result (length frame.new.items ≤ 8192) }
{
    frame.clear();
    frame.reserve(frame_len(message) as usize)?;
    write_frame(frame, message);
    Ok(())
}

impl Wire for LinkWire {
    ghost pushed = { λ w. w.posts };

    ghost room = { λ w. w.room };

    fn push(&mut self, alloc: Global, to: Actor, message: &Message) -> Result<(), AllocError> {
        self.wire.push(alloc, to, message)
    }

    fn pick(&self, alloc: Global, n: u32) -> Result<Option<Post>, AllocError> {
        self.wire.pick(alloc, n)
    }

    fn sent(&self) -> u32 {
        self.wire.sent()
    }

    fn bytes(&self) -> u64 {
        self.wire.bytes()
    }

    fn reserve(&mut self, alloc: Global, posts: u32, bytes: u64) -> Result<(), AllocError> {
        self.wire.reserve(alloc, posts, bytes)
    }
}
