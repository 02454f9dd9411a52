//! What a replica puts out for a message, by the verdict on it.

ghost use Rattle.std.specs.Prelude.{◌≡◌, ◌++◌, IfOk};
ghost use Rattle.wire_msg.specs.Posts.{tag_of, to_proxy};
ghost use Rattle.replica_core.specs.Answering.{gone, have, done, held};
ghost use Rattle.replica_core.specs.Verdict.{pushed_on, posts_by};

use crate::kept::Kept;
use crate::push::Push;
use crate::verdict::Verdict;
use span_base::{DcId, Listed};
use std::alloc::{AllocError, Global};
use ticket_rules::greater;
use wire_msg::{Message, Post, Tag, answer_proxy};

impl Kept {
    /// The answer to the proxy of the message's tag, and of a push that is taken the pushes that
    /// go on.
    pub(crate) fn posts(
        &self,
        alloc: Global,
        number: u8,
        message: &Message,
        verdict: Verdict,
    ) -> Result<Listed<Post>, AllocError>
        ensures { IfOk result (λ posts. posts ≡ posts_by verdict number self.now message.now) }
    {
        let tag = tag_of(message);
        match verdict {
            Verdict::Gone => answer_proxy(alloc, &tag, self.gone(number, tag)),
            Verdict::Held => answer_proxy(alloc, &tag, self.held(number, tag)),
            Verdict::Yes => done_posts(alloc, number, message),
            Verdict::Have => answer_proxy(alloc, &tag, self.have(number, tag)?),
            Verdict::Silent => Ok(Listed::new(alloc)),
        }
    }

    /// Tells that the epoch is over.
    fn gone(&self, number: u8, tag: Tag) -> Message
        ensures { result ≡ gone number self.now tag }
    {
        Message::Gone {
            tag,
            replica: DcId(number),
            epoch: self.frozen,
        }
    }

    /// Tells the greatest stamp that stands here.
    fn held(&self, number: u8, tag: Tag) -> Message
        ensures { result ≡ held number self.now tag }
    {
        Message::Held {
            tag,
            replica: DcId(number),
            stamp: greater(&self.fence, &self.version),
        }
    }

    /// Tells what is kept.
    fn have(&self, number: u8, tag: Tag) -> Result<Message, AllocError>
        ensures { IfOk result (λ message. message ≡ have number self.now tag) }
    {
        Ok(Message::Have {
            tag,
            replica: DcId(number),
            version: self.version,
            mark: self.mark,
            value: self.value.clone()?,
        })
    }
}

/// Tells that it is done, and passes a push on.
fn done_posts(alloc: Global, number: u8, message: &Message) -> Result<Listed<Post>, AllocError>
    ensures { IfOk result (λ posts. posts ≡ to_proxy (tag_of message.now) (done number (tag_of message.now)) ++ pushed_on message.now) }
{
    match message {
        Message::Push {
            tag,
            key,
            stamp,
            onward,
            value,
        } => {
            let push = Push {
                tag: *tag,
                key: *key,
                stamp: *stamp,
                value,
            };
            push.posts(alloc, number, *onward)
        }
        _ => {
            let tag = tag_of(message);
            answer_proxy(alloc, &tag, done(number, tag))
        }
    }
}

/// Tells that it is done.
pub(crate) fn done(number: u8, tag: Tag) -> Message
    ensures { result ≡ done number tag }
{
    Message::Yes {
        tag,
        replica: DcId(number),
    }
}

fn tag_of(message: &Message) -> Tag
    ensures { result ≡ tag_of message.now }
{
    match message {
        Message::Read { tag, .. }
        | Message::Ask { tag, .. }
        | Message::Store { tag, .. }
        | Message::Repair { tag, .. }
        | Message::Confirm { tag, .. }
        | Message::Freeze { tag, .. }
        | Message::Seed { tag, .. }
        | Message::Push { tag, .. }
        | Message::Lookup { tag, .. }
        | Message::Switch { tag, .. }
        | Message::Have { tag, .. }
        | Message::Yes { tag, .. }
        | Message::Held { tag, .. }
        | Message::Gone { tag, .. }
        | Message::Here { tag, .. }
        | Message::Switched { tag, .. } => *tag,
    }
}
