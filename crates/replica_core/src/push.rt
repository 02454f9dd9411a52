ghost use Rattle.std.specs.Prelude.{◌≡◌, ◌++◌, IfOk};
ghost use Rattle.wire_msg.specs.Posts.{to_proxy};
ghost use Rattle.replica_core.specs.Answering.{done, push_to, pushes_to};

use crate::answer::done;
use span_base::{CENTRES, DcId, DcSet, KeyId, Listed, Value};
use std::alloc::{AllocError, Global};
use ticket_rules::Stamp;
use wire_msg::{Actor, Message, Post, Tag, answer_proxy};

/// What is pushed. The value is lent: each message gets a copy.
#[derive(Clone, Copy)]
pub(crate) struct Push<'a> {
    pub tag: Tag,
    pub key: KeyId,
    pub stamp: Stamp,
    pub value: &'a Value,
}

impl Push<'_> {
    /// The answer of the replica of this number, which takes the push, and then the push to each
    /// replica of `onward`, in rising order.
    pub(crate) fn posts(
        &self,
        alloc: Global,
        number: u8,
        onward: DcSet,
    ) -> Result<Listed<Post>, AllocError>
        ensures { IfOk result (λ posts. posts ≡ to_proxy self.now.tag (done number self.now.tag) ++ pushes_to self.now.tag self.now.key self.now.stamp self.now.value.now onward) }
    {
        let mut posts = answer_proxy(alloc, &self.tag, done(number, self.tag))?;
        for d in 0..CENTRES {
            if onward.has(DcId(d)) {
                posts.push(self.post(d)?)?;
            }
        }
        Ok(posts)
    }

    /// The push to one more replica, which sends it no further.
    fn post(&self, replica: u8) -> Result<Post, AllocError>
        ensures { IfOk result (λ post. post ≡ push_to self.now.tag self.now.key self.now.stamp self.now.value.now replica) }
    {
        Ok(Post {
            to: Actor::Replica(replica),
            message: Message::Push {
                tag: self.tag,
                key: self.key,
                stamp: self.stamp,
                onward: DcSet::empty(),
                value: self.value.clone()?,
            },
        })
    }
}
