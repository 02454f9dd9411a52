//! How much a replica puts out for a message, told before it is made.

ghost use Rattle.std.specs.Prelude.{◌≡◌, ℕ, ◌++◌};
ghost use Rattle.span_base.specs.declared.ids.KeyId.{KeyId};
ghost use Rattle.ticket_rules.specs.declared.stamp.Stamp.{Stamp};
ghost use Rattle.wire_msg.specs.declared.tag.Tag.{Tag};
ghost use Rattle.wire_msg.specs.Posts.{tag_of, to_proxy};
ghost use Rattle.wire_msg.specs.Sizes.{bulk_of};
ghost use Rattle.replica_core.specs.Answering.{done, pushes_to, answers};
ghost use Rattle.replica_core.specs.Verdict.{pushed_on, posts_by};

use crate::kept::Kept;
use crate::verdict::Verdict;
use span_base::{DcSet, Value};
use wire_msg::sizes::{GONE_BYTES, HAVE_BYTES, HELD_BYTES, PUSH_BYTES, YES_BYTES};
use wire_msg::{Bulk, Message};

impl Kept {
    /// How much is put out for a message.
    pub(crate) fn bulk(&self, message: &Message) -> Bulk
        ensures { (number : ℕ) → result ≡ bulk_of (answers number self.now message.now) }
    {
        self.bulk_by(self.judge(message), message)
    }

    fn bulk_by(&self, verdict: Verdict, message: &Message) -> Bulk
        ensures { (number : ℕ) → result ≡ bulk_of (posts_by verdict number self.now message.now) }
    {
        match verdict {
            Verdict::Gone => Bulk::one(GONE_BYTES),
            Verdict::Held => Bulk::one(HELD_BYTES),
            Verdict::Yes => done_bulk(message),
            Verdict::Have => Bulk::one(HAVE_BYTES + self.value.len() as u32),
            Verdict::Silent => Bulk::none(),
        }
    }
}

fn done_bulk(message: &Message) -> Bulk
    ensures { (number : ℕ) → result ≡ bulk_of (to_proxy (tag_of message.now) (done number (tag_of message.now)) ++ pushed_on message.now) }
{
    match message {
        Message::Push { onward, value, .. } => push_bulk(*onward, value),
        _ => Bulk::one(YES_BYTES),
    }
}

/// The answer to a push that is taken, and the pushes that go on.
fn push_bulk(onward: DcSet, value: &Value) -> Bulk
    ensures { (number : ℕ) (tag : Tag) (key : KeyId) (stamp : Stamp) → result ≡ bulk_of (to_proxy tag (done number tag) ++ pushes_to tag key stamp value.now onward) }
{
    let count = onward.count();
    let bytes = PUSH_BYTES + value.len() as u32;
    Bulk {
        posts: 1 + count,
        bytes: u64::from(YES_BYTES + count * bytes),
    }
}
