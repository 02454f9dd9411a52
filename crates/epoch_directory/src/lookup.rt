//! The answer to a Lookup: a key's current epoch and the latest one, each with its policy.

ghost use Rattle.std.specs.Prelude.{◌≡◌, ◌<◌, length, IfOk};
ghost use Rattle.wire_msg.specs.Lawful.{IsLawfulTag, IsLawfulKey, AreLawful};
ghost use Rattle.wire_msg.specs.Posts.{to_proxy, AreAnswersTo};
ghost use Rattle.wire_msg.specs.declared.message.Message.TheVariants.{Lookup};
ghost use Rattle.wire_msg.specs.Sizes.{frame_size};
ghost use Rattle.epoch_directory.specs.Step.{here_of};

use crate::directory::Directory;
use span_base::{KeyId, Listed};
use std::alloc::{AllocError, Global};
use wire_msg::sizes::HERE_BYTES;
use wire_msg::{Message, Post, Tag, answer_proxy, policy_len};

impl Directory {
    /// The answer to a Lookup.
    pub(crate) fn take_lookup(
        &self,
        alloc: Global,
        tag: Tag,
        key: KeyId,
    ) -> Result<Listed<Post>, AllocError>
        requires tag { IsLawfulTag tag }
        requires lawful_key { IsLawfulKey key }
        requires key { key.0 < length self.now.sets }
        ensures posts { IfOk result (λ posts. posts ≡ to_proxy tag (here_of self.now tag key)) }
        ensures lawful { IfOk result (λ posts. AreLawful posts) }
        ensures answers { IfOk result (λ posts. AreAnswersTo (Lookup tag key) posts) }
    {
        let set = self.set_of(key);
        let epoch = self.current_of(key);
        let latest_epoch = self.epochs();
        let here = Message::Here {
            tag,
            key,
            epoch,
            policy: self.policy_in(epoch, set).clone()?,
            latest_epoch,
            latest_policy: self.policy_in(latest_epoch, set).clone()?,
        };
        answer_proxy(alloc, &tag, here)
    }

    /// The bytes of the answer to a Lookup.
    pub(crate) fn here_bytes(&self, key: KeyId) -> u32
        requires { key.0 < length self.now.sets }
        ensures { (tag : Tag) → result ≡ frame_size (here_of self.now tag key) }
    {
        let set = self.set_of(key);
        let current = policy_len(self.policy_in(self.current_of(key), set));
        let latest = policy_len(self.policy_in(self.epochs(), set));
        HERE_BYTES + current + latest
    }
}
