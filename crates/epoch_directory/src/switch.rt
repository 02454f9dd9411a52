//! The answer to a Switch, which makes a later epoch the current one of a key.

ghost use Rattle.std.specs.Prelude.{◌≡◌, ◌<◌, length, IfOk, OnOk, OnErr};
ghost use Rattle.wire_msg.specs.Lawful.{IsLawfulTag, IsLawfulKey, AreLawful};
ghost use Rattle.wire_msg.specs.Posts.{to_proxy, AreAnswersTo};
ghost use Rattle.wire_msg.specs.declared.message.Message.TheVariants.{Switch};
ghost use Rattle.epoch_directory.specs.State.{current_of, IsPublished};
ghost use Rattle.epoch_directory.specs.Step.{can_switch, after_switch, switched_of};

use crate::directory::Directory;
use span_base::{KeyId, Listed};
use std::alloc::{AllocError, Global};
use wire_msg::{Message, Post, Tag, answer_proxy};

impl Directory {
    /// Makes `opening` current where it may be, and answers whether it did.
    pub(crate) fn take_switch(
        &mut self,
        alloc: Global,
        tag: Tag,
        key: KeyId,
        closing: u32,
        opening: u32,
    ) -> Result<Listed<Post>, AllocError>
        requires tag { IsLawfulTag tag }
        requires lawful_key { IsLawfulKey key }
        requires key { key.0 < length self.old.sets }
        ensures ok { OnOk result (self.new ≡ after_switch self.old key closing opening) }
        ensures err { OnErr result (self.new ≡ self.old) }
        ensures posts { IfOk result (λ posts. posts ≡ to_proxy tag (switched_of self.old tag key closing opening)) }
        ensures lawful { IfOk result (λ posts. AreLawful posts) }
        ensures answers { IfOk result (λ posts. AreAnswersTo (Switch tag key closing opening) posts) }
    {
        let done = self.can_switch(key, closing, opening);
        let epoch = self.epoch_after(key, closing, opening);
        let switched = Message::Switched {
            tag,
            key,
            done,
            epoch,
        };
        let posts = answer_proxy(alloc, &tag, switched)?;
        self.current[key.0 as usize] = epoch;
        Ok(posts)
    }

    /// Whether a Switch makes `opening` current.
    fn can_switch(&self, key: KeyId, closing: u32, opening: u32) -> bool
        requires { key.0 < length self.now.sets }
        ensures { result ≡ can_switch self.now key closing opening }
    {
        self.current_of(key) == closing && closing < opening && opening <= self.epochs()
    }

    /// The current epoch of a key after a Switch.
    fn epoch_after(&self, key: KeyId, closing: u32, opening: u32) -> u32
        requires { key.0 < length self.now.sets }
        ensures value { result ≡ current_of (after_switch self.now key closing opening) key }
        ensures published { IsPublished self.now result }
    {
        let current = self.current[key.0 as usize];
        if self.can_switch(key, closing, opening) {
            opening
        } else {
            current
        }
    }
}
