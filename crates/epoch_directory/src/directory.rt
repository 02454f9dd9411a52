ghost use Rattle.std.specs.Prelude.{◌≡◌, ◌+◌, ◌<◌, ◌≤◌, length, IfOk, OnOk, OnErr};
ghost use Rattle.std.specs.List.{All};
ghost use Rattle.span_base.specs.Policy.{IsSoundPolicy};
ghost use Rattle.wire_msg.specs.Lawful.{IsLawful, AreLawful};
ghost use Rattle.wire_msg.specs.Outputs.{nothing_out, only_posts, IsMade};
ghost use Rattle.wire_msg.specs.Posts.{AreAnswersTo};
ghost use Rattle.wire_msg.specs.Sizes.{bulk_of};
ghost use Rattle.epoch_directory.specs.State.{opening, latest, set_count, policy_in, current_of, set_of, is_strong_key, IsPublished, IsDirectory};
ghost use Rattle.epoch_directory.specs.Step.{step, HasItsKey};

use crate::publish::EPOCHS;
use crate::table::KeySet;
use span_base::{KeyId, Listed, Policy, SetId};
use std::alloc::{AllocError, Global};
use std::marker::Model;
use wire_msg::sizes::SWITCHED_BYTES;
use wire_msg::{Bulk, Message, Outputs};

/// The published tables, whose epochs are 1, 2, 3 and so on, and the epoch that each key is in.
#[derive(Debug, Drop)]
pub struct Directory {
    pub(crate) keys: Vec<KeySet>,
    // The policies of the sets, epoch by epoch. A later epoch has as many as the first.
    pub(crate) tables: Vec<Listed<Policy>>,
    // The epoch of each key.
    pub(crate) current: Vec<u32>,
}

impl Model for Directory {
    ghost use Rattle.epoch_directory.specs.State.{State, state_of, IsDirectory};

    ghost Value = { State };

    ghost view = { λ d. state_of d.keys.items d.tables.items d.current.items };

    ghost invariant = { λ d. IsDirectory (state_of d.keys.items d.tables.items d.current.items) };
}

impl Directory {
    /// A directory of these keys, at most 1,000, in whose one epoch these are the policies of the
    /// sets, at most 64.
    pub fn make(
        alloc: Global,
        keys: Vec<KeySet>,
        first: Vec<Policy>,
    ) -> Result<Directory, AllocError>
        requires sets { All (λ key. key.set.0 < length first.items) keys.items }
        requires policies { All IsSoundPolicy first.items }
        requires few_sets { length first.items ≤ 64 }
        requires few_keys { length keys.items ≤ 1000 }
        ensures { IfOk result (λ directory. directory ≡ opening keys.items first.items) }
    {
        let current = vec![in alloc; 1; keys.len()]?;
        // Room for every table, so that publishing takes memory for the new policies alone.
        let mut tables = Vec::with_capacity(alloc, EPOCHS as usize)?;
        tables.push(Listed::from_vec(first))?;
        Ok(Directory {
            keys,
            tables,
            current,
        })
    }

    /// How many epochs are published, which is the number of the latest one: 1 to 1,000.
    pub fn epochs(&self) -> u32
        ensures value { result ≡ latest self.now }
        ensures some { 1 ≤ result }
        ensures few { result ≤ EPOCHS }
        ensures kept { IsDirectory self.now }
    {
        self.tables.len() as u32
    }

    /// How many keys there are: key 0, key 1 and so on.
    pub fn keys(&self) -> u16
        ensures value { result ≡ length self.now.sets }
        ensures few { result ≤ 1000 }
    {
        self.keys.len() as u16
    }

    /// Whether the key is one of the directory's, and its set is strong in every epoch.
    pub fn is_strong_key(&self, key: KeyId) -> bool
        ensures { result ≡ is_strong_key self.now key }
    {
        key.0 < self.keys() && self.is_strong_set(self.set_of(key))
    }

    /// Takes a message, and puts out the answer to a Lookup and to a Switch. Any other message
    /// changes nothing and has no answer.
    #[tactic(auto, using(wire_msg::proofs::Sent::no_answers))]
    pub fn take(
        &mut self,
        alloc: Global,
        message: &Message,
        out: &mut Outputs,
    ) -> Result<(), AllocError>
        requires lawful { IsLawful message.now }
        requires key { HasItsKey self.old message.now }
        requires empty { out.old ≡ nothing_out }
        ensures ok { OnOk result (IsMade (step self.old message.now) self.new out.new) }
        ensures err { OnErr result ((self.new ≡ self.old) × (out.new ≡ out.old)) }
        ensures lawful { OnOk result (AreLawful out.new.posts) }
        ensures posts { OnOk result (AreAnswersTo message.now out.new.posts) }
        // No ticket, no view and no end.
        ensures only { OnOk result (out.new ≡ only_posts out.new.posts) }
        ensures keys { length self.new.sets ≡ length self.old.sets }
    {
        match message {
            Message::Lookup { tag, key } => out.posts = self.take_lookup(alloc, *tag, *key)?,
            Message::Switch {
                tag,
                key,
                closing,
                opening,
            } => out.posts = self.take_switch(alloc, *tag, *key, *closing, *opening)?,
            _ => {}
        }
        Ok(())
    }

    /// How much `take` puts out for the message. It takes no memory.
    pub fn bulk(&self, message: &Message) -> Bulk
        requires lawful { IsLawful message.now }
        requires key { HasItsKey self.now message.now }
        ensures { result ≡ bulk_of (step self.now message.now).out.posts }
    {
        match message {
            Message::Lookup { key, .. } => Bulk::one(self.here_bytes(*key)),
            Message::Switch { .. } => Bulk::one(SWITCHED_BYTES),
            _ => Bulk::none(),
        }
    }

    /// How many sets there are.
    pub(crate) fn set_count(&self) -> u16
        ensures value { result ≡ set_count self.now }
        ensures few { result ≤ 64 }
    {
        self.tables[0].len() as u16
    }

    /// The policy of a set in a published epoch.
    pub(crate) fn policy_in(&self, epoch: u32, set: SetId) -> &Policy
        requires epoch { IsPublished self.now epoch }
        requires set { set.0 < set_count self.now }
        ensures value { result.now ≡ policy_in self.now epoch set.0 }
        ensures sound { IsSoundPolicy result.now }
    {
        let table = &self.tables[epoch as usize - 1];
        &table.as_slice()[set.0 as usize]
    }

    /// The set of a key.
    pub(crate) fn set_of(&self, key: KeyId) -> SetId
        requires { key.0 < length self.now.sets }
        ensures value { result.0 ≡ set_of self.now key }
        ensures exists { result.0 < set_count self.now }
    {
        self.keys[key.0 as usize].set
    }

    /// The current epoch of a key.
    pub(crate) fn current_of(&self, key: KeyId) -> u32
        requires { key.0 < length self.now.sets }
        ensures value { result ≡ current_of self.now key }
        ensures published { IsPublished self.now result }
    {
        self.current[key.0 as usize]
    }
}
