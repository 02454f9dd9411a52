ghost use Rattle.std.specs.Prelude.{◌≡◌, ◌<◌, ◌≤◌, length, IfOk, OnOk, OnErr, IfSome};
ghost use Rattle.wire_msg.specs.Lawful.{IsLawful, AreLawful};
ghost use Rattle.wire_msg.specs.Outputs.{nothing_out, only_posts, IsMade};
ghost use Rattle.wire_msg.specs.Posts.{AreAnswersTo};
ghost use Rattle.wire_msg.specs.Sizes.{bulk_of};
ghost use Rattle.replica_core.specs.Rule.{opening_state, request_key, step};
ghost use Rattle.replica_core.specs.Preparing.{IsPrepared};

use crate::kept::Kept;
use crate::prepared::Prepared;
use span_base::KeyId;
use std::alloc::{AllocError, Global};
use std::marker::Model;
use wire_msg::{Bulk, Message, Outputs};

/// A replica, which keeps a version of each key in memory.
#[derive(Debug, Drop)]
pub struct Replica {
    /// The centre that it stands in, below 16.
    number: u8,
    /// What it keeps of key 0, key 1 and so on, of at most 1,000 keys.
    kept: Vec<Kept>,
}

impl Model for Replica {
    ghost use Rattle.replica_core.specs.Rule.{State, IsLawfulState};

    ghost Value = { State };

    ghost view = { λ r. record { number = r.number; kept = r.kept.items } };

    ghost invariant = { λ r. IsLawfulState (record { number = r.number; kept = r.kept.items }) };
}

impl Replica {
    /// The replica of this number, that keeps nothing yet of keys 0 to `keys - 1`.
    pub fn make(alloc: Global, number: u8, keys: u16) -> Result<Replica, AllocError>
        requires number { number < 16 }
        requires keys { keys ≤ 1000 }
        ensures { IfOk result (λ replica. replica ≡ opening_state number keys) }
    {
        let mut kept = Vec::with_capacity(alloc, usize::from(keys))?;
        for _ in 0..keys {
            kept.push(Kept::opening(alloc))?;
        }
        Ok(Replica { number, kept })
    }

    /// The centre that it stands in.
    pub fn number(&self) -> u8
        ensures number { result ≡ self.now.number }
        ensures limit { result < 16 }
    {
        self.number
    }

    /// How many keys it keeps.
    pub fn keys(&self) -> u16
        ensures keys { result ≡ length self.now.kept }
        ensures limit { result ≤ 1000 }
    {
        self.kept.len() as u16
    }

    /// Takes a message: changes what is kept, and puts out the answer.
    pub fn take(
        &mut self,
        alloc: Global,
        message: &Message,
        out: &mut Outputs,
    ) -> Result<(), AllocError>
        requires lawful { IsLawful message.now }
        requires empty { out.old ≡ nothing_out }
        requires key { IfSome (request_key message.now) (λ key. key.0 < length self.old.kept) }
        ensures ok { OnOk result (IsMade (step self.old message.now) self.new out.new) }
        ensures err { OnErr result ((self.new ≡ self.old) × (out.new ≡ out.old)) }
        ensures lawful { OnOk result (AreLawful out.new.posts) }
        ensures posts { OnOk result (AreAnswersTo message.now out.new.posts) }
        // No ticket, no view and no end.
        ensures only { OnOk result (out.new ≡ only_posts out.new.posts) }
        ensures number { self.new.number ≡ self.old.number }
        ensures keys { length self.new.kept ≡ length self.old.kept }
    {
        let prepared = self.prepare(alloc, message)?;
        self.commit(message, prepared, out);
        Ok(())
    }

    /// What a message makes of the replica, with all memory that `commit` takes.
    pub fn prepare(&self, alloc: Global, message: &Message) -> Result<Prepared, AllocError>
        requires { IfSome (request_key message.now) (λ key. key.0 < length self.now.kept) }
        ensures { IfOk result (λ prepared. IsPrepared self.now message.now prepared) }
    {
        match request_key(message) {
            Some(key) => self.kept[usize::from(key.0)].prepare(alloc, self.number, message),
            None => Ok(Prepared::nothing(alloc)),
        }
    }

    /// Takes a message that was prepared, and takes no memory: changes what is kept, and puts out
    /// the answer.
    pub fn commit(&mut self, message: &Message, prepared: Prepared, out: &mut Outputs)
        requires lawful { IsLawful message.now }
        requires empty { out.old ≡ nothing_out }
        requires key { IfSome (request_key message.now) (λ key. key.0 < length self.old.kept) }
        requires prepared { IsPrepared self.old message.now prepared }
        ensures made { IsMade (step self.old message.now) self.new out.new }
        ensures lawful { AreLawful out.new.posts }
        ensures posts { AreAnswersTo message.now out.new.posts }
        ensures only { out.new ≡ only_posts out.new.posts }
        ensures number { self.new.number ≡ self.old.number }
        ensures keys { length self.new.kept ≡ length self.old.kept }
    {
        let Prepared { change, posts } = prepared;
        if let Some(key) = request_key(message) {
            self.kept[usize::from(key.0)].apply(change);
        }
        out.posts = posts;
    }

    /// How much `take` puts out for this message. It takes no memory.
    pub fn bulk(&self, message: &Message) -> Bulk
        requires { IfSome (request_key message.now) (λ key. key.0 < length self.now.kept) }
        ensures { result ≡ bulk_of (step self.now message.now).out.posts }
    {
        match request_key(message) {
            Some(key) => self.kept[usize::from(key.0)].bulk(message),
            None => Bulk::none(),
        }
    }
}

/// The key of a request to a replica. Any other message is of no concern to replicas.
pub fn request_key(message: &Message) -> Option<KeyId>
    ensures { result ≡ request_key message.now }
{
    match message {
        Message::Read { key, .. }
        | Message::Ask { key, .. }
        | Message::Store { key, .. }
        | Message::Repair { key, .. }
        | Message::Confirm { key, .. }
        | Message::Freeze { key, .. }
        | Message::Seed { key, .. }
        | Message::Push { key, .. } => Some(*key),
        Message::Lookup { .. }
        | Message::Switch { .. }
        | Message::Have { .. }
        | Message::Yes { .. }
        | Message::Held { .. }
        | Message::Gone { .. }
        | Message::Here { .. }
        | Message::Switched { .. } => None,
    }
}
