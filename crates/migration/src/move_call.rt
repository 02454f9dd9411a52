ghost use Rattle.std.specs.Prelude.{◌≡◌, OnOk, OnErr, IfOk, IfSome, None};
ghost use Rattle.wire_msg.specs.Lawful.{IsLawful, AreLawful, IsLawfulTag, IsLawfulKey, IsLawfulView, IsLawfulReply};
ghost use Rattle.wire_msg.specs.Outputs.{nothing_out, IsMade};
ghost use Rattle.wire_msg.specs.Posts.{ArePostsOf};
ghost use Rattle.wire_msg.specs.Sizes.{bulk_of};
ghost use Rattle.migration.specs.Move.{step, started, ends_stale};
ghost use Rattle.migration.specs.Sound.{PutsOut};

use crate::looking::Told;
use crate::rule::MoveRule;
use crate::stage::Stage;
use call_phase::Phase;
use span_base::{DcSet, KeyId};
use std::alloc::{AllocError, Global};
use std::marker::{Model, PhantomData};
use wire_msg::{Bulk, Message, Outputs, Reply, Tag, ask_directory};

/// A move of a key from its current epoch to the latest one, by a proxy. It takes the answers to
/// its requests one by one, and puts out what is to be sent.
#[derive(Debug, Drop)]
pub struct MoveCall<R> {
    pub(crate) key: KeyId,
    pub(crate) phase: Phase,
    pub(crate) stage: Stage,
    rule: PhantomData<R>,
}

impl<R> Model for MoveCall<R> {
    ghost use Rattle.migration.specs.Move.{Moving};
    ghost use Rattle.migration.specs.Sound.{IsSoundMove};

    ghost Value = { Moving };

    ghost view = { λ call. record { key = call.key; phase = call.phase; stage = call.stage } };

    ghost invariant = { λ call. IsSoundMove (record { key = call.key; phase = call.phase; stage = call.stage }) };
}

impl<R: MoveRule> MoveCall<R> {
    /// Starts a move with the tag of its first phase, which asks the directory for the key's
    /// epochs.
    pub fn start(
        alloc: Global,
        tag: Tag,
        key: KeyId,
        out: &mut Outputs,
    ) -> Result<MoveCall<R>, AllocError>
        requires tag { IsLawfulTag tag }
        requires first { tag.phase ≡ 1 }
        requires key { IsLawfulKey key }
        requires empty { out.old ≡ nothing_out }
        ensures ok { IfOk result (λ call. IsMade (started tag key) call out.new) }
        ensures err { OnErr result (out.new ≡ out.old) }
        ensures lawful { OnOk result (AreLawful out.new.posts) }
        ensures posts { IfOk result (λ call. ArePostsOf key call.phase.asked out.new.posts) }
    {
        out.posts = ask_directory(alloc, Message::Lookup { tag, key })?;
        Ok(MoveCall {
            key,
            phase: Phase::open(tag, DcSet::empty()),
            stage: Stage::Looking,
            rule: PhantomData,
        })
    }

    /// The tag of the present phase, or of the one in which the move ended.
    pub fn tag(&self) -> Tag
        ensures { result ≡ self.now.phase.tag }
    {
        self.phase.tag
    }

    /// Takes a message. One that doesn't count changes nothing and puts nothing out.
    #[tactic(auto, unfolding(crate::specs::Move::step))]
    pub fn take(
        &mut self,
        alloc: Global,
        message: &Message,
        out: &mut Outputs,
    ) -> Result<(), AllocError>
        requires lawful { IsLawful message.now }
        requires empty { out.old ≡ nothing_out }
        ensures ok { OnOk result (IsMade (step R.rule self.old message.now) self.new out.new) }
        ensures err { OnErr result ((self.new ≡ self.old) × (out.new ≡ out.old)) }
        ensures lawful { OnOk result (AreLawful out.new.posts) }
        ensures posts { OnOk result (ArePostsOf self.new.key self.new.phase.asked out.new.posts) }
        ensures ticket { OnOk result (out.new.ticket ≡ None) }
        ensures view { OnOk result (IfSome out.new.view IsLawfulView) }
        ensures end { OnOk result (IfSome out.new.end IsLawfulReply) }
    {
        match message {
            Message::Here {
                tag,
                epoch,
                policy,
                latest_epoch,
                latest_policy,
                ..
            } => {
                let current = Told {
                    number: *epoch,
                    policy,
                };
                let latest = Told {
                    number: *latest_epoch,
                    policy: latest_policy,
                };
                self.take_here(alloc, tag, current, latest, out)
            }
            Message::Have {
                tag,
                replica,
                version,
                value,
                ..
            } => self.take_have(alloc, tag, *replica, version, value, out),
            Message::Yes { tag, replica } => self.take_yes(alloc, tag, *replica, out),
            Message::Gone {
                tag,
                replica,
                epoch,
            } => self.take_gone(alloc, tag, *replica, *epoch, out),
            Message::Switched {
                tag,
                done,
                epoch,
                ..
            } => self.take_switched(alloc, tag, *done, *epoch, out),
            _ => Ok(()),
        }
    }

    /// How much `take` of this message sends. It takes no memory.
    #[tactic(auto, unfolding(crate::specs::Move::step))]
    pub fn bulk(&self, message: &Message) -> Bulk
        ensures { result ≡ bulk_of (step R.rule self.now message.now).out.posts }
    {
        match message {
            Message::Here {
                tag,
                epoch,
                policy,
                latest_epoch,
                ..
            } => self.bulk_of_here(tag, *epoch, policy, *latest_epoch),
            Message::Have {
                tag,
                replica,
                version,
                value,
                ..
            } => self.bulk_of_have(tag, *replica, version, value),
            Message::Yes { tag, replica } => self.bulk_of_yes(tag, *replica),
            Message::Gone { tag, replica, .. } => self.bulk_of_gone(tag, *replica),
            Message::Switched { tag, done, .. } => self.bulk_of_switched(tag, *done),
            _ => Bulk::none(),
        }
    }

    /// The move comes too late: it is over, and the directory is asked what is current.
    pub(crate) fn fall_behind(
        &mut self,
        alloc: Global,
        epoch: u32,
        out: &mut Outputs,
    ) -> Result<(), AllocError>
        requires empty { out.old ≡ nothing_out }
        ensures ok { OnOk result (IsMade (ends_stale self.old epoch) self.new out.new) }
        ensures err { OnErr result ((self.new ≡ self.old) × (out.new ≡ out.old)) }
        ensures out { OnOk result (PutsOut self.new out.new) }
    {
        let lookup = Message::Lookup {
            tag: self.phase.next_tag(),
            key: self.key,
        };
        out.posts = ask_directory(alloc, lookup)?;
        out.end = Some(Reply::Stale { epoch });
        self.stage = Stage::Ended;
        Ok(())
    }
}
