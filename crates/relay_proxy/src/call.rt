ghost use Rattle.std.specs.Prelude.{◌≡◌, IsSome, IfOk, OnErr, OnOk, IfSome};
ghost use Rattle.span_base.specs.PolicyParts.{replicas_of, primary_of};
ghost use Rattle.wire_msg.specs.Lawful.{IsLawfulTag, IsLawfulStamp, IsLawfulView, IsLawfulReply, IsLawful, AreLawful};
ghost use Rattle.wire_msg.specs.Outputs.{nothing_out, IsMade};
ghost use Rattle.wire_msg.specs.Posts.{ArePostsOf};
ghost use Rattle.wire_msg.specs.Sizes.{bulk_of};
ghost use Rattle.relay_proxy.specs.Rule.{opened_get, opened_put, step};

use crate::requests::{asked, push_to_each};
use crate::stage::Stage;
use call_phase::{Phase, Request, send_to_each};
use span_base::{DcId, KeyId, Listed, VALUE_LIMIT, Value};
use std::alloc::{AllocError, Global};
use std::marker::Model;
use ticket_rules::Stamp;
use wire_msg::{Bulk, Message, Outputs, Tag, View};

/// A get or a put of an eventual key, from its first requests to its end. It keeps neither the
/// policy nor the value.
#[derive(Debug, Drop)]
pub struct EventualCall {
    pub(crate) key: KeyId,
    pub(crate) stage: Stage,
    /// How many replicas may stop.
    pub(crate) f: u8,
    pub(crate) phase: Phase,
    /// The greatest epoch that the answers found to be over.
    pub(crate) gone: u32,
}

impl Model for EventualCall {
    ghost use Rattle.relay_proxy.specs.State.{State, IsReady};

    ghost Value = { State };

    ghost view = { λ c. record { key = c.key; stage = c.stage; f = c.f; phase = c.phase; gone = c.gone } };

    ghost invariant = { λ c. IsReady (record { key = c.key; stage = c.stage; f = c.f; phase = c.phase; gone = c.gone }) };
}

impl EventualCall {
    /// Begins a get at the member `at`: it asks every replica, or the member's primary alone.
    pub fn get(
        alloc: Global,
        tag: Tag,
        at: DcId,
        view: &View,
        any: bool,
        out: &mut Outputs,
    ) -> Result<EventualCall, AllocError>
        requires tag { IsLawfulTag tag }
        requires first { tag.phase ≡ 1 }
        requires view { IsLawfulView view.now }
        requires member { IsSome (primary_of view.now.policy at.0) }
        requires empty { out.old ≡ nothing_out }
        ensures ok { IfOk result (λ call. IsMade (opened_get tag at.0 view.now any) call out.new) }
        ensures err { OnErr result (out.new ≡ out.old) }
        ensures lawful { OnOk result (AreLawful out.new.posts) }
        ensures posts { OnOk result (ArePostsOf view.now.key (replicas_of view.now.policy) out.new.posts) }
    {
        let asked = asked(view, at, any);
        let request = Request::Read {
            key: view.key,
            epoch: view.epoch,
        };
        let posts = send_to_each(alloc, asked, tag, &request)?;
        out.posts = Listed::from_vec(posts);
        Ok(EventualCall {
            key: view.key,
            stage: Stage::Getting,
            f: view.policy.faults(),
            phase: Phase::open(tag, asked),
            gone: 0,
        })
    }

    /// Begins a put at the member `at`: it goes to the replicas that the member writes to itself,
    /// each of which passes it on to those that have the member's writes from it.
    pub fn put(
        alloc: Global,
        tag: Tag,
        at: DcId,
        view: &View,
        stamp: Stamp,
        value: &Value,
        out: &mut Outputs,
    ) -> Result<EventualCall, AllocError>
        requires tag { IsLawfulTag tag }
        requires first { tag.phase ≡ 1 }
        requires view { IsLawfulView view.now }
        requires member { IsSome (primary_of view.now.policy at.0) }
        requires stamp { IsLawfulStamp stamp }
        requires empty { out.old ≡ nothing_out }
        ensures ok { IfOk result (λ call. IsMade (opened_put tag at.0 view.now stamp value.now) call out.new) }
        ensures err { OnErr result (out.new ≡ out.old) }
        ensures lawful { OnOk result (AreLawful out.new.posts) }
        ensures posts { OnOk result (ArePostsOf view.now.key (replicas_of view.now.policy) out.new.posts) }
    {
        prove!(value.len() <= VALUE_LIMIT);
        let posts = push_to_each(alloc, tag, at, view, stamp, value)?;
        out.posts = Listed::from_vec(posts);
        Ok(EventualCall {
            key: view.key,
            stage: Stage::Putting { stamp },
            f: view.policy.faults(),
            phase: Phase::open(tag, view.policy.replicas()),
            gone: 0,
        })
    }

    /// The key that the call gets or puts.
    pub fn key(&self) -> KeyId
        ensures { result ≡ self.now.key }
    {
        self.key
    }

    /// The tag of the call's one phase, which tells its messages from those of other calls.
    pub fn tag(&self) -> Tag
        ensures { result ≡ self.now.phase.tag }
    {
        self.phase.tag
    }

    /// Takes a message. One that doesn't count changes nothing and puts nothing out.
    pub fn take(
        &mut self,
        alloc: Global,
        message: &Message,
        out: &mut Outputs,
    ) -> Result<(), AllocError>
        requires lawful { IsLawful message.now }
        requires empty { out.old ≡ nothing_out }
        ensures ok { OnOk result (IsMade (step self.old message.now) self.new out.new) }
        ensures err { OnErr result ((self.new ≡ self.old) × (out.new ≡ out.old)) }
        ensures lawful { OnOk result (AreLawful out.new.posts × IfSome out.new.ticket IsLawfulStamp × IfSome out.new.end IsLawfulReply) }
        ensures posts { OnOk result (ArePostsOf self.old.key self.old.phase.asked out.new.posts) }
        ensures key { self.new.key ≡ self.old.key }
    {
        match message {
            Message::Have {
                tag,
                replica,
                version,
                value,
                ..
            } => self.take_have(tag, *replica, *version, value, out),
            Message::Yes { tag, replica } => {
                self.take_yes(tag, *replica, out);
                Ok(())
            }
            Message::Gone {
                tag,
                replica,
                epoch,
            } => self.take_gone(alloc, tag, *replica, *epoch, out),
            _ => Ok(()),
        }
    }

    /// How much `take` puts out. It takes no memory.
    pub fn bulk(&self, message: &Message) -> Bulk
        ensures { result ≡ bulk_of (step self.now message.now).out.posts }
    {
        match message {
            Message::Gone { tag, replica, .. } => self.bulk_of_gone(tag, *replica),
            _ => Bulk::none(),
        }
    }
}
