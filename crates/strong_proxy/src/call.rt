ghost use Rattle.std.specs.Prelude.{◌≡◌, IfOk, OnOk, OnErr, Some, IsSome, IfSome, is_some, not, ◌&&◌};
ghost use Rattle.strong_proxy.specs.Lawful.{has_ended};
ghost use Rattle.wire_msg.specs.Outputs.{nothing_out, IsMade};
ghost use Rattle.wire_msg.specs.Lawful.{IsLawful, IsLawfulTag, IsLawfulStamp, IsLawfulView, IsLawfulReply, AreLawful};
ghost use Rattle.wire_msg.specs.Sizes.{bulk_of};
ghost use Rattle.span_base.specs.PolicyParts.{member_of};
ghost use Rattle.wire_msg.specs.Posts.{ArePostsOf};
ghost use Rattle.strong_proxy.specs.Rule.{leg_replicas, step, opened_read, opened_write};

use crate::state::{CallState, Work};
use span_base::{DcId, KeyId, VALUE_LIMIT, Value};
use std::alloc::{AllocError, Global};
use std::marker::Model;
use ticket_rules::Stamp;
use wire_msg::{Bulk, Message, Outputs, Tag, View};

/// A read or a write of one key at quorums, from its opening to its end.
#[derive(Debug, Drop)]
pub struct StrongCall {
    state: CallState,
}

impl Model for StrongCall {
    ghost use Rattle.strong_proxy.specs.declared.state.CallState.{CallState};
    ghost use Rattle.strong_proxy.specs.Lawful.{IsLawfulCall};

    ghost Value = { CallState };

    ghost view = { λ call. call.state };

    ghost invariant = { λ call. IsLawfulCall call.state };
}

impl StrongCall {
    /// Begins a read in the centre `at`, a member of the view's policy: the first requests are
    /// put out with this tag.
    pub fn read(
        alloc: Global,
        tag: Tag,
        at: DcId,
        view: &View,
        out: &mut Outputs,
    ) -> Result<StrongCall, AllocError>
        requires tag { IsLawfulTag tag }
        requires phase { tag.phase ≡ 1 }
        requires view { IsLawfulView view.now }
        requires member { IsSome (member_of view.now.policy at.0) }
        requires empty { out.old ≡ nothing_out }
        ensures ok { IfOk result (λ call. opened_read tag at view.now ≡ Some (record { state = call; out = out.new })) }
        ensures err { OnErr result (out.new ≡ out.old) }
        ensures lawful { OnOk result (AreLawful out.new.posts) }
        ensures posts { IfOk result (λ call. ArePostsOf view.now.key (leg_replicas call.progress.leg) out.new.posts) }
        ensures key { IfOk result (λ call. call.progress.key ≡ view.now.key) }
    {
        Ok(StrongCall {
            state: CallState::open(alloc, Work::ToRead, Stamp::zero(), tag, at, view, out)?,
        })
    }

    /// Begins a write of the value under the ticket `stamp`, as `read` begins a read.
    pub fn write(
        alloc: Global,
        tag: Tag,
        at: DcId,
        view: &View,
        stamp: Stamp,
        value: &Value,
        out: &mut Outputs,
    ) -> Result<StrongCall, AllocError>
        requires tag { IsLawfulTag tag }
        requires phase { tag.phase ≡ 1 }
        requires view { IsLawfulView view.now }
        requires member { IsSome (member_of view.now.policy at.0) }
        requires stamp { IsLawfulStamp stamp }
        requires empty { out.old ≡ nothing_out }
        ensures ok { IfOk result (λ call. opened_write tag at view.now stamp value.now ≡ Some (record { state = call; out = out.new })) }
        ensures err { OnErr result (out.new ≡ out.old) }
        ensures lawful { OnOk result (AreLawful out.new.posts) }
        ensures posts { IfOk result (λ call. ArePostsOf view.now.key (leg_replicas call.progress.leg) out.new.posts) }
        ensures key { IfOk result (λ call. call.progress.key ≡ view.now.key) }
    {
        prove!(value.len() <= VALUE_LIMIT);
        let work = Work::ToWrite(value.clone()?);
        Ok(StrongCall {
            state: CallState::open(alloc, work, stamp, tag, at, view, out)?,
        })
    }

    /// The key that the call reads or writes.
    pub fn key(&self) -> KeyId
        ensures { result ≡ self.now.progress.key }
    {
        self.state.progress.key
    }

    /// The tag of the call's present phase, which tells its messages from those of other calls
    /// and phases.
    pub fn tag(&self) -> Tag
        ensures { result ≡ self.now.progress.phase.tag }
    {
        self.state.progress.phase.tag
    }

    /// Takes a message. `view` is what the proxy knows of the call's key once it took notice of
    /// the message, `seen` the greatest number that the proxy saw.
    #[tactic(auto, unfolding(crate::specs::Rule::step))]
    pub fn take(
        &mut self,
        alloc: Global,
        message: &Message,
        view: &View,
        seen: u64,
        out: &mut Outputs,
    ) -> Result<(), AllocError>
        requires lawful { IsLawful message.now }
        requires view { IsLawfulView view.now }
        requires key { view.now.key ≡ self.old.progress.key }
        requires empty { out.old ≡ nothing_out }
        ensures ok { OnOk result (IsMade (step self.old message.now view.now seen) self.new out.new) }
        ensures err { OnErr result ((self.new ≡ self.old) × (out.new ≡ out.old)) }
        ensures lawful { OnOk result (AreLawful out.new.posts × IfSome out.new.ticket IsLawfulStamp × IfSome out.new.end IsLawfulReply) }
        ensures posts { OnOk result (ArePostsOf self.old.progress.key (leg_replicas self.new.progress.leg) out.new.posts) }
        ensures key { self.new.progress.key ≡ self.old.progress.key }
        // A call ends once, and tells it.
        ensures ends { OnOk result (is_some out.new.end ≡ (has_ended self.new.progress.stage && not (has_ended self.old.progress.stage))) }
    {
        if self.state.counts(message) {
            self.state.take_answer(alloc, message, view, seen, out)
        } else {
            Ok(())
        }
    }

    /// How much `take` puts out. It takes no memory.
    #[tactic(auto, unfolding(crate::specs::Rule::step))]
    pub fn bulk(&self, message: &Message, view: &View, seen: u64) -> Bulk
        requires lawful { IsLawful message.now }
        requires view { IsLawfulView view.now }
        requires key { view.now.key ≡ self.now.progress.key }
        ensures { result ≡ bulk_of (step self.now message.now view.now seen).out.posts }
    {
        if self.state.counts(message) {
            self.state.answer_bulk(message, view, seen)
        } else {
            Bulk::none()
        }
    }
}
