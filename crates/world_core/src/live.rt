ghost use Rattle.std.specs.Prelude.{◌≡◌, ◌<◌, length, OnOk, OnErr, IfSome};
ghost use Rattle.wire_msg.specs.Lawful.{IsLawful, IsLawfulView, AreLawful};
ghost use Rattle.wire_msg.specs.Outputs.{nothing_out, IsMade};
ghost use Rattle.wire_msg.specs.Sizes.{bulk_of};
ghost use Rattle.world_core.specs.Step.{views_with, may_give_up};

use crate::lesson::Lesson;
use migration::{EventualMove, StrongMove};
use relay_proxy::EventualCall;
use std::alloc::{AllocError, Global};
use strong_proxy::StrongCall;
use wire_msg::{Bulk, Message, Outputs, Tag, View};

/// A call that a proxy has begun and that hasn't ended.
#[derive(Debug, Drop)]
pub enum LiveCall {
    /// A read or a write of a strong key.
    Strong(StrongCall),
    /// A get or a put of an eventual key.
    Eventual(EventualCall),
    /// The move of a strong key.
    StrongMove(StrongMove),
    /// The move of an eventual key.
    EventualMove(EventualMove),
}

impl LiveCall {
    ghost use Rattle.world_core.specs.Calls.{tag_of_call, key_of_call};
    ghost use Rattle.world_core.specs.Proxies.{AreViews, AreOfKey};
    ghost use Rattle.world_core.specs.Taking.{taken_by};

    /// The tag of the call's present phase.
    pub fn tag(&self) -> Tag
        ensures { result ≡ tag_of_call self.now }
    {
        match self {
            LiveCall::Strong(call) => call.tag(),
            LiveCall::Eventual(call) => call.tag(),
            LiveCall::StrongMove(call) => call.tag(),
            LiveCall::EventualMove(call) => call.tag(),
        }
    }

    /// Whether the call may be given up: a freeze that a move of an eventual key has begun isn't
    /// left half done.
    pub fn may_give_up(&self) -> bool
        ensures { result ≡ may_give_up self.now }
    {
        match self {
            LiveCall::EventualMove(call) => call.tag().phase == 1,
            _ => true,
        }
    }

    /// Takes a message. `views` is what the proxy knew of its keys, `lesson` what it learns from
    /// the message.
    pub(crate) fn take(
        &mut self,
        alloc: Global,
        message: &Message,
        views: &[View],
        lesson: &Lesson,
        out: &mut Outputs,
    ) -> Result<(), AllocError>
        requires lawful { IsLawful message.now }
        requires views { AreViews (views_with views.now lesson.now.shown) }
        requires key { (key_of_call self.old).0 < length views.now }
        requires empty { out.old ≡ nothing_out }
        ensures ok { OnOk result (IsMade (taken_by self.old message.now (views_with views.now lesson.now.shown) lesson.now.seen) self.new out.new) }
        ensures err { OnErr result ((self.new ≡ self.old) × (out.new ≡ out.old)) }
        ensures lawful { OnOk result (AreLawful out.new.posts) }
        ensures of_key { OnOk result (AreOfKey (key_of_call self.old) out.new.posts) }
        ensures key { OnOk result (key_of_call self.new ≡ key_of_call self.old) }
        ensures view { OnOk result (IfSome out.new.view IsLawfulView) }
    {
        match self {
            LiveCall::Strong(call) => {
                let view = lesson.view(views, call.key());
                call.take(alloc, message, view, lesson.seen, out)
            }
            LiveCall::Eventual(call) => call.take(alloc, message, out),
            LiveCall::StrongMove(call) => call.take(alloc, message, out),
            LiveCall::EventualMove(call) => call.take(alloc, message, out),
        }
    }

    /// How much `take` of this message sends. It takes no memory.
    pub(crate) fn bulk(&self, message: &Message, views: &[View], lesson: &Lesson) -> Bulk
        requires lawful { IsLawful message.now }
        requires views { AreViews (views_with views.now lesson.now.shown) }
        requires key { (key_of_call self.now).0 < length views.now }
        ensures { result ≡ bulk_of (taken_by self.now message.now (views_with views.now lesson.now.shown) lesson.now.seen).out.posts }
    {
        match self {
            LiveCall::Strong(call) => {
                let view = lesson.view(views, call.key());
                call.bulk(message, view, lesson.seen)
            }
            LiveCall::Eventual(call) => call.bulk(message),
            LiveCall::StrongMove(call) => call.bulk(message),
            LiveCall::EventualMove(call) => call.bulk(message),
        }
    }
}
