//! How a proxy takes a message: it learns what the message shows, and then the message's call
//! takes it, if it is live.

ghost use Rattle.std.specs.Prelude.{◌≡◌, ◌≤◌, length, OnOk, OnErr, IfOk, IfSome};
ghost use Rattle.std.specs.List.{All};
ghost use Rattle.wire_msg.specs.Lawful.{IsLawful, IsLawfulView, AreLawful};
ghost use Rattle.wire_msg.specs.Outputs.{nothing_out, IsMade};
ghost use Rattle.wire_msg.specs.Posts.{tag_of};
ghost use Rattle.wire_msg.specs.Sizes.{bulk_of};
ghost use Rattle.slot_pool.specs.Slots.{item_at};
ghost use Rattle.world_core.specs.Knowing.{raised};
ghost use Rattle.world_core.specs.Step.{handle_in, views_with, proxy_takes};
ghost use Rattle.world_core.specs.Proxies.{AreViews, IsProxySlot, AreOfKeysBelow, IsLesson, IsDone};
ghost use Rattle.world_core.specs.Taking.{taken_under};

use crate::calls::leave;
use crate::effects::Effects;
use crate::lesson::{Lesson, seen_after, seen_with, set_view};
use crate::live::LiveCall;
use crate::marks::Marks;
use crate::proxy::Proxy;
use slot_pool::{Handle, Pool};
use span_base::{KeyId, Policy};
use std::alloc::{AllocError, Global};
use wire_msg::{Bulk, Message, Outputs, Tag, View};

impl Proxy {
    /// What the message shows: the proxy learns it by `take`.
    pub fn lesson(&self, alloc: Global, message: &Message) -> Result<Lesson, AllocError>
        requires { IsLawful message.now }
        ensures { IfOk result (λ lesson. IsLesson self.now message.now lesson) }
    {
        let shown = match message {
            Message::Here {
                key,
                epoch,
                policy,
                ..
            } => later(self.views.as_slice(), *key, *epoch, policy)?,
            _ => None,
        };
        Ok(Lesson {
            seen: seen_after(self.seen, message),
            shown,
        })
    }

    /// How much `take` of this message sends. It takes no memory.
    pub fn bulk(&self, message: &Message, lesson: &Lesson) -> Bulk
        requires lawful { IsLawful message.now }
        requires lesson { IsLesson self.now message.now lesson.now }
        ensures { result ≡ bulk_of (proxy_takes self.now message.now).posts }
    {
        match self.calls.get(handle_in(message)) {
            Some(call) => call.bulk(message, self.views.as_slice(), lesson),
            None => Bulk::none(),
        }
    }

    /// Takes a message, with what it shows.
    pub fn take(
        &mut self,
        alloc: Global,
        message: &Message,
        lesson: Lesson,
    ) -> Result<Effects, AllocError>
        requires lawful { IsLawful message.now }
        requires lesson { IsLesson self.old message.now lesson }
        ensures ok { IfOk result (λ effects. IsDone (proxy_takes self.old message.now) self.new effects) }
        ensures err { OnErr result (self.new ≡ self.old) }
        ensures lawful { IfOk result (λ effects. AreLawful effects.posts) }
        ensures keys { IfOk result (λ effects. AreOfKeysBelow (length self.old.views) effects.posts) }
        ensures views { length self.new.views ≡ length self.old.views }
        ensures begun { self.new.begun ≡ self.old.begun }
    {
        let mut out = Outputs::make(alloc);
        let handle = handle_in(message);
        take_under(
            &mut self.calls,
            handle,
            alloc,
            message,
            self.views.as_slice(),
            &lesson,
            &mut out,
        )?;
        let Lesson { seen, shown } = lesson;
        let Outputs {
            posts,
            ticket,
            view,
            end,
        } = out;
        set_view(&mut self.views, shown);
        set_view(&mut self.views, view);
        self.seen = seen_with(seen, &ticket);
        leave(&mut self.calls, handle, &end);
        Ok(Effects {
            posts,
            marks: Marks::of_call(tag_of(message).call, ticket, end),
        })
    }
}

/// The view of a key in this epoch, where the epoch is later than the one that is known.
fn later(
    views: &[View],
    key: KeyId,
    epoch: u32,
    policy: &Policy,
) -> Result<Option<View>, AllocError>
    requires { IsLawfulView (record { key = key; epoch = epoch; policy = policy.now }) }
    ensures views { IfOk result (λ shown. views_with views.now shown ≡ raised views.now key epoch policy.now) }
    ensures lawful { IfOk result (λ shown. IfSome shown IsLawfulView) }
{
    match views.get(usize::from(key.0)) {
        Some(view) if epoch <= view.epoch => Ok(None),
        _ => Ok(Some(View {
            key,
            epoch,
            policy: policy.clone()?,
        })),
    }
}

/// The call under the handle takes the message, if it is live.
fn take_under(
    calls: &mut Pool<LiveCall>,
    handle: Handle,
    alloc: Global,
    message: &Message,
    views: &[View],
    lesson: &Lesson,
    out: &mut Outputs,
) -> Result<(), AllocError>
    requires lawful { IsLawful message.now }
    requires views { AreViews (views_with views.now lesson.now.shown) }
    requires calls { All (IsProxySlot (length views.now)) calls.old }
    requires generation { 1 ≤ handle.generation }
    requires empty { out.old ≡ nothing_out }
    ensures ok { OnOk result (IsMade (taken_under calls.old handle message.now (views_with views.now lesson.now.shown) lesson.now.seen (item_at calls.old handle)) calls.new out.new) }
    ensures err { OnErr result ((calls.new ≡ calls.old) × (out.new ≡ out.old)) }
    ensures lawful { OnOk result (AreLawful out.new.posts) }
    ensures keys { OnOk result (AreOfKeysBelow (length views.now) out.new.posts) }
    ensures view { OnOk result (IfSome out.new.view IsLawfulView) }
    ensures slots { OnOk result (All (IsProxySlot (length views.now)) calls.new) }
    ensures count { OnOk result (length calls.new ≡ length calls.old) }
{
    match calls.get_mut(handle) {
        Some(call) => call.take(alloc, message, views, lesson, out),
        None => Ok(()),
    }
}

/// The handle under which the message's call would be live.
fn handle_in(message: &Message) -> Handle
    ensures { result ≡ handle_in message.now }
{
    let tag = tag_of(message);
    Handle {
        slot: u32::from(tag.slot),
        generation: tag.generation,
    }
}

fn tag_of(message: &Message) -> Tag
    ensures { result ≡ tag_of message.now }
{
    match message {
        Message::Read { tag, .. }
        | Message::Ask { tag, .. }
        | Message::Store { tag, .. }
        | Message::Repair { tag, .. }
        | Message::Confirm { tag, .. }
        | Message::Freeze { tag, .. }
        | Message::Seed { tag, .. }
        | Message::Push { tag, .. }
        | Message::Lookup { tag, .. }
        | Message::Switch { tag, .. }
        | Message::Have { tag, .. }
        | Message::Yes { tag, .. }
        | Message::Held { tag, .. }
        | Message::Gone { tag, .. }
        | Message::Here { tag, .. }
        | Message::Switched { tag, .. } => *tag,
    }
}
