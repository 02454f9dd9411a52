//! How a proxy begins a call.

ghost use Rattle.std.specs.Prelude.{◌≡◌, ◌+◌, ◌<◌, ◌≤◌, ◌∷◌, [], true, length, IfOk, OnOk, Some, None, option_map, if◌then◌else◌};
ghost use Rattle.std.specs.Option.{option_to_list};
ghost use Rattle.wire_msg.specs.Lawful.{IsLawfulTag, IsLawfulView, AreLawful};
ghost use Rattle.wire_msg.specs.Outputs.{nothing_out};
ghost use Rattle.world_core.specs.State.{view_at};
ghost use Rattle.world_core.specs.Starting.{is_member, draws_ticket, opened_call, first_tag, starts};
ghost use Rattle.world_core.specs.Step.{fits_mode, ticket_marks};
ghost use Rattle.world_core.specs.Proxies.{AreOfKey, AreOfKeysBelow, IsDone, begun_with, keys_entered};
ghost use Rattle.world_core.specs.Taking.{way_in, ticket_under, drawn_ticket, at_once, beginning_of};
ghost use Rattle.run_marks.specs.declared.mark.Mark.TheVariants.{Begin};

use crate::beginning::Beginning;
use crate::calls::enter;
use crate::effects::Effects;
use crate::lesson::seen_with;
use crate::live::LiveCall;
use crate::marks::Marks;
use crate::proxy::Proxy;
use run_marks::{Mark, Work};
use slot_pool::Handle;
use span_base::{Call, DcId, KeyId, Listed};
use std::alloc::{AllocError, Global};
use ticket_rules::Stamp;
use wire_msg::{Outputs, Reply, Tag, View};

impl Proxy {
    /// What a new call of this proxy, whose number is `number`, would do first. Keys of the
    /// call's mode, which `strong` tells, must have this work.
    pub fn begin(
        &self,
        alloc: Global,
        number: u8,
        strong: bool,
        key: KeyId,
        work: &Work,
    ) -> Result<Beginning, AllocError>
        requires number { number < 64 }
        requires few { self.now.begun < 1000000 }
        requires key { key.0 < length self.now.views }
        requires mode { fits_mode strong work.now ≡ true }
        ensures ok { IfOk result (λ beginning. begun_with self.now beginning ≡ starts strong number self.now key work.now) }
        ensures lawful { IfOk result (λ beginning. AreLawful beginning.effects.posts) }
        ensures keys { IfOk result (λ beginning. AreOfKeysBelow (length self.now.views) beginning.effects.posts) }
        ensures call { IfOk result (λ beginning. keys_entered beginning.call ≤ length self.now.views) }
        ensures few { IfOk result (λ beginning. length beginning.effects.posts ≤ 16) }
    {
        let call = Call {
            proxy: number,
            seq: self.begun + 1,
        };
        let begin = Mark::Begin {
            call,
            key,
            work: copy_of(work)?,
        };
        let view = self.view(key);
        match self.way_in(view, work) {
            Ok(handle) => {
                let tag = first_tag(call, handle);
                first_step(alloc, strong, begin, tag, self.at, view, self.seen, work)
            }
            Err(reply) => Ok(at_once(alloc, self.seen, begin, call, reply)),
        }
    }

    /// What the proxy knows of a key.
    fn view(&self, key: KeyId) -> &View
        requires { key.0 < length self.now.views }
        ensures value { result.now ≡ view_at self.now.views key }
        ensures lawful { IsLawfulView result.now }
        ensures key { result.now.key ≡ key }
    {
        &self.views[usize::from(key.0)]
    }

    /// The handle under which a call enters, or why it ends at once.
    fn way_in(&self, view: &View, work: &Work) -> Result<Handle, Reply>
        ensures way { result ≡ way_in self.now view.now work.now }
        ensures handle { IfOk result (λ handle. (handle.slot < 64) × (1 ≤ handle.generation)) }
        ensures room { OnOk result (draws_ticket work.now ≡ true → self.now.seen < 18446744073709551615) }
        ensures member { OnOk result (is_member work.now view.now self.now.at ≡ true) }
    {
        if !is_member(work, view, self.at) {
            return Err(Reply::Outside);
        }
        let Some(handle) = self.calls.next_handle() else {
            return Err(Reply::Full);
        };
        if draws_ticket(work) && self.seen == u64::MAX {
            return Err(Reply::NumbersOut);
        }
        Ok(handle)
    }

    /// Begins the call. Its proxy has begun fewer than 1,000,000.
    pub fn enter(&mut self, beginning: Beginning) -> Effects
        requires few { self.old.begun < 1000000 }
        requires call { keys_entered beginning.call ≤ length self.old.views }
        ensures { IsDone (begun_with self.old beginning) self.new result }
    {
        let Beginning {
            call,
            seen,
            effects,
        } = beginning;
        self.begun += 1;
        self.seen = seen;
        enter(&mut self.calls, call);
        effects
    }
}

/// A call that ends as it begins.
fn at_once(alloc: Global, seen: u64, begin: Mark, call: Call, reply: Reply) -> Beginning
    ensures { result ≡ at_once seen begin call reply }
{
    Beginning {
        call: None,
        seen,
        effects: Effects {
            posts: Listed::new(alloc),
            marks: Marks::of(begin, Some(Mark::End { call, reply })),
        },
    }
}

/// The tag of a call's first phase.
fn first_tag(call: Call, handle: Handle) -> Tag
    requires { handle.slot < 64 }
    ensures { result ≡ first_tag call handle }
{
    Tag {
        call,
        slot: handle.slot as u8,
        generation: handle.generation,
        phase: 1,
    }
}

/// The first step of a call with this tag, whose mark is `begin`.
fn first_step(
    alloc: Global,
    strong: bool,
    begin: Mark,
    tag: Tag,
    at: DcId,
    view: &View,
    seen: u64,
    work: &Work,
) -> Result<Beginning, AllocError>
    requires tag { IsLawfulTag tag }
    requires phase { tag.phase ≡ 1 }
    requires view { IsLawfulView view.now }
    requires member { is_member work.now view.now at ≡ true }
    requires mode { fits_mode strong work.now ≡ true }
    requires room { draws_ticket work.now ≡ true → seen < 18446744073709551615 }
    ensures ok { IfOk result (λ beginning. option_map (beginning_of seen begin tag.call (drawn_ticket view.now seen tag.call work.now)) (opened_call strong tag at view.now (ticket_under view.now seen tag.call) work.now) ≡ Some beginning) }
    ensures lawful { IfOk result (λ beginning. AreLawful beginning.effects.posts) }
    ensures of_key { IfOk result (λ beginning. AreOfKey view.now.key beginning.effects.posts) }
    ensures key { IfOk result (λ beginning. keys_entered beginning.call ≡ view.now.key.0 + 1) }
    ensures few { IfOk result (λ beginning. length beginning.effects.posts ≤ 16) }
{
    let mut out = Outputs::make(alloc);
    let live = LiveCall::open(alloc, strong, tag, at, view, seen, work, &mut out)?;
    let ticket = drawn_ticket(view, seen, tag.call, work);
    let Outputs { posts, .. } = out;
    Ok(Beginning {
        call: Some(live),
        seen: seen_with(seen, &ticket),
        effects: Effects {
            posts,
            marks: Marks::of(begin, ticket_mark(tag.call, ticket)),
        },
    })
}

fn ticket_mark(call: Call, ticket: Option<Stamp>) -> Option<Mark>
    ensures { option_to_list result ≡ ticket_marks call ticket }
{
    match ticket {
        Some(stamp) => Some(Mark::Ticket { call, stamp }),
        None => None,
    }
}

/// The ticket of a call whose work draws one.
fn drawn_ticket(view: &View, seen: u64, call: Call, work: &Work) -> Option<Stamp>
    requires { draws_ticket work.now ≡ true → seen < 18446744073709551615 }
    ensures { result ≡ drawn_ticket view.now seen call work.now }
{
    if draws_ticket(work) {
        Some(ticket_under(view, seen, call))
    } else {
        None
    }
}

/// The ticket that a call draws under a view.
pub(crate) fn ticket_under(view: &View, seen: u64, call: Call) -> Stamp
    requires { seen < 18446744073709551615 }
    ensures { result ≡ ticket_under view.now seen call }
{
    Stamp {
        epoch: view.epoch,
        number: seen + 1,
        proxy: call.proxy,
        seq: call.seq,
    }
}

/// Whether the centre may do this work under the view; a move needs no membership.
fn is_member(work: &Work, view: &View, at: DcId) -> bool
    ensures { result ≡ is_member work.now view.now at }
{
    match work {
        Work::Read => view.policy.member(at).is_some(),
        Work::Write(_) => view.policy.member(at).is_some(),
        Work::Get => view.policy.primary(at).is_some(),
        Work::GetAny => view.policy.primary(at).is_some(),
        Work::Put(_) => view.policy.primary(at).is_some(),
        Work::Move => true,
    }
}

/// Whether the work draws a ticket.
fn draws_ticket(work: &Work) -> bool
    ensures { result ≡ draws_ticket work.now }
{
    match work {
        Work::Write(_) => true,
        Work::Put(_) => true,
        _ => false,
    }
}

/// The same work, for its mark.
fn copy_of(work: &Work) -> Result<Work, AllocError>
    ensures { IfOk result (λ copy. copy ≡ work.now) }
{
    Ok(match work {
        Work::Read => Work::Read,
        Work::Write(value) => Work::Write(value.clone()?),
        Work::Get => Work::Get,
        Work::GetAny => Work::GetAny,
        Work::Put(value) => Work::Put(value.clone()?),
        Work::Move => Work::Move,
    })
}
