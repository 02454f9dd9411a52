//! The first step of each kind of call.

ghost use Rattle.std.specs.Prelude.{◌≡◌, ◌<◌, ◌≤◌, true, length, IfOk, OnOk, Some};
ghost use Rattle.wire_msg.specs.Lawful.{IsLawfulTag, IsLawfulView, AreLawful};
ghost use Rattle.wire_msg.specs.Outputs.{nothing_out};
ghost use Rattle.world_core.specs.Starting.{is_member, draws_ticket, opened_call};
ghost use Rattle.world_core.specs.Step.{fits_mode};
ghost use Rattle.world_core.specs.Calls.{key_of_call};
ghost use Rattle.world_core.specs.Proxies.{AreOfKey};
ghost use Rattle.world_core.specs.Taking.{ticket_under};

use crate::live::LiveCall;
use crate::starting::ticket_under;
use migration::MoveCall;
use relay_proxy::EventualCall;
use run_marks::Work;
use span_base::DcId;
use std::alloc::{AllocError, Global};
use strong_proxy::StrongCall;
use wire_msg::{Outputs, Tag, View};

impl LiveCall {
    /// Opens a call for this work: its first requests are put out with the tag. A write or a put
    /// has a ticket above the number that was seen.
    pub(crate) fn open(
        alloc: Global,
        strong: bool,
        tag: Tag,
        at: DcId,
        view: &View,
        seen: u64,
        work: &Work,
        out: &mut Outputs,
    ) -> Result<LiveCall, AllocError>
        requires tag { IsLawfulTag tag }
        requires phase { tag.phase ≡ 1 }
        requires view { IsLawfulView view.now }
        requires member { is_member work.now view.now at ≡ true }
        requires mode { fits_mode strong work.now ≡ true }
        requires room { draws_ticket work.now ≡ true → seen < 18446744073709551615 }
        requires empty { out.old ≡ nothing_out }
        ensures ok { IfOk result (λ call. opened_call strong tag at view.now (ticket_under view.now seen tag.call) work.now ≡ Some (record { state = call; out = out.new })) }
        ensures lawful { OnOk result (AreLawful out.new.posts) }
        ensures of_key { OnOk result (AreOfKey view.now.key out.new.posts) }
        ensures key { IfOk result (λ call. key_of_call call ≡ view.now.key) }
        ensures few { OnOk result (length out.new.posts ≤ 16) }
    {
        match work {
            Work::Read => {
                let call = StrongCall::read(alloc, tag, at, view, out)?;
                Ok(LiveCall::Strong(call))
            }
            Work::Write(value) => {
                let ticket = ticket_under(view, seen, tag.call);
                let call = StrongCall::write(alloc, tag, at, view, ticket, value, out)?;
                Ok(LiveCall::Strong(call))
            }
            Work::Get => {
                let call = EventualCall::get(alloc, tag, at, view, false, out)?;
                Ok(LiveCall::Eventual(call))
            }
            Work::GetAny => {
                let call = EventualCall::get(alloc, tag, at, view, true, out)?;
                Ok(LiveCall::Eventual(call))
            }
            Work::Put(value) => {
                let ticket = ticket_under(view, seen, tag.call);
                let call = EventualCall::put(alloc, tag, at, view, ticket, value, out)?;
                Ok(LiveCall::Eventual(call))
            }
            Work::Move if strong => {
                let call = MoveCall::start(alloc, tag, view.key, out)?;
                Ok(LiveCall::StrongMove(call))
            }
            Work::Move => {
                let call = MoveCall::start(alloc, tag, view.key, out)?;
                Ok(LiveCall::EventualMove(call))
            }
        }
    }
}
