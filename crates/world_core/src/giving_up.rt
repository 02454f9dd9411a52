//! How a client gives a call up.

ghost use Rattle.std.specs.Prelude.{◌≡◌, ◌<◌, length, slice_index_or, is_some};
ghost use Rattle.slot_pool.specs.Slots.{new_slot};
ghost use Rattle.world_core.specs.Step.{holds_call, handle_of_call};
ghost use Rattle.world_core.specs.Proxies.{gave_up, GivesUp};

use crate::calls::remove;
use crate::live::LiveCall;
use crate::marks::Marks;
use crate::proxy::Proxy;
use run_marks::Mark;
use slot_pool::{Handle, Pool};
use wire_msg::Reply;

impl Proxy {
    /// Ends the live call of this number: its mark, or `None` where there is no such call, or one
    /// that may not be given up.
    pub fn give_up(&mut self, seq: u32) -> Option<Marks>
        ensures ends { GivesUp (gave_up self.old seq) self.old self.new result }
        ensures views { self.new.views ≡ self.old.views }
        ensures begun { self.new.begun ≡ self.old.begun }
    {
        let handle = handle_of_call(&self.calls, seq)?;
        let call = self.calls.get(handle)?;
        if !call.may_give_up() {
            return None;
        }
        let call = call.tag().call;
        remove(&mut self.calls, handle);
        let end = Mark::End {
            call,
            reply: Reply::GivenUp,
        };
        Some(Marks::of(end, None))
    }

    /// Whether the call of this number is live.
    pub fn is_live(&self, seq: u32) -> bool
        ensures { result ≡ is_some (handle_of_call self.now.calls seq) }
    {
        handle_of_call(&self.calls, seq).is_some()
    }
}

/// The handle of the live call of this number.
fn handle_of_call(calls: &Pool<LiveCall>, seq: u32) -> Option<Handle>
    ensures { result ≡ handle_of_call calls.now seq }
{
    for slot in 0..calls.capacity() {
        if holds_call(calls, slot, seq) {
            return calls.handle_at(slot);
        }
    }
    None
}

/// Whether the slot holds the live call of this number.
fn holds_call(calls: &Pool<LiveCall>, slot: u32, seq: u32) -> bool
    requires { slot < length calls.now }
    ensures { result ≡ holds_call seq (slice_index_or calls.now slot (new_slot 1)).content }
{
    let Some(handle) = calls.handle_at(slot) else {
        return false;
    };
    match calls.get(handle) {
        Some(call) => call.tag().call.seq == seq,
        None => false,
    }
}
