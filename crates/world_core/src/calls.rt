//! How a proxy's calls enter and leave their pool.

ghost use Rattle.std.specs.Prelude.{◌≡◌};
ghost use Rattle.slot_pool.specs.Slots.{after_take};
ghost use Rattle.world_core.specs.Proxies.{calls_entered};
ghost use Rattle.world_core.specs.Taking.{calls_left};

use crate::live::LiveCall;
use slot_pool::{Handle, Pool};
use wire_msg::Reply;

/// A call that has begun enters the pool.
pub(crate) fn enter(calls: &mut Pool<LiveCall>, call: Option<LiveCall>)
    ensures { calls.new ≡ calls_entered calls.old call }
{
    if let Some(call) = call {
        let _handle = calls.put(call);
    }
}

/// The call under the handle leaves the pool.
pub(crate) fn remove(calls: &mut Pool<LiveCall>, handle: Handle)
    ensures { calls.new ≡ after_take calls.old handle }
{
    let _call = calls.take(handle);
}

/// A call that has ended leaves the pool.
pub(crate) fn leave(calls: &mut Pool<LiveCall>, handle: Handle, end: &Option<Reply>)
    ensures { calls.new ≡ calls_left calls.old handle end.now }
{
    if end.is_some() {
        remove(calls, handle);
    }
}
