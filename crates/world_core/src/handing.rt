//! How an actor takes a message: its limits are tested and room is made for what it sends before
//! it changes.

ghost use Rattle.std.specs.Prelude.{◌≡◌, ◌<◌, [], length, IfSome, OnOk};
ghost use Rattle.wire_msg.specs.Lawful.{IsLawful, AreLawful};
ghost use Rattle.wire_msg.specs.Outputs.{nothing_out};
ghost use Rattle.wire_msg.specs.Posts.{AreAnswersTo};
ghost use Rattle.replica_core.specs.Rule.{request_key, step as replica_step};
ghost use Rattle.epoch_directory.specs.Step.{HasItsKey, step as directory_step};
ghost use Rattle.world_core.specs.Step.{proxy_takes};
ghost use Rattle.world_core.specs.Proxies.{IsOfKeyBelow};
ghost use Rattle.world_core.specs.Stores.{AreSent, ActorEnds};
ghost use Rattle.world_core.specs.Ends.{TakeEnds, TakerEnds};

use crate::event::StepFault;
use crate::marks::Marks;
use crate::proxy::Proxy;
use crate::sending::{make_room, send};
use epoch_directory::Directory;
use message_wire::Wire;
use replica_core::{TakeFault, Taker};
use std::alloc::Global;
use wire_msg::{Message, Outputs};

/// A proxy takes a message.
pub(crate) fn hand_to_proxy<W: Wire>(
    proxy: &mut Proxy,
    wire: &mut W,
    alloc: Global,
    message: &Message,
) -> Result<Marks, StepFault>
    requires lawful { IsLawful message.now }
    requires sent { AreSent (length proxy.old.views) (W.pushed wire.old) }
    ensures ends { ActorEnds (proxy_takes proxy.old message.now) proxy.old proxy.new (W.pushed wire.old) (W.pushed wire.new) result }
    ensures sent { AreSent (length proxy.old.views) (W.pushed wire.new) }
    ensures views { length proxy.new.views ≡ length proxy.old.views }
    ensures begun { proxy.new.begun ≡ proxy.old.begun }
{
    let lesson = proxy.lesson(alloc, message)?;
    make_room(wire, alloc, proxy.bulk(message, &lesson))?;
    let effects = proxy.take(alloc, message, lesson)?;
    send(wire, alloc, effects.posts.as_slice());
    Ok(effects.marks)
}

/// The directory takes a message.
pub(crate) fn hand_to_directory<W: Wire>(
    directory: &mut Directory,
    wire: &mut W,
    alloc: Global,
    message: &Message,
) -> Result<Marks, StepFault>
    requires lawful { IsLawful message.now }
    requires key { IsOfKeyBelow (length directory.old.sets) message.now }
    requires sent { AreSent (length directory.old.sets) (W.pushed wire.old) }
    ensures ends { ActorEnds (record { actor = (directory_step directory.old message.now).state; posts = (directory_step directory.old message.now).out.posts; marks = [] }) directory.old directory.new (W.pushed wire.old) (W.pushed wire.new) result }
    ensures sent { AreSent (length directory.old.sets) (W.pushed wire.new) }
    ensures keys { length directory.new.sets ≡ length directory.old.sets }
{
    make_room(wire, alloc, directory.bulk(message))?;
    let mut out = Outputs::make(alloc);
    directory.take(alloc, message, &mut out)?;
    send(wire, alloc, out.posts.as_slice());
    Ok(Marks::none())
}

/// A replica takes a message, unless its disk fails.
pub(crate) fn hand_to_replica<W: Wire, T: Taker>(
    taker: &mut T,
    wire: &mut W,
    alloc: Global,
    message: &Message,
) -> Result<Marks, StepFault>
    requires lawful { IsLawful message.now }
    requires key { IsOfKeyBelow (length (T.state taker.old).kept) message.now }
    requires sent { AreSent (length (T.state taker.old).kept) (W.pushed wire.old) }
    ensures ends { TakerEnds (record { actor = (replica_step (T.state taker.old) message.now).state; posts = (replica_step (T.state taker.old) message.now).out.posts; marks = [] }) (T.state taker.old) (T.state taker.new) (record { faults = T.faults taker.old; shut = T.shut taker.old; calm = T.calm taker.old; size = T.size taker.old }) (record { faults = T.faults taker.new; shut = T.shut taker.new; calm = T.calm taker.new; size = T.size taker.new }) message.now (W.pushed wire.old) (W.pushed wire.new) result }
    ensures sent { AreSent (length (T.state taker.old).kept) (W.pushed wire.new) }
    ensures keys { length (T.state taker.new).kept ≡ length (T.state taker.old).kept }
{
    make_room(wire, alloc, taker.bulk(message))?;
    let mut out = Outputs::make(alloc);
    take_into(taker, alloc, message, &mut out)?;
    send(wire, alloc, out.posts.as_slice());
    Ok(Marks::none())
}

/// The replica's own take, its faults told as those of the event.
fn take_into<T: Taker>(
    taker: &mut T,
    alloc: Global,
    message: &Message,
    out: &mut Outputs,
) -> Result<(), StepFault>
    requires lawful { IsLawful message.now }
    requires key { IfSome (request_key message.now) (λ key. key.0 < length (T.state taker.old).kept) }
    requires empty { out.old ≡ nothing_out }
    ensures ends { TakeEnds (replica_step (T.state taker.old) message.now) (T.state taker.old) (T.state taker.new) (record { faults = T.faults taker.old; shut = T.shut taker.old; calm = T.calm taker.old; size = T.size taker.old }) (record { faults = T.faults taker.new; shut = T.shut taker.new; calm = T.calm taker.new; size = T.size taker.new }) message.now out.new result }
    ensures lawful { OnOk result (AreLawful out.new.posts) }
    ensures posts { OnOk result (AreAnswersTo message.now out.new.posts) }
    ensures keys { length (T.state taker.new).kept ≡ length (T.state taker.old).kept }
{
    match taker.take(alloc, message, out) {
        Ok(()) => Ok(()),
        Err(TakeFault::NoMemory(error)) => Err(StepFault::NoMemory(error)),
        Err(TakeFault::DiskFault) => Err(StepFault::Taker(TakeFault::DiskFault)),
        Err(TakeFault::Shut) => Err(StepFault::Taker(TakeFault::Shut)),
        Err(TakeFault::Full { bytes }) => Err(StepFault::Taker(TakeFault::Full { bytes })),
    }
}
