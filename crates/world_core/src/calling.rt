//! What clients do at a proxy: they begin calls and give them up, and a proxy stops.

ghost use Rattle.std.specs.Prelude.{◌≡◌, ◌+◌, ◌<◌, ◌≤◌, true, length};
ghost use Rattle.world_core.specs.declared.event.Event.TheVariants.{Start, GiveUp, StopProxy};
ghost use Rattle.world_core.specs.Starting.{starts};
ghost use Rattle.world_core.specs.Step.{fits_mode};
ghost use Rattle.world_core.specs.Stores.{AreSent, ActorEnds};
ghost use Rattle.world_core.specs.Ends.{StepEnds};

use crate::cloud::Cloud;
use crate::event::StepFault;
use crate::marks::Marks;
use crate::proxy::Proxy;
use crate::sending::{bulk_of, make_room, send};
use message_wire::Wire;
use replica_core::Taker;
use run_marks::Work;
use span_base::KeyId;
use std::alloc::Global;

impl<W: Wire, T: Taker> Cloud<W, T> {
    /// A client calls at a proxy.
    pub(crate) fn start(
        &mut self,
        alloc: Global,
        number: u32,
        key: u32,
        work: &Work,
    ) -> Result<Marks, StepFault>
        requires { self.old.events < 1000000 }
        ensures { StepEnds self.old self.new (Start number key work.now) result }
    {
        let place = number as usize;
        if place >= self.proxies.len() {
            return Err(StepFault::NoActor);
        }
        if self.proxies[place].is_stopped() {
            self.events += 1;
            return Ok(Marks::none());
        }
        if key >= u32::from(self.directory.keys()) {
            return Err(StepFault::NoKey);
        }
        let key = KeyId(key as u16);
        let strong = self.directory.is_strong_key(key);
        if !fits_mode(strong, work) {
            return Err(StepFault::WrongMode);
        }
        let proxy = &mut self.proxies[place];
        match start_call(
            proxy,
            &mut self.wire,
            alloc,
            number as u8,
            strong,
            key,
            work,
        ) {
            Ok(marks) => {
                self.events += 1;
                Ok(marks)
            }
            Err(fault) => Err(fault),
        }
    }

    /// A client waits no longer for a call.
    pub(crate) fn give_up(&mut self, number: u32, seq: u32) -> Result<Marks, StepFault>
        requires { self.old.events < 1000000 }
        ensures { StepEnds self.old self.new (GiveUp number seq) result }
    {
        let place = number as usize;
        if place >= self.proxies.len() {
            return Err(StepFault::NoActor);
        }
        if self.proxies[place].is_stopped() {
            self.events += 1;
            return Ok(Marks::none());
        }
        let Some(marks) = self.proxies[place].give_up(seq) else {
            return Err(StepFault::NoCall);
        };
        self.events += 1;
        Ok(marks)
    }

    /// A proxy takes nothing from now on, and begins nothing.
    pub(crate) fn stop_proxy(&mut self, number: u32) -> Result<Marks, StepFault>
        requires { self.old.events < 1000000 }
        ensures { StepEnds self.old self.new (StopProxy number) result }
    {
        let place = number as usize;
        if place >= self.proxies.len() {
            return Err(StepFault::NoActor);
        }
        self.proxies[place].stop();
        self.events += 1;
        Ok(Marks::none())
    }
}

/// A proxy begins a call, and sends its first requests.
fn start_call<W: Wire>(
    proxy: &mut Proxy,
    wire: &mut W,
    alloc: Global,
    number: u8,
    strong: bool,
    key: KeyId,
    work: &Work,
) -> Result<Marks, StepFault>
    requires number { number < 64 }
    requires few { proxy.old.begun < 1000000 }
    requires key { key.0 < length proxy.old.views }
    requires mode { fits_mode strong work.now ≡ true }
    requires sent { AreSent (length proxy.old.views) (W.pushed wire.old) }
    ensures ends { ActorEnds (starts strong number proxy.old key work.now) proxy.old proxy.new (W.pushed wire.old) (W.pushed wire.new) result }
    ensures sent { AreSent (length proxy.old.views) (W.pushed wire.new) }
    ensures views { length proxy.new.views ≡ length proxy.old.views }
    ensures begun { proxy.new.begun ≤ proxy.old.begun + 1 }
{
    let beginning = proxy.begin(alloc, number, strong, key, work)?;
    make_room(wire, alloc, bulk_of(beginning.effects.posts.as_slice()))?;
    let effects = proxy.enter(beginning);
    send(wire, alloc, effects.posts.as_slice());
    Ok(effects.marks)
}

/// Whether keys of this mode have such work.
fn fits_mode(strong: bool, work: &Work) -> bool
    ensures { result ≡ fits_mode strong work.now }
{
    match work {
        Work::Read => strong,
        Work::Write(_) => strong,
        Work::Get => !strong,
        Work::GetAny => !strong,
        Work::Put(_) => !strong,
        Work::Move => true,
    }
}
