ghost use Rattle.std.specs.Prelude.{◌≡◌, ◌+◌, ◌<◌, ◌≤◌, ◌↔◌, IsTrue, length, IfOk, OnOk};
ghost use Rattle.wire_msg.specs.Lawful.{IsLawful};
ghost use Rattle.wire_msg.specs.declared.actor.Actor.TheVariants as to;
ghost use Rattle.replica_journal.specs.Stopped.{stopped};
ghost use Rattle.world_core.specs.State.{opening, replica_at};
ghost use Rattle.world_core.specs.Step.{step, with_replica};
ghost use Rattle.world_core.specs.Run.{IsHeader, MayHappen};
ghost use Rattle.schedule_text.specs.declared.kept_event.KeptEvent.TheVariants as kept_event;
ghost use Rattle.restart_law.specs.Restart.{restart_step, crash_at};
ghost use Rattle.restart_replay.specs.Steady.{IsSteady, IsForKeyBelow, KeptMayHappen, EventEnds};

use crate::fresh::{kept_replica, kept_replicas};
use crate::lawful_wire::LawfulWire;
use message_wire::Wire;
use replica_core::request_key;
use replica_journal::{KeptReplica, MemDisk};
use schedule_text::KeptEvent;
use std::alloc::{AllocError, Global};
use wire_msg::{Actor, Message, Post};
use world_core::{Cloud, Event, Header, Marks, StepFault};

/// A store whose replicas stand on journals in memory, and come back after a crash. After a want of
/// memory it isn't used again.
#[derive(Drop)]
pub(crate) struct KeptStore {
    cloud: Cloud<LawfulWire, KeptReplica<MemDisk>>,
    /// How many replicas there are.
    replicas: u8,
    /// How many keys they keep.
    keys: u16,
    /// How many events it took.
    taken: u32,
}

impl KeptStore {
    /// The store that a header opens.
    pub(crate) fn make(alloc: Global, header: Header) -> Result<KeptStore, AllocError>
        requires header { IsHeader header }
        ensures store { IfOk result (λ made. made.cloud.store ≡ opening header) }
        ensures taken { IfOk result (λ made. made.taken ≡ 0) }
        ensures steady { IfOk result (λ made. IsSteady made) }
    {
        let replicas = header.replicas;
        let keys = header.keys.len() as u16;
        let kept = kept_replicas(alloc, replicas, keys)?;
        let cloud = Cloud::make_with(alloc, header, LawfulWire::new(alloc), kept)?;
        Ok(KeptStore {
            cloud,
            replicas,
            keys,
            taken: 0,
        })
    }

    /// What an event does, with its marks, or why it isn't taken.
    pub(crate) fn take(&mut self, alloc: Global, event: &KeptEvent) -> Result<Marks, StepFault>
        requires steady { IsSteady self.old }
        requires few { self.old.taken < 1000000 }
        requires may { KeptMayHappen self.old.cloud.store event.now }
        ensures ends { EventEnds self.old.cloud.store self.new.cloud.store (restart_step self.old.cloud.store event.now) result }
        ensures steady { OnOk result (IsSteady self.new) }
        ensures taken { OnOk result (self.new.taken ≡ self.old.taken + 1) }
    {
        match event {
            KeptEvent::Event(event) => self.step(alloc, event),
            KeptEvent::Crash {
                message,
                call,
                is_new,
            } => self.crash(alloc, *message, *call, *is_new),
        }
    }

    fn step(&mut self, alloc: Global, event: &Event) -> Result<Marks, StepFault>
        requires steady { IsSteady self.old }
        requires few { self.old.taken < 1000000 }
        requires may { MayHappen self.old.cloud.store event.now }
        ensures ends { EventEnds self.old.cloud.store self.new.cloud.store (step self.old.cloud.store event.now) result }
        ensures steady { OnOk result (IsSteady self.new) }
        ensures taken { OnOk result (self.new.taken ≡ self.old.taken + 1) }
    {
        self.cloud.wire().are_lawful();
        match self.cloud.step(alloc, event) {
            Ok(marks) => {
                self.taken += 1;
                Ok(marks)
            }
            Err(fault) => Err(fault),
        }
    }

    /// The replica that this message comes to crashes in this call of its disk.
    fn crash(
        &mut self,
        alloc: Global,
        number: u32,
        call: u8,
        is_new: bool,
    ) -> Result<Marks, StepFault>
        requires steady { IsSteady self.old }
        requires few { self.old.taken < 1000000 }
        requires first { 1 ≤ call }
        requires last { call ≤ 4 }
        ensures ends { EventEnds self.old.cloud.store self.new.cloud.store (restart_step self.old.cloud.store (kept_event.Crash number call is_new)) result }
        ensures steady { OnOk result (IsSteady self.new) }
        ensures taken { OnOk result (self.new.taken ≡ self.old.taken + 1) }
    {
        match self.cloud.wire().post(alloc, number)? {
            Some(post) => self.crash_by(alloc, &post, call, is_new),
            None => Err(StepFault::NoMessage {
                sent: self.cloud.wire().sent(),
            }),
        }
    }

    /// The replica that the message comes to crashes while it takes it.
    fn crash_by(
        &mut self,
        alloc: Global,
        post: &Post,
        call: u8,
        is_new: bool,
    ) -> Result<Marks, StepFault>
        requires steady { IsSteady self.old }
        requires few { self.old.taken < 1000000 }
        requires lawful { IsLawful post.now.message }
        requires first { 1 ≤ call }
        requires last { call ≤ 4 }
        ensures ends { EventEnds self.old.cloud.store self.new.cloud.store (crash_at self.old.cloud.store post.now.to post.now.message call is_new) result }
        ensures steady { OnOk result (IsSteady self.new) }
        ensures taken { OnOk result (self.new.taken ≡ self.old.taken + 1) }
    {
        match post.to {
            Actor::Replica(replica) => self.crash_in(alloc, replica, &post.message, call, is_new),
            Actor::Directory => Err(StepFault::NoActor),
            Actor::Proxy(_) => Err(StepFault::NoActor),
        }
    }

    /// This replica crashes while it takes the message, unless it takes nothing.
    fn crash_in(
        &mut self,
        alloc: Global,
        replica: u8,
        message: &Message,
        call: u8,
        is_new: bool,
    ) -> Result<Marks, StepFault>
        requires steady { IsSteady self.old }
        requires few { self.old.taken < 1000000 }
        requires lawful { IsLawful message.now }
        requires first { 1 ≤ call }
        requires last { call ≤ 4 }
        ensures ends { EventEnds self.old.cloud.store self.new.cloud.store (crash_at self.old.cloud.store (to.Replica replica) message.now call is_new) result }
        ensures steady { OnOk result (IsSteady self.new) }
        ensures taken { OnOk result (self.new.taken ≡ self.old.taken + 1) }
    {
        if replica >= self.replicas || self.cloud.is_stopped(replica) {
            self.taken += 1;
            return Ok(Marks::none());
        }
        if !is_for_key_below(message, self.keys) {
            self.taken += 1;
            return Ok(Marks::none());
        }
        self.restart(alloc, replica, message, call, is_new)?;
        Ok(Marks::none())
    }

    /// A replica crashes while it takes the message, and comes back.
    fn restart(
        &mut self,
        alloc: Global,
        replica: u8,
        message: &Message,
        call: u8,
        is_new: bool,
    ) -> Result<(), AllocError>
        requires steady { IsSteady self.old }
        requires few { self.old.taken < 1000000 }
        requires there { replica < self.old.replicas }
        requires lawful { IsLawful message.now }
        requires key { IsForKeyBelow self.old.keys message.now }
        requires first { 1 ≤ call }
        requires last { call ≤ 4 }
        ensures store { OnOk result (self.new.cloud.store ≡ with_replica self.old.cloud.store replica (record { stopped = (replica_at self.old.cloud.store replica).stopped; state = stopped (replica_at self.old.cloud.store replica).state message.now call is_new })) }
        ensures steady { OnOk result (IsSteady self.new) }
        ensures taken { OnOk result (self.new.taken ≡ self.old.taken + 1) }
    {
        let spare = kept_replica(alloc, replica, self.keys)?;
        let kept = self.cloud.swap(replica, spare);
        let kept = kept.stop_in(alloc, message, call, is_new)?;
        self.cloud.swap(replica, kept);
        self.taken += 1;
        Ok(())
    }

    /// How many messages were sent.
    pub(crate) fn messages(&self) -> u32
        ensures { result ≡ length self.now.cloud.store.sent }
    {
        self.cloud.wire().sent()
    }
}

/// Whether the message is no request, or one for a key below this number.
fn is_for_key_below(message: &Message, keys: u16) -> bool
    ensures { IsTrue result ↔ IsForKeyBelow keys message.now }
{
    match request_key(message) {
        Some(key) => key.0 < keys,
        None => true,
    }
}
