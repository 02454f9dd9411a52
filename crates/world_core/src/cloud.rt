ghost use Rattle.std.specs.Prelude.{◌≡◌, ◌<◌, ◌↔◌, IsTrue, length, slice_get};
ghost use Rattle.std.specs.Option.{option_copied};
ghost use Rattle.world_core.specs.State.{replica_at};
ghost use Rattle.world_core.specs.Run.{MayHappen};
ghost use Rattle.world_core.specs.Ends.{StepEnds};

use crate::event::{Event, StepFault};
use crate::marks::Marks;
use crate::proxy::Proxy;
use crate::seat::Seat;
use epoch_directory::Directory;
use message_wire::Wire;
use replica_core::Taker;
use std::alloc::Global;
use std::marker::Model;

/// A whole store: its actors, and the messages between them.
#[derive(Drop)]
pub struct Cloud<W: Wire, T: Taker> {
    pub(crate) replicas: Vec<Seat<T>>,
    pub(crate) proxies: Vec<Proxy>,
    pub(crate) directory: Directory,
    pub(crate) wire: W,
    /// How many events it took.
    pub(crate) events: u32,
}

impl<W: Wire, T: Taker> Model for Cloud<W, T> {
    ghost use Rattle.std.specs.Prelude.{map};
    ghost use Rattle.world_core.specs.Ends.{Seen};
    ghost use Rattle.world_core.specs.Stores.{IsStore};

    ghost Value = { Seen };

    ghost view = { λ c. record { store = record { replicas = map (λ s. record { stopped = s.stopped; state = T.state s.taker }) c.replicas.items; proxies = c.proxies.items; directory = c.directory; sent = W.pushed c.wire }; journals = map (λ s. record { faults = T.faults s.taker; shut = T.shut s.taker; calm = T.calm s.taker; size = T.size s.taker }) c.replicas.items; events = c.events } };

    ghost invariant = { λ c. IsStore (record { replicas = map (λ s. record { stopped = s.stopped; state = T.state s.taker }) c.replicas.items; proxies = c.proxies.items; directory = c.directory; sent = W.pushed c.wire }) c.events };
}

impl<W: Wire, T: Taker> Cloud<W, T> {
    /// Where its messages lie.
    pub fn wire(&self) -> &W
        ensures { W.pushed result.now ≡ self.now.store.sent }
    {
        &self.wire
    }

    /// How many events it took.
    pub fn events(&self) -> u32
        ensures { result ≡ self.now.events }
    {
        self.events
    }

    /// The proxy of this number, where there is one.
    pub fn proxy(&self, proxy: u32) -> Option<&Proxy>
        ensures { option_copied result ≡ slice_get self.now.store.proxies proxy }
    {
        self.proxies.get(proxy as usize)
    }

    /// Whether a replica takes nothing more.
    pub fn is_stopped(&self, replica: u8) -> bool
        requires { replica < length self.now.store.replicas }
        ensures { result ≡ (replica_at self.now.store replica).stopped }
    {
        self.replicas[usize::from(replica)].stopped
    }

    /// Whether the event may be asked of `step`: a table that is to be published has to be one that
    /// the directory can judge.
    pub fn may_happen(&self, event: &Event) -> bool
        ensures { IsTrue result ↔ MayHappen self.now.store event.now }
    {
        match event {
            Event::Publish { table } => self.directory.is_next_table(table.as_slice()),
            _ => true,
        }
    }

    /// One step: what the event does, with its marks, or why it isn't taken. Whatever isn't taken
    /// changes nothing but the journal of a replica whose disk fails.
    pub fn step(&mut self, alloc: Global, event: &Event) -> Result<Marks, StepFault>
        requires few { self.old.events < 1000000 }
        requires event { MayHappen self.old.store event.now }
        ensures { StepEnds self.old self.new event.now result }
    {
        match event {
            Event::Start { proxy, key, work } => self.start(alloc, *proxy, *key, work),
            Event::Deliver { message } => self.deliver(alloc, *message),
            Event::StopReplica { replica } => self.stop_replica(*replica),
            Event::StopProxy { proxy } => self.stop_proxy(*proxy),
            Event::GiveUp { proxy, seq } => self.give_up(*proxy, *seq),
            Event::Publish { table } => self.publish(alloc, table),
        }
    }
}
