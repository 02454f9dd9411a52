//! Stores whose replicas lie in memory: none of them ever fails.

ghost use Rattle.std.specs.Prelude.{◌<◌};
ghost use Rattle.world_core.specs.Step.{step};
ghost use Rattle.world_core.specs.Run.{MayHappen};
ghost use Rattle.world_core.specs.InMemory.{EndsInMemory};

use crate::cloud::Cloud;
use crate::event::{Event, StepFault};
use crate::marks::Marks;
use message_wire::Wire;
use replica_core::Replica;
use std::alloc::Global;

impl<W: Wire> Cloud<W, Replica> {
    /// One step, as `step`, which no replica's journal can keep from being taken: its answer is
    /// never `Taker`.
    pub fn step_in_memory(&mut self, alloc: Global, event: &Event) -> Result<Marks, StepFault>
        requires few { self.old.events < 1000000 }
        requires event { MayHappen self.old.store event.now }
        ensures { EndsInMemory self.old self.new (step self.old.store event.now) result }
    {
        let _ = &self.replicas;
        self.step(alloc, event)
    }
}
