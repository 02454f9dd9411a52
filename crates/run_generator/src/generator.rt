ghost use Rattle.std.specs.Prelude.{◌≡◌, ◌+◌, ◌≤◌, true, false, IfOk, OnOk};
ghost use Rattle.world_core.specs.Run.{MayHappen};
ghost use Rattle.run_generator.specs.Chosen.{Chosen, chosen, chooses};
ghost use Rattle.run_generator.specs.Told.{IsGenerated, Tells};
ghost use Rattle.run_generator.specs.Standing.{StandsFor, IsSound, Goes, is_no_memory};

use crate::log::Log;
use crate::opening::header;
use message_wire::{FrameWire, Wire};
use replica_core::Replica;
use std::alloc::{AllocError, Global};
use world_core::{Cloud, Event, StepFault};

/// A run under way.
#[derive(Drop)]
pub(crate) struct Generator {
    pub(crate) cloud: Cloud<FrameWire, Replica>,
    /// The state of the drawing.
    pub(crate) state: u64,
    pub(crate) log: Log,
    /// An event was refused, and nothing happens any more.
    pub(crate) over: bool,
}

impl Generator {
    /// The run before its first event.
    #[tactic(auto, using(crate::proofs::Header::is_header, crate::proofs::Header::opens_ready), unfolding(crate::specs::Chosen::chosen))]
    pub(crate) fn open(alloc: Global, n: u32) -> Result<Generator, AllocError>
        ensures stands { IfOk result (λ g. StandsFor g (chosen n 0)) }
        ensures sound { IfOk result (λ g. IsSound g) }
        ensures events { IfOk result (λ g. g.cloud.events ≡ 0) }
    {
        Ok(Generator {
            cloud: Cloud::make(alloc, header(alloc)?, FrameWire::new(alloc))?,
            state: u64::from(n),
            log: Log::new(alloc),
            over: false,
        })
    }

    /// The event happens, unless one was refused before.
    pub(crate) fn happen(&mut self, alloc: Global, event: &Event) -> Result<(), AllocError>
        requires sound { IsSound self.old }
        requires few { self.old.cloud.events + 1 ≤ 1000000 }
        requires event { MayHappen self.old.cloud.store event.now }
        ensures stands { OnOk result ((c : Chosen) → StandsFor self.old c → StandsFor self.new (chooses c event.now)) }
        ensures goes { OnOk result (Goes self.old self.new 1) }
    {
        if self.over {
            return Ok(());
        }
        match self.cloud.step_in_memory(alloc, event) {
            Ok(marks) => self.log.add_all(&marks),
            Err(fault) => self.end_by(fault),
        }
    }

    /// The run is over by a refused event; want of memory is told instead.
    fn end_by(&mut self, fault: StepFault) -> Result<(), AllocError>
        ensures over { OnOk result (self.new ≡ record self.old { over = true }) }
        ensures refused { OnOk result (is_no_memory fault ≡ false) }
    {
        match fault {
            StepFault::NoMemory(error) => Err(error),
            _ => {
                self.over = true;
                Ok(())
            }
        }
    }
}
