//! What happens at the store's replicas and its directory by themselves: a replica stops, a table is published.

ghost use Rattle.std.specs.Prelude.{◌≡◌, ◌<◌, length, IfOk};
ghost use Rattle.epoch_directory.specs.Tables.{IsNextTable};
ghost use Rattle.world_core.specs.declared.event.Event.TheVariants.{StopReplica, Publish};
ghost use Rattle.world_core.specs.Ends.{StepEnds, Publishes};

use crate::cloud::Cloud;
use crate::event::StepFault;
use crate::marks::Marks;
use epoch_directory::{Directory, PublishFault, SetPolicy};
use message_wire::Wire;
use replica_core::Taker;
use run_marks::{Mark, NoEpochCause};
use span_base::{Listed, What};
use std::alloc::{AllocError, Global};

impl<W: Wire, T: Taker> Cloud<W, T> {
    /// A replica takes nothing from now on.
    pub(crate) fn stop_replica(&mut self, number: u32) -> Result<Marks, StepFault>
        requires { self.old.events < 1000000 }
        ensures { StepEnds self.old self.new (StopReplica number) result }
    {
        let place = number as usize;
        if place >= self.replicas.len() {
            return Err(StepFault::NoActor);
        }
        self.replicas[place].stopped = true;
        self.events += 1;
        Ok(Marks::none())
    }

    /// A table opens the next epoch, or leaves a mark of what is wrong with it.
    pub(crate) fn publish(
        &mut self,
        alloc: Global,
        table: &Listed<SetPolicy>,
    ) -> Result<Marks, StepFault>
        requires few { self.old.events < 1000000 }
        requires table { IsNextTable self.old.store.directory table.now }
        ensures { StepEnds self.old self.new (Publish table.now) result }
    {
        let lines = copy_of(alloc, table.as_slice())?;
        match open_epoch(&mut self.directory, alloc, lines) {
            Ok(marks) => {
                self.events += 1;
                Ok(marks)
            }
            Err(fault) => Err(fault),
        }
    }
}

/// The directory publishes a table: the mark of the next epoch, or of what is wrong with it.
fn open_epoch(
    directory: &mut Directory,
    alloc: Global,
    table: Vec<SetPolicy>,
) -> Result<Marks, StepFault>
    requires { IsNextTable directory.old table.items }
    ensures ends { Publishes directory.old table.items directory.new result }
    ensures keys { length directory.new.sets ≡ length directory.old.sets }
{
    match directory.publish(alloc, table) {
        Ok(epoch) => Ok(Marks::of(Mark::Epoch { epoch }, None)),
        Err(PublishFault::MissingSet { set }) => {
            let cause = NoEpochCause::MissingSet { set };
            Ok(Marks::of(Mark::NoEpoch { cause }, None))
        }
        Err(PublishFault::NotQuorum { set }) => {
            let cause = NoEpochCause::NotQuorum { set };
            Ok(Marks::of(Mark::NoEpoch { cause }, None))
        }
        Err(PublishFault::Limit { number }) => Err(StepFault::Limit {
            what: What::Epochs,
            number: u128::from(number),
        }),
        Err(PublishFault::NoMemory(error)) => Err(StepFault::NoMemory(error)),
    }
}

fn copy_of(alloc: Global, lines: &[SetPolicy]) -> Result<Vec<SetPolicy>, AllocError>
    ensures { IfOk result (λ copy. copy.items ≡ lines.now) }
{
    let mut copy = Vec::with_capacity(alloc, lines.len())?;
    for line in lines {
        copy.push(line.clone()?)?;
    }
    Ok(copy)
}
