//! Connections are served one after another.

ghost use Rattle.std.specs.Prelude.{◌≡◌, ◌≤◌, ℕ, false, length, IfOk, OnOk, IsErrOf};
ghost use Rattle.span_base.specs.Counts.{Rose};
ghost use Rattle.span_service.specs.Visits.{AreVisited, IsPresentServed};
ghost use Rattle.span_service.specs.Endings.{IsFull, IsPlain, Outcomes, line_told};

use crate::ending::{Ending, Outcome};
use crate::line::write_served;
use crate::serve_fault::ServeFault;
use crate::service::serve;
use crate::visit_fault::VisitFault;
use crate::{Door, Stream};
use replica_core::{TakeFault, Taker};
use span_base::Sink;
use std::alloc::Global;

/// Serves so many connections, one after another, and writes the line of each.
#[tactic(auto, using(crate::proofs::Connections::visited_none, crate::proofs::Connections::visited_on))]
pub(crate) fn serve_visits<T: Taker, G: Door, K: Sink>(
    alloc: Global,
    taker: &mut T,
    keys: u16,
    conns: u32,
    door: &mut G,
    out: &mut K,
) -> Result<(), VisitFault>
    requires keys { keys ≤ length (T.state taker.old).kept }
    requires open { T.shut taker.old ≡ false }
    ensures visits { OnOk result (AreVisited keys (T.state taker.old) (T.state taker.new) (record { told = (G.Stream.around door.old).told; taken = G.Stream.taken door.old; faults = G.Stream.faults door.old })
        (record { told = (G.Stream.around door.new).told; taken = G.Stream.taken door.new; faults = G.Stream.faults door.new }) (K.taken out.old) (K.taken out.new) conns) }
    ensures open { OnOk result (T.shut taker.new ≡ false) }
    ensures number { (T.state taker.new).number ≡ (T.state taker.old).number }
    ensures keys { length (T.state taker.new).kept ≡ length (T.state taker.old).kept }
    ensures write_fault { IsErrOf result VisitFault.WriteFault → Rose (K.faults out.old) (K.faults out.new) }
    ensures write_faults_stay { K.faults out.old ≤ K.faults out.new }
    ensures disk_fault { IsErrOf result VisitFault.DiskFault → Rose (T.faults taker.old) (T.faults taker.new) }
    ensures disk_faults_stay { T.faults taker.old ≤ T.faults taker.new }
    ensures door_fault { IsErrOf result VisitFault.DoorFault → Rose (G.Stream.around door.old).refusals (G.Stream.around door.new).refusals }
    ensures refusals_stay { (G.Stream.around door.old).refusals ≤ (G.Stream.around door.new).refusals }
    ensures full { (bytes : ℕ) → IsErrOf result (VisitFault.Full bytes) → IsFull bytes }
{
    for _visit in 0..conns {
        serve_next(alloc, taker, keys, door, out)?;
    }
    Ok(())
}

// Serves the next connection, and writes its line.
fn serve_next<T: Taker, G: Door, K: Sink>(
    alloc: Global,
    taker: &mut T,
    keys: u16,
    door: &mut G,
    out: &mut K,
) -> Result<(), VisitFault>
    requires keys { keys ≤ length (T.state taker.old).kept }
    requires open { T.shut taker.old ≡ false }
    ensures visits { OnOk result (AreVisited keys (T.state taker.old) (T.state taker.new) (record { told = (G.Stream.around door.old).told; taken = G.Stream.taken door.old; faults = G.Stream.faults door.old })
        (record { told = (G.Stream.around door.new).told; taken = G.Stream.taken door.new; faults = G.Stream.faults door.new }) (K.taken out.old) (K.taken out.new) 1) }
    ensures open { OnOk result (T.shut taker.new ≡ false) }
    ensures number { (T.state taker.new).number ≡ (T.state taker.old).number }
    ensures keys { length (T.state taker.new).kept ≡ length (T.state taker.old).kept }
    ensures write_fault { IsErrOf result VisitFault.WriteFault → Rose (K.faults out.old) (K.faults out.new) }
    ensures write_faults_stay { K.faults out.old ≤ K.faults out.new }
    ensures disk_fault { IsErrOf result VisitFault.DiskFault → Rose (T.faults taker.old) (T.faults taker.new) }
    ensures disk_faults_stay { T.faults taker.old ≤ T.faults taker.new }
    ensures door_fault { IsErrOf result VisitFault.DoorFault → Rose (G.Stream.around door.old).refusals (G.Stream.around door.new).refusals }
    ensures refusals_stay { (G.Stream.around door.old).refusals ≤ (G.Stream.around door.new).refusals }
    ensures full { (bytes : ℕ) → IsErrOf result (VisitFault.Full bytes) → IsFull bytes }
{
    let Ok(()) = door.accept() else {
        return Err(VisitFault::DoorFault);
    };
    let Outcome { answered, ending } = serve_present(alloc, taker, keys, door)?;
    write_served(alloc, answered, ending, out)
}

// Serves the present connection.
fn serve_present<T: Taker, S: Stream>(
    alloc: Global,
    taker: &mut T,
    keys: u16,
    stream: &mut S,
) -> Result<Outcome, VisitFault>
    requires keys { keys ≤ length (T.state taker.old).kept }
    requires open { T.shut taker.old ≡ false }
    ensures served { IfOk result (λ outcome. IsPresentServed keys (T.state taker.old) (T.state taker.new) (S.coming stream.old) (S.taken stream.old) (S.taken stream.new) (S.faults stream.old) (S.faults stream.new) (line_told outcome)) }
    ensures around_stays { S.around stream.new ≡ S.around stream.old }
    ensures open { OnOk result (T.shut taker.new ≡ false) }
    ensures number { (T.state taker.new).number ≡ (T.state taker.old).number }
    ensures keys { length (T.state taker.new).kept ≡ length (T.state taker.old).kept }
    ensures no_write_fault { IsErrOf result VisitFault.WriteFault → ⊥ }
    ensures disk_fault { IsErrOf result VisitFault.DiskFault → Rose (T.faults taker.old) (T.faults taker.new) }
    ensures disk_faults_stay { T.faults taker.old ≤ T.faults taker.new }
    ensures no_door_fault { IsErrOf result VisitFault.DoorFault → ⊥ }
    ensures full { (bytes : ℕ) → IsErrOf result (VisitFault.Full bytes) → IsFull bytes }
{
    let answer = serve(alloc, taker, keys, stream);
    outcome_of(answer)
}

// The outcome of a service, unless the replica or memory ended it.
fn outcome_of(answer: Result<u64, ServeFault>) -> Result<Outcome, VisitFault>
    requires { IsPlain answer }
    ensures { Outcomes answer result }
{
    let (answered, ending) = match answer {
        Ok(answered) => (answered, Ending::End),
        Err(ServeFault::Bad { frame, .. }) => (frame - 1, Ending::Bad),
        Err(ServeFault::Torn { frame }) => (frame - 1, Ending::Torn),
        Err(ServeFault::Limit { number }) => (number - 1, Ending::Limit),
        Err(ServeFault::ReadFault { answered }) => (answered, Ending::Read),
        Err(ServeFault::WriteFault { answered }) => (answered, Ending::Write),
        Err(ServeFault::NoMemory(error)) => return Err(VisitFault::NoMemory(error)),
        Err(ServeFault::Taker(TakeFault::NoMemory(_))) => unreachable!(),
        Err(ServeFault::Taker(TakeFault::DiskFault)) => return Err(VisitFault::DiskFault),
        Err(ServeFault::Taker(TakeFault::Shut)) => unreachable!(),
        Err(ServeFault::Taker(TakeFault::Full { bytes })) => return Err(VisitFault::Full { bytes }),
    };
    Ok(Outcome { answered, ending })
}
