//! A replica that keeps a journal serves the connections of a door.

ghost use Rattle.std.specs.Prelude.{◌≡◌, ◌<◌, ◌≤◌, ◌↔◌, ℕ, None, Some, false, length, OnOk, IsErrOf};
ghost use Rattle.span_base.specs.Counts.{Rose};
ghost use Rattle.span_service.specs.Words.{plan_of};
ghost use Rattle.span_service.specs.Endings.{IsFull};
ghost use Rattle.span_service.specs.Statuses.{IsDone, IsDamaged, IsServedBy, IsWritten};

use crate::Door;
use crate::line::write_opening;
use crate::plan::{Plan, plan_of};
use crate::serve_status::ServeStatus;
use crate::visit_fault::VisitFault;
use crate::visiting::serve_visits;
use replica_core::Taker;
use replica_journal::{Disk, KeptReplica, OpenFault};
use span_base::{Sink, Word};
use std::alloc::Global;

/// How the serving of a replica ended, with its disk.
#[derive(Drop)]
pub struct Served<D> {
    pub status: ServeStatus,
    pub disk: D,
}

/// Opens the replica that the words name on the disk, and serves so many connections of the door,
/// one after another, each from the state that the last one left. It writes how many records the
/// replica had, and then a line for each connection: how many requests were answered whole, and
/// `end`, `bad`, `torn`, `limit`, `read` or `write`.
pub fn serve_all<G: Door, D: Disk, K: Sink>(
    alloc: Global,
    words: &[Word],
    door: &mut G,
    disk: D,
    out: &mut K,
) -> Served<D>
    ensures done { result.status ≡ ServeStatus.Done → IsDone (plan_of words.now) (D.told disk) (D.told result.disk) (record { told = (G.Stream.around door.old).told; taken = G.Stream.taken door.old; faults = G.Stream.faults door.old })
        (record { told = (G.Stream.around door.new).told; taken = G.Stream.taken door.new; faults = G.Stream.faults door.new }) (K.taken out.old) (K.taken out.new) }
    ensures usage { (result.status ≡ ServeStatus.Usage) ↔ (plan_of words.now ≡ None) }
    ensures write_fault { result.status ≡ ServeStatus.WriteFault → Rose (K.faults out.old) (K.faults out.new) }
    ensures write_faults_stay { K.faults out.old ≤ K.faults out.new }
    ensures disk_fault { result.status ≡ ServeStatus.DiskFault → Rose (D.faults disk) (D.faults result.disk) }
    ensures disk_faults_stay { D.faults disk ≤ D.faults result.disk }
    ensures door_fault { result.status ≡ ServeStatus.DoorFault → Rose (G.Stream.around door.old).refusals (G.Stream.around door.new).refusals }
    ensures refusals_stay { (G.Stream.around door.old).refusals ≤ (G.Stream.around door.new).refusals }
    ensures damaged { (at : ℕ) → result.status ≡ ServeStatus.Damaged at → IsDamaged (plan_of words.now) (D.told disk) at }
    ensures full { (bytes : ℕ) → result.status ≡ ServeStatus.Full bytes → IsFull bytes }
    ensures untouched { plan_of words.now ≡ None → (result.disk ≡ disk) × (K.taken out.new ≡ K.taken out.old) × (G.Stream.around door.new ≡ G.Stream.around door.old) }
{
    let Some(plan) = plan_of(words) else {
        return Served {
            status: ServeStatus::Usage,
            disk,
        };
    };
    match KeptReplica::open(alloc, disk, plan.replica, plan.keys) {
        Ok(kept) => serve_kept(alloc, plan, kept, door, out),
        Err(OpenFault { disk, cause }) => Served {
            status: ServeStatus::from(cause),
            disk,
        },
    }
}

// Serves connections by a replica that was opened.
fn serve_kept<G: Door, D: Disk, K: Sink>(
    alloc: Global,
    plan: Plan,
    mut kept: KeptReplica<D>,
    door: &mut G,
    out: &mut K,
) -> Served<D>
    requires open { kept.shut ≡ false }
    requires keys { length kept.state.kept ≡ plan.keys }
    requires number { kept.state.number ≡ plan.replica }
    ensures done { result.status ≡ ServeStatus.Done → IsServedBy plan kept.state kept.place.records (D.told result.disk) (record { told = (G.Stream.around door.old).told; taken = G.Stream.taken door.old; faults = G.Stream.faults door.old })
        (record { told = (G.Stream.around door.new).told; taken = G.Stream.taken door.new; faults = G.Stream.faults door.new }) (K.taken out.old) (K.taken out.new) }
    ensures usage { result.status ≡ ServeStatus.Usage → ⊥ }
    ensures write_fault { result.status ≡ ServeStatus.WriteFault → Rose (K.faults out.old) (K.faults out.new) }
    ensures write_faults_stay { K.faults out.old ≤ K.faults out.new }
    ensures disk_fault { result.status ≡ ServeStatus.DiskFault → Rose (D.faults kept.disk) (D.faults result.disk) }
    ensures disk_faults_stay { D.faults kept.disk ≤ D.faults result.disk }
    ensures door_fault { result.status ≡ ServeStatus.DoorFault → Rose (G.Stream.around door.old).refusals (G.Stream.around door.new).refusals }
    ensures refusals_stay { (G.Stream.around door.old).refusals ≤ (G.Stream.around door.new).refusals }
    ensures undamaged { (at : ℕ) → result.status ≡ ServeStatus.Damaged at → ⊥ }
    ensures full { (bytes : ℕ) → result.status ≡ ServeStatus.Full bytes → IsFull bytes }
{
    let records = kept.records();
    let status = match serve_taker(alloc, &plan, records, &mut kept, door, out) {
        Ok(()) => ServeStatus::Done,
        Err(fault) => ServeStatus::from(fault),
    };
    Served {
        status,
        disk: kept.into_disk(),
    }
}

// Writes how many records there were, and serves connections.
fn serve_taker<T: Taker, G: Door, K: Sink>(
    alloc: Global,
    plan: &Plan,
    records: u64,
    taker: &mut T,
    door: &mut G,
    out: &mut K,
) -> Result<(), VisitFault>
    requires keys { length (T.state taker.old).kept ≡ plan.now.keys }
    requires open { T.shut taker.old ≡ false }
    ensures visits { OnOk result (IsWritten plan.now records (T.state taker.old) (T.state taker.new) (record { told = (G.Stream.around door.old).told; taken = G.Stream.taken door.old; faults = G.Stream.faults door.old })
        (record { told = (G.Stream.around door.new).told; taken = G.Stream.taken door.new; faults = G.Stream.faults door.new }) (K.taken out.old) (K.taken out.new)) }
    ensures open { OnOk result (T.shut taker.new ≡ false) }
    ensures number { (T.state taker.new).number ≡ (T.state taker.old).number }
    ensures keys { length (T.state taker.new).kept ≡ length (T.state taker.old).kept }
    ensures write_fault { IsErrOf result VisitFault.WriteFault → Rose (K.faults out.old) (K.faults out.new) }
    ensures write_faults_stay { K.faults out.old ≤ K.faults out.new }
    ensures disk_fault { IsErrOf result VisitFault.DiskFault → Rose (T.faults taker.old) (T.faults taker.new) }
    ensures disk_faults_stay { T.faults taker.old ≤ T.faults taker.new }
    ensures door_fault { IsErrOf result VisitFault.DoorFault → Rose (G.Stream.around door.old).refusals (G.Stream.around door.new).refusals }
    ensures refusals_stay { (G.Stream.around door.old).refusals ≤ (G.Stream.around door.new).refusals }
    ensures full { (bytes : ℕ) → IsErrOf result (VisitFault.Full bytes) → IsFull bytes }
{
    write_opening(alloc, plan.replica, records, out)?;
    serve_visits(alloc, taker, plan.keys, plan.conns, door, out)
}
