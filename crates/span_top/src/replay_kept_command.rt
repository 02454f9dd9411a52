//! The command `replay-kept`.
ghost use Rattle.std.specs.Prelude.{◌≡◌, ◌≢◌, ◌≤◌};
ghost use Rattle.span_base.specs.Counts.{Rose};
ghost use Rattle.span_top.specs.Replayed.{ReplayKeptEnds, BytesReplayedKept};

use crate::replay_command::SCHEDULE_BYTES;
use crate::status::Status;
use crate::whole_file::read_file;
use restart_replay::replay_kept;
use schedule_replay::ReplayFault;
use span_base::{Bytes, Shelf, Sink};
use std::alloc::Global;

/// Runs the schedule in the named file, whose replicas crash and come back, and writes the text of
/// its run.
#[tactic(auto, using(crate::proofs::Restarting::ends))]
pub fn replay_kept_schedule<S: Shelf, K: Sink>(
    alloc: Global,
    name: &str,
    shelf: &mut S,
    out: &mut K,
) -> Status
    ensures ends { ReplayKeptEnds (S.files shelf.old) name.now (K.taken out.old) (K.taken out.new) result }
    ensures read_fault { result ≡ Status.ReadFault → Rose (S.faults shelf.old) (S.faults shelf.new) }
    ensures absent { result ≡ Status.Absent 0 → Rose (S.absences shelf.old) (S.absences shelf.new) }
    ensures write_fault { result ≡ Status.WriteFault → Rose (K.faults out.old) (K.faults out.new) }
    ensures faults_stay { S.faults shelf.old ≤ S.faults shelf.new }
    ensures absences_stay { S.absences shelf.old ≤ S.absences shelf.new }
    ensures write_faults_stay { K.faults out.old ≤ K.faults out.new }
{
    match read_file(alloc, name, SCHEDULE_BYTES, shelf) {
        Ok(bytes) => replay_kept_bytes(alloc, &bytes, out),
        Err(status) => status,
    }
}

// Runs a schedule whose replicas crash and come back, and writes the text of its run.
#[tactic(auto, using(crate::proofs::Restarting::restarted))]
fn replay_kept_bytes<K: Sink>(alloc: Global, bytes: &Bytes, out: &mut K) -> Status
    ensures ends { BytesReplayedKept bytes.now (K.taken out.old) (K.taken out.new) result }
    ensures no_read_fault { result ≢ Status.ReadFault }
    ensures no_absent { result ≢ Status.Absent 0 }
    ensures write_fault { result ≡ Status.WriteFault → Rose (K.faults out.old) (K.faults out.new) }
    ensures write_faults_stay { K.faults out.old ≤ K.faults out.new }
{
    match replay_kept(alloc, bytes.as_slice(), out) {
        Ok(_) => Status::Done,
        Err(ReplayFault::Bad { line, cause }) => Status::BadInput {
            file: 0,
            line,
            cause,
        },
        Err(ReplayFault::Limit { line, what, number }) => Status::TooLarge {
            file: 0,
            line,
            what,
            number,
        },
        Err(ReplayFault::BadEvent { line, cause }) => Status::BadEvent { line, cause },
        Err(ReplayFault::WriteFault) => Status::WriteFault,
        Err(ReplayFault::NoMemory) => Status::NoMemory,
    }
}
