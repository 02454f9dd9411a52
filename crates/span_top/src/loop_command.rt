//! The command `loop`.
ghost use Rattle.std.specs.Prelude.{◌≡◌, ◌≢◌, ◌≤◌};
ghost use Rattle.span_base.specs.Counts.{Rose};
ghost use Rattle.span_node.specs.Traffic.{seen};
ghost use Rattle.span_top.specs.Looped.{LoopCommandEnds, BytesLooped};

use crate::replay_command::SCHEDULE_BYTES;
use crate::status::Status;
use crate::whole_file::read_file;
use frame_link::Link;
use span_base::{Bytes, Shelf, Sink};
use span_node::{LoopFault, run_loop};
use std::alloc::Global;

/// Runs the script in the named file over the link, and writes the text of its run.
#[tactic(auto, using(crate::proofs::Looping::ends))]
pub fn loop_script<S: Shelf, K: Sink, L: Link>(
    alloc: Global,
    name: &str,
    shelf: &mut S,
    out: &mut K,
    link: &mut L,
) -> Status
    ensures ends { LoopCommandEnds (S.files shelf.old) name.now (K.taken out.old) (K.taken out.new) (seen (L.sent link.old) (L.answers link.old) (L.honest link.old) (L.faithful link.old)) (seen (L.sent link.new) (L.answers link.new) (L.honest link.new) (L.faithful link.new)) result }
    ensures read_fault { result ≡ Status.ReadFault → Rose (S.faults shelf.old) (S.faults shelf.new) }
    ensures absent { result ≡ Status.Absent 0 → Rose (S.absences shelf.old) (S.absences shelf.new) }
    ensures write_fault { result ≡ Status.WriteFault → Rose (K.faults out.old) (K.faults out.new) }
    ensures link_fault { result ≡ Status.LinkFault → Rose (L.faults link.old) (L.faults link.new) }
    ensures faults_stay { S.faults shelf.old ≤ S.faults shelf.new }
    ensures absences_stay { S.absences shelf.old ≤ S.absences shelf.new }
    ensures write_faults_stay { K.faults out.old ≤ K.faults out.new }
    ensures link_faults_stay { L.faults link.old ≤ L.faults link.new }
{
    match read_file(alloc, name, SCHEDULE_BYTES, shelf) {
        Ok(bytes) => loop_bytes(alloc, &bytes, out, link),
        Err(status) => status,
    }
}

// Runs a script over the link, and writes the text of its run.
#[tactic(auto, using(crate::proofs::Looping::looped))]
fn loop_bytes<K: Sink, L: Link>(alloc: Global, bytes: &Bytes, out: &mut K, link: &mut L) -> Status
    ensures ends { BytesLooped bytes.now (K.taken out.old) (K.taken out.new) (seen (L.sent link.old) (L.answers link.old) (L.honest link.old) (L.faithful link.old)) (seen (L.sent link.new) (L.answers link.new) (L.honest link.new) (L.faithful link.new)) result }
    ensures no_read_fault { result ≢ Status.ReadFault }
    ensures no_absent { result ≢ Status.Absent 0 }
    ensures write_fault { result ≡ Status.WriteFault → Rose (K.faults out.old) (K.faults out.new) }
    ensures link_fault { result ≡ Status.LinkFault → Rose (L.faults link.old) (L.faults link.new) }
    ensures write_faults_stay { K.faults out.old ≤ K.faults out.new }
    ensures link_faults_stay { L.faults link.old ≤ L.faults link.new }
{
    match run_loop(alloc, bytes.as_slice(), link, out) {
        Ok(_) => Status::Done,
        Err(LoopFault::Bad { line, cause }) => Status::BadInput {
            file: 0,
            line,
            cause,
        },
        Err(LoopFault::Limit { line, what, number }) => Status::TooLarge {
            file: 0,
            line,
            what,
            number,
        },
        Err(LoopFault::BadEvent { line, cause }) => Status::BadEvent { line, cause },
        Err(LoopFault::WriteFault) => Status::WriteFault,
        Err(LoopFault::LinkFault) => Status::LinkFault,
        Err(LoopFault::Strange { to, frame }) => Status::Strange { to, frame },
        Err(LoopFault::NoMemory) => Status::NoMemory,
    }
}
