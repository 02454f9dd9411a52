//! A file, read whole.
ghost use Rattle.std.specs.Prelude.{◌≡◌, ◌≤◌, ◌<◌, ◌^◌, IsErrOf};
ghost use Rattle.span_base.specs.Counts.{Rose};
ghost use Rattle.span_top.specs.WholeFile.{ReadsFile};

use crate::status::Status;
use span_base::{Bytes, FileFault, Shelf, What, read_whole};
use std::alloc::Global;

/// The bytes of the named file, which is the first of the words and may have at most `limit` bytes, or
/// how the run ends without them.
#[tactic(auto, using(crate::proofs::WholeFiles::reads))]
pub fn read_file<S: Shelf>(
    alloc: Global,
    name: &str,
    limit: u64,
    shelf: &mut S,
) -> Result<Bytes, Status>
    ensures reads { ReadsFile (S.files shelf.old) name.now limit result }
    ensures read_fault { IsErrOf result Status.ReadFault → Rose (S.faults shelf.old) (S.faults shelf.new) }
    ensures absent { IsErrOf result (Status.Absent 0) → Rose (S.absences shelf.old) (S.absences shelf.new) }
    ensures files_stay { S.files shelf.new ≡ S.files shelf.old }
    ensures faults_stay { S.faults shelf.old ≤ S.faults shelf.new }
    ensures absences_stay { S.absences shelf.old ≤ S.absences shelf.new }
{
    match read_whole(alloc, shelf, name, limit) {
        Ok(bytes) => Ok(bytes),
        Err(FileFault::Absent) => Err(Status::Absent { file: 0 }),
        Err(FileFault::ReadFault) => Err(Status::ReadFault),
        Err(FileFault::TooLarge) => Err(Status::TooLarge {
            file: 0,
            line: 0,
            what: What::Bytes,
            number: u128::from(limit) + 1,
        }),
        Err(FileFault::NoMemory) => Err(Status::NoMemory),
    }
}
