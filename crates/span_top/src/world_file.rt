//! The world in a file.
ghost use Rattle.std.specs.Prelude.{◌≡◌, ◌≤◌, IsErrOf};
ghost use Rattle.span_base.specs.Counts.{Rose};
ghost use Rattle.world_text.specs.ReadWorld.{Reads};
ghost use Rattle.span_top.specs.WorldFile.{ReadsWorld, BytesRead, names_toml, world_says};

use crate::status::Status;
use crate::whole_file::read_file;
use span_base::{Bytes, Shelf};
use std::alloc::Global;
use workload::World;
use world_text::{WorldFault, read_csv, read_toml};

/// The greatest number of bytes of a world's file.
pub(crate) const WORLD_BYTES: u64 = 16_777_216;

/// The world in the named file, which is the first of the words, or how the run ends without it.
#[tactic(auto, using(crate::proofs::WorldFiles::reads))]
pub fn read_world<S: Shelf>(alloc: Global, name: &str, shelf: &mut S) -> Result<World, Status>
    ensures reads { ReadsWorld (S.files shelf.old) name.now result }
    ensures read_fault { IsErrOf result Status.ReadFault → Rose (S.faults shelf.old) (S.faults shelf.new) }
    ensures absent { IsErrOf result (Status.Absent 0) → Rose (S.absences shelf.old) (S.absences shelf.new) }
    ensures files_stay { S.files shelf.new ≡ S.files shelf.old }
    ensures faults_stay { S.faults shelf.old ≤ S.faults shelf.new }
    ensures absences_stay { S.absences shelf.old ≤ S.absences shelf.new }
{
    match read_file(alloc, name, WORLD_BYTES, shelf) {
        Ok(bytes) => world_in(alloc, name, &bytes),
        Err(status) => Err(status),
    }
}

// The world that the bytes of a file of this name are.
#[tactic(auto, using(crate::proofs::WorldFiles::refuses))]
fn world_in(alloc: Global, name: &str, bytes: &Bytes) -> Result<World, Status>
    ensures reads { BytesRead name.now bytes.now result }
    ensures no_read_fault { ¬ (IsErrOf result Status.ReadFault) }
    ensures no_absent { ¬ (IsErrOf result (Status.Absent 0)) }
{
    match world_of_text(alloc, name, bytes.as_slice()) {
        Ok(world) => Ok(world),
        Err(WorldFault::Bad { line, cause }) => Err(Status::BadInput {
            file: 0,
            line,
            cause,
        }),
        Err(WorldFault::Limit { line, what, number }) => Err(Status::TooLarge {
            file: 0,
            line,
            what,
            number,
        }),
        Err(WorldFault::NoMemory(_)) => Err(Status::NoMemory),
    }
}

// Whether the name ends as that of a TOML file.
pub(crate) fn names_toml(name: &str) -> bool
    ensures { result ≡ names_toml name.now }
{
    name.as_bytes().ends_with(b".toml")
}

// The world of a text, which is TOML where the name says so, else CSV.
fn world_of_text(alloc: Global, name: &str, text: &[u8]) -> Result<World, WorldFault>
    ensures { Reads (world_says name.now text.now) result }
{
    if names_toml(name) {
        read_toml(alloc, text)
    } else {
        read_csv(alloc, text)
    }
}
