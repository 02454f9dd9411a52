ghost use Rattle.world_text.specs.ReadWorld.{Reads, csv_says};

use crate::draft::Draft;
use crate::fault::WorldFault;
use csv::ReaderBuilder;
use std::alloc::{AllocError, Global};
use workload::World;

/// The world of a text in CSV, of version 1 or 2, or its first fault. The records are taken one by
/// one.
pub fn read_csv(alloc: Global, text: &[u8]) -> Result<World, WorldFault>
    ensures { Reads (csv_says text.now) result }
{
    let rows = ReaderBuilder::new()
        .has_headers(false)
        .flexible(true)
        .from_reader(alloc, text)
        .into_byte_records();
    let mut draft = Draft::make(alloc)?;
    let mut line: u64 = 1;
    for row in rows {
        let Ok(row) = row else {
            // Over a slice nothing but memory can fail.
            return Err(WorldFault::NoMemory(AllocError));
        };
        draft.take_row(alloc, line, &row)?;
        line += 1;
    }
    draft.complete_at(line)
}
