ghost use Rattle.std.specs.Prelude.{◌≡◌, ◌<◌, ◌≤◌, length, IfOk};
ghost use Rattle.replica_journal.specs.Counting.{Counts};
ghost use Rattle.replica_journal.specs.Opening.{open_failed};
ghost use Rattle.replica_journal.specs.Opened.{Opens};

use crate::beginning::begin;
use crate::disk::Disk;
use crate::open_fault::OpenCause;
use crate::replay::{Place, replay};
use replica_core::Replica;
use std::alloc::Global;

/// A replica as its journal leaves it.
#[derive(Debug, Drop)]
pub struct Opened {
    pub replica: Replica,
    /// Where the journal ends.
    pub place: Place,
}

/// Opens the journal of the replica of this number, with so many keys: the replica takes the
/// message of each open record. The disk is synced first, and one with at most one byte gets a
/// closed gate. Of each byte that is read some are read twice, at most a thirtieth.
pub fn open_journal<D: Disk>(
    alloc: Global,
    disk: &mut D,
    number: u8,
    keys: u16,
) -> Result<Opened, OpenCause>
    requires number { number < 16 }
    requires keys { keys ≤ 1000 }
    ensures opens { Opens number keys (D.told disk.old) (D.told disk.new) result }
    ensures place { IfOk result (λ opened. (opened.place.records ≤ opened.place.gate) × (opened.place.gate ≤ 9223372036854775807)) }
    ensures number { IfOk result (λ opened. opened.replica.number ≡ number) }
    ensures keys { IfOk result (λ opened. length opened.replica.kept ≡ keys) }
    ensures counts { Counts (D.faults disk.old) (D.faults disk.new) (D.calm disk.old) (D.calm disk.new) (open_failed result) }
{
    let end = begin(disk)?;
    let mut replica = Replica::make(alloc, number, keys)?;
    let place = replay(alloc, disk, end, &mut replica, keys)?;
    Ok(Opened { replica, place })
}
