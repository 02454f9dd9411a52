ghost use Rattle.std.specs.Prelude.{◌≡◌, ◌<◌, ◌≤◌, false, length, IfOk};
ghost use Rattle.replica_journal.specs.Counting.{Counts};
ghost use Rattle.replica_journal.specs.Opening.{open_failed};
ghost use Rattle.replica_journal.specs.Opened.{Opens};
ghost use Rattle.replica_journal.specs.Journaled.{IsKeptIn, disk_of, opened_of};

use crate::disk::Disk;
use crate::open_fault::OpenFault;
use crate::opening::{Opened, open_journal};
use crate::replay::Place;
use replica_core::Replica;
use std::alloc::Global;
use std::marker::Model;

/// A replica that writes each message that can change what it keeps to a journal, before it
/// answers.
#[derive(Drop)]
pub struct KeptReplica<D: Disk> {
    pub(crate) replica: Replica,
    /// Where the journal ended at the opening, or after the last message that it took.
    pub(crate) place: Place,
    /// Whether the disk failed, so that nothing is taken any more.
    pub(crate) is_shut: bool,
    /// What is written behind a gate. Its memory is used again.
    pub(crate) piece: Vec<u8>,
    pub(crate) disk: D,
}

impl<D: Disk> Model for KeptReplica<D> {
    ghost use Rattle.replica_journal.specs.Journaled.{Journaled, IsJournaled};

    ghost Value = { Journaled D };

    ghost view = { λ k. record { disk = k.disk; state = k.replica; place = k.place; shut = k.is_shut } };

    ghost invariant = { λ k. IsJournaled (D.told k.disk) k.replica k.place k.is_shut };
}

impl<D: Disk> KeptReplica<D> {
    /// Opens the journal on a disk as that of the replica of this number, with so many keys. A
    /// refusal hands the disk back.
    pub fn open(
        alloc: Global,
        mut disk: D,
        number: u8,
        keys: u16,
    ) -> Result<KeptReplica<D>, OpenFault<D>>
        requires number { number < 16 }
        requires keys { keys ≤ 1000 }
        ensures opens { Opens number keys (D.told disk) (D.told (disk_of result)) (opened_of result) }
        ensures number { IfOk result (λ kept. kept.state.number ≡ number) }
        ensures keys { IfOk result (λ kept. length kept.state.kept ≡ keys) }
        ensures open { IfOk result (λ kept. kept.shut ≡ false) }
        ensures counts { Counts (D.faults disk) (D.faults (disk_of result)) (D.calm disk) (D.calm (disk_of result)) (open_failed (opened_of result)) }
    {
        match open_journal(alloc, &mut disk, number, keys) {
            Ok(Opened { replica, place }) => Ok(KeptReplica {
                replica,
                place,
                is_shut: false,
                piece: Vec::new(alloc),
                disk,
            }),
            Err(cause) => Err(OpenFault { disk, cause }),
        }
    }

    /// How many bytes the journal has.
    pub(crate) fn size(&self) -> u64
        ensures size { result ≡ self.now.place.gate }
        ensures limit { result ≤ 9223372036854775807 }
    {
        self.place.gate
    }

    /// How many records the journal has.
    pub fn records(&self) -> u64
        ensures { result ≡ self.now.place.records }
    {
        self.place.records
    }

    /// The disk. Unless it failed, it is at rest with messages that made the replica's state.
    pub fn into_disk(self) -> D
        ensures disk { result ≡ self.disk }
        ensures kept { self.shut ≡ false → IsKeptIn (D.told result) self.state self.place }
    {
        let KeptReplica { disk, .. } = self;
        disk
    }
}
