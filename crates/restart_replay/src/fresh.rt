//! Replicas that kept nothing yet, on empty disks that never fail.

ghost use Rattle.std.specs.Prelude.{◌≡◌, ◌<◌, ◌≤◌, false, IsTrue, All, length, map, IfOk};
ghost use Rattle.std.specs.List.{range_with_len};
ghost use Rattle.replica_core.specs.Rule.{opening_state};
ghost use Rattle.replica_journal.specs.Calls.{is_calm};

use replica_journal::{KeptReplica, MemDisk, OpenCause, OpenFault};
use std::alloc::{AllocError, Global};

/// The replica of this number, that keeps nothing yet of so many keys.
pub(crate) fn kept_replica(
    alloc: Global,
    number: u8,
    keys: u16,
) -> Result<KeptReplica<MemDisk>, AllocError>
    requires number { number < 16 }
    requires keys { keys ≤ 1000 }
    ensures state { IfOk result (λ kept. kept.state ≡ opening_state number keys) }
    ensures open { IfOk result (λ kept. kept.shut ≡ false) }
    ensures calm { IfOk result (λ kept. IsTrue (is_calm kept.disk.calls)) }
    ensures empty { IfOk result (λ kept. kept.place.gate ≡ 0) }
{
    let disk = MemDisk::make(alloc, Vec::new(alloc));
    match KeptReplica::open(alloc, disk, number, keys) {
        Ok(kept) => Ok(kept),
        Err(OpenFault { cause, .. }) => match cause {
            OpenCause::NoMemory(error) => Err(error),
            OpenCause::DiskFault | OpenCause::Damaged { .. } => unreachable!(),
        },
    }
}

/// The replicas 0 to `replicas - 1`.
pub(crate) fn kept_replicas(
    alloc: Global,
    replicas: u8,
    keys: u16,
) -> Result<Vec<KeptReplica<MemDisk>>, AllocError>
    requires replicas { replicas ≤ 16 }
    requires keys { keys ≤ 1000 }
    ensures states { IfOk result (λ made. map (λ kept. kept.state) made.items ≡ map (λ number. opening_state number keys) (range_with_len 0 replicas)) }
    ensures fresh { IfOk result (λ made. All (λ kept. (kept.shut ≡ false) × IsTrue (is_calm kept.disk.calls) × (kept.place.gate ≡ 0)) made.items) }
{
    let mut made = Vec::with_capacity(alloc, usize::from(replicas))?;
    for number in 0..replicas {
        made.push(kept_replica(alloc, number, keys)?)?;
    }
    Ok(made)
}
