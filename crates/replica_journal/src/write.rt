ghost use Rattle.std.specs.Prelude.{◌≡◌, false, ◌+◌, ◌≤◌, [], ◌∷◌, ◌++◌, length, vec_len, vec_capacity, OnOk, OnErr};
ghost use Rattle.replica_journal.specs.Disk.{put, synced};
ghost use Rattle.replica_journal.specs.Memory.{history_of};

use span_base::Bytes;
use std::alloc::{AllocError, Global};

/// A write to a disk in memory, which keeps it to tell what a crash may have left before.
#[derive(Debug, Drop)]
pub(crate) struct Write {
    pub(crate) at: u64,
    pub(crate) piece: Bytes,
    /// Whether a sync followed before the next write.
    pub(crate) is_safe: bool,
}

/// Takes the memory for a write, and notes it.
pub(crate) fn log(
    alloc: Global,
    bytes: &mut Vec<u8>,
    writes: &mut Vec<Write>,
    at: u64,
    piece: &[u8],
) -> Result<(), AllocError>
    ensures bytes { bytes.new.items ≡ bytes.old.items }
    ensures space { OnOk result (vec_len bytes.new + length piece.now ≤ vec_capacity bytes.new) }
    ensures ok { OnOk result (writes.new.items ≡ writes.old.items ++ record { at = at; piece = piece.now; is_safe = false } ∷ []) }
    ensures err { OnErr result (writes.new.items ≡ writes.old.items) }
{
    bytes.reserve(piece.len())?;
    let piece = Bytes::from_vec(piece.to_vec(alloc)?);
    writes.push(Write {
        at,
        piece,
        is_safe: false,
    })?;
    Ok(())
}

/// Puts a piece into the place of what stands there, and the rest behind it. The memory is there.
pub(crate) fn write_over(bytes: &mut Vec<u8>, at: usize, piece: &[u8])
    requires within { at ≤ vec_len bytes.old }
    requires space { at + length piece.now ≤ vec_capacity bytes.old }
    ensures put { bytes.new.items ≡ put bytes.old.items at piece.now }
    ensures room { vec_capacity bytes.old ≤ vec_capacity bytes.new }
{
    let over = piece.len().min(bytes.len() - at);
    let (front, behind) = piece.split_at(over);
    bytes[at..at + over].copy_from_slice(front);
    bytes.extend_from_slice(behind).unwrap();
}

/// Notes that a sync followed the last write.
pub(crate) fn make_safe(writes: &mut Vec<Write>)
    ensures { history_of writes.new.items ≡ synced (history_of writes.old.items) }
{
    if let Some(mut last) = writes.pop() {
        last.is_safe = true;
        writes.push(last).unwrap();
    }
}
