//! What a crash keeps of a disk in memory.

ghost use Rattle.std.specs.Prelude.{◌≡◌, ◌≤◌, length, vec_capacity};
ghost use Rattle.replica_journal.specs.Disk.{bytes_of, IsLawfulHistory};
ghost use Rattle.replica_journal.specs.Memory.{crashed, history_of, safe_part};

use crate::write::{Write, make_safe, write_over};

/// Keeps all that was written, or what was safe alone.
pub(crate) fn keep(bytes: &mut Vec<u8>, writes: &mut Vec<Write>, new: bool)
    requires lawful { IsLawfulHistory (history_of writes.old.items) }
    requires bytes { bytes.old.items ≡ bytes_of (history_of writes.old.items) }
    ensures history { history_of writes.new.items ≡ crashed new (history_of writes.old.items) }
    ensures bytes { bytes.new.items ≡ bytes_of (history_of writes.new.items) }
    ensures shorter { length bytes.new.items ≤ length bytes.old.items }
{
    if new {
        make_safe(writes);
    } else {
        drop_unsafe(writes);
        rewrite(bytes, writes.as_slice());
    }
}

// Drops the writes behind the last one that is safe.
fn drop_unsafe(writes: &mut Vec<Write>)
    ensures { history_of writes.new.items ≡ safe_part (history_of writes.old.items) }
{
    while let Some(last) = writes.pop() {
        if last.is_safe {
            writes.push(last).unwrap();
            return;
        }
    }
}

// Puts the writes down anew, from the first on. The memory is there.
fn rewrite(bytes: &mut Vec<u8>, writes: &[Write])
    requires lawful { IsLawfulHistory (history_of writes.now) }
    requires space { length (bytes_of (history_of writes.now)) ≤ vec_capacity bytes.old }
    ensures { bytes.new.items ≡ bytes_of (history_of writes.now) }
{
    bytes.clear();
    for write in writes {
        write_over(bytes, write.at as usize, write.piece.as_slice());
    }
}
