ghost use Rattle.std.specs.Prelude.{◌≡◌, ◌+◌, ◌<◌, ℕ, [], ◌∷◌, ◌++◌, List, Some, is_some, length};
ghost use Rattle.wire_msg.specs.declared.message.Message.{Message};
ghost use Rattle.replica_journal.specs.Disk.{History, IsWithin};
ghost use Rattle.replica_journal.specs.Counting.{Counts, write_failed};
ghost use Rattle.replica_journal.specs.Records.{IsRecord, IsAtRest, body_of};
ghost use Rattle.replica_journal.specs.Appended.{Appended};
ghost use Rattle.replica_journal.specs.Steps.{Appends};

use crate::disk::Disk;
use span_base::DeviceFault;

/// Appends a record behind the closed gate at `gate`. `piece` is what stands behind the record's
/// gate, and then a closed gate. The record is safe before its gate is opened, and its gate is
/// before this answers.
pub fn append<D: Disk>(disk: &mut D, gate: u64, piece: &[u8]) -> Result<(), DeviceFault>
    requires within { IsWithin (D.told disk.old) (gate + 1) }
    requires room { gate < 4294967295 }

    ensures appended { (keys : ℕ) (before after : History) (messages : List Message) (message : Message) → D.told disk.old ≡ Some before → D.told disk.new ≡ Some after
        → IsAtRest keys before gate messages → IsRecord keys message → piece.now ≡ body_of message ++ 0 ∷ []
        → Appended keys before after gate (length piece.now) messages message result }
    ensures calls { Appends D.write_does D.sync_does gate piece.now disk.old disk.new result }
    ensures told { is_some (D.told disk.new) ≡ is_some (D.told disk.old) }
    ensures counts { Counts (D.faults disk.old) (D.faults disk.new) (D.calm disk.old) (D.calm disk.new) (write_failed result) }
{
    disk.write_at(gate + 1, piece)?;
    disk.sync()?;
    disk.write_at(gate, &[1])?;
    Ok(disk.sync()?)
}
