//! How the opening of a journal begins.

ghost use Rattle.std.specs.Prelude.{◌≤◌, IfOk, IsErrOf, ℕ};
ghost use Rattle.replica_journal.specs.Counting.{Counts};
ghost use Rattle.replica_journal.specs.Opening.{open_failed};
ghost use Rattle.replica_journal.specs.Beginning.{Begins};

use crate::disk::Disk;
use crate::open_fault::OpenCause;

/// Makes safe what the disk holds, and gives an empty journal its closed gate. It answers how many
/// bytes there are.
pub(crate) fn begin<D: Disk>(disk: &mut D) -> Result<u64, OpenCause>
    ensures begins { Begins (D.told disk.old) (D.told disk.new) result }
    ensures some { IfOk result (λ end. 1 ≤ end) }
    ensures limit { IfOk result (λ end. end ≤ 9223372036854775807) }
    ensures undamaged { (at : ℕ) → IsErrOf result (OpenCause.Damaged at) → ⊥ }
    ensures counts { Counts (D.faults disk.old) (D.faults disk.new) (D.calm disk.old) (D.calm disk.new) (open_failed result) }
{
    disk.sync()?;
    let end = disk.len()?;
    if end > 1 {
        return Ok(end);
    }
    disk.write_at(0, &[0])?;
    disk.sync()?;
    Ok(1)
}
