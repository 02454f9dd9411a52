ghost use Rattle.std.specs.Prelude.{◌≡◌, ◌<◌, ◌≤◌, ℕ, Bool, List, Option, Result, length, IfOk, is_err};
ghost use Rattle.replica_journal.specs.Disk.{History, IsWithin, TellsLength, TellsFrom, Writes, Syncs};
ghost use Rattle.replica_journal.specs.Counting.{Counts, write_failed};

use span_base::DeviceFault;

/// The disk failed.
#[derive(Clone, Copy, Debug, PartialEq, Eq)]
pub struct Failed;

impl From<Failed> for DeviceFault {
    ghost use Rattle.span_base.specs.declared.sink.DeviceFault.TheVariants as device;

    ghost from_gives = { λ _ fault. fault ≡ device.Failed };

    fn from(_: Failed) -> DeviceFault {
        DeviceFault::Failed
    }
}

/// One file on a disk, as bytes. What is written is safe from a crash only once a sync answers Ok.
pub trait Disk {
    ghost use Rattle.span_base.specs.declared.sink.DeviceFault.{DeviceFault};
    ghost use Rattle.replica_journal.specs.declared.disk.Failed.{Failed};
    ghost use Rattle.replica_journal.specs.Fitting.{IsSmall};

    /// All that happened to the disk, where it tells that: so what a read gives, and what a crash
    /// may leave at each moment.
    ghost told: { Self → Option History };

    /// How often the disk failed. It stands still at the end of a `u64`.
    ghost faults: { Self → ℕ };

    /// Whether it never fails.
    ghost calm: { Self → Bool };

    /// What a write at a place may make of it, and answer.
    ghost write_does: { Self → Self → ℕ → List ℕ → Result (Unit {0}) DeviceFault → Type 0 };

    /// What a sync may make of it, and answer.
    ghost sync_does: { Self → Self → Result (Unit {0}) Failed → Type 0 };

    /// How many bytes there are. A disk with more than 9,223,372,036,854,775,807 fails.
    fn len(&mut self) -> Result<u64, Failed>
        ensures tells { TellsLength (told self.old) result }
        ensures limit { IfOk result (λ n. n ≤ 9223372036854775807) }
        ensures stays { told self.new ≡ told self.old }
        ensures counts { Counts (faults self.old) (faults self.new) (calm self.old) (calm self.new) (is_err result) };

    /// Reads bytes from the place `at` on into the front of `buf`, and answers how many. None are
    /// the disk's end. What `buf` holds behind them is left open.
    fn read_at(&mut self, at: u64, buf: &mut [u8]) -> Result<usize, Failed>
        requires { 0 < length buf.old }

        ensures tells { TellsFrom (told self.old) at buf.new result }
        ensures within { IfOk result (λ n. n ≤ length buf.new) }
        ensures stays { told self.new ≡ told self.old }
        ensures counts { Counts (faults self.old) (faults self.new) (calm self.old) (calm self.new) (is_err result) };

    /// Writes over what stands from the place `at` on, and past the end. A write that finds no
    /// memory does nothing.
    fn write_at(&mut self, at: u64, piece: &[u8]) -> Result<(), DeviceFault>
        requires { IsWithin (told self.old) at }

        ensures does { write_does self.old self.new at piece.now result }
        ensures writes { Writes (told self.old) (told self.new) at piece.now result }
        ensures counts { Counts (faults self.old) (faults self.new) (calm self.old) (calm self.new) (write_failed result) };

    /// Makes what was written safe.
    fn sync(&mut self) -> Result<(), Failed>
        ensures does { sync_does self.old self.new result }
        ensures syncs { Syncs (told self.old) (told self.new) result }
        ensures counts { Counts (faults self.old) (faults self.new) (calm self.old) (calm self.new) (is_err result) };

    /// A value takes at most 4,294,967,296 bytes, so what keeps one can be kept in a list.
    ghost small: { IsSmall Self.row };
}
