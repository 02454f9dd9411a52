ghost use Rattle.std.specs.Prelude.{◌≡◌, ◌<◌, ◌≤◌, ℕ, Option, length, IfOk, IsErrOf};
ghost use Rattle.span_base.specs.Counts.{Rose};
ghost use Rattle.span_base.specs.Files.{Files, Reads};

/// Why a shelf gives no bytes.
#[derive(Clone, Copy, Debug, PartialEq, Eq)]
pub enum ShelfError {
    /// There is no file of this name.
    Absent,
    /// The shelf failed.
    Failed,
    /// The shelf found no memory.
    NoMemory,
}

/// Named files that can be read.
pub trait Shelf {
    /// The files, where the shelf tells them.
    ghost files: { Self → Option Files };

    /// How often the shelf failed. It stands still at the end of a `u64`.
    ghost faults: { Self → ℕ };

    /// How often a file was absent. It stands still at the end of a `u64`.
    ghost absences: { Self → ℕ };

    /// Reads bytes of a file from the place `at` on into the front of `buf`, and answers how
    /// many. None are the end of the file. What `buf` holds behind them is left open.
    fn read_at(&mut self, name: &str, at: u64, buf: &mut [u8]) -> Result<usize, ShelfError>
        requires { 0 < length buf.old }

        ensures within { IfOk result (λ n. n ≤ length buf.new) }
        ensures reads { Reads (files self.old) name.now at buf.new result }
        ensures files_stay { files self.new ≡ files self.old }

        ensures faults_stay { faults self.old ≤ faults self.new }
        ensures absences_stay { absences self.old ≤ absences self.new }
        ensures failed { IsErrOf result ShelfError.Failed → Rose (faults self.old) (faults self.new) }
        ensures absent { IsErrOf result ShelfError.Absent → Rose (absences self.old) (absences self.new) }
        ensures no_memory { IsErrOf result ShelfError.NoMemory → (faults self.new ≡ faults self.old) × (absences self.new ≡ absences self.old) };
}
