ghost use Rattle.std.specs.Prelude.{◌≡◌, ◌<◌, ◌≤◌, ℕ, List, Option, IsTrue, length, is_err, IfOk, IsErrOf};
ghost use Rattle.span_base.specs.Counts.{Rose};
ghost use Rattle.span_base.specs.Taken.{Takes};
ghost use Rattle.span_service.specs.Coming.{Gives};
ghost use Rattle.span_service.specs.Doors.{Around};

use replica_journal::Failed;
use span_base::DeviceFault;

/// Gives bytes, and takes bytes, as a connection does.
pub trait Stream {
    /// The bytes that it has yet to give, where it tells them.
    ghost coming: { Self → Option (List ℕ) };

    /// The bytes taken so far, where it tells them.
    ghost taken: { Self → Option (List ℕ) };

    /// How often it failed. It stands still at the end of a `u64`.
    ghost faults: { Self → ℕ };

    /// What a door has around its present connection: no read or write changes it.
    ghost around: { Self → Around };

    /// Reads bytes into the front of `buf`, and answers how many. None are the stream's end. What
    /// `buf` holds behind them is left open.
    fn read(&mut self, buf: &mut [u8]) -> Result<usize, Failed>
        requires { 0 < length buf.old }

        ensures within { IfOk result (λ n. n ≤ length buf.new) }
        ensures gives { Gives (coming self.old) (coming self.new) buf.new result }
        ensures taken_stays { taken self.new ≡ taken self.old }
        ensures around_stays { around self.new ≡ around self.old }

        ensures faults_stay { faults self.old ≤ faults self.new }
        ensures failed { IsTrue (is_err result) → Rose (faults self.old) (faults self.new) };

    /// Takes a front of the piece, and answers how many bytes that are. A stream that can take
    /// nothing of it fails.
    fn write(&mut self, piece: &[u8]) -> Result<usize, DeviceFault>
        requires { 0 < length piece.now }

        ensures some { IfOk result (λ n. (1 ≤ n) × (n ≤ length piece.now)) }
        ensures takes { Takes (taken self.old) (taken self.new) piece.now result }
        ensures coming_stays { coming self.new ≡ coming self.old }
        ensures around_stays { around self.new ≡ around self.old }

        ensures faults_stay { faults self.old ≤ faults self.new }
        ensures failed { IsErrOf result DeviceFault.Failed → Rose (faults self.old) (faults self.new) }
        ensures no_memory { IsErrOf result DeviceFault.NoMemory → faults self.new ≡ faults self.old };
}
