ghost use Rattle.std.specs.Prelude.{◌≡◌, ◌≤◌, IsTrue, is_err};
ghost use Rattle.span_base.specs.Counts.{Rose};
ghost use Rattle.span_service.specs.Doors.{Accepts};

use crate::Stream;
use replica_journal::Failed;

/// Accepts connections, one after another. It is the stream of the present one; before the first
/// there is nothing to read, and a write fails.
pub trait Door: Stream {
    /// Ends the present connection, and waits for the next one, which is the stream from then on.
    fn accept(&mut self) -> Result<(), Failed>
        ensures accepts { Accepts (Self.around self.old).told (Self.coming self.old) (Self.taken self.old) (Self.faults self.old) (Self.coming self.new) (Self.taken self.new) (Self.around self.new).told result }
        ensures faults_same { Self.faults self.new ≡ Self.faults self.old }

        ensures refusals_stay { (Self.around self.old).refusals ≤ (Self.around self.new).refusals }
        ensures refused { IsTrue (is_err result) → Rose (Self.around self.old).refusals (Self.around self.new).refusals };
}
