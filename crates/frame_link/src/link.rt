ghost use Rattle.std.specs.Prelude.{◌≡◌, ◌≤◌, ℕ, List, Option, Bool, length, IfOk, IsErrOf};
ghost use Rattle.span_base.specs.Counts.{Rose};

use span_base::DeviceFault;

/// What a link gives next.
#[derive(Clone, Copy, Debug, PartialEq, Eq)]
pub enum Arrival {
    /// No frame is there.
    Nothing,
    /// A frame for the node `to`, in the first `len` bytes of the buffer.
    Frame { to: u16, len: usize },
}

/// Carries frames to nodes, and gives back what arrives.
pub trait Link {
    ghost use Rattle.frame_link.specs.Frames.{Sent, Sends, Answers, IsShort, IsHonest, IsFaithful, answer_of};

    /// The frames sent so far, each with its destination, where the link tells them.
    ghost sent: { Self → Option (List Sent) };

    /// What `next` answered so far, where the link tells it: nothing, or a frame with its
    /// destination.
    ghost answers: { Self → Option (List (Option Sent)) };

    /// Whether each arrival is a frame that was sent, with its destination, where the link tells
    /// it.
    ghost honest: { Self → Option Bool };

    /// Whether the arrivals are the frames sent, each once and in order, and nothing comes exactly
    /// where none is left, where the link tells it.
    ghost faithful: { Self → Option Bool };

    /// How often the link failed. It stands still at the end of a `u64`.
    ghost faults: { Self → ℕ };

    /// Sends a frame to a node.
    fn send(&mut self, to: u16, frame: &[u8]) -> Result<(), DeviceFault>
        requires { length frame.now ≤ 8192 }

        ensures sends { Sends (sent self.old) (sent self.new) to frame.now result }
        ensures answers_stay { answers self.new ≡ answers self.old }

        ensures honest_stays { honest self.new ≡ honest self.old }
        ensures faithful_stays { faithful self.new ≡ faithful self.old }

        ensures faults_stay { faults self.old ≤ faults self.new }
        ensures failed { IsErrOf result DeviceFault.Failed → Rose (faults self.old) (faults self.new) }
        ensures no_memory { IsErrOf result DeviceFault.NoMemory → faults self.new ≡ faults self.old };

    /// The next arrival. What `buf` holds behind its frame is left open.
    fn next(&mut self, buf: &mut [u8]) -> Result<Arrival, DeviceFault>
        requires { 8192 ≤ length buf.old }

        ensures short { IfOk result IsShort }
        ensures answered { Answers (answers self.old) (answers self.new) buf.new result }
        ensures sent_stays { sent self.new ≡ sent self.old }

        ensures honestly { IfOk result (λ arrival. IsHonest (honest self.old) (sent self.old) (answer_of buf.new arrival)) }
        ensures faithfully { IfOk result (λ arrival. IsFaithful (faithful self.old) (sent self.old) (answers self.old) (answer_of buf.new arrival)) }
        ensures honest_stays { honest self.new ≡ honest self.old }
        ensures faithful_stays { faithful self.new ≡ faithful self.old }

        ensures faults_stay { faults self.old ≤ faults self.new }
        ensures failed { IsErrOf result DeviceFault.Failed → Rose (faults self.old) (faults self.new) }
        ensures no_memory { IsErrOf result DeviceFault.NoMemory → faults self.new ≡ faults self.old };
}
