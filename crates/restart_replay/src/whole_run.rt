ghost use Rattle.std.specs.Prelude.{◌≤◌, IsErrOf};
ghost use Rattle.span_base.specs.Counts.{Rose};
ghost use Rattle.restart_replay.specs.Replays.{RestartEnds};

use crate::running::Running;
use schedule_replay::{Log, ReplayFault};
use span_base::Sink;
use std::alloc::Global;

/// Runs a schedule whose replicas stand on journals, crash and come back, and writes the text of
/// the run as it comes. It answers how many messages were sent. The whole text is read first:
/// nothing is written where it is no such schedule. Where the run refuses an event, the marks of
/// those before it are written, and its line is told. In what is written then, or of a whole run,
/// the history of each strong key is that of one register.
pub fn replay_kept<K: Sink>(alloc: Global, text: &[u8], out: &mut K) -> Result<u32, ReplayFault>
    ensures ends { RestartEnds text.now (K.taken out.old) (K.taken out.new) result }
    ensures faults_stay { K.faults out.old ≤ K.faults out.new }
    ensures failed { IsErrOf result ReplayFault.WriteFault → Rose (K.faults out.old) (K.faults out.new) }
{
    let mut running = Running::open(alloc, text)?;
    let mut log = Log::make(alloc)?;
    loop {
        match running.next(alloc) {
            Ok(Some(marks)) => log.put(marks, out)?,
            Ok(None) => {
                let messages = running.messages();
                log.close(messages, out)?;
                return Ok(messages);
            }
            Err(fault) => {
                log.flush(out)?;
                return Err(fault);
            }
        }
    }
}
