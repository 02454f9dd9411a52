ghost use Rattle.std.specs.Prelude.{◌≡◌, ◌≤◌, IsErrOf};
ghost use Rattle.span_base.specs.Counts.{Rose};
ghost use Rattle.span_node.specs.Traffic.{seen};
ghost use Rattle.span_node.specs.Loops.{LoopEnds};

use crate::fault::LoopFault;
use crate::running::Running;
use frame_link::Link;
use schedule_replay::Log;
use span_base::Sink;
use std::alloc::Global;

/// Runs a script over a link, and writes the text of the run as it comes. Behind each event the
/// link is given each message not given yet, in order; what arrives is delivered, as the first
/// message sent that it can be, until nothing does. It answers how many messages were sent.
///
/// The whole text is read first: nothing is written where it is no script. Where the loop ends
/// before the script does, the marks of the events so far are written.
pub fn run_loop<L: Link, K: Sink>(
    alloc: Global,
    text: &[u8],
    link: &mut L,
    out: &mut K,
) -> Result<u32, LoopFault>
    ensures ends { LoopEnds text.now (K.taken out.old) (K.taken out.new) (seen (L.sent link.old) (L.answers link.old) (L.honest link.old) (L.faithful link.old)) (seen (L.sent link.new) (L.answers link.new) (L.honest link.new) (L.faithful link.new)) result }

    ensures faults_stay { K.faults out.old ≤ K.faults out.new }
    ensures failed { IsErrOf result LoopFault.WriteFault → Rose (K.faults out.old) (K.faults out.new) }
    ensures link_faults_stay { L.faults link.old ≤ L.faults link.new }
    ensures link_failed { IsErrOf result LoopFault.LinkFault → Rose (L.faults link.old) (L.faults link.new) }
{
    let mut running = Running::open(alloc, text)?;
    let mut log = Log::make(alloc)?;
    loop {
        match running.next(alloc, link) {
            Ok(Some(marks)) => log.put(marks, out)?,
            Ok(None) => {
                let messages = running.messages();
                log.close(messages, out)?;
                return Ok(messages);
            }
            Err(fault) => {
                log.flush(out)?;
                return Err(fault);
            }
        }
    }
}
