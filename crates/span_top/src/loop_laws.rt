//! What is true of every loop.

ghost use Rattle.span_top.specs.LoopLaws.{WholeScriptsAreRun, HonestLoopsAreRun, StrangeFramesAreTold};

use span_node::{strange_frames_are_told, whole_scripts_are_run};

/// Over a link on which nothing was sent before, `span loop` answers `Done`, but for want of memory,
/// or a read, a write or a link that failed: over a faithful link where no event of the script's
/// loop in order is refused, and over an honest one where none is of those that its answers make.
pub fn whole_scripts_are_looped()
    ensures faithful { WholeScriptsAreRun }
    ensures honest { HonestLoopsAreRun }
{
    whole_scripts_are_run();
}

/// A frame that none of the messages sent is, among the answers that the link tells, ends `span loop`
/// with `Strange` and that frame, but for want of memory, or a read or a write that failed.
pub fn strange_frames_end_loops()
    ensures { StrangeFramesAreTold }
{
    strange_frames_are_told();
}
