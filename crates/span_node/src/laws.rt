//! What is true of every loop.

ghost use Rattle.std.specs.Prelude.{◌≡◌, ◌++◌, ℕ, List, [], Option, Some, true, Result, Ok, Err};
ghost use Rattle.world_core.specs.declared.event.Header.{Header};
ghost use Rattle.world_core.specs.declared.event.Event.{Event};
ghost use Rattle.world_core.specs.State.{opening};
ghost use Rattle.world_core.specs.Run.{IsHeader, MayRun};
ghost use Rattle.schedule_text.specs.declared.setting.Form.TheVariants.{Script};
ghost use Rattle.schedule_text.specs.Schedules.{Schedule, schedule_of};
ghost use Rattle.span_node.specs.declared.fault.LoopFault.{LoopFault};
ghost use Rattle.span_node.specs.declared.fault.LoopFault.TheVariants.{Strange};
ghost use Rattle.span_node.specs.Traffic.{Traffic, IsFresh};
ghost use Rattle.span_node.specs.Rounds.{Round, loop_events, script_of};
ghost use Rattle.span_node.specs.InOrder.{AreInOrder};
ghost use Rattle.span_node.specs.Loops.{LoopEnds, RunsInOrder};
ghost use Rattle.frame_link.specs.Frames.{Sent};
ghost use Rattle.span_node.specs.Meeting.{IsMet, IsStrangeOrFailed};
ghost use Rattle.span_node.specs.WholeLoops.{IsTakenInOrder, IsTakenAsAnswered, IsOverOrFailed};

use schedule_text::laws::schedules_may_happen;

/// The header of a script opens a store, and each event of its loop may happen where the run comes
/// to it, whatever arrives: so what holds of every run holds of those of loops, to the end and up
/// to any event.
pub fn looped_runs_may_run()
    ensures header { (text : List ℕ) (schedule : Schedule) → schedule_of Script text ≡ Ok schedule → IsHeader schedule.header }
    ensures events { (text : List ℕ) (schedule : Schedule) (rounds : List Round) (left events more : List Event) → schedule_of Script text ≡ Ok schedule → script_of rounds ++ left ≡ schedule.events → events ++ more ≡ loop_events schedule.header rounds → MayRun events (opening schedule.header) }
{
    schedules_may_happen();
}

/// Over an honest link on which nothing was sent before, no loop ends with a strange frame.
#[tactic(auto, using(crate::proofs::Ordered::never_strange))]
pub fn honest_links_bring_nothing_strange()
    ensures { (text : List ℕ) (old new : Option (List ℕ)) (from now : Traffic) (to : ℕ) (frame : List ℕ) → from.honest ≡ Some true → from.sent ≡ Some [] → LoopEnds text old new from now (Err (Strange to frame)) → ⊥ }
{}

/// A frame that none of the messages sent is, among the answers that a link tells, is told as
/// strange, but for want of memory and a sink that failed.
pub fn strange_frames_are_told()
    ensures { (text : List ℕ) (schedule : Schedule) (old new : Option (List ℕ)) (from now : Traffic) (sent : Sent) (result : Result ℕ LoopFault) → schedule_of Script text ≡ Ok schedule → IsMet schedule from now sent → LoopEnds text old new from now result → IsStrangeOrFailed sent result }
{}

/// Over a faithful link on which nothing was sent before, and from which nothing came, a loop that
/// ends well is the one that delivers each message once and in the order of sending, until none is
/// left, before the script goes on. A script has one such loop.
#[tactic(auto, using(crate::proofs::Ordered::runs_in_order, crate::proofs::Ordered::one_order))]
pub fn faithful_links_run_in_order()
    ensures runs { (text : List ℕ) (old new : Option (List ℕ)) (from now : Traffic) (messages : ℕ) → IsFresh from → LoopEnds text old new from now (Ok messages) → RunsInOrder text old new now messages }
    ensures one { (header : Header) (script events others : List Event) → AreInOrder header script events → AreInOrder header script others → events ≡ others }
{}

/// Over a link on which nothing was sent before, a script goes to its end but for want of memory, or
/// a sink or a link that failed: over a faithful link where no event of its loop in order is
/// refused, and over an honest one where none is of those that its answers make, and where these
/// events are no more than a loop may have.
pub fn whole_scripts_are_run()
    ensures faithful { (text : List ℕ) (schedule : Schedule) (old new : Option (List ℕ)) (from now : Traffic) (result : Result ℕ LoopFault) → schedule_of Script text ≡ Ok schedule → IsTakenInOrder schedule → IsFresh from → LoopEnds text old new from now result → IsOverOrFailed result }
    ensures honest { (text : List ℕ) (schedule : Schedule) (old new : Option (List ℕ)) (from now : Traffic) (result : Result ℕ LoopFault) → schedule_of Script text ≡ Ok schedule → IsTakenAsAnswered schedule from now → from.honest ≡ Some true → from.sent ≡ Some [] → LoopEnds text old new from now result → IsOverOrFailed result }
{}
