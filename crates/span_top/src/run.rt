ghost use Rattle.std.specs.Prelude.{◌≡◌, ◌↔◌, ◌≤◌, None};
ghost use Rattle.span_base.specs.Counts.{Rose};
ghost use Rattle.span_top.specs.Words.{command_of};
ghost use Rattle.span_node.specs.Traffic.{seen};
ghost use Rattle.span_top.specs.Spans.{SpanEnds};

use crate::audit_command::audit_log;
use crate::check_command::check;
use crate::command::{Command, command_of};
use crate::gen_command::generate_calls;
use crate::loop_command::loop_script;
use crate::plan_command::plan;
use crate::replay_command::replay_schedule;
use crate::replay_kept_command::replay_kept_schedule;
use crate::status::Status;
use frame_link::Link;
use planner::Watch;
use span_base::{Shelf, Sink, Word};
use std::alloc::Global;

/// Does what the words ask, with files from the shelf, the output to the sink, and the messages of
/// `loop` over the link. Who waits for a plan may look on.
#[tactic(auto, using(crate::proofs::Endings::never, crate::proofs::Auditing::never, crate::proofs::Generating::never, crate::proofs::Replaying::never, crate::proofs::Restarting::never, crate::proofs::Checking::checks_usage, crate::proofs::Looping::never))]
pub fn span<S: Shelf, K: Sink, L: Link, W: Watch>(
    alloc: Global,
    words: &[Word],
    shelf: &mut S,
    out: &mut K,
    link: &mut L,
    watch: &mut W,
) -> Status
    ensures ends { SpanEnds words.now (S.files shelf.old) (K.taken out.old) (K.taken out.new) (seen (L.sent link.old) (L.answers link.old) (L.honest link.old) (L.faithful link.old)) (seen (L.sent link.new) (L.answers link.new) (L.honest link.new) (L.faithful link.new)) result }
    ensures usage { (result ≡ Status.Usage) ↔ (command_of words.now ≡ None) }
    ensures read_fault { result ≡ Status.ReadFault → Rose (S.faults shelf.old) (S.faults shelf.new) }
    ensures absent { result ≡ Status.Absent 0 → Rose (S.absences shelf.old) (S.absences shelf.new) }
    ensures absent_plan { result ≡ Status.Absent 1 → Rose (S.absences shelf.old) (S.absences shelf.new) }
    ensures write_fault { result ≡ Status.WriteFault → Rose (K.faults out.old) (K.faults out.new) }
    ensures link_fault { result ≡ Status.LinkFault → Rose (L.faults link.old) (L.faults link.new) }
    ensures faults_stay { S.faults shelf.old ≤ S.faults shelf.new }
    ensures absences_stay { S.absences shelf.old ≤ S.absences shelf.new }
    ensures write_faults_stay { K.faults out.old ≤ K.faults out.new }
    ensures link_faults_stay { L.faults link.old ≤ L.faults link.new }
{
    match command_of(words) {
        None => Status::Usage,
        Some(Command::Audit { log }) => audit_log(alloc, log, shelf, out),
        Some(Command::Check { world, plan }) => check(alloc, world, plan, shelf, out),
        Some(Command::Replay { schedule }) => replay_schedule(alloc, schedule, shelf, out),
        Some(Command::ReplayKept { schedule }) => {
            replay_kept_schedule(alloc, schedule, shelf, out)
        }
        Some(Command::Loop { script }) => loop_script(alloc, script, shelf, out, link),
        Some(Command::Gen { calls }) => generate_calls(alloc, calls, out),
        Some(Command::Plan { world, budget }) => plan(alloc, world, budget, shelf, out, watch),
    }
}
