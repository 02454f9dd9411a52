ghost use Rattle.std.specs.Prelude.{true, false};
ghost use Rattle.world_core.specs.Rows.{two_proxies};
ghost use Rattle.restart_law.specs.Laws.{StepsAreLimited, UnlimitedRegistersAreKept, RestartRunsAreRuns, RestartRegistersAreKept};
ghost use Rattle.restart_law.specs.Rows.{Leaves, crashed_write, after_kept, after_lost, kept_marks, lost_marks};

/// In a store whose messages pass no limit an event does what it would without limits, unless its
/// own messages pass one: then it is refused.
pub fn steps_are_limited()
    ensures { StepsAreLimited }
{}

/// For every header with sound policies and every list of events, the history of each strong key
/// is that of one register also where nothing limits the messages.
pub fn unlimited_registers_are_kept()
    ensures { UnlimitedRegistersAreKept }
{}

/// For each restart run there is a run of the store without limits on its messages that has the
/// same marks, actors and messages: where a journal kept the message of a crash, it delivers the
/// message, and what the replica answers to it is never delivered.
pub fn restart_runs_are_runs()
    ensures { RestartRunsAreRuns }
{}

/// For every header with sound policies and every list of events and crashes, the history of each
/// strong key is that of one register.
pub fn restart_registers_are_kept()
    ensures { RestartRegistersAreKept }
{}

/// Small restart runs leave the marks, and send as many messages, as were reckoned by hand: a write
/// whose value one replica kept at its crash, and the same where it lost it.
#[tactic(auto, using(crate::proofs::Rows::kept_leaves, crate::proofs::Rows::lost_leaves, crate::proofs::Rows::torn_leaves))]
pub fn worked_restart_runs()
    ensures kept { Leaves two_proxies (crashed_write 4 true after_kept) kept_marks 18 }
    ensures lost { Leaves two_proxies (crashed_write 4 false after_lost) lost_marks 13 }
    ensures torn { Leaves two_proxies (crashed_write 2 true after_lost) lost_marks 13 }
{}
