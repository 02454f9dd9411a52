//! What is true of every replay, and of the audit of what it wrote.

ghost use Rattle.span_top.specs.ReplayLaws.{ReplaysPassTheAudit, UnbrokenLogsAreAudited, WholeRunsAreReplayed};

use history_audit::audits_answer_alike;
use log_law::replayed_logs_are_read_back;
use register_order::unbroken_logs_are_registers;

/// A schedule none of whose events is refused is replayed to its end: but for want of memory, a
/// read or a write that failed, `span` answers `Done`.
pub fn whole_runs_are_replayed()
    ensures { WholeRunsAreReplayed }
{}

/// A log that breaks no clause is audited with the answer `Done`, but for want of memory, a read or
/// a write that failed.
pub fn unbroken_logs_are_audited()
    ensures { UnbrokenLogsAreAudited }
{
    audits_answer_alike();
    unbroken_logs_are_registers();
}

/// Whatever `span replay` appended at `Done` passes `span audit`: that answers `Done`, but for want
/// of memory, a read or a write that failed, or a text longer than a log may be.
pub fn replays_pass_the_audit()
    ensures { ReplaysPassTheAudit }
{
    audits_answer_alike();
    unbroken_logs_are_registers();
    replayed_logs_are_read_back();
}
