ghost use Rattle.log_law.specs.Laws.{ReplayedLogsAreReadBack, ReplayedLogsBreakNothing, RunsFitLogs, RunsStayFew};

use history_audit::marks_are_read_back;
use schedule_text::laws::schedules_may_happen;

/// For every header that opens a store and every list of at most 1,000,000 events whose values have
/// at most 4,096 bytes, each mark of the run is within the ranges of a log, there are at most two for
/// each event, and at most 4,000,000 messages are sent, also where the run stops at a refused event.
pub fn runs_fit_logs()
    ensures marks { RunsFitLogs }
    ensures few { RunsStayFew }
{}

/// The whole text of a schedule's run is a log that says the run's marks, and breaks no clause of
/// the audit.
pub fn replayed_logs_are_read_back()
    ensures says { ReplayedLogsAreReadBack }
    ensures kept { ReplayedLogsBreakNothing }
{
    schedules_may_happen();
    marks_are_read_back();
}
