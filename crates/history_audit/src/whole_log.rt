ghost use Rattle.history_audit.specs.Audited.{AuditEnds};

use crate::auditor::Auditor;
use crate::fault::AuditFault;
use crate::reader::LogReader;
use crate::summary::Summary;
use std::alloc::Global;

/// Judges a log: whether the reads and writes of each key are those of one register. The text is
/// read line after line, and none is kept. That a line is no line of a log, or one too many, is
/// told before a clause that an earlier line breaks.
pub fn audit(alloc: Global, text: &[u8]) -> Result<Summary, AuditFault>
    ensures { AuditEnds text.now result }
{
    let mut auditor = Auditor::new(alloc);
    let mut lines = LogReader {
        rest: text,
        line: 1,
    };
    loop {
        let line = lines.line;
        let Some(mark) = lines.next_mark(alloc)? else {
            return auditor.finish();
        };
        auditor.take(line, mark)?;
    }
}
