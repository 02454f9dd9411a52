//! The marks of a log, read line after line.

ghost use Rattle.std.specs.Prelude.{◌≡◌, ◌<◌, ◌+◌, IfSome, IfOk, option_map, length};
ghost use Rattle.history_audit.specs.Texts.{lines_of, lines_say, LinesAre, ReadsMark, EndsLog};

use crate::fault::AuditFault;
use crate::line::{LogLine, read_line};
use crate::words::{LineFault, cut};
use run_marks::Mark;
use std::alloc::Global;

/// The greatest number of lines of a log.
const LINES: u64 = 4_000_000;

/// Reads the lines of a log from the first on, and keeps none.
#[derive(Drop)]
pub(crate) struct LogReader<'a> {
    /// What isn't read yet.
    pub(crate) rest: &'a [u8],
    /// The line that comes next, counted from 1.
    pub(crate) line: u64,
}

impl LogReader<'_> {
    /// The mark of the next line, or None at the line that ends the log.
    #[tactic(auto, unfolding(crate::specs::Texts::lines_say))]
    pub(crate) fn next_mark(&mut self, alloc: Global) -> Result<Option<Mark>, AuditFault>
        ensures reads { ReadsMark (lines_say self.old.line (lines_of self.old.rest.now)) (lines_say self.new.line (lines_of self.new.rest.now)) result }
        ensures next { IfOk result (λ mark. IfSome mark (λ m. self.new.line ≡ self.old.line + 1)) }
        ensures shorter { IfOk result (λ mark. IfSome mark (λ m. length self.new.rest.now < length self.old.rest.now)) }
    {
        let line = self.line;
        let Some((text, rest)) = next_line(self.rest) else {
            return Err(AuditFault::Bad { line });
        };
        if line > LINES {
            return Err(AuditFault::Limit { line });
        }
        self.rest = rest;
        self.line = line + 1;
        match read_line(alloc, text) {
            Ok(LogLine::Mark(mark)) => Ok(Some(mark)),
            Ok(LogLine::Messages(_)) => {
                end_at(line + 1, rest)?;
                Ok(None)
            }
            Err(LineFault::Bad) => Err(AuditFault::Bad { line }),
            Err(LineFault::NoMemory(error)) => Err(AuditFault::NoMemory(error)),
        }
    }
}

/// Nothing may follow the line that ends a log; `line` is the one after it.
fn end_at(line: u64, rest: &[u8]) -> Result<(), AuditFault>
    ensures { EndsLog line (lines_of rest.now) result }
{
    if next_line(rest).is_none() {
        Ok(())
    } else if line > LINES {
        Err(AuditFault::Limit { line })
    } else {
        Err(AuditFault::Bad { line })
    }
}

/// The next line, without its line feed, and what follows it.
fn next_line(text: &[u8]) -> Option<(&[u8], &[u8])>
    ensures lines { LinesAre (lines_of text.now) (option_map (λ parts. (parts.0.now, parts.1.now)) result) }
    ensures shorter { IfSome result (λ parts. length parts.1.now < length text.now) }
{
    if text.is_empty() {
        return None;
    }
    let found = cut(text, b'\n');
    if found.is_some() {
        return found;
    }
    Some((text, &text[text.len()..]))
}
