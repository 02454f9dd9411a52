//! What small logs say, worked by hand, and what it takes that a log keeps the last two clauses.

ghost use Rattle.std.specs.Prelude.{◌≡◌, Ok, Err, codes};
ghost use Rattle.history_audit.specs.Texts.{log_says, Bad};
ghost use Rattle.history_audit.specs.Audited.{OneAnswer};
ghost use Rattle.history_audit.specs.Counted.{CountedKeepsClauses};
ghost use Rattle.history_audit.specs.Ranges.{LogsAreReadBack, MarksAreReadBack};
ghost use Rattle.history_audit.specs.Rows.{stale_text, stale_marks, early_text, early_marks, going_on, unended};

/// Small texts say what was worked by hand: the marks of two logs, and the line at which a text
/// that goes on behind its end, and one that has none, is refused.
#[tactic(auto, using(crate::proofs::Worked::stale_says, crate::proofs::Worked::early_says, crate::proofs::Worked::going_on_says, crate::proofs::Worked::unended_says, crate::proofs::Worked::high_key_says))]
pub fn worked_texts_are_read()
    ensures stale { log_says stale_text ≡ Ok stale_marks }
    ensures early { log_says early_text ≡ Ok early_marks }
    ensures going_on { log_says going_on ≡ Err (Bad 2) }
    ensures unended { log_says unended ≡ Err (Bad 2) }
    ensures high_key { log_says (codes "begin 0.1 read 1000") ≡ Err (Bad 1) }
{}

/// Where what is kept of calls that count is what the lines tell, the lines keep the last two
/// clauses too.
pub fn counted_calls_keep_clauses()
    ensures { CountedKeepsClauses }
{}

/// What is written of a mark whose numbers and values are within the ranges of a log is read back
/// as that mark, and a log of such marks says them.
pub fn marks_are_read_back()
    ensures marks { MarksAreReadBack }
    ensures logs { LogsAreReadBack }
{}

/// But for want of memory the audit of a text has one answer.
pub fn audits_answer_alike()
    ensures { OneAnswer }
{}
