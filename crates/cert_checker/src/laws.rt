//! What checked lines show, as laws over all programs.

ghost use Rattle.cert_checker.specs.Laws.{CheckedLinesBound, CheckedLinesRefute, LinesHaveOneAnswer};

/// Lines that were all taken and make a whole tree bound each feasible assignment by the least of
/// their ceilings, and where no leaf has `s > 0` none is feasible.
pub fn checked_lines_bound()
    ensures cost { CheckedLinesBound }
    ensures nothing { CheckedLinesRefute }
{}

/// A line is taken, or refused on one ground.
pub fn lines_have_one_answer()
    ensures { LinesHaveOneAnswer }
{}
