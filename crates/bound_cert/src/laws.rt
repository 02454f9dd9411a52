//! What leaves and trees show, as laws over all programs, and that a line has one text.

ghost use Rattle.bound_cert.specs.Laws.{LeavesBound, ProofsBound, ProofsRefute, LinesHaveOneReading, LinesHaveNoFault};

/// Whatever multipliers a leaf takes, its bound is at most `s` times the value of each feasible
/// assignment that agrees with the fixed variables.
pub fn leaves_bound()
    ensures { LeavesBound }
{}

/// A proof of a cost leaves no feasible assignment below it, and a proof of nothing none at all.
pub fn proofs_bound()
    ensures cost { ProofsBound }
    ensures nothing { ProofsRefute }
{}

/// A text is that of at most one line, whatever numbers of at most 38 digits stand in it.
pub fn lines_have_one_reading()
    ensures { LinesHaveOneReading }
{}

/// `read_line` refuses no text of a line whose numbers are in range.
pub fn lines_have_no_fault()
    ensures { LinesHaveNoFault }
{}
