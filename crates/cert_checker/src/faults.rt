/// What is left after a line was taken.
#[derive(Clone, Copy, Debug, PartialEq, Eq)]
pub enum Step {
    /// The tree goes on.
    More,
    /// The lines so far are all the lines of a tree.
    Whole,
}

/// Why a line is refused, or why the lines prove nothing. Lines are counted from 1.
#[derive(Clone, Copy, Debug, PartialEq, Eq)]
pub enum CertFault {
    /// The tree was whole before this line.
    TooLong,
    /// The branch is on a variable that the program doesn't have.
    NoSuchVar,
    /// The branch is on a variable that its path fixes.
    VarTwice,
    /// The leaf takes a row that the program doesn't have.
    RowUnknown,
    /// The leaf's `s` or a multiplier is out of range, or its rows don't rise.
    Range,
    /// The leaf of this line leaves room for an assignment that the goal rules out.
    NotClosed { line: u64 },
    /// The tree isn't whole.
    TooShort,
    /// The leaf of this line bounds the cost, where no assignment at all is to be left.
    Bounded { line: u64 },
}
