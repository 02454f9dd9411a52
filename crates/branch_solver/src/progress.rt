/// What a step of a search did.
#[derive(Clone, Copy, Debug, PartialEq, Eq)]
pub enum Progress {
    /// The buffer holds the next line of the tree.
    Line,
    /// The tree is whole: no assignment costs less than the best one, whose value is `cost`.
    Found { cost: u128 },
    /// The tree is whole: no assignment is feasible.
    NoneThere,
    /// As many lines were given as the search may give, and the tree isn't whole; with the value
    /// of the best assignment so far.
    Budget { best: Option<u128> },
}
