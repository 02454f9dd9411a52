use span_base::Listed;

/// The greatest `s` of a leaf.
pub const MAX_SCALE: u32 = 1_000_000;
/// The greatest multiplier of a leaf.
pub const MAX_MULTIPLIER: u128 = 1_000_000_000_000_000_000_000_000_000_000;

/// A row of the program, named by its place, with the multiplier that it is taken by.
#[derive(Clone, Copy, Debug, PartialEq, Eq)]
pub struct Pair {
    /// The row's place in the program.
    pub row: u16,
    /// From 1 to 10^30 where the leaf fits.
    pub mult: u128,
}

/// The end of a path: the costs taken `s` times, less the rows taken by their multipliers, bound
/// the cost of every assignment on the path from below.
#[derive(Debug, Drop)]
pub struct Leaf {
    /// How often the costs are taken: at most 10^6 where the leaf fits, 0 where they don't count.
    pub s: u32,
    /// Their rows rise strictly where the leaf fits.
    pub pairs: Listed<Pair>,
}

/// A line of a tree.
#[derive(Debug, Drop)]
pub enum Line {
    /// Both bits of a variable are looked at: first 0, then 1.
    Branch { var: u16 },
    /// The path ends.
    Close(Leaf),
}

/// What a tree shows of a program.
#[derive(Clone, Copy, Debug, PartialEq, Eq)]
pub enum Goal {
    /// No feasible assignment has a value below this.
    Cost(u128),
    /// No assignment is feasible.
    Nothing,
}
