//! Leaves and feasible assignments for the nodes of a search over a 0-1 program. Leaves are those
//! of a primal-dual engine, and where they don't close, every leaf of at most one row, by an evident
//! multiplier, is looked at. Assignments are rounded from where the engine left the variables.
#![tactic(auto)]

mod ascent;
mod columns;
mod leaves;
mod opening;
mod rounding;
mod row_stack;
mod scout;
mod short_leaf;
mod solution;
mod tally;
#[cfg(test)]
mod tests;

pub use ascent::Ascent;
pub use short_leaf::{Short, short_end};
pub use solution::copy_bits;
