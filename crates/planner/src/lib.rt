//! Plans: for each set of a world the policy of least cost, with a tree that shows it least, or a
//! search cut off at a budget of lines.
//!
//! Each line is written as the search gives it. The memory is that of the largest set's search,
//! whatever the number of sets.
#![tactic(auto)]

mod ends;
mod part;
mod pen;
mod plan;
#[cfg(test)]
mod tests;
mod tree;
mod watch;

pub use ends::{PlanEnd, PlanFault, SetEnd};
pub use pen::Pen;
pub use plan::{plan_all, plan_set};
pub use tree::{Tree, write_tree};
pub use watch::{Unwatched, Watch};
