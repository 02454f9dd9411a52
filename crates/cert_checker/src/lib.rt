//! A checker of branch trees: it reads a tree line by line, keeps none of the lines, and says at
//! the end whether they prove what is claimed.
#![tactic(auto)]

mod ceilings;
mod checker;
mod faults;
mod laws;
mod leaf_values;
#[cfg(test)]
mod tests;
mod turns;

pub use checker::Checker;
pub use faults::{CertFault, Step};
pub use laws::{checked_lines_bound, lines_have_one_answer};
pub use turns::{Path, Turn};
