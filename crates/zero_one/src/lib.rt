//! 0-1 programs: a cost for each variable, and rows that a choice of the variables has to meet.
#![tactic(auto)]

mod lists;
mod programs;
mod rows;
#[cfg(test)]
mod tests;

pub use lists::{Bits, Fixed};
pub use programs::{MAX_ROWS, MAX_VARIABLES, MAX_WEIGHT, Program, ProgramFault};
pub use rows::{Entry, Row};
