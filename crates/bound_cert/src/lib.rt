//! Lower bounds of 0-1 programs that anyone can check: leaves, the trees that they end, and the
//! lines in which a tree is written.
#![tactic(auto)]

mod bounds;
mod closing;
mod laws;
mod leaves;
mod print;
mod read;
#[cfg(test)]
mod tests;

pub use bounds::{leaf_value, leaf_value_in};
pub use closing::{closes, leaf_fits};
pub use laws::{leaves_bound, lines_have_no_fault, lines_have_one_reading, proofs_bound};
pub use leaves::{Goal, Leaf, Line, MAX_MULTIPLIER, MAX_SCALE, Pair};
pub use print::{print_line, push_line};
pub use read::{LineFault, read_line};
