//! A branch-and-bound search of a 0-1 program that gives its proof as it goes: the lines of a
//! tree, one a step, within a budget of lines.
//!
//! After `Search::make` and `LineBuf::make` no call takes memory.
#![tactic(auto)]

mod frames;
mod incumbent;
mod laws;
mod line_buf;
mod node;
mod progress;
mod search;
#[cfg(test)]
mod tests;

pub use laws::lines_are_a_tree;
pub use line_buf::LineBuf;
pub use progress::Progress;
pub use search::Search;
