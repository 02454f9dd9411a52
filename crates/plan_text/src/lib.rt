//! The text of a plan: its parts, how each line is written, and what makes a text a plan of a world.
#![tactic(auto)]

mod laws;
mod text;

pub use laws::plan_texts_are_told_apart;
pub use text::{push_begin, push_cost, push_cut, push_end, push_none, push_set, push_tree_line};
