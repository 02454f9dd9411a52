//! Any plan file judged, line by line: it is accepted exactly where it shows what it says.
#![tactic(auto)]

mod check;
mod fault;
mod frame;
pub mod laws;
mod lines;
mod part;
mod policy;
mod policy_lines;
mod set_word;
mod told;
mod tree;
mod word;

pub use check::check_plan;
pub use fault::{CheckFault, refuse_policy};
pub use lines::PlanLines;
pub use part::is_fed;
pub use policy_lines::read_policy_lines;
pub use set_word::is_name;
pub use told::{hand_over, is_wanting, say};
pub use tree::{Claim, read_tree};
pub use word::{behind, is_number, number_in};

#[cfg(test)]
mod tests;
