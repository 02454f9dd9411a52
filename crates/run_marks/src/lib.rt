//! The marks that a run of the store leaves, the one text of each, and what it is for a key's
//! history to be that of one register.
#![tactic(auto)]

mod mark;
mod text;

pub use mark::{Mark, NoEpochCause, Work};
pub use text::{mark_text, push_mark};

#[cfg(test)]
mod tests;
