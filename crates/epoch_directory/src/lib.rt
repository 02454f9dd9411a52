//! The directory of the store: which epochs of policies are published, and which of them each key
//! is in.
#![tactic(auto)]

mod directory;
pub mod laws;
mod lookup;
mod next_table;
mod publish;
mod switch;
mod table;

pub use directory::Directory;
pub use publish::EPOCHS;
pub use table::{KeySet, PublishFault, SetPolicy};

#[cfg(test)]
mod fixtures;
#[cfg(test)]
mod tests;
