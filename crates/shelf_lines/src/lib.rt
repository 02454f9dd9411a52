//! The lines of a file, read as a stream: a file of any length takes no more memory than its
//! longest line.
#![tactic(auto)]

mod limits;
mod reader;
mod window;

pub use limits::LinesFault;
pub use reader::{Found, ShelfLines};

#[cfg(test)]
mod tests;
