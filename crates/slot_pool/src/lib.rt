//! A pool of fixed capacity: items stand in numbered slots, each under a handle of its slot and
//! the slot's generation. A handle whose item was taken never answers again.
//!
//! No call after `make` takes memory, and each takes a time that does not grow with the number of
//! items. The free slots stand in a tree of 64-bit words, of at most four levels: a bit of the
//! lowest level says that its slot is free, and a bit of a higher level that the word below it has
//! a bit. `trailing_zeros` of one word a level finds the free slot of the smallest number, which a
//! heap or a list of the free slots would not find in a constant time.
#![tactic(auto)]

mod free;
mod handles;
mod laws;
mod slots;
#[cfg(test)]
mod tests;

pub use handles::{Full, Handle};
pub use laws::taken_handles_never_answer;
pub use slots::Pool;
