//! The phases of calls: which answers count, how many are enough, the greatest version among
//! them, and the requests of a phase.
#![tactic(auto)]

mod best;
mod laws;
mod phase;
mod request;

pub use best::{Found, Lent, greatest, lend, take_better};
pub use laws::tags_are_told_apart;
pub use phase::Phase;
pub use request::{Request, send_to_each};

#[cfg(test)]
mod tests;
