//! Strong calls: reads and writes of one key at quorums, in legs, one leg for each epoch in which
//! the call is tried.
#![tactic(auto)]

mod best;
mod bulk;
mod call;
mod counting;
mod laws;
mod next;
mod opening;
mod phases;
mod progress;
mod requests;
mod state;
mod step;
mod verdict;

pub use call::StrongCall;
pub use laws::stored_writes_have_their_quorum;
pub use next::Next;
pub use progress::{Leg, Progress, Stage};
pub use state::{CallState, Work};

#[cfg(test)]
mod fixtures;
#[cfg(test)]
mod tests;
