//! A replica of the store: what it keeps of each key, and what it does with each message.
#![tactic(auto)]

mod answer;
mod bulk;
mod change;
mod journal;
mod kept;
mod laws;
mod prepared;
mod push;
mod replica;
mod request;
mod verdict;

pub use journal::{TakeFault, Taker};
pub use kept::Kept;
pub use laws::nothing_falls;
pub use prepared::Prepared;
pub use replica::{Replica, request_key};

#[cfg(test)]
mod fixtures;
#[cfg(test)]
mod tests;
