//! The stamps of tickets, their order, and the rules by which a replica grants and stores.
#![tactic(auto)]

mod order;
mod rules;
mod stamp;

pub use order::stamps_are_ordered;
pub use rules::{NumbersOut, may_grant, may_store, next_ticket};
pub use stamp::{Stamp, greater};

#[cfg(test)]
mod tests;
