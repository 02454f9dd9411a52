//! The centres of a world with their prices, and the links between them.
#![tactic(auto)]

mod fault;
mod limits;
mod prices;
mod tables;

pub use fault::TableFault;
pub use limits::{MAX_LATENCY, MAX_PRICE};
pub use prices::{Centre, DcPrice, Fare, NO_FARE, NO_PRICE, Pair};
pub use tables::Tables;

#[cfg(test)]
mod tests;
