//! The link as an outside: a trait that carries frames to nodes, and its forms in memory.
#![tactic(auto)]

mod calm_link;
mod deal;
mod dealt_link;
mod frames;
mod link;
mod mem_link;
mod turn;

pub use calm_link::CalmLink;
pub use deal::Deal;
pub use link::{Arrival, Link};
pub use mem_link::MemLink;

#[cfg(test)]
mod tests;
