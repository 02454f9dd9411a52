//! The access sets of a world with their goals and members, and the world itself.
#![tactic(auto)]

mod fault;
mod limits;
mod load;
mod rules;
mod world;

pub use fault::{Gap, LoadFault};
pub use limits::{MAX_COUNT, MAX_FAILURES, MAX_OBJECT, MAX_PROVIDERS, MAX_STORED};
pub use load::Workload;
pub use rules::{AccessSet, Demand, Mode, SetRule};
pub use world::World;

#[cfg(test)]
mod tests;
