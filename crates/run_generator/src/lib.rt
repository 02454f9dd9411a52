//! Runs of the store whose events are drawn: calls, moves, deliveries in disorder, and calls that
//! are given up, the same for each number of calls.
#![tactic(auto)]

mod drawing;
mod generated;
mod generator;
mod laws;
mod log;
mod opening;
mod turns;

pub use generated::{Generated, generate};
pub use laws::generated_runs_may_run;

#[cfg(test)]
mod tests;
