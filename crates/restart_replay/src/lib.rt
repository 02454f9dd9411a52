//! Restart runs: the text of the run of a schedule whose replicas crash, and come back as their
//! journals keep them, written to a sink as it comes.
#![tactic(auto)]

mod fresh;
mod lawful_wire;
mod running;
mod store;
mod whole_run;

pub use whole_run::replay_kept;

#[cfg(test)]
mod tests;
