//! Schedules run: the text of the run of a schedule's events, written to a sink as it comes.
#![tactic(auto)]

mod fault;
mod laws;
mod log;
mod running;
mod whole_run;

pub use fault::{ReplayFault, refused_at};
pub use laws::{replayed_runs_may_run, worked_run_is_told};
pub use log::Log;
pub use whole_run::replay;

#[cfg(test)]
mod tests;
