//! The store over a link: a script's events happen, each message goes over the link as its frame,
//! and what arrives is delivered. The text of the run is written to a sink as it comes.
#![tactic(auto)]

mod digest;
mod fault;
mod index;
mod laws;
mod link_wire;
mod mail;
mod running;
mod searching;
mod whole_loop;

pub use fault::LoopFault;
pub use laws::{
    faithful_links_run_in_order, honest_links_bring_nothing_strange, looped_runs_may_run,
    strange_frames_are_told, whole_scripts_are_run,
};
pub use whole_loop::run_loop;

#[cfg(test)]
mod tests;
