//! The log of every run: its numbers and values are within the ranges of a log, so that what is
//! written of it is read back, and its audit finds no clause broken.
#![tactic(auto)]

mod law;

pub use law::{replayed_logs_are_read_back, runs_fit_logs};
