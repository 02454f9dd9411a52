//! The output of a program as a sink.
#![tactic(auto)]

mod std_sink;

pub use std_sink::StdSink;
