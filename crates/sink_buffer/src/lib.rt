//! Bytes on their way to a sink, kept until a call is worth it.
#![tactic(auto)]

mod buffer;
#[cfg(test)]
mod tests;

pub use buffer::SinkBuffer;
