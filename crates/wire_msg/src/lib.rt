//! The messages of the store's actors, their frames on the wire, and what an actor puts out.
#![tactic(auto)]

mod actor;
mod answers;
mod decoding;
mod encoding;
mod fault;
pub mod laws;
mod lengths;
mod message;
mod outputs;
mod policies;
mod policy_writer;
mod posts;
mod reader;
mod requests;
pub mod sizes;
mod tag;
mod writer;

pub use actor::{Actor, node_of};
pub use decoding::decode;
pub use encoding::{encode, write_frame};
pub use fault::FrameFault;
pub use lengths::{frame_len, policy_len};
pub use message::Message;
pub use outputs::{Bulk, Outputs, Post, Reply, View};
pub use posts::{answer_proxy, ask_directory};
pub use tag::Tag;

#[cfg(test)]
mod tests;
