//! Replicas on a journal: each message that can change what a replica keeps is on the disk before
//! it is answered, whatever moment the machine stops at.
#![tactic(auto)]

mod beginning;
mod calls;
mod crash;
mod disk;
mod journal;
mod kept_replica;
pub mod laws;
mod mem_disk;
mod open_fault;
mod opening;
mod record;
mod replay;
mod spelling;
mod stopping;
mod taker;
mod taking;
mod window;
pub mod worked;
mod write;

pub use disk::{Disk, Failed};
pub use journal::append;
pub use kept_replica::KeptReplica;
pub use mem_disk::MemDisk;
pub use open_fault::{OpenCause, OpenFault};
pub use opening::{Opened, open_journal};
pub use replay::Place;

#[cfg(test)]
mod kept_tests;
#[cfg(test)]
mod tests;
