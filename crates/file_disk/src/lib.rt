//! A file of the system as the disk of a journal.
#![tactic(auto)]

mod file_disk;

pub use file_disk::FileDisk;

#[cfg(test)]
mod tests;
