//! The base of all crates: ids, sets of centres, policies, names and numbers as they are
//! spelled in every format, the words of faults, and the outside as traits.
#![tactic(auto)]

mod calm_shelf;
mod calm_sink;
mod dc_set;
mod entries;
mod failing_calls;
mod hops;
mod ids;
mod listed;
mod mem_shelf;
mod mem_sink;
mod members;
mod name;
mod number;
mod policy;
mod policy_parts;
mod quorum;
mod reading;
mod shelf;
mod sink;
mod sound;
mod value;
mod word;
mod words;
mod writing;

pub use calm_shelf::CalmShelf;
pub use calm_sink::CalmSink;
pub use dc_set::{CENTRES, DcSet};
pub use entries::{FileEntry, copy_from};
pub use failing_calls::FailingCalls;
pub use ids::{Call, DcId, KeyId, SetId};
pub use listed::{Bytes, Listed};
pub use mem_shelf::MemShelf;
pub use mem_sink::MemSink;
pub use members::MEMBERS;
pub use name::{BadName, NAME_BYTES, read_name};
pub use number::{NUMBER_DIGITS, NumberFault, read_number};
pub use policy::{Hop, Near, Policy, Quorum};
pub use quorum::{FAULTS, is_quorum};
pub use reading::{FileFault, read_whole};
pub use shelf::{Shelf, ShelfError};
pub use sink::{DeviceFault, Sink};
pub use sound::is_sound;
pub use value::{VALUE_LIMIT, Value};
pub use word::Word;
pub use words::{Cause, What};
pub use writing::write_all;

#[cfg(test)]
mod outside_tests;
#[cfg(test)]
mod policy_tests;
#[cfg(test)]
mod tests;
