//! The machines on offer in each centre, and the files that name them.
#![tactic(auto)]

mod fault;
mod laws;
mod machines;
mod read;
mod rows;
mod spelled;

pub use fault::MachineFault;
pub use laws::worked_files;
pub use machines::{Machine, Machines};
pub use read::read_machines;
