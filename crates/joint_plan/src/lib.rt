//! Joint plans: policies for all sets of a world and whole machines for its centres, of least cost
//! together, with a tree that shows it; and any file of one judged.
#![tactic(auto)]

mod check;
mod cost;
mod due;
mod ending;
mod fault;
mod fleet;
mod forms;
mod frame;
mod judge;
mod laws;
mod plan;
mod sets;
mod text;

pub use check::check_joint;
pub use fault::{JointCheckFault, JointFault};
pub use laws::worked_texts;
pub use plan::plan_joint;
