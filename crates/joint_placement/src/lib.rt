//! The 0-1 program of a whole world with the machines of its centres: its joint plans are the
//! choices that meet it.
#![tactic(auto)]

mod capacity;
mod decoding;
mod encoding;
mod laws;
mod loads;
mod plan;
mod stated;
mod variables;

pub use decoding::decode_joint;
pub use encoding::{JointFault, encode_joint};
pub use laws::{
    feasible_choices_are_decoded, joint_plans_are_placed, least_choices_are_least_plans,
    no_choice_is_no_plan, worked_plans, worked_program,
};
pub use plan::JointPlan;
pub use stated::load_on;
pub use variables::variable_count;
