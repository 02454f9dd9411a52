//! The 0-1 program of a strong set: its policies are the choices that meet it.
#![tactic(auto)]

mod backed_rows;
mod blocks;
mod costs;
mod decoding;
mod encoding;
mod laws;
mod members;
mod placing;
mod quorum_rows;
mod rows;

pub use blocks::variable_count;
pub use decoding::decode;
pub use encoding::encode;
pub use laws::{
    allowed_policies_are_placed, feasible_choices_are_decoded, least_choices_are_least_policies,
    no_choice_is_no_policy, worked_eight_centres, worked_worlds,
};
pub use members::is_strong_set;
pub use placing::place;

#[cfg(test)]
mod tests;
