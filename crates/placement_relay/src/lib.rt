//! The 0-1 program of an access set: its policies are the choices that meet it.
#![tactic(auto)]

mod costs;
mod decoding;
mod encoding;
mod hops;
mod laws;
mod placing;
mod rows;
mod variables;

pub use decoding::decode;
pub use encoding::encode;
pub use laws::{
    allowed_policies_are_placed, feasible_choices_are_decoded, least_choices_are_least_policies,
    no_choice_is_no_policy, worked_relay, worked_two_centres,
};
pub use placing::place;
pub use variables::{is_eventual_set, variable_count};

#[cfg(test)]
mod tests;
#[cfg(test)]
mod worlds;
