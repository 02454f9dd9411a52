//! The 0-1 program of every access set, by its mode: its policies are the choices that meet it.
#![tactic(auto)]

mod by_mode;
mod laws;

pub use by_mode::{decode, encode, place, variable_count};
pub use laws::{
    allowed_policies_are_placed, feasible_choices_are_decoded, least_choices_are_least_policies,
    no_choice_is_no_policy,
};
