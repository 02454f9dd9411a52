//! What the 0-1 programs of all modes share: their rows, and the part that asks for providers.
#![tactic(auto)]

mod first_centres;
mod near;
mod providers;
mod rows;

pub use first_centres::{FirstCentres, asks_providers};
pub use near::{read_near, read_near_sets, write_near, write_near_sets};
pub use providers::{
    provider_variables, push_provider_bits, push_provider_costs, push_provider_rows,
};
pub use rows::{answered_row, backed_row, minus, plus, sum_row};
