//! Lower bounds for the nodes of a search over a 0-1 program: multipliers of the rows, in whole
//! numbers, whose leaf closes a node where any does.
//!
//! The method is a restarted primal-dual hybrid gradient method with reflected Halpern steps, of
//! the family of PDLP (Applegate et al. 2021), for the linear program without whole variables:
//!
//! - State: both sides, the variables with their columns and the multipliers with their rows, stand
//!   at *anchors*, exact in 128 bits (`anchors`). The method works on the change since the anchors,
//!   in 64 bits and in a unit that becomes finer as the changes become small (`local`, `units`,
//!   `exact`).
//! - Step: a round moves every variable against what the multipliers show, and every multiplier
//!   against what the variables show (`local`, `coordinate`). Most lines are couples, 1 and -1,
//!   and take no product (`lines`).
//! - Restart: the anchors move to where the last round led, and both the balance of the sides and
//!   the unit are chosen anew (`restart`, `stretch`).
//! - Stop: the leaf of where the multipliers stand closes, or the variables nearly meet all rows
//!   at less than the goal, so that no leaf will (`run`, `stop`).
//!
//! Whole numbers, since a leaf has to be right to the last unit of cost, and one unit of a
//! multiplier is a millionth of that.
#![tactic(auto)]

mod anchors;
mod coordinate;
mod distances;
mod engine;
mod exact;
mod forces;
mod layout;
mod lines;
mod local;
mod parts;
mod restart;
mod run;
mod side;
mod stop;
mod stretch;
mod sums;
mod table;
#[cfg(test)]
mod tests;
mod units;

pub use engine::{Engine, Outcome};
