//! The laws of eventual keys under every schedule, over epochs and moves.
#![tactic(auto)]

mod law;

pub use law::{
    earlier_stamps_are_below, replicas_agree, replicas_keep_their_greatest, stored_puts_stay,
    values_are_those_of_puts,
};
