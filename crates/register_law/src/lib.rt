//! The register order under every schedule: the invariant of the store, and the law.
#![tactic(auto)]

mod law;

pub use law::{
    answers_count, phases_last_until_decided, registers_are_kept, unanswered_calls_wait,
    worked_calls_wait,
};
