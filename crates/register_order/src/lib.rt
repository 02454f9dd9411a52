//! When the marks of a key's calls are those of one register, and the order in which its calls
//! then took effect, computed from the marks.
#![tactic(auto)]

mod law;

pub use law::{agreeing_calls_are_a_register, unbroken_logs_are_registers, worked_logs_are_judged};
