//! What a store keeps that takes events step by step, over any wire and any replicas.
#![tactic(auto)]

mod law;

pub use law::steps_keep_registers;
