//! The register order under every schedule in which replicas crash, and come back as their journals
//! keep them.
#![tactic(auto)]

mod law;

pub use law::{
    restart_registers_are_kept, restart_runs_are_runs, steps_are_limited,
    unlimited_registers_are_kept, worked_restart_runs,
};
