//! The whole program behind its words: what `span` does with a shelf of files, a sink and a link.
#![tactic(auto)]

mod audit_command;
mod check_command;
mod command;
mod explanation;
mod gen_command;
mod loop_command;
mod loop_laws;
mod plan_command;
pub mod plan_laws;
mod replay_command;
mod replay_kept_command;
mod replay_laws;
mod run;
mod status;
mod texts;
mod whole_file;
mod world_file;

pub use explanation::explain;
pub use loop_laws::{strange_frames_end_loops, whole_scripts_are_looped};
pub use planner::{Unwatched, Watch};
pub use replay_laws::{replays_pass_the_audit, unbroken_logs_are_audited, whole_runs_are_replayed};
pub use run::span;
pub use status::{Status, StatusLine};
