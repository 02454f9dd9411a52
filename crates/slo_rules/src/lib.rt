//! What a policy of an access set must meet, and what it costs.
#![tactic(auto)]

mod charges;
mod costs;
mod direct;
mod entry;
mod laws;
mod line_reader;
mod near;
mod policy_line;
mod policy_reader;
mod policy_text;
mod providers;
mod relay;
mod rules;
mod shape;
mod strong;
mod turn;
mod worked;
mod worked_lines;

pub use charges::{gets_cost, puts_cost, quorum_puts_cost, stored_cost};
pub use costs::cost;
pub use laws::{
    forms_are_told, policy_texts_are_told_apart, printed_policies_are_read, read_lines_are_printed,
};
pub use near::{is_read_near, is_write_near};
pub use policy_line::PolicyFault;
pub use policy_reader::{Next, PolicyReader};
pub use policy_text::push_policy;
pub use rules::{Rule, fault_of, fits};
pub use worked::{worked_costs, worked_faults, worked_policies, worked_texts};
pub use worked_lines::{worked_forms, worked_line_faults, worked_readings};

#[cfg(test)]
mod tests;
