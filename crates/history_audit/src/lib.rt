//! The audit of a log: whether the completed calls of each key are those of one register.
#![tactic(auto)]

mod auditor;
mod calls;
mod fault;
mod form;
mod judge;
mod laws;
mod line;
mod reader;
mod summary;
mod tables;
mod whole_log;
mod words;

pub use fault::{AuditFault, Clause};
pub use laws::{
    audits_answer_alike, counted_calls_keep_clauses, marks_are_read_back, worked_texts_are_read,
};
pub use summary::Summary;
pub use whole_log::audit;

#[cfg(test)]
mod tests;
