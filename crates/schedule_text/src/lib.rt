//! The text of a schedule: the header that a store opens with, and the events that happen to it.
#![tactic(auto)]

mod delivery_line;
mod event_line;
mod events;
mod fault;
mod flaw;
mod header;
mod kept_event;
mod kept_events;
mod kept_line;
mod kept_opening;
mod lanes;
pub mod laws;
mod lines;
mod members;
mod modes;
mod numbers;
mod opening;
mod parts;
mod place;
mod policies;
mod policy_printing;
mod printing;
mod setting;
mod tables;
mod words;

pub use events::Events;
pub use fault::ScheduleFault;
pub use kept_event::KeptEvent;
pub use kept_events::KeptEvents;
pub use kept_opening::read_kept_schedule;
pub use opening::read_schedule;
pub use place::{Opening, Place};
pub use printing::{push_event, push_header};
pub use setting::{Form, Mode, Setting};

#[cfg(test)]
mod kept_tests;
#[cfg(test)]
mod printing_tests;
#[cfg(test)]
mod tests;
