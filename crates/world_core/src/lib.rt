//! The world of the store's actors: its state, what one event makes of it, and what a run of
//! events leaves, as definitions that the laws of the store speak of; and the machine that takes
//! one event after another as the definitions have it, over any wire and any replica.
#![tactic(auto)]

mod beginning;
mod calling;
mod calls;
mod cloud;
mod delivering;
mod effects;
mod event;
mod giving_up;
mod handing;
mod in_memory;
mod laws;
mod lesson;
mod live;
mod making;
mod marks;
mod opening;
mod proxy;
mod publishing;
mod seat;
mod sending;
mod starting;
mod taking;

pub use beginning::Beginning;
pub use cloud::Cloud;
pub use effects::Effects;
pub use event::{Event, Header, StepFault};
pub use laws::schedules_run_as_reckoned;
pub use lesson::Lesson;
pub use live::LiveCall;
pub use marks::Marks;
pub use proxy::Proxy;
pub use seat::Seat;

#[cfg(test)]
mod tests;
