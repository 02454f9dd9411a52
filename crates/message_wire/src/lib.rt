//! Where sent messages lie, in the order in which they were sent.
#![tactic(auto)]

mod decoding;
mod frame_wire;
mod framed;
mod list_wire;
mod region;
mod rooms;
mod spares;
mod wire;

pub use frame_wire::FrameWire;
pub use list_wire::ListWire;
pub use wire::Wire;

#[cfg(test)]
mod tests;
