//! The real door: over TCP, to who connects from this machine.
#![tactic(auto)]

mod tcp_door;

pub use tcp_door::TcpDoor;

#[cfg(test)]
mod tests;
