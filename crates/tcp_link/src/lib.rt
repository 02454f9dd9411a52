//! The real link: over TCP, from this machine to itself.
#![tactic(auto)]

mod tcp_link;

pub use tcp_link::TcpLink;
