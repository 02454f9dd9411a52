//! A replica as a service: it answers requests that come over a stream.
#![tactic(auto)]

mod asking;
mod door;
mod ending;
mod front;
mod input;
mod line;
mod mem_door;
mod mem_stream;
mod pieces;
mod plan;
mod replica_service;
mod serve_fault;
mod serve_status;
mod service;
mod serving;
mod spelling;
mod stream;
mod visit_fault;
mod visiting;
mod writing;

pub use door::Door;
pub use mem_door::MemDoor;
pub use mem_stream::MemStream;
pub use plan::port_of;
pub use replica_service::{Served, serve_all};
pub use serve_fault::ServeFault;
pub use serve_status::{ServeStatus, ServeStatusLine};
pub use service::serve;
pub use stream::Stream;
pub use writing::write_whole;
