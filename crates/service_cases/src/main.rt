//! Serves replicas over streams, doors, disks and sinks in memory, case by case, and writes how
//! each case ended.
#![tactic(auto)]

mod doors;
mod frames;
mod hex;
mod services;
mod streams;

use doors::tell_doors;
use services::tell_services;
use std::io;

fn main(rt: HostRuntime) -> io::Result<()> {
    tell_services(&rt)?;
    tell_doors(&rt)
}
