//! Services of one stream.

use crate::frames::{LONG, LOOKUP, NOTHING, READ, STORE};
use crate::hex::write_hex;
use crate::streams::served;
use std::alloc::{AllocError, Global};
use std::io;

/// The most requests that are served, and one more.
const REQUESTS: usize = 1_000_001;

/// Tells the services of one stream.
pub fn tell_services(rt: &HostRuntime) -> io::Result<()> {
    println!(rt; "# one stream")?;
    tell(rt, "no byte", &[], &[])?;
    tell(rt, "a read", &[&READ], &[])?;
    tell(rt, "a read but for its last byte", &[&READ[..19]], &[])?;
    tell(rt, "a store and a read", &[&STORE, &READ], &[])?;
    tell(rt, "a message of another kind", &[&LOOKUP], &[])?;
    tell(
        rt,
        "a read and a message of another kind",
        &[&READ, &LOOKUP],
        &[],
    )?;
    tell(rt, "a length of 0", &[&NOTHING], &[])?;
    tell(rt, "a length of 8193", &[&LONG], &[])?;
    tell_keys(rt)?;
    tell_fronts(rt)?;
    tell_cuts(rt)?;
    tell_faults(rt)?;
    tell_limit(rt)
}

// Serves pieces, and tells how that ended and what the stream took.
fn tell(rt: &HostRuntime, name: &str, pieces: &[&[u8]], failing: &[u64]) -> io::Result<()> {
    let run = served(rt.alloc(), pieces, failing)?;
    print!(rt; "{name}: {:?} ", run.answer)?;
    write_hex(rt, run.stream.taken())?;
    println!(rt; "")
}

// Reads of keys at the end of what a replica of 7 keys has.
fn tell_keys(rt: &HostRuntime) -> io::Result<()> {
    let mut read = READ;
    for key in 6..9u8 {
        read[15] = key;
        let run = served(rt.alloc(), &[&read], &[])?;
        println!(rt; "a read of key {key}: {:?}", run.answer)?;
    }
    Ok(())
}

// The first bytes of two requests, and no more.
fn tell_fronts(rt: &HostRuntime) -> io::Result<()> {
    let mut both = [0; 56];
    both[..36].copy_from_slice(&STORE);
    both[36..].copy_from_slice(&READ);
    for len in 0..57usize {
        let run = served(rt.alloc(), &[&both[..len]], &[])?;
        println!(rt;
            "{len} bytes of a store and a read: {:?}, {} taken",
            run.answer,
            run.stream.taken().len()
        )?;
    }
    Ok(())
}

// Two requests in three pieces, some of them empty, and byte by byte.
fn tell_cuts(rt: &HostRuntime) -> io::Result<()> {
    let mut both = [0; 56];
    both[..36].copy_from_slice(&STORE);
    both[36..].copy_from_slice(&READ);
    let mut same = 0u32;
    let mut all = 0u32;
    for first in 0..57usize {
        for second in first..57 {
            all = all.saturating_add(1);
            if is_same(
                rt.alloc(),
                &[&both[..first], &both[first..second], &both[second..]],
            )? {
                same = same.saturating_add(1);
            }
        }
    }
    println!(rt; "a store and a read in three pieces: {same} of {all} ways end as in one")?;
    let mut bytes = Vec::new(rt.alloc());
    for at in 0..56usize {
        bytes.push(&both[at..at + 1])?;
    }
    println!(rt; "byte by byte: {}", is_same(rt.alloc(), bytes.as_slice())?)
}

// Whether the pieces of a store and a read end as both requests whole.
fn is_same(alloc: Global, pieces: &[&[u8]]) -> Result<bool, AllocError> {
    let whole = served(alloc, &[&STORE, &READ], &[])?;
    let run = served(alloc, pieces, &[])?;
    Ok(run.answer == whole.answer && run.stream.taken() == whole.stream.taken())
}

// A stream that fails in one of its calls: two requests take a read and two writes, and one more
// read tells the end.
fn tell_faults(rt: &HostRuntime) -> io::Result<()> {
    for call in 1..6u64 {
        let run = served(rt.alloc(), &[&STORE, &READ], &[call])?;
        println!(rt;
            "call {call} fails: {:?}, {} taken",
            run.answer,
            run.stream.taken().len()
        )?;
    }
    Ok(())
}

// One request more than are served, and just as many as are.
fn tell_limit(rt: &HostRuntime) -> io::Result<()> {
    let mut bytes = Vec::with_capacity(rt.alloc(), REQUESTS * 20)?;
    for _ in 0..REQUESTS {
        bytes.extend_from_slice(&READ)?;
    }
    let all = bytes.as_slice();
    for len in [20_000_000, 20_000_001] {
        if len <= all.len() {
            let run = served(rt.alloc(), &[&all[..len]], &[])?;
            println!(rt;
                "{len} bytes of reads: {:?}, {} taken",
                run.answer,
                run.stream.taken().len()
            )?;
        }
    }
    Ok(())
}
