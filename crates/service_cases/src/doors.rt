//! Services of the connections of a door, by a replica on a journal.

use crate::frames::{LOOKUP, NOTHING, READ, STORE};
use crate::hex::write_hex;
use crate::streams::streams;
use replica_journal::{Disk, MemDisk};
use span_base::{MemSink, Word};
use span_service::{MemDoor, Served, port_of, serve_all};
use std::alloc::{AllocError, Global};
use std::io;

/// What fails in a case: the calls of these numbers of the door's accepts, of the stream of each
/// connection and of the sink.
#[derive(Clone, Copy, Debug)]
struct Failing<'a> {
    accepts: &'a [u64],
    stream: &'a [u64],
    sink: &'a [u64],
}

/// Nothing fails.
const CALM: Failing<'static> = Failing {
    accepts: &[],
    stream: &[],
    sink: &[],
};

/// Tells the services of a door's connections.
pub fn tell_doors(rt: &HostRuntime) -> io::Result<()> {
    println!(rt; "# doors")?;
    tell_words(rt)?;
    let disk = MemDisk::make(rt.alloc(), Vec::new(rt.alloc()));
    tell(rt, "2 7 4000 2", &[&READ, &NOTHING], disk, CALM)?;
    let disk = MemDisk::make(rt.alloc(), Vec::new(rt.alloc()));
    let disk = tell(rt, "2 7 4000 2", &[&STORE, &READ], disk, CALM)?;
    let disk = tell(rt, "2 7 4000 1", &[&READ], disk, CALM)?;
    let disk = tell(rt, "2 7 4000 2", &[&READ, &LOOKUP, &READ[..9]], disk, CALM)?;
    tell(rt, "2 7 4000 3", &[&READ], disk, CALM)?;
    tell_damage(rt)?;
    tell_faults(rt)
}

// Words and their ports.
fn tell_words(rt: &HostRuntime) -> io::Result<()> {
    for words in [
        "2 7 4000 0",
        "15 1000 65535 1000000",
        "16 7 4000 0",
        "2 0 4000 0",
        "2 1001 4000 0",
        "2 7 0 0",
        "2 7 65536 0",
        "2 7 4000 1000001",
        "2 7 4000",
        "2 7 4000 0 0",
        "02 7 4000 0",
        "",
    ] {
        println!(rt;
            "{words}: {:?}",
            port_of(words_of(rt.alloc(), words)?.as_slice())
        )?;
    }
    Ok(())
}

// A journal with an open gate and no record behind it.
fn tell_damage(rt: &HostRuntime) -> io::Result<()> {
    let mut disk = MemDisk::make(rt.alloc(), Vec::new(rt.alloc()));
    let _ = disk.write_at(0, &[1, 0, 5]);
    tell(rt, "2 7 4000 1", &[&READ], disk, CALM)?;
    Ok(())
}

// A fault in each call.
fn tell_faults(rt: &HostRuntime) -> io::Result<()> {
    for call in 1..12u64 {
        println!(rt; "disk call {call} fails")?;
        let disk = MemDisk::make(rt.alloc(), [call].to_vec(rt.alloc())?);
        tell(rt, "2 7 4000 1", &[&STORE], disk, CALM)?;
    }
    for call in 1..3u64 {
        println!(rt; "accept {call} fails")?;
        let failing = Failing {
            accepts: &[call],
            ..CALM
        };
        let disk = MemDisk::make(rt.alloc(), Vec::new(rt.alloc()));
        tell(rt, "2 7 4000 2", &[&READ, &READ], disk, failing)?;
    }
    for call in 1..4u64 {
        println!(rt; "stream call {call} fails")?;
        let failing = Failing {
            stream: &[call],
            ..CALM
        };
        let disk = MemDisk::make(rt.alloc(), Vec::new(rt.alloc()));
        tell(rt, "2 7 4000 2", &[&STORE, &READ], disk, failing)?;
    }
    for call in 1..4u64 {
        println!(rt; "write {call} fails")?;
        let failing = Failing {
            sink: &[call],
            ..CALM
        };
        let disk = MemDisk::make(rt.alloc(), Vec::new(rt.alloc()));
        tell(rt, "2 7 4000 2", &[&READ, &READ], disk, failing)?;
    }
    Ok(())
}

// Serves the inputs, one a connection, and tells what was written, what each connection took and
// how it ended. It gives the disk back.
fn tell(
    rt: &HostRuntime,
    words: &str,
    inputs: &[&[u8]],
    disk: MemDisk,
    failing: Failing<'_>,
) -> io::Result<MemDisk> {
    let alloc = rt.alloc();
    println!(rt; "> {words}")?;
    let words = words_of(alloc, words)?;
    let mut door = MemDoor::make(
        alloc,
        streams(alloc, inputs, failing.stream)?,
        failing.accepts.to_vec(alloc)?,
    )?;
    let mut out = MemSink::make(alloc, failing.sink.to_vec(alloc)?);
    let Served { status, disk } = serve_all(alloc, words.as_slice(), &mut door, disk, &mut out);
    if let Ok(text) = str::from_utf8(out.bytes()) {
        print!(rt; "{text}")?;
    }
    tell_taken(rt, &door, inputs.len())?;
    println!(rt; "{status} {}", status.code())?;
    Ok(disk)
}

// What each connection took.
fn tell_taken(rt: &HostRuntime, door: &MemDoor, count: usize) -> io::Result<()> {
    for number in 0..count {
        if let Some(taken) = door.taken(number) {
            print!(rt; "took ")?;
            write_hex(rt, taken)?;
            println!(rt; "")?;
        }
    }
    Ok(())
}

fn words_of(alloc: Global, text: &str) -> Result<Vec<Word>, AllocError> {
    let mut words = Vec::new(alloc);
    for word in text.split(' ') {
        words.push(Word::from_string(String::from_str(alloc, word)?))?;
    }
    Ok(words)
}
