use frame_link::{CalmLink, Link};
use span_base::{Bytes, FileEntry, MemShelf, MemSink, Word};
use span_top::{Status, Unwatched, span};
use std::alloc::{AllocError, Global};
use std::process::Abort;
use std::test::Fail;
use tcp_link::TcpLink;

/// The example schedules without their deliveries, in the order of their names, and a key that is
/// written, moves, and is written and read again.
const SCRIPTS: [&str; 6] = [
    "span-schedule 1\nreplicas 3\nset strong 1 0/0,1,2/0,1,2 1/0,1,2/0,1,2\nkey 0\nproxy 0\nproxy 1\nbegin\nwrite 0 0 aa\nwrite 1 0 bb\n",
    "span-schedule 1\nreplicas 3\nset strong 1 0/0,1,2/0,1,2 1/0,1,2/0,1,2\nkey 0\nproxy 0\nproxy 1\nbegin\npublish 0 strong 1 0/0,1,2/0,1,2 1/0,1,2/0,1,2\nmove 0 0\nwrite 1 0 cc\n",
    "span-schedule 1\nreplicas 3\nset relay 0 1,2 0>1>1,1\nkey 0\nproxy 0\nbegin\nput 0 0 cc\nget 0 0\n",
    "span-schedule 1\nreplicas 3\nset strong 1 0/0,1,2/0,1,2 1/0,1,2/0,1,2\nkey 0\nproxy 0\nproxy 1\nbegin\npublish 0 strong 1 0/0,1,2/0,1,2 1/0,1,2/0,1,2\nmove 0 0\nmove 1 0\n",
    "span-schedule 1\nreplicas 3\nset strong 1 0/0,1,2/0,1,2 1/0,1,2/0,1,2\nkey 0\nproxy 0\nproxy 1\nbegin\nwrite 0 0 aa\nwrite 1 0 bb\nstop proxy 1\nread 0 0\n",
    "span-schedule 1\nreplicas 3\nset strong 1 0/0,1,2/0,1,2 1/0,1,2/0,1,2\nkey 0\nproxy 0\nproxy 1\nbegin\nwrite 0 0 aa\npublish 0 strong 1 0/0,1,2/0,1,2 1/0,1,2/0,1,2\nmove 1 0\nwrite 0 0 bb\nread 1 0\n",
];

fn word(alloc: Global, text: &str) -> Result<Word, AllocError> {
    Ok(Word::from_string(String::from_str(alloc, text)?))
}

fn shelf(alloc: Global, script: &str) -> Result<MemShelf, AllocError> {
    let mut entries = Vec::new(alloc);
    entries.push(FileEntry {
        name: word(alloc, "script")?,
        bytes: Bytes::from_vec(script.as_bytes().to_vec(alloc)?),
    })?;
    Ok(MemShelf::make(entries, Vec::new(alloc)))
}

// What the loop of the script over a link writes.
fn written<L: Link>(
    rt: &impl Abort,
    alloc: Global,
    script: &str,
    link: &mut L,
) -> Result<MemSink, Fail> {
    let mut words = Vec::new(alloc);
    words.push(word(alloc, "loop")?)?;
    words.push(word(alloc, "script")?)?;
    let mut shelf = shelf(alloc, script)?;
    let mut out = MemSink::make(alloc, Vec::new(alloc));
    let mut nobody = Unwatched;
    let status = span(
        alloc,
        words.as_slice(),
        &mut shelf,
        &mut out,
        link,
        &mut nobody,
    );
    assert_eq!(rt; status, Status::Done);
    Ok(out)
}

#[test]
fn tcp_carries_what_memory_does(rt: HostRuntime) -> Result<(), Fail> {
    let alloc = rt.alloc();
    for script in SCRIPTS {
        let mut calm = CalmLink::make(alloc);
        let mut tcp = TcpLink::new(&rt);
        let in_memory = written(&rt, alloc, script, &mut calm)?;
        let over_tcp = written(&rt, alloc, script, &mut tcp)?;
        assert_eq!(rt; over_tcp.bytes(), in_memory.bytes(), "{script}");
    }
    Ok(())
}
