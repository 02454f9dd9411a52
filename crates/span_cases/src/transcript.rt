use crate::crashes::tell_each_crash;
use crate::deals::deals_of;
use crate::faults::{Faults, failing};
use crate::files::Files;
use crate::run::Run;
use frame_link::{Link, MemLink};
use span_base::{Bytes, FileEntry, MemShelf, MemSink, Shelf, Sink, Word};
use span_top::{Status, Unwatched, explain, span};
use std::alloc::{AllocError, Global};
use std::{io, str};

/// Runs, and writes what came of it; each fault by itself, or each front of the last file, where this
/// is asked.
pub fn tell_run(rt: &HostRuntime, files: &mut Files, run: &Run) -> io::Result<()> {
    if run.each_fault {
        tell_each_fault(rt, files, run)
    } else if run.each_front {
        tell_each_front(rt, files, run)
    } else if run.each_crash {
        tell_crashes(rt, files, run)
    } else {
        let end = tell(rt, files, run, run.faults)?;
        keep(files, run, &end)
    }
}

// Keeps what was written as a file, where this is asked.
fn keep(files: &mut Files, run: &Run, end: &End) -> io::Result<()> {
    let Some(name) = &run.into else {
        return Ok(());
    };
    files.begin(name.as_str())?;
    if let Ok(text) = str::from_utf8(end.sink.bytes()) {
        files.add_unended(text)?;
    }
    Ok(())
}

// Runs, and writes what came of it: the bytes that were written, the line on standard error, in
// words too where this is asked, and the exit status.
fn tell(rt: &HostRuntime, files: &Files, run: &Run, faults: Faults) -> io::Result<End> {
    let entries = entries_of(rt, files, run)?;
    let mut end = end_of(rt.alloc(), entries, run, faults)?;
    tell_bytes(rt, run, end.sink.bytes())?;
    let line = end.status.line();
    print!(rt; "{line}")?;
    if run.in_words {
        let words = run.words.as_slice();
        let text = explain(rt.alloc(), words, &mut end.shelf, &end.status)?;
        println!(rt; "{text}")?;
    }
    let code = end.status.code();
    println!(rt; "exit {code}")?;
    Ok(end)
}

// Runs with the first call of the shelf failing, then with the second, until a run has no such call,
// then so with the calls of the sink and of the link, and then with none.
fn tell_each_fault(rt: &HostRuntime, files: &Files, run: &Run) -> io::Result<()> {
    for call in 1..u64::MAX {
        if !tell_fault(rt, files, run, "shelf", call, Faults::of_shelf(call))? {
            break;
        }
    }
    for call in 1..u64::MAX {
        if !tell_fault(rt, files, run, "sink", call, Faults::of_sink(call))? {
            break;
        }
    }
    for call in 1..u64::MAX {
        if !tell_fault(rt, files, run, "link", call, Faults::of_link(call))? {
            break;
        }
    }
    println!(rt; "none")?;
    tell(rt, files, run, Faults::none())?;
    Ok(())
}

// Runs with a call failing, and tells the run where it met that fault. It answers whether it did.
fn tell_fault(
    rt: &HostRuntime,
    files: &Files,
    run: &Run,
    device: &str,
    call: u64,
    faults: Faults,
) -> io::Result<bool> {
    let entries = entries_of(rt, files, run)?;
    let end = end_of(rt.alloc(), entries, run, faults)?;
    let met = matches!(
        end.status,
        Status::ReadFault | Status::WriteFault | Status::LinkFault
    );
    if met {
        println!(rt; "{device} {call}")?;
        tell(rt, files, run, faults)?;
    }
    Ok(met)
}

// Runs with no byte of the last file, then with the first, and so on to the whole file. A length is
// told with its status line where the length before has another.
fn tell_each_front(rt: &HostRuntime, files: &Files, run: &Run) -> io::Result<()> {
    let Some(last) = entries_of(rt, files, run)?.pop() else {
        return println!(rt; "no file");
    };
    // No status line.
    let mut before = String::from_str(rt.alloc(), "none")?;
    for length in 0..last.bytes.len() + 1 {
        let line = front_line(rt, files, run, &last, length)?;
        if line.as_str() != before.as_str() {
            println!(rt; "front {length}")?;
            print!(rt; "{line}")?;
        }
        before = line;
    }
    Ok(())
}

// Runs the last file, a schedule, with each crash that may be.
fn tell_crashes(rt: &HostRuntime, files: &Files, run: &Run) -> io::Result<()> {
    let Some(last) = entries_of(rt, files, run)?.pop() else {
        return println!(rt; "no file");
    };
    match str::from_utf8(last.bytes.as_slice()) {
        Ok(schedule) => tell_each_crash(rt, run, last.name.as_str(), schedule),
        Err(_) => println!(rt; "no text"),
    }
}

// The status line of a run in which the last file is cut at this length.
fn front_line(
    rt: &HostRuntime,
    files: &Files,
    run: &Run,
    last: &FileEntry,
    length: usize,
) -> io::Result<String> {
    let mut entries = entries_of(rt, files, run)?;
    entries.pop();
    entries.push(front_of(rt.alloc(), last, length)?)?;
    let end = end_of(rt.alloc(), entries, run, Faults::none())?;
    let line = end.status.line();
    let mut text = String::new(rt.alloc());
    write!(text, "{line}")?;
    Ok(text)
}

// The file, cut at this length.
fn front_of(alloc: Global, last: &FileEntry, length: usize) -> Result<FileEntry, AllocError> {
    let length = length.min(last.bytes.len());
    Ok(FileEntry {
        name: Word::from_string(String::from_str(alloc, last.name.as_str())?),
        bytes: Bytes::from_vec(last.bytes.as_slice()[..length].to_vec(alloc)?),
    })
}

/// The end of a run.
#[derive(Drop)]
pub struct End {
    pub status: Status,
    shelf: MemShelf,
    pub sink: MemSink,
}

// The files that the words of a run name.
fn entries_of(rt: &HostRuntime, files: &Files, run: &Run) -> io::Result<Vec<FileEntry>> {
    let mut entries = Vec::new(rt.alloc());
    for word in &run.words {
        if let Some(entry) = files.entry(rt, word.as_str())? {
            entries.push(entry)?;
        }
    }
    Ok(entries)
}

/// How a run over these files ends where these calls fail.
pub fn end_of(
    alloc: Global,
    entries: Vec<FileEntry>,
    run: &Run,
    faults: Faults,
) -> Result<End, AllocError> {
    let shelf_calls = failing(alloc, faults.shelf)?;
    let sink_calls = failing(alloc, faults.sink)?;
    let mut link = link_of(alloc, run, faults)?;
    let mut shelf = MemShelf::make(entries, shelf_calls);
    let mut sink = MemSink::make(alloc, sink_calls);
    let status = status_of(alloc, run, &mut shelf, &mut sink, &mut link);
    Ok(End {
        status,
        shelf,
        sink,
    })
}

// How the words of a run end.
fn status_of<S: Shelf, K: Sink, L: Link>(
    alloc: Global,
    run: &Run,
    shelf: &mut S,
    sink: &mut K,
    link: &mut L,
) -> Status {
    let mut nobody = Unwatched;
    span(alloc, run.words.as_slice(), shelf, sink, link, &mut nobody)
}

// The link of a run. It gives each frame once and in order, but for the deals that are told.
fn link_of(alloc: Global, run: &Run, faults: Faults) -> Result<MemLink, AllocError> {
    let failing = failing(alloc, faults.link)?;
    let deals = match &run.deals {
        Some(text) => deals_of(alloc, text.as_str())?,
        None => None,
    };
    match deals {
        Some(deals) => Ok(MemLink::make(alloc, deals, failing)),
        None => Ok(MemLink::make(alloc, Vec::new(alloc), failing)),
    }
}

// Writes the bytes of a run, without the lines of trees where this is asked, or nothing of them where
// they become a file.
fn tell_bytes(rt: &HostRuntime, run: &Run, bytes: &[u8]) -> io::Result<()> {
    if run.into.is_some() {
        return Ok(());
    }
    let Ok(text) = str::from_utf8(bytes) else {
        return println!(rt; "bytes that are no UTF-8");
    };
    for line in text.split_inclusive('\n') {
        if !(run.no_trees && is_of_tree(line)) {
            print!(rt; "{line}")?;
        }
    }
    Ok(())
}

fn is_of_tree(line: &str) -> bool {
    line.starts_with("b ") || line.starts_with("l ")
}
