//! Restart runs: a schedule with one crash in it.

use crate::faults::Faults;
use crate::run::{Run, run_of};
use crate::transcript::end_of;
use span_base::{Bytes, Cause, FileEntry, Word};
use span_top::Status;
use std::alloc::{AllocError, Global};
use std::io;

/// Runs the schedule with a crash before each of its deliveries, of the message that is delivered: at
/// each call of the disk, which keeps the old bytes, and then the new ones. What was written is
/// audited. A message that comes to no replica isn't told.
pub fn tell_each_crash(rt: &HostRuntime, run: &Run, name: &str, schedule: &str) -> io::Result<()> {
    for (number, event) in schedule.lines().enumerate() {
        if event.starts_with("deliver ") {
            for call in 1..5 {
                tell_crash(rt, run, name, schedule, number, call, "old")?;
                tell_crash(rt, run, name, schedule, number, call, "new")?;
            }
        }
    }
    Ok(())
}

// Runs the schedule with a crash before this line, and audits what was written.
fn tell_crash(
    rt: &HostRuntime,
    run: &Run,
    name: &str,
    schedule: &str,
    number: usize,
    call: u8,
    image: &str,
) -> io::Result<()> {
    let text = with_crash(rt.alloc(), schedule, number, call, image)?;
    let files = one_file(rt.alloc(), name, text.as_bytes())?;
    let end = end_of(rt.alloc(), files, run, Faults::none())?;
    let cause = Cause::Actor;
    if matches!(&end.status, Status::BadEvent { cause: told, .. } if *told == cause) {
        return Ok(());
    }
    let code = end.status.code();
    let Some(audit) = run_of(rt.alloc(), "span audit log", None)? else {
        return Ok(());
    };
    let log = one_file(rt.alloc(), "log", end.sink.bytes())?;
    let judged = end_of(rt.alloc(), log, &audit, Faults::none())?;
    let judgement = judged.status.code();
    println!(rt; "crash {number} {call} {image}: exit {code}, audit exit {judgement}")
}

// The schedule with a crash before the line of this number, counted from 0, which delivers a message.
fn with_crash(
    alloc: Global,
    schedule: &str,
    line: usize,
    call: u8,
    image: &str,
) -> Result<String, AllocError> {
    let mut text = String::new(alloc);
    for (number, event) in schedule.lines().enumerate() {
        if number == line {
            if let Some(message) = event.strip_prefix("deliver ") {
                write!(text, "crash {message} {call} {image}\n")?;
            }
        }
        text.push_str(event)?;
        text.push('\n')?;
    }
    Ok(text)
}

// This file alone.
fn one_file(alloc: Global, name: &str, bytes: &[u8]) -> Result<Vec<FileEntry>, AllocError> {
    let mut files = Vec::new(alloc);
    files.push(FileEntry {
        name: Word::from_string(String::from_str(alloc, name)?),
        bytes: Bytes::from_vec(bytes.to_vec(alloc)?),
    })?;
    Ok(files)
}
