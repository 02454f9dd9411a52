//! The program `span_replica`: a replica that answers requests over TCP on this machine, and keeps
//! its journal in the file `replica.journal`.
#![tactic(auto)]

ghost use Rattle.std.specs.Prelude.{◌≡◌};
ghost use Rattle.std.specs.Process.{exit_status};
ghost use Rattle.span_service.specs.Statuses.{RunEnds, code_of};

use file_disk::FileDisk;
use span_base::Word;
use span_service::{ServeStatus, Served, port_of, serve_all};
use std::alloc::Global;
use std::process::ExitCode;
use std::rt::Env;
use std::{env, io};
use std_sink::StdSink;
use tcp_door::TcpDoor;

/// The file of the journal.
const JOURNAL: &str = "replica.journal";

fn main(rt: HostRuntime) -> ExitCode {
    match read_words(&rt) {
        Ok(words) => run(&rt, words.as_slice()),
        Err(error) if error.kind() == io::ErrorKind::InvalidData => end(&rt, &ServeStatus::Usage),
        // Nothing but memory can be wanting.
        Err(_) => end(&rt, &ServeStatus::NoMemory),
    }
}

// The words after the program's name. It fails where one isn't UTF-8, or there is no memory.
fn read_words<R: Env + Alloc<A = Global>>(rt: &R) -> io::Result<Vec<Word>> {
    let mut words = Vec::new(rt.alloc());
    for arg in env::args(rt)?.skip(1) {
        words.push(Word::from_string(arg))?;
    }
    Ok(words)
}

// Serves what the words ask for, and ends with the number of the status.
fn run(rt: &HostRuntime, words: &[Word]) -> ExitCode
    ensures { RunEnds words.now (exit_status result) }
{
    let port = port_of(words).unwrap_or(0);
    let mut door = TcpDoor::make(rt, port);
    let mut out = StdSink::new(io::writer(rt));
    let status = match FileDisk::make(rt, JOURNAL) {
        Ok(disk) => {
            let Served { status, .. } = serve_all(rt.alloc(), words, &mut door, disk, &mut out);
            status
        }
        Err(_) => ServeStatus::NoMemory,
    };
    end(rt, &status)
}

// Tells a status on standard error, and ends with its number, also where it can't be told.
fn end(rt: &impl Eprint, status: &ServeStatus) -> ExitCode
    ensures { exit_status result ≡ code_of status.now }
{
    let line = status.line();
    let _ = eprint!(rt; "{line}");
    ExitCode::from(status.code())
}
