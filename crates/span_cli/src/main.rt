//! The program `span`: its arguments, the files that it reads, its output and its link are the system's.
#![tactic(auto)]

ghost use Rattle.std.specs.Prelude.{◌≡◌};
ghost use Rattle.std.specs.Process.{exit_status};
ghost use Rattle.span_top.specs.Codes.{code_of};
ghost use Rattle.span_top.specs.Spans.{RunEnds};

mod file_shelf;
#[cfg(test)]
mod loop_tests;
mod progress;
mod words;

use file_shelf::FileShelf;
use progress::Progress;
use span_base::Word;
use span_top::{Status, explain, span};
use std::io::{self, IsTerminal};
use std::process::ExitCode;
use std_sink::StdSink;
use tcp_link::TcpLink;
use words::{Request, read_request};

/// The version of the program.
const VERSION: &str = "0.1.0";

/// What `--help` prints.
const HELP: &str = "\
Places the replicas of data sets in data centres at the least cost, with a proof of it.

usage:
  span plan WORLD [BUDGET]  plans the world in a file, and writes the plan
  span check WORLD PLAN     checks the plan in a file against a world, and writes what it shows
  span replay SCHEDULE      runs the schedule in a file, and writes what its clients see
  span replay-kept SCHEDULE runs one whose replicas keep journals, crash and come back
  span audit LOG            judges the log in a file, and writes what it has
  span loop SCRIPT          runs the script in a file, its messages over TCP on this machine
  span gen N                runs N calls whose events are drawn, 0 to 20,000, and writes how they ended
  span --help               writes this text
  span --version            writes the version

A world is read as TOML where the file's name ends in .toml, else as CSV. The search for a set's
policy may write BUDGET lines, from 1 to 1,000,000,000; without the word 1,000,000. In a terminal
it tells on standard error how far it has come.
A script is a schedule that delivers no message: what arrives is delivered.
The exit status is 0 where the plan is complete or accepted, the whole schedule was run, or the log
breaks no clause. Any other is told on standard error.
";

fn main(rt: HostRuntime) -> ExitCode {
    match read_request(&rt) {
        Ok(Request::Help) => end_written(&rt, print!(rt; "{HELP}")),
        Ok(Request::Version) => end_written(&rt, println!(rt; "span {VERSION}")),
        Ok(Request::NotText) => end(&rt, &Status::Usage),
        Ok(Request::Words(words)) => run(&rt, words.as_slice()),
        // Nothing but memory can be wanting.
        Err(_) => end(&rt, &Status::NoMemory),
    }
}

// Does what the words ask, and ends with the number of the status that the top call answers.
fn run(rt: &HostRuntime, words: &[Word]) -> ExitCode
    ensures { RunEnds words.now (exit_status result) }
{
    let mut shelf = FileShelf::new(rt);
    let mut out = StdSink::new(io::writer(rt));
    let mut link = TcpLink::new(rt);
    let mut progress = Progress::new(rt);
    let status = span(
        rt.alloc(),
        words,
        &mut shelf,
        &mut out,
        &mut link,
        &mut progress,
    );
    let code = end(rt, &status);
    if !matches!(status, Status::Done) && rt.stderr().is_terminal() {
        if let Ok(text) = explain(rt.alloc(), words, &mut shelf, &status) {
            let _ = eprintln!(rt; "{text}");
        }
    }
    code
}

// Ends after a text of the program's own was written, or wasn't.
fn end_written(rt: &impl Eprint, written: io::Result<()>) -> ExitCode {
    match written {
        Ok(()) => end(rt, &Status::Done),
        Err(_) => end(rt, &Status::WriteFault),
    }
}

// Tells a status on standard error, and ends with its number, also where it can't be told.
fn end(rt: &impl Eprint, status: &Status) -> ExitCode
    ensures { exit_status result ≡ code_of status.now }
{
    let line = status.line();
    let _ = eprint!(rt; "{line}");
    ExitCode::from(status.code())
}
