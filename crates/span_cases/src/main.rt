//! Runs the top call over forms in memory of the files and the output, case by case. The list of
//! cases is the file `cases`; its lines are written as they stand, and after each run what it wrote,
//! its line on standard error, and its exit status.
#![tactic(auto)]

mod crashes;
mod deals;
mod faults;
mod files;
mod list;
mod run;
mod transcript;

use files::Files;
use list::{Line, line_of};
use run::run_of;
use std::{fs, io};
use transcript::tell_run;

fn main(rt: HostRuntime) -> io::Result<()> {
    let list = fs::read_to_string(&rt, "cases")?;
    let mut files = Files::new(rt.alloc());
    for line in list.lines() {
        take(&rt, &mut files, line)?;
    }
    Ok(())
}

// Takes the next line of the list, and writes it.
fn take(rt: &HostRuntime, files: &mut Files, line: &str) -> io::Result<()> {
    println!(rt; "{line}")?;
    match line_of(line) {
        Line::Remark => Ok(()),
        Line::File { name } => Ok(files.begin(name)?),
        Line::Text { text } => Ok(files.add(text)?),
        Line::Unended { text } => Ok(files.add_unended(text)?),
        Line::Repeated { count, text } => Ok(files.add_repeated(count, text)?),
        Line::Unbroken { count, text } => Ok(files.add_unbroken(count, text)?),
        Line::Run { command, options } => match run_of(rt.alloc(), command, options)? {
            Some(run) => tell_run(rt, files, &run),
            None => println!(rt; "no such option"),
        },
        Line::Unknown => println!(rt; "no line of a list"),
    }
}
