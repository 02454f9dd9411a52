use crate::status::Status;
use crate::texts::{asked_by_cause, asked_by_clause, asked_by_event, asked_by_limit};
use crate::world_file::{WORLD_BYTES, names_toml};
use span_base::{Cause, Shelf, Word, read_whole};
use std::alloc::{AllocError, Global};
use world_text::table_place;

/// What a status means, in words: the file, the record in it, and what is asked of it. For a table of
/// a TOML text the file is read once more; where it can't be, its record is told by its line.
pub fn explain<S: Shelf>(
    alloc: Global,
    words: &[Word],
    shelf: &mut S,
    status: &Status,
) -> Result<String, AllocError> {
    let mut text = String::new(alloc);
    match status {
        Status::Done => text.push_str("all was done")?,
        Status::NoMemory => text.push_str("there was no memory")?,
        Status::Usage => {
            text.push_str("the words are those of no command; span --help tells them")?;
        }
        Status::Absent { file } => {
            let name = file_name(words, *file);
            write!(text, "there is no file {name}")?;
        }
        Status::BadInput { file, line, cause } => {
            let name = file_name(words, *file);
            match cause {
                // Only the end shows these.
                Cause::Link | Cause::Members => write!(text, "{name}: after the last record: ")?,
                _ => write_place(alloc, &mut text, shelf, words, *file, *line)?,
            }
            text.push_str(asked_by_cause(*cause))?;
        }
        Status::NoPolicy { set } => {
            let number = set.0;
            write!(
                text,
                "no policy meets the goals of set {number}, counted from 0; the plan is written whole"
            )?;
        }
        Status::Budget { set } => {
            let number = set.0;
            write!(
                text,
                "the search for set {number}, counted from 0, was cut off at the budget of tree lines; the plan is written whole, with the best policy found"
            )?;
        }
        Status::Refused { line, cause } => {
            let asked = asked_by_clause(*cause);
            write!(text, "line {line} is refused: {asked}")?;
        }
        Status::BadEvent { line, cause } => {
            let asked = asked_by_event(*cause);
            write!(text, "the event in line {line} is refused: {asked}")?;
        }
        Status::ReadFault => text.push_str("a file couldn't be read")?,
        Status::WriteFault => text.push_str("the output couldn't be written")?,
        Status::TooLarge {
            file,
            line,
            what,
            number,
        } => {
            write_place(alloc, &mut text, shelf, words, *file, *line)?;
            let asked = asked_by_limit(*what);
            write!(text, "{number} is too large: {asked}")?;
        }
        Status::LinkFault => text.push_str("the link failed")?,
        Status::Strange { to, .. } => {
            write!(
                text,
                "a frame arrived for node {to} that is no message sent to it"
            )?;
        }
    }
    Ok(text)
}

// The name of a file, which are counted from 0 behind the word of the command.
fn file_name(words: &[Word], file: u8) -> &str {
    match words.get(usize::from(file) + 1) {
        Some(name) => name.as_str(),
        None => "",
    }
}

// Adds the name of a file and the record, or the line of a text that isn't a world's, at a line of
// it. Line 0 is the whole file.
fn write_place<S: Shelf>(
    alloc: Global,
    text: &mut String,
    shelf: &mut S,
    words: &[Word],
    file: u8,
    line: u64,
) -> Result<(), AllocError> {
    let name = file_name(words, file);
    write!(text, "{name}: ")?;
    if line == 0 {
        return Ok(());
    }
    if has_lines(words, file) {
        return write!(text, "line {line}: ");
    }
    if names_toml(name) {
        if let Ok(bytes) = read_whole(alloc, shelf, name, WORLD_BYTES) {
            if let Some(place) = table_place(alloc, bytes.as_slice(), line) {
                let (number, key) = (place.number, place.key);
                return write!(text, "table {number} of {key}: ");
            }
        }
    }
    write!(text, "record {line}: ")
}

// Whether this file of the command is no world, so that its places are lines.
fn has_lines(words: &[Word], file: u8) -> bool {
    let Some(word) = words.first() else {
        return false;
    };
    match word.as_str() {
        "replay" | "replay-kept" | "audit" | "loop" => true,
        "check" => file == 1,
        _ => false,
    }
}
