use crate::{Found, LinesFault, ShelfLines};
use span_base::{Bytes, FileEntry, MemShelf, Word};
use std::alloc::{AllocError, Global};
use std::test::Fail;

// A shelf with one file, `f`, of which the reads with these numbers fail.
fn shelf_of(alloc: Global, bytes: &[u8], failing: &[u64]) -> Result<MemShelf, AllocError> {
    let mut files = Vec::new(alloc);
    files.push(FileEntry {
        name: Word::from_string(String::from_str(alloc, "f")?),
        bytes: Bytes::from_vec(bytes.to_vec(alloc)?),
    })?;
    Ok(MemShelf::make(files, failing.to_vec(alloc)?))
}

// What a reader gives of the file: each line behind a bar, a line that is cut behind a slash, then
// how it ends.
fn transcript(
    alloc: Global,
    shelf: &mut MemShelf,
    name: &str,
    line_limit: u64,
    file_limit: u64,
) -> Result<Vec<u8>, AllocError> {
    let mut told = Vec::new(alloc);
    let mut lines = ShelfLines::make(alloc, line_limit, file_limit)?;
    for _ in 0..9 {
        let end: &[u8] = match lines.next(shelf, name) {
            Ok(Found::Line) => b"|",
            Ok(Found::Cut) => b"/",
            Ok(Found::End) => b".",
            Err(LinesFault::Absent) => b"absent",
            Err(LinesFault::ReadFault) => b"fault",
            Err(LinesFault::LineTooLong) => b"long",
            Err(LinesFault::FileTooLarge) => b"large",
            Err(LinesFault::NoMemory) => b"memory",
        };
        told.extend_from_slice(end)?;
        if end.len() > 1 || end == b".".as_slice() {
            break;
        }
        told.extend_from_slice(lines.line())?;
    }
    Ok(told)
}

#[test]
fn lines_come_in_order_and_within_the_limits(rt: HostRuntime) -> Result<(), Fail> {
    let alloc = rt.alloc();
    for (text, line_limit, file_limit, told) in [
        ("", 3, 9, "."),
        ("abc\n\nde\n", 3, 8, "|abc||de."),
        ("abc\nde", 3, 6, "|abc/de."),
        ("ab\nabcd\n", 3, 9, "|ablong"),
        ("ab\nabcd", 3, 9, "|ablong"),
        ("ab\nab\n", 3, 5, "|ablarge"),
        ("ab\nab", 3, 5, "|ab/ab."),
        ("ab\nabcdef", 3, 6, "|ablarge"),
        ("ab\nabcdef", 3, 7, "|ablong"),
    ] {
        let mut shelf = shelf_of(alloc, text.as_bytes(), &[])?;
        let seen = transcript(alloc, &mut shelf, "f", line_limit, file_limit)?;
        assert_eq!(rt; seen.as_slice(), told.as_bytes(), "{text}");
    }
    Ok(())
}

#[test]
fn a_line_longer_than_the_buffer_comes_whole(rt: HostRuntime) -> Result<(), Fail> {
    let alloc = rt.alloc();
    let mut text: Vec<u8> = vec![in alloc; 7; 200_000]?;
    text[10] = b'\n';
    text[150_000] = b'\n';
    let mut shelf = shelf_of(alloc, text.as_slice(), &[])?;
    let mut lines = ShelfLines::make(alloc, 1_048_576, 4_294_967_295)?;
    assert_eq!(rt; lines.next(&mut shelf, "f"), Ok(Found::Line));
    assert_eq!(rt; lines.next(&mut shelf, "f"), Ok(Found::Line));
    assert_eq!(rt; lines.line().len(), 149_989);
    assert_eq!(rt; lines.next(&mut shelf, "f"), Ok(Found::Cut));
    assert_eq!(rt; lines.line().len(), 49_999);
    Ok(())
}

#[test]
fn a_read_that_fails_ends_the_lines(rt: HostRuntime) -> Result<(), Fail> {
    let alloc = rt.alloc();
    let mut shelf = shelf_of(alloc, b"ab\ncd\n", &[2])?;
    let seen = transcript(alloc, &mut shelf, "f", 3, 9)?;
    assert_eq!(rt; seen.as_slice(), b"|ab|cdfault".as_slice());
    let seen = transcript(alloc, &mut shelf, "g", 3, 9)?;
    assert_eq!(rt; seen.as_slice(), b"absent".as_slice());
    Ok(())
}
