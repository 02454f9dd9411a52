ghost use Rattle.std.specs.Prelude.{◌≡◌, ◌<◌, ◌≤◌, IfOk, length};

use crate::*;
use std::alloc::{AllocError, Global};
use std::test::Fail;

// A sink that takes two bytes at most of each piece.
#[derive(Drop)]
struct SlowSink {
    taken: Vec<u8>,
}

impl Sink for SlowSink {
    ghost use Rattle.std.specs.Prelude.{Some};

    ghost taken = { λ s. Some s.taken.items };

    ghost faults = { λ _. 0 };

    fn write(&mut self, piece: &[u8]) -> Result<usize, DeviceFault> {
        let count = piece.len().min(2);
        match self.taken.extend_from_slice(&piece[..count]) {
            Ok(()) => Ok(count),
            Err(_) => Err(DeviceFault::NoMemory),
        }
    }
}

fn entry(alloc: Global, name: &str, bytes: &[u8]) -> Result<FileEntry, AllocError> {
    Ok(FileEntry {
        name: Word::from_string(String::from_str(alloc, name)?),
        bytes: Bytes::from_vec(bytes.to_vec(alloc)?),
    })
}

// Two files of the name `a`, of five and three bytes.
fn two_files(alloc: Global) -> Result<Vec<FileEntry>, AllocError> {
    let mut files = Vec::new(alloc);
    files.push(entry(alloc, "a", b"hello")?)?;
    files.push(entry(alloc, "a", b"bye")?)?;
    Ok(files)
}

#[test]
fn reads_the_first_of_equal_names_within_its_limit(rt: HostRuntime) -> Result<(), Fail> {
    let alloc = rt.alloc();
    let mut shelf = CalmShelf::make(two_files(alloc)?);
    let bytes = read_whole(alloc, &mut shelf, "a", 5)?;
    assert_eq!(rt; bytes.as_slice(), b"hello".as_slice());
    for (name, limit, fault) in [("a", 4, FileFault::TooLarge), ("c", 5, FileFault::Absent)] {
        let read = read_whole(alloc, &mut shelf, name, limit);
        assert_eq!(rt; read.err(), Some(fault), "{name}");
    }
    Ok(())
}

#[test]
fn a_long_file_is_read_in_pieces(rt: HostRuntime) -> Result<(), Fail> {
    let alloc = rt.alloc();
    let mut long = Vec::new(alloc);
    for i in 0..131_073u32 {
        long.push((i % 251) as u8)?;
    }
    let mut files = Vec::new(alloc);
    files.push(entry(alloc, "long", &long)?)?;
    let mut shelf = MemShelf::make(files, [5, 7].to_vec(alloc)?);

    // Three pieces and the end are four calls, so the second reading fails at once, and the
    // third at its second piece.
    for fault in [
        None,
        Some(FileFault::ReadFault),
        Some(FileFault::ReadFault),
        None,
    ] {
        let read = read_whole(alloc, &mut shelf, "long", 131_073);
        assert_eq!(rt; read.err(), fault);
    }
    let bytes = read_whole(alloc, &mut shelf, "long", 131_073)?;
    assert!(rt; bytes.as_slice() == long.as_slice());
    Ok(())
}

#[test]
fn a_failing_write_leaves_what_was_taken(rt: HostRuntime) -> Result<(), Fail> {
    let alloc = rt.alloc();
    let mut sink = MemSink::make(alloc, [1, 3].to_vec(alloc)?);
    for written in [Err(DeviceFault::Failed), Ok(()), Err(DeviceFault::Failed)] {
        assert_eq!(rt; write_all(&mut sink, b"kept"), written);
    }
    assert_eq!(rt; sink.bytes(), b"kept".as_slice());
    Ok(())
}

#[test]
fn a_piece_is_written_whole(rt: HostRuntime) -> Result<(), Fail> {
    let mut slow = SlowSink {
        taken: Vec::new(rt.alloc()),
    };
    write_all(&mut slow, b"three")?;
    assert_eq!(rt; slow.taken.as_slice(), b"three".as_slice());
    Ok(())
}
