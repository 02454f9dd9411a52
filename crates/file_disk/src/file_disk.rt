ghost use Rattle.std.specs.Prelude.{◌≤◌, length, IfOk};
ghost use Rattle.span_base.specs.Counts.{Rose};

use replica_journal::{Disk, Failed};
use span_base::DeviceFault;
use std::alloc::AllocError;
use std::fs::{File, OpenOptions};
use std::io::{self, ErrorKind, Read, Seek, SeekFrom, Write};

/// The most bytes that a disk may have.
const LIMIT: u64 = 9_223_372_036_854_775_807;

/// A file of the system. It tells nothing of what it holds, and counts each failure. Where it
/// couldn't be opened, every call fails. A sync makes the bytes safe; the name of a file that was
/// made is as safe as the system keeps its folder.
#[derive(Drop)]
pub struct FileDisk {
    file: Option<File>,
    faults: u64,
}

impl FileDisk {
    /// Opens the file of this name, or makes it.
    pub fn make(rt: &HostRuntime, name: &str) -> Result<FileDisk, AllocError> {
        let opened = OpenOptions::new()
            .read(true)
            .write(true)
            .create(true)
            .open(rt, name);
        match opened {
            Ok(file) => Ok(FileDisk {
                file: Some(file),
                faults: 0,
            }),
            Err(error) if error.kind() == ErrorKind::OutOfMemory => Err(AllocError),
            Err(_) => Ok(FileDisk {
                file: None,
                faults: 0,
            }),
        }
    }

    // Counts a failure.
    fn count(&mut self) -> Failed
        ensures stays { self.old.faults ≤ self.new.faults }
        ensures rose { Rose self.old.faults self.new.faults }
    {
        self.faults = self.faults.saturating_add(1);
        Failed
    }
}

impl Disk for FileDisk {
    ghost use Rattle.std.specs.Prelude.{None, false, ⊤};
    ghost use Rattle.std.proofs.Common.{rules};

    ghost told = { λ _. None };

    ghost faults = { λ d. d.faults };

    ghost calm = { λ _. false };

    ghost write_does = { λ _ _ _ _ _. ⊤ };

    ghost sync_does = { λ _ _ _. ⊤ };

    fn len(&mut self) -> Result<u64, Failed> {
        match len_of(&self.file) {
            Ok(len) => Ok(len),
            Err(_) => Err(self.count()),
        }
    }

    fn read_at(&mut self, at: u64, buf: &mut [u8]) -> Result<usize, Failed> {
        match read_from(&mut self.file, at, buf) {
            Ok(count) => Ok(count),
            Err(_) => Err(self.count()),
        }
    }

    fn write_at(&mut self, at: u64, piece: &[u8]) -> Result<(), DeviceFault> {
        match write_to(&mut self.file, at, piece) {
            Ok(()) => Ok(()),
            Err(_) => Err(DeviceFault::from(self.count())),
        }
    }

    fn sync(&mut self) -> Result<(), Failed> {
        match sync_all(&self.file) {
            Ok(()) => Ok(()),
            Err(_) => Err(self.count()),
        }
    }

    ghost small = { Prim.search rules };
}

// Why nothing can be done with a file that wasn't opened.
fn not_open() -> io::Error {
    io::Error::from(ErrorKind::NotFound)
}

fn len_of(file: &Option<File>) -> io::Result<u64>
    ensures { IfOk result (λ len. len ≤ 9223372036854775807) }
{
    match file {
        Some(file) => {
            let len = file.metadata()?.len();
            if len > LIMIT {
                return Err(io::Error::from(ErrorKind::FileTooLarge));
            }
            Ok(len)
        }
        None => Err(not_open()),
    }
}

fn read_from(file: &mut Option<File>, at: u64, buf: &mut [u8]) -> io::Result<usize>
    ensures { IfOk result (λ count. count ≤ length buf.new) }
{
    match file {
        Some(file) => {
            file.seek(SeekFrom::Start(at))?;
            file.read(buf)
        }
        None => Err(not_open()),
    }
}

fn write_to(file: &mut Option<File>, at: u64, piece: &[u8]) -> io::Result<()> {
    match file {
        Some(file) => {
            file.seek(SeekFrom::Start(at))?;
            file.write_all(piece)
        }
        None => Err(not_open()),
    }
}

fn sync_all(file: &Option<File>) -> io::Result<()> {
    match file {
        Some(file) => file.sync_all(),
        None => Err(not_open()),
    }
}
