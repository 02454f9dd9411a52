ghost use Rattle.std.specs.Prelude.{◌≡◌, ◌≤◌, length, IfOk};
ghost use Rattle.span_base.specs.Counts.{Rose};

use span_base::{Shelf, ShelfError};
use std::fs::File;
use std::io::{self, Read, Seek, SeekFrom};

/// The files of the system. It tells no content; a file that isn't there and any other fault are
/// counted.
#[derive(Drop)]
pub struct FileShelf<'a> {
    rt: &'a HostRuntime,
    /// The file that was read last.
    open: Option<OpenFile>,
    faults: u64,
    absences: u64,
}

/// A file that is open at a place.
#[derive(Drop)]
struct OpenFile {
    name: String,
    file: File,
    at: u64,
}

impl<'a> FileShelf<'a> {
    /// A shelf over the system's files that has read nothing yet.
    pub fn new(rt: &'a HostRuntime) -> FileShelf<'a> {
        FileShelf {
            rt,
            open: None,
            faults: 0,
            absences: 0,
        }
    }
}

impl Shelf for FileShelf<'_> {
    ghost use Rattle.std.specs.Prelude.{None};

    ghost files = { λ _. None };

    ghost faults = { λ s. s.faults };

    ghost absences = { λ s. s.absences };

    fn read_at(&mut self, name: &str, at: u64, buf: &mut [u8]) -> Result<usize, ShelfError> {
        match read_file(self.rt, &mut self.open, name, at, buf) {
            Ok(count) => Ok(count),
            Err(error) => match error.kind() {
                io::ErrorKind::NotFound => {
                    self.absences = self.absences.saturating_add(1);
                    Err(ShelfError::Absent)
                }
                io::ErrorKind::OutOfMemory => Err(ShelfError::NoMemory),
                _ => {
                    self.faults = self.faults.saturating_add(1);
                    Err(ShelfError::Failed)
                }
            },
        }
    }
}

// Reads once from a place of a file, which stays open for the next reading unless this one fails.
fn read_file(
    rt: &HostRuntime,
    open: &mut Option<OpenFile>,
    name: &str,
    at: u64,
    buf: &mut [u8],
) -> io::Result<usize>
    ensures { IfOk result (λ count. count ≤ length buf.new) }
{
    let mut next = match open.take() {
        Some(last) if last.at == at && last.name.as_str() == name => last,
        _ => open_at(rt, name, at)?,
    };
    let count = next.file.read(buf)?;
    next.at = at.saturating_add(count as u64);
    *open = Some(next);
    Ok(count)
}

fn open_at(rt: &HostRuntime, name: &str, at: u64) -> io::Result<OpenFile> {
    let mut file = File::open(rt, name)?;
    // A pipe can be read from its front, but has no place to go to.
    if at > 0 {
        file.seek(SeekFrom::Start(at))?;
    }
    Ok(OpenFile {
        name: String::from_str(rt.alloc(), name)?,
        file,
        at,
    })
}

#[cfg(test)]
mod tests {
    use super::*;
    use std::test::Fail;

    #[test]
    fn a_missing_file_is_absent(rt: HostRuntime) -> Result<(), Fail> {
        let mut shelf = FileShelf::new(&rt);
        let mut buf = [0; 4];
        let absent = shelf.read_at("no/such/file", 0, &mut buf);
        assert_eq!(rt; absent, Err(ShelfError::Absent));
        Ok(())
    }
}
