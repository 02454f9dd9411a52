use span_base::{Bytes, FileEntry, Word};
use std::alloc::{AllocError, Global};
use std::rt::Files as Disk;
use std::{fs, io};

/// The files that the list has given so far.
#[derive(Drop)]
pub struct Files {
    given: Vec<Given>,
}

/// A file that the list has given.
#[derive(Drop)]
struct Given {
    name: String,
    text: String,
}

impl Files {
    /// No file yet.
    pub fn new(alloc: Global) -> Files {
        Files {
            given: Vec::new(alloc),
        }
    }

    /// Begins a file without bytes; one of the same name is gone.
    pub fn begin(&mut self, name: &str) -> Result<(), AllocError> {
        let alloc = *self.given.allocator();
        self.given.retain(|file| file.name.as_str() != name);
        let name = String::from_str(alloc, name)?;
        let text = String::new(alloc);
        self.given.push(Given { name, text })?;
        Ok(())
    }

    /// Adds a line to the newest file.
    pub fn add(&mut self, text: &str) -> Result<(), AllocError> {
        self.add_unended(text)?;
        self.add_unended("\n")
    }

    /// Adds a text without a line feed to the newest file.
    pub fn add_unended(&mut self, text: &str) -> Result<(), AllocError> {
        let Some(file) = self.given.last_mut() else {
            return Ok(());
        };
        file.text.push_str(text)
    }

    /// Adds so many lines to the newest file, each with its number in the place of `#`.
    pub fn add_repeated(&mut self, count: u64, text: &str) -> Result<(), AllocError> {
        let Some(file) = self.given.last_mut() else {
            return Ok(());
        };
        for number in 0..count {
            add_numbered(&mut file.text, number + 1, text)?;
        }
        Ok(())
    }

    /// Adds the text so many times to the newest file, without line feeds.
    pub fn add_unbroken(&mut self, count: u64, text: &str) -> Result<(), AllocError> {
        for _ in 0..count {
            self.add_unended(text)?;
        }
        Ok(())
    }

    /// The file of a name: one that the list gave, else one that lies where the program runs.
    pub fn entry<R: Disk + AllocGlobal>(
        &self,
        rt: &R,
        name: &str,
    ) -> io::Result<Option<FileEntry>> {
        for file in &self.given {
            if file.name.as_str() == name {
                let bytes = file.text.as_bytes().to_vec(rt.alloc())?;
                return Ok(Some(entry_of(rt.alloc(), name, bytes)?));
            }
        }
        match fs::read(rt, name) {
            Ok(bytes) => Ok(Some(entry_of(rt.alloc(), name, bytes)?)),
            Err(error) if error.kind() == io::ErrorKind::NotFound => Ok(None),
            Err(error) => Err(error),
        }
    }
}

// Adds a line with this number in the place of each `#`.
fn add_numbered(to: &mut String, number: u64, text: &str) -> Result<(), AllocError> {
    let mut parts = text.split('#');
    if let Some(part) = parts.next() {
        to.push_str(part)?;
    }
    for part in parts {
        write!(to, "{number}{part}")?;
    }
    to.push('\n')
}

fn entry_of(alloc: Global, name: &str, bytes: Vec<u8>) -> Result<FileEntry, AllocError> {
    Ok(FileEntry {
        name: Word::from_string(String::from_str(alloc, name)?),
        bytes: Bytes::from_vec(bytes),
    })
}
