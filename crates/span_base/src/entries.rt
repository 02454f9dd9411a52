ghost use Rattle.std.specs.Prelude.{◌≡◌, ◌<◌, ◌≤◌, length, option_map, option_copied, find};
ghost use Rattle.std.specs.Str.{bytes_eq};
ghost use Rattle.span_base.specs.declared.entries.FileEntry.{FileEntry};
ghost use Rattle.span_base.specs.Files.{GivesFrom, file_of};
ghost use Rattle.span_base.specs.Memory.{files_of};

use crate::{Bytes, Word};

/// A file of a shelf in memory.
#[derive(Debug, Drop)]
pub struct FileEntry {
    /// The name under which it is read. Of equal names the first file counts.
    pub name: Word,
    /// All its bytes.
    pub bytes: Bytes,
}

// The first entry of this name.
fn find_entry<'a>(files: &'a [FileEntry], name: &str) -> Option<&'a FileEntry>
    ensures { option_copied result ≡ find (λ (file : FileEntry). bytes_eq file.name name.now) files.now }
{
    files.iter().find(|file| file.name.as_str() == name)
}

// The bytes of the first file of this name.
#[tactic(auto, using(crate::proofs::LookUp::looked_up))]
pub(crate) fn find_file<'a>(files: &'a [FileEntry], name: &str) -> Option<&'a [u8]>
    ensures { option_map (λ bytes. bytes.now) result ≡ file_of name.now (files_of files.now) }
{
    let file = find_entry(files, name)?;
    Some(file.bytes.as_slice())
}

/// Copies what a file has from a place on, as far as there is room, and answers how much.
pub fn copy_from(file: &[u8], at: u64, buf: &mut [u8]) -> usize
    requires { 0 < length buf.old }
    ensures within { result ≤ length buf.new }
    ensures gives { GivesFrom file.now at buf.new result }
{
    let start = (file.len() as u64).min(at) as usize;
    let rest = &file[start..];
    let count = rest.len().min(buf.len());
    buf[..count].copy_from_slice(&rest[..count]);
    count
}
