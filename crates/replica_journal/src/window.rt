//! A disk's bytes are read in pieces, from one record to the next.

ghost use Rattle.std.specs.Prelude.{◌≡◌, ◌≤◌, ℕ, Option, length, IfOk, IfSome, OnOk, IsErrOf, MatchOption, is_err};
ghost use Rattle.replica_journal.specs.Disk.{History};
ghost use Rattle.replica_journal.specs.Counting.{Counts};
ghost use Rattle.replica_journal.specs.Opening.{open_failed};
ghost use Rattle.replica_journal.specs.Windows.{Fills, IsWindow, IsInside, IsFoundAt, IsSoundFound};

use crate::disk::{Disk, Failed};
use crate::open_fault::OpenCause;
use crate::record::{AtGate, read_record};
use std::alloc::{AllocError, Global};

/// How many bytes are read at once: some thirty of the longest records.
const SIZE: usize = 131_072;

/// Bytes of a disk, read into a buffer.
#[derive(Debug, Drop)]
pub(crate) struct Window {
    /// The buffer.
    bytes: Vec<u8>,
    /// The place of its first byte on the disk.
    at: u64,
    /// How many bytes were read: fewer than the buffer holds only at the disk's end.
    len: usize,
}

impl Window {
    /// A window at the disk's beginning.
    pub(crate) fn open<D: Disk>(alloc: Global, disk: &mut D) -> Result<Window, OpenCause>
        ensures window { IfOk result (λ window. IsWindow (D.told disk.new) window × (window.at ≡ 0)) }
        ensures stays { D.told disk.new ≡ D.told disk.old }
        ensures counts { Counts (D.faults disk.old) (D.faults disk.new) (D.calm disk.old) (D.calm disk.new) (open_failed result) }
        ensures undamaged { (at : ℕ) → IsErrOf result (OpenCause.Damaged at) → ⊥ }
    {
        let mut window = Window {
            bytes: vec![in alloc; 0; SIZE]?,
            at: 0,
            len: 0,
        };
        window.read(disk, 0)?;
        Ok(window)
    }

    /// Reads the bytes from a place on.
    fn read<D: Disk>(&mut self, disk: &mut D, at: u64) -> Result<(), Failed>
        requires place { at ≤ 9223372036854775807 }
        requires size { length self.old.bytes.items ≡ 131072 }
        ensures window { OnOk result (IsWindow (D.told disk.old) self.new) }
        ensures at { OnOk result (self.new.at ≡ at) }
        ensures size { length self.new.bytes.items ≡ 131072 }
        ensures stays { D.told disk.new ≡ D.told disk.old }
        ensures counts { Counts (D.faults disk.old) (D.faults disk.new) (D.calm disk.old) (D.calm disk.new) (is_err result) }
    {
        self.len = fill(disk, at, self.bytes.as_mut_slice())?;
        self.at = at;
        Ok(())
    }

    /// What stands at a gate that the window holds, if it holds enough to tell.
    fn look(&self, alloc: Global, gate: u64, keys: u16) -> Result<Option<AtGate>, AllocError>
        requires from { self.now.at ≤ gate }
        requires size { length self.now.bytes.items ≡ 131072 }
        requires within { self.now.len ≤ 131072 }
        ensures sound { IfOk result (λ found. IfSome found (λ found. IsSoundFound keys found)) }
        ensures found { (told : Option History) → IsWindow told self.now → IfOk result (λ found. MatchOption found (self.now.at ≡ gate → IsInside told gate → IsFoundAt told keys gate AtGate.Damaged) (λ found. IsFoundAt told keys gate found)) }
    {
        let start = gate - self.at;
        if start >= self.len as u64 {
            return Ok(None);
        }
        read_record(alloc, &self.bytes[start as usize..self.len], keys)
    }

    /// What stands at a gate of the disk, in the journal of a replica with so many keys. The bytes
    /// from there on are read where the window doesn't hold them.
    pub(crate) fn record_at<D: Disk>(
        &mut self,
        alloc: Global,
        disk: &mut D,
        gate: u64,
        keys: u16,
    ) -> Result<AtGate, OpenCause>
        requires window { IsWindow (D.told disk.old) self.old }
        requires from { self.old.at ≤ gate }
        requires place { gate ≤ 9223372036854775807 }
        requires inside { IsInside (D.told disk.old) gate }
        ensures sound { IfOk result (λ found. IsSoundFound keys found) }
        ensures found { IfOk result (λ found. IsFoundAt (D.told disk.old) keys gate found) }
        ensures window { OnOk result (IsWindow (D.told disk.new) self.new) }
        ensures from { OnOk result (self.new.at ≤ gate) }
        ensures stays { D.told disk.new ≡ D.told disk.old }
        ensures counts { Counts (D.faults disk.old) (D.faults disk.new) (D.calm disk.old) (D.calm disk.new) (open_failed result) }
        ensures undamaged { (at : ℕ) → IsErrOf result (OpenCause.Damaged at) → ⊥ }
    {
        if let Some(found) = self.look(alloc, gate, keys)? {
            return Ok(found);
        }
        self.read(disk, gate)?;
        match self.look(alloc, gate, keys)? {
            Some(found) => Ok(found),
            None => Ok(AtGate::Damaged),
        }
    }
}

/// Reads from the place `at` on until the buffer is full or the disk ends, and answers how many
/// bytes there were.
pub(crate) fn fill<D: Disk>(disk: &mut D, at: u64, buf: &mut [u8]) -> Result<usize, Failed>
    requires place { at ≤ 9223372036854775807 }
    requires size { length buf.old ≤ 131072 }
    ensures within { IfOk result (λ n. n ≤ length buf.new) }
    ensures fills { Fills (D.told disk.old) at buf.new result }
    ensures stays { D.told disk.new ≡ D.told disk.old }
    ensures counts { Counts (D.faults disk.old) (D.faults disk.new) (D.calm disk.old) (D.calm disk.new) (is_err result) }
{
    let mut filled = 0;
    while filled < buf.len() {
        let count = disk.read_at(at + filled as u64, &mut buf[filled..])?;
        if count == 0 {
            return Ok(filled);
        }
        filled += count;
    }
    Ok(filled)
}
