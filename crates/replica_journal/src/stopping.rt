//! A replica whose machine stops in the middle of a call of its disk.

ghost use Rattle.std.specs.Prelude.{◌≡◌, ◌+◌, ◌<◌, ◌≤◌, List, None, false, IsTrue, length, IfOk, IfSome};
ghost use Rattle.wire_msg.specs.declared.message.Message.{Message};
ghost use Rattle.wire_msg.specs.Lawful.{IsLawful};
ghost use Rattle.replica_core.specs.Rule.{request_key};
ghost use Rattle.replica_core.specs.Taking.{IsLogged, record_size};
ghost use Rattle.replica_journal.specs.Disk.{bytes_of};
ghost use Rattle.replica_journal.specs.Calls.{is_calm};
ghost use Rattle.replica_journal.specs.Records.{HasRecords};
ghost use Rattle.replica_journal.specs.Taken.{IsWanting};
ghost use Rattle.replica_journal.specs.Stopped.{KeepsStopped, Reopens, stopped};

use crate::kept_replica::KeptReplica;
use crate::mem_disk::MemDisk;
use crate::open_fault::{OpenCause, OpenFault};
use replica_core::{TakeFault, Taker};
use std::alloc::{AllocError, Global};
use wire_msg::{Message, Outputs};

impl KeptReplica<MemDisk> {
    /// Takes a message until the disk fails in its call of this number, from 1 to 4, drops what is
    /// put out, and opens the journal again on what a crash leaves of the disk: all that was
    /// written, or only what was safe.
    pub fn stop_in(
        self,
        alloc: Global,
        message: &Message,
        call: u8,
        new: bool,
    ) -> Result<KeptReplica<MemDisk>, AllocError>
        requires lawful { IsLawful message.now }
        requires key { IfSome (request_key message.now) (λ key. key.0 < length self.state.kept) }
        requires first { 1 ≤ call }
        requires last { call ≤ 4 }
        requires open { self.shut ≡ false }
        requires room { IsLogged message.now → self.place.gate + record_size message.now ≤ 4294967295 }
        requires calm { IsTrue (is_calm self.disk.calls) }
        ensures state { IfOk result (λ kept. kept.state ≡ stopped self.state message.now call new) }
        ensures open { IfOk result (λ kept. kept.shut ≡ false) }
        ensures calm { IfOk result (λ kept. IsTrue (is_calm kept.disk.calls)) }
        ensures grows { IfOk result (λ kept. kept.place.gate ≤ self.place.gate + record_size message.now) }
        ensures number { IfOk result (λ kept. kept.state.number ≡ self.state.number) }
        ensures keys { IfOk result (λ kept. length kept.state.kept ≡ length self.state.kept) }
    {
        let number = self.replica.number();
        let keys = self.replica.keys();
        let disk = self.fail_in(alloc, message, call)?;
        reopen(alloc, disk.crash(new), number, keys)
    }

    /// The disk of a replica that took a message until the disk failed in this call.
    fn fail_in(mut self, alloc: Global, message: &Message, call: u8) -> Result<MemDisk, AllocError>
        requires lawful { IsLawful message.now }
        requires key { IfSome (request_key message.now) (λ key. key.0 < length self.state.kept) }
        requires first { 1 ≤ call }
        requires last { call ≤ 4 }
        requires open { self.shut ≡ false }
        requires room { IsLogged message.now → self.place.gate + record_size message.now ≤ 4294967295 }
        requires calm { IsTrue (is_calm self.disk.calls) }
        ensures { IfOk result (λ disk. KeepsStopped self.state self.place message.now call disk.history) }
    {
        self.disk.fail_in(u64::from(call));
        let taken = self.take(alloc, message, &mut Outputs::make(alloc));
        match lack_in(taken) {
            Some(error) => Err(error),
            None => Ok(self.into_disk()),
        }
    }
}

/// The want of memory that a take ended with, if it did.
fn lack_in(taken: Result<(), TakeFault>) -> Option<AllocError>
    ensures { result ≡ None → IsWanting taken → ⊥ }
{
    match taken {
        Ok(()) => None,
        Err(TakeFault::NoMemory(error)) => Some(error),
        Err(TakeFault::DiskFault) => None,
        Err(TakeFault::Shut) => None,
        Err(TakeFault::Full { .. }) => None,
    }
}

/// Opens the journal of a disk that doesn't fail and isn't damaged.
fn reopen(
    alloc: Global,
    disk: MemDisk,
    number: u8,
    keys: u16,
) -> Result<KeptReplica<MemDisk>, AllocError>
    requires number { number < 16 }
    requires keys { keys ≤ 1000 }
    requires calm { IsTrue (is_calm disk.calls) }
    requires sound { (messages : List Message) × HasRecords keys (bytes_of disk.history) messages }
    ensures opens { IfOk result (λ kept. Reopens number keys (bytes_of disk.history) kept.state kept.place) }
    ensures open { IfOk result (λ kept. kept.shut ≡ false) }
    ensures calm { IfOk result (λ kept. IsTrue (is_calm kept.disk.calls)) }
    ensures number { IfOk result (λ kept. kept.state.number ≡ number) }
    ensures keys { IfOk result (λ kept. length kept.state.kept ≡ keys) }
{
    match KeptReplica::open(alloc, disk, number, keys) {
        Ok(kept) => Ok(kept),
        Err(OpenFault { cause, .. }) => match cause {
            OpenCause::NoMemory(error) => Err(error),
            OpenCause::DiskFault | OpenCause::Damaged { .. } => unreachable!(),
        },
    }
}
