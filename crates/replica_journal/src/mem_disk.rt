ghost use Rattle.std.specs.Prelude.{◌≡◌, ◌<◌, ◌≤◌, [], ◌∷◌, length, IfOk, OnOk, OnErr, IsErrOf, IsTrue, is_err};
ghost use Rattle.replica_journal.specs.Disk.{Wrote, IsLawfulHistory, bytes_of};
ghost use Rattle.span_base.specs.Files.{GivesFrom};
ghost use Rattle.replica_journal.specs.Calls.{is_calm, next_fails, no_calls, stop_in};
ghost use Rattle.replica_journal.specs.Counting.{write_failed};
ghost use Rattle.replica_journal.specs.Memory.{CountsIn, FailsBy, after_look, after_sync, after_write, crashed};

use crate::calls::Calls;
use crate::crash::keep;
use crate::disk::{Disk, Failed};
use crate::write::{Write, log, make_safe, write_over};
use span_base::{DeviceFault, copy_from};
use std::alloc::Global;
use std::marker::Model;

/// The most bytes that a disk may have.
const LIMIT: usize = 9_223_372_036_854_775_807;

/// A disk in memory of which given calls fail. It tells all that happened to it, and keeps each
/// piece that was written for that. A failing write lands all the same.
#[derive(Debug, Drop)]
pub struct MemDisk {
    alloc: Global,
    bytes: Vec<u8>,
    writes: Vec<Write>,
    calls: Calls,
}

impl Model for MemDisk {
    ghost use Rattle.std.specs.Prelude.{◌≡◌, ◌≤◌, length};
    ghost use Rattle.replica_journal.specs.Disk.{bytes_of, IsLawfulHistory};
    ghost use Rattle.replica_journal.specs.Memory.{HeldDisk, history_of};

    ghost Value = { HeldDisk };

    ghost view = { λ d. record { history = history_of d.writes.items; calls = d.calls } };

    ghost invariant = { λ d. (d.bytes.items ≡ bytes_of (history_of d.writes.items)) × (length d.bytes.items ≤ 9223372036854775807) × IsLawfulHistory (history_of d.writes.items) };
}

impl MemDisk {
    /// An empty disk. `failing` are the numbers of the calls that fail, counted from 1. Calls past
    /// the end of a `u64` all have its last number, and a write that finds no memory is no call.
    pub fn make(alloc: Global, failing: Vec<u64>) -> MemDisk
        ensures { result ≡ record { history = []; calls = record { failing = failing.items; stop = 0; made = 0; faults = 0 } } }
    {
        MemDisk {
            alloc,
            bytes: Vec::new(alloc),
            writes: Vec::new(alloc),
            calls: Calls::make(failing),
        }
    }

    /// Makes a call fail by its number, counted from now: 1 is the next one. It takes the place of
    /// such a call that is still to come.
    pub fn fail_in(&mut self, calls: u64)
        requires { 1 ≤ calls }
        ensures { self.new ≡ record self.old { calls = stop_in self.old.calls calls } }
    {
        self.calls.stop_in(calls);
    }

    /// The bytes, from the first on.
    pub fn bytes(&self) -> &[u8]
        ensures { result.now ≡ bytes_of self.now.history }
    {
        self.bytes.as_slice()
    }

    /// The disk after a crash that kept all that was written since the last sync that answered Ok,
    /// also by a call that failed, or nothing of it. No call is still to fail.
    #[tactic(auto, using(crate::proofs::Crashes::crashed_lawful), unfolding(crate::specs::Calls::is_calm))]
    pub fn crash(self, new: bool) -> MemDisk
        ensures crashed { result ≡ record { history = crashed new self.history; calls = no_calls } }
        ensures lawful { IsLawfulHistory self.history }
        ensures calm { IsTrue (is_calm result.calls) }
    {
        let MemDisk {
            alloc,
            mut bytes,
            mut writes,
            calls,
        } = self;
        keep(&mut bytes, &mut writes, new);
        MemDisk {
            alloc,
            bytes,
            writes,
            calls: calls.forget(),
        }
    }

    // Puts down a write, whose call may fail or not.
    #[tactic(auto, using(crate::proofs::Histories::logged, crate::proofs::Puts::put_length))]
    fn store(&mut self, at: u64, piece: &[u8]) -> Result<(), DeviceFault>
        requires within { at ≤ length (bytes_of self.old.history) }
        ensures ok { OnOk result (self.new ≡ record self.old { history = Wrote at (length piece.now) piece.now ∷ self.old.history }) }
        ensures err { OnErr result (self.new ≡ self.old) }
        ensures never_fails { IsErrOf result DeviceFault.Failed → ⊥ }
    {
        if piece.len() > LIMIT - self.bytes.len() {
            return Err(DeviceFault::NoMemory);
        }
        match log(self.alloc, &mut self.bytes, &mut self.writes, at, piece) {
            Ok(()) => {
                write_over(&mut self.bytes, at as usize, piece);
                Ok(())
            }
            Err(_) => Err(DeviceFault::NoMemory),
        }
    }
}

impl Disk for MemDisk {
    ghost use Rattle.std.specs.Prelude.{Some};
    ghost use Rattle.std.proofs.Common.{rules};
    ghost use Rattle.replica_journal.specs.Calls.{is_calm};

    ghost told = { λ d. Some d.history };

    ghost faults = { λ d. d.calls.faults };

    ghost calm = { λ d. is_calm d.calls };

    ghost write_does = { λ old new at piece result. (new ≡ after_write old at piece result) × FailsBy (next_fails old.calls) result };

    ghost sync_does = { λ old new result. (new ≡ after_sync old (is_err result)) × (is_err result ≡ next_fails old.calls) };

    #[tactic(auto, using(crate::proofs::Counted::counted))]
    fn len(&mut self) -> Result<u64, Failed>
        ensures tells { IfOk result (λ n. n ≡ length (bytes_of self.old.history)) }
        ensures limit { IfOk result (λ n. n ≤ 9223372036854775807) }
        ensures after { self.new ≡ after_look self.old (is_err result) }
        ensures fails { is_err result ≡ next_fails self.old.calls }
        ensures counts { CountsIn self.old self.new (is_err result) }
    {
        let fails = self.calls.next_fails();
        self.calls.count(fails);
        if fails {
            return Err(Failed);
        }
        Ok(self.bytes.len() as u64)
    }

    #[tactic(auto, using(crate::proofs::Counted::counted))]
    fn read_at(&mut self, at: u64, buf: &mut [u8]) -> Result<usize, Failed>
        requires { 0 < length buf.old }

        ensures gives { IfOk result (λ n. GivesFrom (bytes_of self.old.history) at buf.new n) }
        ensures within { IfOk result (λ n. n ≤ length buf.new) }
        ensures after { self.new ≡ after_look self.old (is_err result) }
        ensures fails { is_err result ≡ next_fails self.old.calls }
        ensures counts { CountsIn self.old self.new (is_err result) }
    {
        let fails = self.calls.next_fails();
        self.calls.count(fails);
        if fails {
            return Err(Failed);
        }
        Ok(copy_from(&self.bytes, at, buf))
    }

    fn write_at(&mut self, at: u64, piece: &[u8]) -> Result<(), DeviceFault>
        requires { at ≤ length (bytes_of self.old.history) }

        ensures after { self.new ≡ after_write self.old at piece.now result }
        ensures fails { FailsBy (next_fails self.old.calls) result }
        ensures counts { CountsIn self.old self.new (write_failed result) }
    {
        self.store(at, piece)?;
        let fails = self.calls.next_fails();
        self.calls.count(fails);
        if fails {
            return Err(DeviceFault::Failed);
        }
        Ok(())
    }

    #[tactic(auto, using(crate::proofs::Counted::counted))]
    fn sync(&mut self) -> Result<(), Failed>
        ensures after { self.new ≡ after_sync self.old (is_err result) }
        ensures fails { is_err result ≡ next_fails self.old.calls }
        ensures counts { CountsIn self.old self.new (is_err result) }
    {
        let fails = self.calls.next_fails();
        self.calls.count(fails);
        if fails {
            return Err(Failed);
        }
        make_safe(&mut self.writes);
        Ok(())
    }

    ghost small = { Prim.search rules };
}
