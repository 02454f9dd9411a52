ghost use Rattle.std.specs.Prelude.{◌≡◌, ◌<◌, ◌≤◌, [], ◌↔◌, Some, length, take, min, IfOk, IsTrue, IsErrOf, is_err};
ghost use Rattle.span_base.specs.Calls.{NextFails};
ghost use Rattle.std.specs.List.{concat};
ghost use Rattle.span_service.specs.Coming.{Gives};
ghost use Rattle.span_service.specs.Pieces.{first_of};
ghost use Rattle.span_service.specs.Memory.{after_read, after_write};

use crate::Stream;
use crate::pieces::Pieces;
use replica_journal::Failed;
use span_base::{Bytes, DeviceFault, FailingCalls};
use std::alloc::Global;
use std::marker::Model;

/// A stream in memory of which given calls fail. A read gives the front of the first piece that
/// has something left, as much as there is room for. A write takes its piece whole, or finds no
/// memory for it.
#[derive(Debug, Drop)]
pub struct MemStream {
    pieces: Pieces,
    taken: Vec<u8>,
    calls: FailingCalls,
}

impl Model for MemStream {
    ghost use Rattle.span_service.specs.Memory.{HeldStream};

    ghost Value = { HeldStream };

    ghost view = { λ s. record { all = s.pieces.all; left = s.pieces.left; taken = s.taken.items; calls = s.calls } };
}

impl MemStream {
    /// A stream that gives these pieces and has taken nothing. `failing` are the numbers of the
    /// calls that fail, counted from 1. Calls past the end of a `u64` all have its last number.
    pub fn make(alloc: Global, pieces: Vec<Bytes>, failing: Vec<u64>) -> MemStream
        ensures { result ≡ record { all = pieces.items; left = pieces.items; taken = []; calls = record { failing = failing.items; made = 0; faults = 0 } } }
    {
        MemStream {
            pieces: Pieces::new(pieces),
            taken: Vec::new(alloc),
            calls: FailingCalls::make(failing),
        }
    }

    /// The bytes that it took.
    pub fn taken(&self) -> &[u8]
        ensures { result.now ≡ self.now.taken }
    {
        self.taken.as_slice()
    }
}

impl Stream for MemStream {
    ghost use Rattle.std.specs.Prelude.{Some};
    ghost use Rattle.std.specs.List.{concat};
    ghost use Rattle.span_service.specs.Doors.{no_door};

    ghost coming = { λ s. Some (concat s.left) };

    ghost taken = { λ s. Some s.taken };

    ghost faults = { λ s. s.calls.faults };

    ghost around = { λ _. no_door };

    fn read(&mut self, buf: &mut [u8]) -> Result<usize, Failed>
        requires { 0 < length buf.old }

        ensures within { IfOk result (λ n. n ≤ length buf.new) }
        ensures count { IfOk result (λ n. n ≡ min (length (first_of self.old.left)) (length buf.new)) }
        ensures bytes { IfOk result (λ n. take n buf.new ≡ take n (first_of self.old.left)) }
        ensures gives { Gives (Some (concat self.old.left)) (Some (concat self.new.left)) buf.new result }
        ensures after { self.new ≡ after_read self.old result }
        ensures fails { IsTrue (is_err result) ↔ NextFails self.old.calls }
    {
        if self.calls.next_fails() {
            return Err(Failed);
        }
        Ok(self.pieces.give(buf))
    }

    fn write(&mut self, piece: &[u8]) -> Result<usize, DeviceFault>
        requires { 0 < length piece.now }

        ensures whole { IfOk result (λ n. n ≡ length piece.now) }
        ensures after { self.new ≡ after_write self.old piece.now result }
        ensures fails { IsErrOf result DeviceFault.Failed ↔ NextFails self.old.calls }
    {
        if self.calls.next_fails() {
            return Err(DeviceFault::Failed);
        }
        match self.taken.extend_from_slice(piece) {
            Ok(()) => Ok(piece.len()),
            Err(_) => Err(DeviceFault::NoMemory),
        }
    }
}
