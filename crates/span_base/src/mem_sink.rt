ghost use Rattle.std.specs.Prelude.{◌≡◌, ◌<◌, [], ◌↔◌, length, IfOk, IsErrOf};
ghost use Rattle.span_base.specs.Calls.{NextFails};
ghost use Rattle.span_base.specs.Memory.{after_write};

use crate::failing_calls::FailingCalls;
use crate::{CalmSink, DeviceFault, Sink};
use std::alloc::Global;
use std::marker::Model;

/// A sink in memory of which given calls fail. It takes each other piece whole, or finds no
/// memory for it.
#[derive(Debug, Drop)]
pub struct MemSink {
    sink: CalmSink,
    calls: FailingCalls,
}

impl Model for MemSink {
    ghost use Rattle.span_base.specs.Memory.{HeldSink};

    ghost Value = { HeldSink };

    ghost view = { λ s. record { taken = s.sink; calls = s.calls } };
}

impl MemSink {
    /// A sink that has taken nothing. `failing` are the numbers of the calls that fail, counted
    /// from 1. Calls past the end of a `u64` all have its last number.
    pub fn make(alloc: Global, failing: Vec<u64>) -> MemSink
        ensures { result ≡ record { taken = []; calls = record { failing = failing.items; made = 0; faults = 0 } } }
    {
        MemSink {
            sink: CalmSink::make(alloc),
            calls: FailingCalls::make(failing),
        }
    }

    /// The bytes that it took.
    pub fn bytes(&self) -> &[u8]
        ensures { result.now ≡ self.now.taken }
    {
        self.sink.bytes()
    }
}

impl Sink for MemSink {
    ghost use Rattle.std.specs.Prelude.{Some};

    ghost taken = { λ s. Some s.taken };

    ghost faults = { λ s. s.calls.faults };

    fn write(&mut self, piece: &[u8]) -> Result<usize, DeviceFault>
        requires { 0 < length piece.now }

        ensures whole { IfOk result (λ n. n ≡ length piece.now) }
        ensures after { self.new ≡ after_write self.old piece.now result }
        ensures fails { IsErrOf result DeviceFault.Failed ↔ NextFails self.old.calls }
    {
        if self.calls.next_fails() {
            return Err(DeviceFault::Failed);
        }
        self.sink.write(piece)
    }
}
