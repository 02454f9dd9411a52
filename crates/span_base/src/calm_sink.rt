ghost use Rattle.std.specs.Prelude.{◌≡◌, ◌<◌, [], ◌++◌, length, IfOk, IsErrOf, OnOk, OnErr};

use crate::{DeviceFault, Sink};
use std::alloc::Global;
use std::marker::Model;

/// A sink in memory that never fails. It takes each piece whole, or finds no memory for it.
#[derive(Debug, Drop)]
pub struct CalmSink {
    taken: Vec<u8>,
}

impl Model for CalmSink {
    ghost use Rattle.std.specs.Prelude.{List, ℕ};

    ghost Value = { List ℕ };

    ghost view = { λ s. s.taken.items };
}

impl CalmSink {
    /// A sink that has taken nothing.
    pub fn make(alloc: Global) -> CalmSink
        ensures { result ≡ [] }
    {
        CalmSink {
            taken: Vec::new(alloc),
        }
    }

    /// The bytes that it took.
    pub fn bytes(&self) -> &[u8]
        ensures { result.now ≡ self.now }
    {
        self.taken.as_slice()
    }
}

impl Sink for CalmSink {
    ghost use Rattle.std.specs.Prelude.{Some};

    ghost taken = { λ s. Some s };

    ghost faults = { λ _. 0 };

    fn write(&mut self, piece: &[u8]) -> Result<usize, DeviceFault>
        requires { 0 < length piece.now }

        ensures whole { IfOk result (λ n. n ≡ length piece.now) }
        ensures ok { OnOk result (self.new ≡ self.old ++ piece.now) }
        ensures err { OnErr result (self.new ≡ self.old) }
        ensures never_fails { IsErrOf result DeviceFault.Failed → ⊥ }
    {
        match self.taken.extend_from_slice(piece) {
            Ok(()) => Ok(piece.len()),
            Err(_) => Err(DeviceFault::NoMemory),
        }
    }
}
