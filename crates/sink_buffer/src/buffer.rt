ghost use Rattle.std.specs.Prelude.{◌≡◌, ◌≤◌, ◌++◌, [], ℕ, List, Option, if◌then◌else◌, IfOk, IsErrOf};
ghost use Rattle.span_base.specs.Counts.{Rose};
ghost use Rattle.sink_buffer.specs.Said.{IsSaid, Says, Flushes};

use span_base::{DeviceFault, Sink, write_all};
use std::alloc::{AllocError, Global};
use std::marker::Model;

/// How many bytes a buffer keeps.
const ROOM: usize = 65_536;

/// Bytes on their way to a sink, kept until there are enough for a call. It keeps 65,536.
///
/// After a call that failed it isn't used again: the sink may have taken a front of what is kept.
#[derive(Debug, Drop)]
pub struct SinkBuffer {
    bytes: Vec<u8>,
}

impl Model for SinkBuffer {
    ghost use Rattle.std.specs.Prelude.{List, ℕ};

    ghost Value = { List ℕ };

    ghost view = { λ b. b.bytes.items };
}

impl SinkBuffer {
    /// A buffer that keeps nothing. Past this it takes no memory.
    pub fn make(alloc: Global) -> Result<SinkBuffer, AllocError>
        ensures { IfOk result (λ buffer. buffer ≡ []) }
    {
        Ok(SinkBuffer {
            bytes: Vec::with_capacity(alloc, ROOM)?,
        })
    }

    /// Passes a piece on: it is kept, or goes to the sink behind what was kept.
    pub fn put<K: Sink>(&mut self, out: &mut K, piece: &[u8]) -> Result<(), DeviceFault>
        ensures puts { (from : Option (List ℕ)) (text : List ℕ) → IsSaid from (K.taken out.old) self.old text
            → Says from (K.taken out.new) self.new (text ++ piece.now) result }

        ensures faults_stay { K.faults out.old ≤ K.faults out.new }
        ensures failed { IsErrOf result DeviceFault.Failed → Rose (K.faults out.old) (K.faults out.new) }
    {
        if self.keep(piece) {
            return Ok(());
        }
        self.flush(out)?;
        if self.keep(piece) {
            return Ok(());
        }
        write_all(out, piece)
    }

    /// Hands all that is kept to the sink.
    pub fn flush<K: Sink>(&mut self, out: &mut K) -> Result<(), DeviceFault>
        ensures flushes { (from : Option (List ℕ)) (text : List ℕ) → IsSaid from (K.taken out.old) self.old text
            → Flushes from (K.taken out.new) self.new text result }

        ensures faults_stay { K.faults out.old ≤ K.faults out.new }
        ensures failed { IsErrOf result DeviceFault.Failed → Rose (K.faults out.old) (K.faults out.new) }
    {
        write_all(out, self.bytes.as_slice())?;
        self.bytes.clear();
        Ok(())
    }

    /// Keeps a piece, if there is room for it. Says whether there is.
    fn keep(&mut self, piece: &[u8]) -> bool
        ensures { self.new ≡ (if result then self.old ++ piece.now else self.old) }
    {
        if piece.len() > self.bytes.capacity() - self.bytes.len() {
            return false;
        }
        self.bytes.extend_from_slice(piece).unwrap();
        true
    }
}
