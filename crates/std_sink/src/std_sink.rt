use span_base::{DeviceFault, Sink};
use std::io::{self, Write};

/// The output of the program, over a writer. It doesn't tell what it took; a write that fails, or
/// takes nothing, is counted.
#[derive(Drop)]
pub struct StdSink<W: Write> {
    writer: W,
    faults: u64,
}

impl<W: Write> StdSink<W> {
    /// A sink over this writer that hasn't failed yet.
    pub fn new(writer: W) -> StdSink<W> {
        StdSink { writer, faults: 0 }
    }
}

impl<W: Write> Sink for StdSink<W> {
    ghost use Rattle.std.specs.Prelude.{None};

    ghost taken = { λ _. None };

    ghost faults = { λ s. s.faults };

    fn write(&mut self, piece: &[u8]) -> Result<usize, DeviceFault> {
        match self.writer.write(piece) {
            Ok(count) if count > 0 => Ok(count),
            Err(error) if error.kind() == io::ErrorKind::OutOfMemory => Err(DeviceFault::NoMemory),
            _ => {
                self.faults = self.faults.saturating_add(1);
                Err(DeviceFault::Failed)
            }
        }
    }
}

#[cfg(test)]
mod tests {
    use super::*;
    use std::test::Fail;

    #[test]
    fn what_takes_nothing_has_failed(rt: HostRuntime) -> Result<(), Fail> {
        let mut room = [0; 2];
        let mut sink = StdSink::new(room.as_mut_slice());
        assert_eq!(rt; sink.write(b"abc"), Ok(2));
        assert_eq!(rt; sink.write(b"c"), Err(DeviceFault::Failed));
        Ok(())
    }
}
