//! Streams in memory, and a replica of 7 keys that serves one.

ghost use Rattle.std.specs.Prelude.{All, IfOk};
ghost use Rattle.span_service.specs.MemDoors.{IsUnused};

use replica_core::Replica;
use span_base::Bytes;
use span_service::{MemStream, ServeFault, serve};
use std::alloc::{AllocError, Global};

/// How a service ended, and what its stream took.
#[derive(Debug, Drop)]
pub struct Run {
    pub answer: Result<u64, ServeFault>,
    pub stream: MemStream,
}

/// Serves the pieces to replica 2. The stream's calls with these numbers fail.
pub fn served(alloc: Global, pieces: &[&[u8]], failing: &[u64]) -> Result<Run, AllocError> {
    let mut replica = Replica::make(alloc, 2, 7)?;
    let mut stream = MemStream::make(alloc, bytes_of(alloc, pieces)?, failing.to_vec(alloc)?);
    let answer = serve(alloc, &mut replica, 7, &mut stream);
    Ok(Run { answer, stream })
}

/// A stream for each input, which gives it whole. The calls of each with these numbers fail.
pub fn streams(
    alloc: Global,
    inputs: &[&[u8]],
    failing: &[u64],
) -> Result<Vec<MemStream>, AllocError>
    ensures { IfOk result (λ streams. All IsUnused streams.items) }
{
    let mut streams = Vec::new(alloc);
    for input in inputs {
        let pieces = bytes_of(alloc, &[*input])?;
        streams.push(MemStream::make(alloc, pieces, failing.to_vec(alloc)?))?;
    }
    Ok(streams)
}

fn bytes_of(alloc: Global, pieces: &[&[u8]]) -> Result<Vec<Bytes>, AllocError> {
    let mut all = Vec::new(alloc);
    for piece in pieces {
        all.push(Bytes::from_vec(piece.to_vec(alloc)?))?;
    }
    Ok(all)
}
