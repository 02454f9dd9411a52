ghost use Rattle.std.specs.Prelude.{◌≡◌, ◌==◌, ℕ, ◌∷◌, [], ◌++◌, List, length, cond, Some, OnOk};
ghost use Rattle.frame_link.specs.Frames.{Sent};
ghost use Rattle.span_node.specs.Index.{first_at, IsIndex};

use crate::digest::digest_of;
use indexmap::IndexMap;
use std::alloc::{AllocError, Global};

/// Where a frame is found among those that were sent: by its digest, the number of the first that
/// has it. A frame with this digest is none before that one, and mostly is that one.
#[derive(Debug, Drop)]
pub(crate) struct FrameIndex {
    pub(crate) firsts: IndexMap<u64, u32>,
}

impl FrameIndex {
    /// The index of no frames. It takes no memory.
    pub(crate) fn new(alloc: Global) -> FrameIndex
        ensures { IsIndex result [] }
    {
        FrameIndex {
            firsts: IndexMap::new(alloc),
        }
    }

    /// The number that a digest has.
    pub(crate) fn first_at(&self, digest: u64) -> Option<u32>
        ensures { result ≡ first_at self.now digest }
    {
        self.firsts.get(&digest).copied()
    }

    /// One more frame was sent, with the next number.
    pub(crate) fn add(&mut self, to: u16, frame: &[u8], number: u32) -> Result<(), AllocError>
        ensures { OnOk result ((frames : List Sent) → number ≡ length frames → IsIndex self.old frames → IsIndex self.new (frames ++ record { to = to; frame = frame.now } ∷ [])) }
    {
        let digest = digest_of(to, frame);
        match self.first_at(digest) {
            Some(_) => Ok(()),
            None => self.put(digest, number),
        }
    }

    /// The digest has this number.
    fn put(&mut self, digest: u64, number: u32) -> Result<(), AllocError>
        ensures { OnOk result ((other : ℕ) → first_at self.new other ≡ cond (digest == other) (Some number) (first_at self.old other)) }
    {
        match self.firsts.insert(digest, number) {
            Ok(_) => Ok(()),
            Err(_) => Err(AllocError),
        }
    }
}
