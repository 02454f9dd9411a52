ghost use Rattle.std.specs.Prelude.{◌≡◌};

use crate::decoding::message_of;
use crate::region::{Entry, put_frame};
use crate::rooms::left_of;
use crate::wire::Wire;
use std::alloc::{AllocError, Global};
use std::marker::Model;
use wire_msg::{Actor, Bulk, Message, Post};

/// Keeps each message as its frame, all frames in one region of bytes. A message that is sent
/// within the room takes no memory, and one that is picked takes its value's or its policies'.
#[derive(Debug, Drop)]
pub struct FrameWire {
    region: Vec<u8>,
    entries: Vec<Entry>,
    room: Bulk,
}

impl Model for FrameWire {
    ghost use Rattle.message_wire.specs.Sent.{Sent};
    ghost use Rattle.message_wire.specs.Region.{posts_in};
    ghost use Rattle.message_wire.specs.FrameWires.{IsFrameWire};

    ghost Value = { Sent };

    ghost view = { λ w. record { posts = posts_in w.region.items w.entries.items; room = w.room } };

    ghost invariant = { IsFrameWire };
}

impl FrameWire {
    ghost use Rattle.message_wire.specs.Sent.{nothing_sent};

    /// A wire on which nothing was sent. It takes no memory.
    pub fn new(alloc: Global) -> FrameWire
        ensures { result ≡ nothing_sent }
    {
        FrameWire {
            region: Vec::new(alloc),
            entries: Vec::new(alloc),
            room: Bulk::none(),
        }
    }
}

impl Wire for FrameWire {
    ghost pushed = { λ w. w.posts };

    ghost room = { λ w. w.room };

    fn push(&mut self, _alloc: Global, to: Actor, message: &Message) -> Result<(), AllocError> {
        let len = put_frame(&mut self.region, &mut self.entries, to, message)?;
        self.room = left_of(self.room, len);
        Ok(())
    }

    fn pick(&self, alloc: Global, n: u32) -> Result<Option<Post>, AllocError> {
        match self.entries.get(n as usize) {
            None => Ok(None),
            Some(entry) => {
                let end = entry.start + entry.len as usize;
                let message = message_of(alloc, &self.region[entry.start..end])?;
                Ok(Some(Post {
                    to: entry.to,
                    message,
                }))
            }
        }
    }

    fn sent(&self) -> u32 {
        self.entries.len() as u32
    }

    fn bytes(&self) -> u64 {
        self.region.len() as u64
    }

    fn reserve(&mut self, _alloc: Global, posts: u32, bytes: u64) -> Result<(), AllocError> {
        self.entries.reserve(posts as usize)?;
        self.region.reserve(bytes as usize)?;
        self.room = Bulk {
            posts: posts.max(self.room.posts),
            bytes: bytes.max(self.room.bytes),
        };
        Ok(())
    }
}
