ghost use Rattle.std.specs.Prelude.{◌≡◌};

use crate::decoding::message_of;
use crate::framed::{Framed, append_frame};
use crate::rooms::left_of;
use crate::spares::fill;
use crate::wire::Wire;
use std::alloc::{AllocError, Global};
use std::marker::Model;
use wire_msg::{Actor, Bulk, Message, Post};

/// Keeps each message as its frame in memory of its own, for tests beside `FrameWire`. What is
/// reserved takes 8,192 bytes a message, whatever its frame has.
#[derive(Debug, Drop)]
pub struct ListWire {
    frames: Vec<Framed>,
    bytes: u64,
    /// Memory for frames to come: as much as is reserved, or more.
    spares: Vec<Vec<u8>>,
    room: Bulk,
}

impl Model for ListWire {
    ghost use Rattle.message_wire.specs.Sent.{Sent};
    ghost use Rattle.message_wire.specs.Framed.{posts_of};
    ghost use Rattle.message_wire.specs.ListWires.{IsListWire};

    ghost Value = { Sent };

    ghost view = { λ w. record { posts = posts_of w.frames.items; room = w.room } };

    ghost invariant = { IsListWire };
}

impl ListWire {
    ghost use Rattle.message_wire.specs.Sent.{nothing_sent};

    /// A wire on which nothing was sent. It takes no memory.
    pub fn new(alloc: Global) -> ListWire
        ensures { result ≡ nothing_sent }
    {
        ListWire {
            frames: Vec::new(alloc),
            bytes: 0,
            spares: Vec::new(alloc),
            room: Bulk::none(),
        }
    }
}

impl Wire for ListWire {
    ghost pushed = { λ w. w.posts };

    ghost room = { λ w. w.room };

    fn push(&mut self, alloc: Global, to: Actor, message: &Message) -> Result<(), AllocError> {
        let len = append_frame(&mut self.frames, &mut self.spares, alloc, to, message)?;
        self.bytes += u64::from(len);
        self.room = left_of(self.room, len);
        Ok(())
    }

    fn pick(&self, alloc: Global, n: u32) -> Result<Option<Post>, AllocError> {
        match self.frames.get(n as usize) {
            None => Ok(None),
            Some(framed) => {
                let message = message_of(alloc, framed.frame.as_slice())?;
                Ok(Some(Post {
                    to: framed.to,
                    message,
                }))
            }
        }
    }

    fn sent(&self) -> u32 {
        self.frames.len() as u32
    }

    fn bytes(&self) -> u64 {
        self.bytes
    }

    fn reserve(&mut self, alloc: Global, posts: u32, bytes: u64) -> Result<(), AllocError> {
        self.frames.reserve(posts as usize)?;
        fill(&mut self.spares, alloc, posts as usize)?;
        self.room = Bulk {
            posts: posts.max(self.room.posts),
            bytes: bytes.max(self.room.bytes),
        };
        Ok(())
    }
}
