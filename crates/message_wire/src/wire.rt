ghost use Rattle.std.specs.Prelude.{◌≡◌, ◌<◌, ◌≤◌, ◌++◌, ◌∷◌, [], List, length, slice_get, IfOk, OnOk, OnErr, IsOk};
ghost use Rattle.wire_msg.specs.declared.outputs.Post.{Post};
ghost use Rattle.wire_msg.specs.declared.outputs.Bulk.{Bulk};
ghost use Rattle.wire_msg.specs.Lawful.{IsLawful};
ghost use Rattle.wire_msg.specs.Sizes.{bulk_of};

use std::alloc::{AllocError, Global};
use wire_msg::{Actor, Message, Post};

/// Keeps every message that was sent, in the order in which they were sent: at most 4,000,000. Its
/// only error is want of memory.
pub trait Wire {
    ghost use Rattle.message_wire.specs.Room.{room_after, HasRoom};

    /// The messages that were pushed.
    ghost pushed: { Self → List Post };

    /// How many more messages, and how many more bytes of frames, are sure to find room.
    ghost room: { Self → Bulk };

    /// Sends a message. Where it finds no memory, nothing was sent; within the room it finds some.
    fn push(&mut self, alloc: Global, to: Actor, message: &Message) -> Result<(), AllocError>
        requires lawful { IsLawful message.now }
        requires few { length (pushed self.old) < 4000000 }
        ensures ok { OnOk result (pushed self.new ≡ pushed self.old ++ record { to = to; message = message.now } ∷ []) }
        ensures err { OnErr result ((pushed self.new ≡ pushed self.old) × (room self.new ≡ room self.old)) }
        ensures roomy { HasRoom (room self.old) message.now → IsOk result × (room self.new ≡ room_after (room self.old) message.now) };

    /// The message of this number, counted from 0, as it was pushed; none where fewer were sent.
    fn pick(&self, alloc: Global, n: u32) -> Result<Option<Post>, AllocError>
        ensures { IfOk result (λ post. post ≡ slice_get (pushed self.now) n) };

    /// How many messages were sent.
    fn sent(&self) -> u32
        ensures { result ≡ length (pushed self.now) };

    /// How many bytes their frames have.
    fn bytes(&self) -> u64
        ensures { result ≡ (bulk_of (pushed self.now)).bytes };

    /// Makes room for so many more messages, whose frames have together so many bytes.
    fn reserve(&mut self, alloc: Global, posts: u32, bytes: u64) -> Result<(), AllocError>
        ensures kept { pushed self.new ≡ pushed self.old }
        ensures room { OnOk result ((posts ≤ (room self.new).posts) × (bytes ≤ (room self.new).bytes)) }
        ensures err { OnErr result (room self.new ≡ room self.old) };
}
