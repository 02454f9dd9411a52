//! How a record is spelled behind its gate.

ghost use Rattle.std.specs.Prelude.{◌≡◌, ◌+◌, [], ◌∷◌, ◌++◌, length, OnOk};
ghost use Rattle.wire_msg.specs.Lawful.{IsLawful};
ghost use Rattle.wire_msg.specs.Laws.{FitsBytes};
ghost use Rattle.wire_msg.specs.Sizes.{frame_size};
ghost use Rattle.replica_journal.specs.Records.{body_of};

use std::alloc::AllocError;
use wire_msg::{Message, frame_len, write_frame};

/// Spells what stands behind the gate of a message's record, and then a closed gate. It takes
/// memory only where the buffer has too little.
#[tactic(auto, unfolding(wire_msg::specs::Frames::big))]
pub(crate) fn spell(piece: &mut Vec<u8>, message: &Message) -> Result<(), AllocError>
    requires { IsLawful message.now }
    ensures spelled { OnOk result (piece.new.items ≡ body_of message.now ++ 0 ∷ []) }
    ensures size { OnOk result (length piece.new.items ≡ 3 + frame_size message.now) }
    ensures fits { OnOk result (FitsBytes message.now) }
{
    let len = frame_len(message);
    piece.clear();
    piece.reserve(3 + len as usize)?;
    piece
        .extend_from_slice(&(len as u16).to_be_bytes())
        .unwrap();
    write_frame(piece, message);
    piece.push(0).unwrap();
    Ok(())
}
