//! What holds of all messages and frames. The functions do nothing: each contract is a law.

ghost use Rattle.std.specs.Prelude.{◌≡◌, ℕ, ◌<◌, ◌++◌, ◌↔◌, List, [], length, None, All, Result};
ghost use Rattle.wire_msg.specs.declared.message.Message.{Message};
ghost use Rattle.wire_msg.specs.Lawful.{IsLawful};
ghost use Rattle.wire_msg.specs.Sizes.{frame_size};
ghost use Rattle.wire_msg.specs.Frames.{frame_of};
ghost use Rattle.wire_msg.specs.Faults.{fault_place};
ghost use Rattle.wire_msg.specs.declared.fault.FrameFault.{FrameFault};
ghost use Rattle.wire_msg.specs.Laws.{FitsBytes, IsFrame, Decodes, ComesBack};

/// Each lawful message has one frame, no two have the same one, and none begins another.
pub fn frames_are_told_apart()
    ensures { (a b : Message) → IsLawful a → IsLawful b → FitsBytes a → FitsBytes b → (rest : List ℕ) → frame_of a ++ rest ≡ frame_of b → (a ≡ b) × (rest ≡ []) }
{}

/// Decoding a lawful message's frame gives the message, unless memory runs out.
pub fn messages_come_back()
    ensures { (message : Message) (result : Result Message FrameFault) → IsLawful message → FitsBytes message → Decodes (frame_of message) result → ComesBack message result }
{}

/// A frame has as many bytes as `frame_len` tells.
pub fn frames_have_their_sizes()
    ensures { (m : Message) → IsLawful m → length (frame_of m) ≡ frame_size m }
{}

/// Bytes have no fault exactly where they are some lawful message's frame.
pub fn faults_have_places()
    ensures { (frame : List ℕ) → All (λ b. b < 256) frame → (fault_place frame ≡ None) ↔ IsFrame frame }
{}
