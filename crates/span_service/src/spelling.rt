//! How the answer to a request is spelled.

ghost use Rattle.std.specs.Prelude.{◌≡◌, ◌++◌, OnOk};
ghost use Rattle.wire_msg.specs.Lawful.{IsLawful, AreLawful};
ghost use Rattle.span_service.specs.Service.{post_bytes, answer_bytes};

use std::alloc::AllocError;
use wire_msg::{Post, frame_len, node_of, write_frame};

/// Spells the answer to a request: of each post its node, the length of its frame and the frame.
/// It takes memory only where the buffer has too little.
pub(crate) fn spell(answer: &mut Vec<u8>, posts: &[Post]) -> Result<(), AllocError>
    requires { AreLawful posts.now }
    ensures { OnOk result (answer.new.items ≡ answer_bytes posts.now) }
{
    answer.clear();
    for post in posts {
        spell_post(answer, post)?;
    }
    Ok(())
}

#[tactic(auto, unfolding(wire_msg::specs::Frames::big))]
fn spell_post(answer: &mut Vec<u8>, post: &Post) -> Result<(), AllocError>
    requires { IsLawful post.now.message }
    ensures { OnOk result (answer.new.items ≡ answer.old.items ++ post_bytes post.now) }
{
    let len = frame_len(&post.message);
    answer.reserve(4 + len as usize)?;
    answer
        .extend_from_slice(&node_of(post.to).to_be_bytes())
        .unwrap();
    answer
        .extend_from_slice(&(len as u16).to_be_bytes())
        .unwrap();
    write_frame(answer, &post.message);
    Ok(())
}
