ghost use Rattle.std.specs.Prelude.{◌≡◌, IfOk, ◌∷◌, []};
ghost use Rattle.wire_msg.specs.Posts.{to_directory, to_proxy};

use crate::actor::Actor;
use crate::message::Message;
use crate::outputs::Post;
use crate::tag::Tag;
use span_base::Listed;
use std::alloc::{AllocError, Global};

/// One message to the directory.
pub fn ask_directory(alloc: Global, message: Message) -> Result<Listed<Post>, AllocError>
    ensures { IfOk result (λ posts. posts ≡ to_directory message) }
{
    only_post(alloc, Actor::Directory, message)
}

/// One message to the proxy whose call has the tag.
pub fn answer_proxy(alloc: Global, tag: &Tag, message: Message) -> Result<Listed<Post>, AllocError>
    ensures { IfOk result (λ posts. posts ≡ to_proxy tag.now message) }
{
    only_post(alloc, Actor::Proxy(tag.call.proxy), message)
}

fn only_post(alloc: Global, to: Actor, message: Message) -> Result<Listed<Post>, AllocError>
    ensures { IfOk result (λ posts. posts ≡ record { to = to; message = message } ∷ []) }
{
    let mut posts = Listed::new(alloc);
    posts.push(Post { to, message })?;
    Ok(posts)
}
