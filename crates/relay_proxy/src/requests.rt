//! Whom a call asks, and what a put sends to each replica.

ghost use Rattle.std.specs.Prelude.{◌≡◌, IfOk};
ghost use Rattle.span_base.specs.Policy.{IsSoundPolicy};
ghost use Rattle.relay_proxy.specs.Rule.{asked_of, push_to, pushes_below};

use crate::routes::{is_direct, onward};
use span_base::{CENTRES, DcId, DcSet, Value};
use std::alloc::{AllocError, Global};
use ticket_rules::Stamp;
use wire_msg::{Actor, Message, Post, Tag, View};

/// Whom a get asks: every replica, or the primary of the member `at` alone.
pub(crate) fn asked(view: &View, at: DcId, any: bool) -> DcSet
    requires { IsSoundPolicy view.now.policy }
    ensures { result ≡ asked_of view.now at.0 any }
{
    if any {
        return view.policy.replicas();
    }
    match view.policy.primary(at) {
        Some(primary) => DcSet::empty().with(primary),
        None => DcSet::empty(),
    }
}

/// The posts of a put to each replica that the member `at` writes to itself, in rising order.
#[tactic(auto, using(crate::proofs::PushLoop::pushes_start, crate::proofs::PushLoop::pushes_there, crate::proofs::PushLoop::pushes_not_there, crate::proofs::PushLoop::pushes_end))]
pub(crate) fn push_to_each(
    alloc: Global,
    tag: Tag,
    at: DcId,
    view: &View,
    stamp: Stamp,
    value: &Value,
) -> Result<Vec<Post>, AllocError>
    ensures { IfOk result (λ posts. posts.items ≡ pushes_below tag at.0 view.now stamp value.now 16) }
{
    let mut posts = Vec::with_capacity(alloc, view.policy.replicas().count() as usize)?;
    for p in 0..CENTRES {
        if is_direct(&view.policy, at, p) {
            posts.push(push(tag, at, view, stamp, value, p)?)?;
        }
    }
    Ok(posts)
}

/// The post of a put to the replica `p`.
fn push(
    tag: Tag,
    at: DcId,
    view: &View,
    stamp: Stamp,
    value: &Value,
    p: u8,
) -> Result<Post, AllocError>
    ensures { IfOk result (λ post. post ≡ push_to tag at.0 view.now stamp value.now p) }
{
    Ok(Post {
        to: Actor::Replica(p),
        message: Message::Push {
            tag,
            key: view.key,
            stamp,
            onward: onward(&view.policy, at, p),
            value: value.clone()?,
        },
    })
}
