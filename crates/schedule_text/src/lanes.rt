//! The members of a relay policy, with the ways of their writes.

ghost use Rattle.std.specs.Prelude.{◌≡◌, [], Ok};
ghost use Rattle.schedule_text.specs.Flaws.{Gives};
ghost use Rattle.schedule_text.specs.Policies.{hop_says, with_near, with_hop, hops_from, with_member, lanes_from};
ghost use Rattle.schedule_text.specs.Words.{split_at};
ghost use Rattle.schedule_text.specs.Pieces.{entry, beyond};

use crate::flaw::{Flaw, after, both};
use crate::members::{MEMBERS, has_room, near_of};
use crate::numbers::{centre_of, replica_of};
use crate::parts::{first_piece, three};
use crate::words::Words;
use span_base::{Hop, Listed, Near};
use std::alloc::{AllocError, Global};

/// The members that were read, with their primaries, and a hop of each to each replica.
#[derive(Debug, Drop)]
pub(crate) struct Lanes {
    pub(crate) nears: Listed<Near>,
    pub(crate) hops: Listed<Hop>,
}

/// One member more.
fn with_near(
    lanes: Result<Lanes, Flaw>,
    near: Result<Near, Flaw>,
) -> Result<Result<Lanes, Flaw>, AllocError>
    ensures { Gives (with_near lanes near) result }
{
    match both(lanes, near) {
        Ok((mut lanes, near)) => {
            lanes.nears.push(near)?;
            Ok(Ok(lanes))
        }
        Err(flaw) => Ok(Err(flaw)),
    }
}

/// One hop more.
fn with_hop(
    lanes: Result<Lanes, Flaw>,
    hop: Result<Hop, Flaw>,
) -> Result<Result<Lanes, Flaw>, AllocError>
    ensures { Gives (with_hop lanes hop) result }
{
    match both(lanes, hop) {
        Ok((mut lanes, hop)) => {
            lanes.hops.push(hop)?;
            Ok(Ok(lanes))
        }
        Err(flaw) => Ok(Err(flaw)),
    }
}

/// The hop by which a member's write comes to a replica from this parent.
fn hop_of(replicas: u8, near: Result<Near, Flaw>, child: &[u8], parent: &[u8]) -> Result<Hop, Flaw>
    ensures { result ≡ hop_says replicas near child.now parent.now }
{
    match both(both(near, replica_of(child, replicas)), centre_of(parent)) {
        Ok(((near, child), parent)) => Ok(Hop {
            member: near.member,
            child,
            parent,
        }),
        Err(flaw) => Err(flaw),
    }
}

/// The hops of a member: a parent for each replica, in the order of the replicas.
#[tactic(auto, unfolding(crate::specs::Policies::hops_from))]
fn with_hops(
    replicas: u8,
    near: Result<Near, Flaw>,
    mut lanes: Result<Lanes, Flaw>,
    children: &[u8],
    parents: &[u8],
) -> Result<Result<Lanes, Flaw>, AllocError>
    ensures { Gives (hops_from replicas near lanes (split_at 44 children.now) (split_at 44 parents.now)) result }
{
    let mut to = Some(children);
    let mut from = Some(parents);
    while let Some(texts) = to {
        let (child, more) = first_piece(texts, b',');
        to = more;
        let Some(texts) = from else {
            return Ok(Err(Flaw::Syntax));
        };
        let (parent, more) = first_piece(texts, b',');
        from = more;
        lanes = with_hop(lanes, hop_of(replicas, near, child, parent))?;
    }
    if from.is_some() {
        return Ok(Err(Flaw::Syntax));
    }
    Ok(lanes)
}

/// One member more, as `MEMBER>PRIMARY>PARENTS`.
#[tactic(auto, unfolding(crate::specs::Policies::with_member))]
fn with_member(
    replicas: u8,
    children: &[u8],
    room: u8,
    lanes: Result<Lanes, Flaw>,
    word: &[u8],
) -> Result<Result<Lanes, Flaw>, AllocError>
    ensures { Gives (with_member replicas (split_at 44 children.now) room lanes word.now) result }
{
    let Some((member, at, parents)) = three(Some(word), b'>') else {
        return Ok(Err(Flaw::Syntax));
    };
    let near = near_of(member, at);
    let lanes = with_near(lanes, after(has_room(room), near))?;
    with_hops(replicas, near, lanes, children, parents)
}

/// The members of a relay policy to the end of its entry, over replicas with this list.
#[tactic(auto, unfolding(crate::specs::Policies::lanes_from))]
pub(crate) fn lanes_of(
    alloc: Global,
    replicas: u8,
    children: &[u8],
    words: &mut Words<'_>,
) -> Result<Result<Lanes, Flaw>, AllocError>
    ensures lanes { Gives (lanes_from replicas (split_at 44 children.now) 8 (Ok (record { nears = []; hops = [] })) (entry words.old)) result }
    ensures beyond { beyond words.new ≡ beyond words.old }
{
    let mut lanes = Ok(Lanes {
        nears: Listed::new(alloc),
        hops: Listed::new(alloc),
    });
    let mut room = MEMBERS;
    while let Some(word) = words.next() {
        lanes = with_member(replicas, children, room, lanes, word)?;
        room = room.saturating_sub(1);
    }
    Ok(lanes)
}
