//! The words of a policy.

ghost use Rattle.std.specs.Prelude.{◌≡◌, [], Ok};
ghost use Rattle.wire_msg.specs.Sound.{is_sound_policy};
ghost use Rattle.schedule_text.specs.Flaws.{Gives};
ghost use Rattle.schedule_text.specs.Policies.{quorums_from, nears_from, union_of, strong_says, direct_says, relay_says, policy_says};
ghost use Rattle.schedule_text.specs.Pieces.{entry, beyond};

use crate::flaw::{Flaw, after, both, listed};
use crate::lanes::lanes_of;
use crate::members::{MEMBERS, has_room, near_in, quorum_of, tolerance_of};
use crate::numbers::replicas_of;
use crate::words::Words;
use span_base::{DcSet, Listed, Near, Policy, Quorum, is_sound};
use std::alloc::{AllocError, Global};

/// The members of a strong policy to the end of its entry.
#[tactic(auto, unfolding(crate::specs::Policies::quorums_from))]
fn quorums_of(
    alloc: Global,
    replicas: u8,
    words: &mut Words<'_>,
) -> Result<Result<Listed<Quorum>, Flaw>, AllocError>
    ensures quorums { Gives (quorums_from replicas 8 (Ok []) (entry words.old)) result }
    ensures beyond { beyond words.new ≡ beyond words.old }
{
    let mut quorums = Ok(Listed::new(alloc));
    let mut room = MEMBERS;
    while let Some(word) = words.next() {
        quorums = listed(quorums, after(has_room(room), quorum_of(word, replicas)))?;
        room = room.saturating_sub(1);
    }
    Ok(quorums)
}

/// The members of a direct policy to the end of its entry.
#[tactic(auto, unfolding(crate::specs::Policies::nears_from))]
fn nears_of(alloc: Global, words: &mut Words<'_>) -> Result<Result<Listed<Near>, Flaw>, AllocError>
    ensures nears { Gives (nears_from 8 (Ok []) (entry words.old)) result }
    ensures beyond { beyond words.new ≡ beyond words.old }
{
    let mut nears = Ok(Listed::new(alloc));
    let mut room = MEMBERS;
    while let Some(word) = words.next() {
        nears = listed(nears, after(has_room(room), near_in(word)))?;
        room = room.saturating_sub(1);
    }
    Ok(nears)
}

/// The centres that some member reads from or writes to.
fn union_of(quorums: &[Quorum]) -> DcSet
    ensures { result ≡ union_of quorums.now }
{
    let mut set = DcSet::empty();
    for quorum in quorums {
        set = set.join(&quorum.read).join(&quorum.write);
    }
    set
}

#[tactic(auto, unfolding(crate::specs::Policies::strong_says))]
fn strong_of(
    alloc: Global,
    replicas: u8,
    words: &mut Words<'_>,
) -> Result<Result<Policy, Flaw>, AllocError>
    ensures policy { Gives (strong_says replicas (entry words.old)) result }
    ensures beyond { beyond words.new ≡ beyond words.old }
{
    let Some(f) = words.next() else {
        return Ok(Err(Flaw::Syntax));
    };
    let quorums = quorums_of(alloc, replicas, words)?;
    match both(tolerance_of(f), quorums) {
        Ok((f, members)) => Ok(Ok(Policy::Strong {
            f,
            replicas: union_of(members.as_slice()),
            members,
        })),
        Err(flaw) => Ok(Err(flaw)),
    }
}

#[tactic(auto, unfolding(crate::specs::Policies::direct_says))]
fn direct_of(
    alloc: Global,
    replicas: u8,
    words: &mut Words<'_>,
) -> Result<Result<Policy, Flaw>, AllocError>
    ensures policy { Gives (direct_says replicas (entry words.old)) result }
    ensures beyond { beyond words.new ≡ beyond words.old }
{
    let Some(f) = words.next() else {
        return Ok(Err(Flaw::Syntax));
    };
    let Some(set) = words.next() else {
        return Ok(Err(Flaw::Syntax));
    };
    let nears = nears_of(alloc, words)?;
    match both(both(tolerance_of(f), replicas_of(set, replicas)), nears) {
        Ok(((f, replicas), primary)) => Ok(Ok(Policy::Direct {
            f,
            replicas,
            primary,
        })),
        Err(flaw) => Ok(Err(flaw)),
    }
}

#[tactic(auto, unfolding(crate::specs::Policies::relay_says))]
fn relay_of(
    alloc: Global,
    replicas: u8,
    words: &mut Words<'_>,
) -> Result<Result<Policy, Flaw>, AllocError>
    ensures policy { Gives (relay_says replicas (entry words.old)) result }
    ensures beyond { beyond words.new ≡ beyond words.old }
{
    let Some(f) = words.next() else {
        return Ok(Err(Flaw::Syntax));
    };
    let Some(set) = words.next() else {
        return Ok(Err(Flaw::Syntax));
    };
    let lanes = lanes_of(alloc, replicas, set, words)?;
    match both(both(tolerance_of(f), replicas_of(set, replicas)), lanes) {
        Ok(((f, replicas), lanes)) => Ok(Ok(Policy::Relay {
            f,
            replicas,
            primary: lanes.nears,
            parent: lanes.hops,
        })),
        Err(flaw) => Ok(Err(flaw)),
    }
}

/// The policy that the words of an entry say, of a store with so many replicas.
#[tactic(auto, unfolding(crate::specs::Policies::policy_says))]
pub(crate) fn policy_of(
    alloc: Global,
    replicas: u8,
    words: &mut Words<'_>,
) -> Result<Result<Policy, Flaw>, AllocError>
    ensures policy { Gives (policy_says replicas (entry words.old)) result }
    ensures beyond { beyond words.new ≡ beyond words.old }
{
    let Some(mode) = words.next() else {
        return Ok(Err(Flaw::Syntax));
    };
    if mode == b"strong".as_slice() {
        strong_of(alloc, replicas, words)
    } else if mode == b"direct".as_slice() {
        direct_of(alloc, replicas, words)
    } else if mode == b"relay".as_slice() {
        relay_of(alloc, replicas, words)
    } else {
        Ok(Err(Flaw::Syntax))
    }
}

/// Whether a set of keys may have the policy.
pub(crate) fn is_whole(policy: &Policy) -> bool
    ensures { result ≡ is_sound_policy policy.now }
{
    is_sound(policy)
}
