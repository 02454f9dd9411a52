ghost use Rattle.std.specs.Prelude.{◌≡◌, ◌+◌, ◌*◌, ◌<◌, ◌^◌, length};
ghost use Rattle.std.specs.Int.{w8};
ghost use Rattle.std.specs.List.{flat_map, AllByRecursion};
ghost use Rattle.span_base.specs.Policy.{IsSoundPolicy};
ghost use Rattle.wire_msg.specs.Frames.{big, policy_head, near_bytes, lanes_bytes, quorum_bytes, policy_bytes};
ghost use Rattle.wire_msg.specs.Laws.{FitsSet, FitsNear, FitsHop, FitsQuorum, FitsPolicy};
ghost use Rattle.wire_msg.specs.Sizes.{policy_size};
ghost use Rattle.wire_msg.specs.Adds.{Adds, HasSpace};

use crate::writer::{write_byte, write_set};
use span_base::{DcSet, Hop, Near, Policy, Quorum};

#[tactic(auto, using(crate::proofs::Writing::policies), unfolding(crate::specs::Frames::policy_bytes))]
pub(crate) fn write_policy(out: &mut Vec<u8>, policy: &Policy)
    requires sound { IsSoundPolicy policy.now }
    requires space { HasSpace out.old (policy_size policy.now) }
    ensures adds { Adds out.old (policy_bytes policy.now) (policy_size policy.now) out.new }
    ensures fits { FitsPolicy policy.now }
{
    match policy {
        Policy::Direct {
            f,
            replicas,
            primary,
        } => {
            write_head(out, 1, *f, *replicas, primary.len());
            write_nears(out, primary.as_slice());
        }
        Policy::Relay {
            f,
            replicas,
            primary,
            parent,
        } => {
            write_head(out, 2, *f, *replicas, primary.len());
            write_lanes(
                out,
                replicas.count() as usize,
                primary.as_slice(),
                parent.as_slice(),
            );
        }
        Policy::Strong {
            f,
            replicas,
            members,
        } => {
            write_head(out, 3, *f, *replicas, members.len());
            write_quorums(out, members.as_slice());
        }
    }
}

#[tactic(auto, unfolding(crate::specs::Frames::policy_head))]
fn write_head(out: &mut Vec<u8>, mode: u8, f: u8, replicas: DcSet, members: usize)
    requires few { members < 2 ^ 8 }
    requires space { HasSpace out.old 5 }
    ensures adds { Adds out.old (policy_head mode f replicas members) 5 out.new }
    ensures fits { FitsSet replicas }
{
    write_byte(out, mode);
    write_byte(out, f);
    write_set(out, replicas);
    write_byte(out, members as u8);
}

fn write_nears(out: &mut Vec<u8>, nears: &[Near])
    requires { HasSpace out.old (length nears.now * 2) }
    ensures adds { Adds out.old (flat_map near_bytes nears.now) (length nears.now * 2) out.new }
    ensures fits { AllByRecursion FitsNear nears.now }
{
    match nears {
        [] => {}
        [near, rest @ ..] => {
            write_near(out, near);
            write_nears(out, rest);
        }
    }
}

#[tactic(auto, unfolding(crate::specs::Frames::near_bytes))]
fn write_near(out: &mut Vec<u8>, near: &Near)
    requires { HasSpace out.old 2 }
    ensures adds { Adds out.old (near_bytes near.now) 2 out.new }
    ensures fits { FitsNear near.now }
{
    write_byte(out, near.member.0);
    write_byte(out, near.at.0);
}

/// Each member with its primary and the parents of its hops, one to each replica.
#[tactic(auto, unfolding(crate::specs::Frames::lanes_bytes))]
fn write_lanes(out: &mut Vec<u8>, replicas: usize, nears: &[Near], hops: &[Hop])
    requires hops { length hops.now ≡ length nears.now * replicas }
    requires space { HasSpace out.old (length nears.now * (2 + replicas)) }
    ensures adds { Adds out.old (lanes_bytes replicas nears.now hops.now) (length nears.now * (2 + replicas)) out.new }
    ensures nears { AllByRecursion FitsNear nears.now }
    ensures hops { AllByRecursion FitsHop hops.now }
{
    match nears {
        [] => {}
        [near, rest @ ..] => {
            let (first, more) = hops.split_at(replicas);
            write_near(out, near);
            write_parents(out, first);
            write_lanes(out, replicas, rest, more);
        }
    }
}

fn write_parents(out: &mut Vec<u8>, hops: &[Hop])
    requires { HasSpace out.old (length hops.now) }
    ensures adds { Adds out.old (flat_map (λ hop. big w8 hop.parent.0) hops.now) (length hops.now) out.new }
    ensures fits { AllByRecursion FitsHop hops.now }
{
    match hops {
        [] => {}
        [hop, rest @ ..] => {
            write_byte(out, hop.parent.0);
            write_parents(out, rest);
        }
    }
}

fn write_quorums(out: &mut Vec<u8>, quorums: &[Quorum])
    requires { HasSpace out.old (length quorums.now * 5) }
    ensures adds { Adds out.old (flat_map quorum_bytes quorums.now) (length quorums.now * 5) out.new }
    ensures fits { AllByRecursion FitsQuorum quorums.now }
{
    match quorums {
        [] => {}
        [quorum, rest @ ..] => {
            write_quorum(out, quorum);
            write_quorums(out, rest);
        }
    }
}

#[tactic(auto, unfolding(crate::specs::Frames::quorum_bytes))]
fn write_quorum(out: &mut Vec<u8>, quorum: &Quorum)
    requires { HasSpace out.old 5 }
    ensures adds { Adds out.old (quorum_bytes quorum.now) 5 out.new }
    ensures fits { FitsQuorum quorum.now }
{
    write_byte(out, quorum.dc.0);
    write_set(out, quorum.read);
    write_set(out, quorum.write);
}
