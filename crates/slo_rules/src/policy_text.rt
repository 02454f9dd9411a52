//! The lines of a policy, as plans show it.
ghost use Rattle.std.specs.Prelude.{◌≡◌, ◌++◌, ◌<◌, codes, true, All, OnOk, string_bytes};
ghost use Rattle.std.specs.List.{flat_map};
ghost use Rattle.workload.specs.World.{centre_count};
ghost use Rattle.slo_rules.specs.Rules.{lies_below};
ghost use Rattle.slo_rules.specs.PolicyText.{names_text, replicas_line, primary_line, hop_line, quorum_line, ended, policy_text, NamesCentres, IsNearWithin, IsHopWithin, IsQuorumWithin};

use span_base::{CENTRES, DcId, DcSet, Hop, Near, Policy, Quorum};
use std::alloc::AllocError;
use workload::World;

/// Adds the names of a set's centres, each behind a space.
fn push_names(text: &mut String, world: &World, set: DcSet) -> Result<(), AllocError>
    requires { lies_below (centre_count world.now) set ≡ true }
    ensures { OnOk result (string_bytes text.new ≡ string_bytes text.old ++ names_text world.now set) }
{
    for d in 0..CENTRES {
        let dc = DcId(d);
        if set.has(dc) {
            let name = world.name(dc).as_str();
            write!(text, " {name}")?;
        }
    }
    Ok(())
}

/// Adds the line of the replicas.
fn push_replicas(text: &mut String, world: &World, replicas: DcSet) -> Result<(), AllocError>
    requires { lies_below (centre_count world.now) replicas ≡ true }
    ensures { OnOk result (string_bytes text.new ≡ string_bytes text.old ++ ended (replicas_line world.now replicas)) }
{
    write!(text, "replicas")?;
    push_names(text, world, replicas)?;
    write!(text, "\n")
}

/// Adds the line of a member's primary.
fn push_primary(text: &mut String, world: &World, near: Near) -> Result<(), AllocError>
    requires { IsNearWithin (centre_count world.now) near }
    ensures { OnOk result (string_bytes text.new ≡ string_bytes text.old ++ ended (primary_line world.now near)) }
{
    let member = world.name(near.member).as_str();
    let at = world.name(near.at).as_str();
    write!(text, "primary {member} {at}\n")
}

/// Adds the lines of the members' primaries.
fn push_primaries(text: &mut String, world: &World, primary: &[Near]) -> Result<(), AllocError>
    requires { All (IsNearWithin (centre_count world.now)) primary.now }
    ensures { OnOk result (string_bytes text.new ≡ string_bytes text.old ++ flat_map (λ near. ended (primary_line world.now near)) primary.now) }
{
    for near in primary {
        push_primary(text, world, *near)?;
    }
    Ok(())
}

/// Adds the line of a hop.
fn push_hop(text: &mut String, world: &World, hop: Hop) -> Result<(), AllocError>
    requires { IsHopWithin (centre_count world.now) hop }
    ensures { OnOk result (string_bytes text.new ≡ string_bytes text.old ++ ended (hop_line world.now hop)) }
{
    let member = world.name(hop.member).as_str();
    let child = world.name(hop.child).as_str();
    let parent = world.name(hop.parent).as_str();
    write!(text, "parent {member} {child} {parent}\n")
}

/// Adds the lines of the hops.
fn push_hops(text: &mut String, world: &World, hops: &[Hop]) -> Result<(), AllocError>
    requires { All (IsHopWithin (centre_count world.now)) hops.now }
    ensures { OnOk result (string_bytes text.new ≡ string_bytes text.old ++ flat_map (λ hop. ended (hop_line world.now hop)) hops.now) }
{
    for hop in hops {
        push_hop(text, world, *hop)?;
    }
    Ok(())
}

/// Adds the line of a member's quorums.
fn push_quorum(text: &mut String, world: &World, quorum: Quorum) -> Result<(), AllocError>
    requires { IsQuorumWithin (centre_count world.now) quorum }
    ensures { OnOk result (string_bytes text.new ≡ string_bytes text.old ++ ended (quorum_line world.now quorum)) }
{
    let member = world.name(quorum.dc).as_str();
    write!(text, "quorum {member} read")?;
    push_names(text, world, quorum.read)?;
    write!(text, " ; write")?;
    push_names(text, world, quorum.write)?;
    write!(text, "\n")
}

/// Adds the lines of the members' quorums.
fn push_quorums(text: &mut String, world: &World, quorums: &[Quorum]) -> Result<(), AllocError>
    requires { All (IsQuorumWithin (centre_count world.now)) quorums.now }
    ensures { OnOk result (string_bytes text.new ≡ string_bytes text.old ++ flat_map (λ q. ended (quorum_line world.now q)) quorums.now) }
{
    for quorum in quorums {
        push_quorum(text, world, *quorum)?;
    }
    Ok(())
}

/// Adds the lines of a policy whose centres are the world's, each with its line feed. After an
/// error the text has a front of them.
pub fn push_policy(text: &mut String, world: &World, policy: &Policy) -> Result<(), AllocError>
    requires { NamesCentres world.now policy.now }
    ensures { OnOk result (string_bytes text.new ≡ string_bytes text.old ++ policy_text world.now policy.now) }
{
    push_replicas(text, world, policy.replicas())?;
    match policy {
        Policy::Direct { primary, .. } => push_primaries(text, world, primary.as_slice()),
        Policy::Relay {
            primary,
            parent,
            ..
        } => {
            push_primaries(text, world, primary.as_slice())?;
            push_hops(text, world, parent.as_slice())
        }
        Policy::Strong { members, .. } => push_quorums(text, world, members.as_slice()),
    }
}
