//! Whether a policy names the world's centres and the set's members, each in its order.
ghost use Rattle.std.specs.Prelude.{◌≡◌, ◌<◌, ◌∷◌, ◌&&◌, ℕ, List, false, length, nat_lt};
ghost use Rattle.std.specs.List.{list_all};
ghost use Rattle.std.specs.Option.{option_map_or};
ghost use Rattle.span_base.specs.DcSet.{centres_of};
ghost use Rattle.slo_rules.specs.Rules.{has_shape, lies_below, primaries_below, primary_members, quorum_members, centres_asking, same_list, has_hops, hops_due, due_from};

use span_base::{CENTRES, DcId, DcSet, Hop, Near, Policy, Quorum, SetId};
use workload::{Demand, World};

/// Whether all centres of a set are among the first `n`.
pub(crate) fn lies_below(n: u8, set: &DcSet) -> bool
    ensures { result ≡ lies_below n set.now }
{
    for d in 0..CENTRES {
        if set.has(DcId(d)) && d >= n {
            return false;
        }
    }
    true
}

/// Whether each primary is one of the first `n` centres.
fn primaries_below(n: u8, primary: &[Near]) -> bool
    ensures { result ≡ primaries_below n primary.now }
{
    primary.iter().all(|near| near.at.0 < n)
}

/// Whether there is a primary for each member, in order.
fn has_primaries(primary: &[Near], members: &[Demand]) -> bool
    ensures { result ≡ same_list (primary_members primary.now) (centres_asking members.now) }
{
    if primary.len() != members.len() {
        return false;
    }
    for (near, m) in primary.iter().zip(members) {
        if near.member != m.dc {
            return false;
        }
    }
    true
}

/// Whether each hop comes from one of the first `n` centres.
fn parents_below(n: u8, hops: &[Hop]) -> bool
    ensures { result ≡ list_all (λ hop. nat_lt hop.parent.0 n) hops.now }
{
    hops.iter().all(|hop| hop.parent.0 < n)
}

/// The hops that are left after one from a member to a centre; none where another comes first.
#[tactic(auto, using(crate::proofs::Hops::first_hops))]
fn after_hop<'a>(hops: &'a [Hop], member: DcId, dc: DcId) -> Option<&'a [Hop]>
    ensures { (due : List (ℕ × ℕ)) → has_hops hops.now ((member.0, dc.0) ∷ due) ≡ option_map_or (λ rest. has_hops rest.now due) result false }
{
    match hops.split_first() {
        Some((hop, rest)) => {
            if hop.member.0 == member.0 && hop.child.0 == dc.0 {
                Some(rest)
            } else {
                None
            }
        }
        None => None,
    }
}

/// The hops that are left after those of one member, one for each replica in rising order; none
/// where others come first.
#[tactic(auto, using(crate::proofs::Hops::due_steps))]
fn after_member<'a>(hops: &'a [Hop], member: DcId, replicas: &DcSet) -> Option<&'a [Hop]>
    ensures { (more : List (ℕ × ℕ)) → has_hops hops.now (due_from member.0 (centres_of replicas.now) more) ≡ option_map_or (λ rest. has_hops rest.now more) result false }
{
    let mut rest = hops;
    for d in 0..CENTRES {
        if replicas.has(DcId(d)) {
            match after_hop(rest, member, DcId(d)) {
                Some(after) => rest = after,
                None => return None,
            }
        }
    }
    Some(rest)
}

/// Whether there is one hop for each member and replica, in the order of the members and of the
/// centres.
fn has_hops(hops: &[Hop], members: &[Demand], replicas: &DcSet) -> bool
    ensures { result ≡ has_hops hops.now (hops_due (centres_asking members.now) (centres_of replicas.now)) }
{
    let mut rest = hops;
    for m in members {
        match after_member(rest, m.dc, replicas) {
            Some(after) => rest = after,
            None => return false,
        }
    }
    rest.is_empty()
}

/// Whether all quorums are among the first `n` centres.
fn quorums_below(n: u8, quorums: &[Quorum]) -> bool
    ensures { result ≡ list_all (λ q. lies_below n q.read && lies_below n q.write) quorums.now }
{
    quorums
        .iter()
        .all(|q| lies_below(n, &q.read) && lies_below(n, &q.write))
}

/// Whether there are quorums for each member, in order.
fn has_quorums(quorums: &[Quorum], members: &[Demand]) -> bool
    ensures { result ≡ same_list (quorum_members quorums.now) (centres_asking members.now) }
{
    if quorums.len() != members.len() {
        return false;
    }
    for (q, m) in quorums.iter().zip(members) {
        if q.dc != m.dc {
            return false;
        }
    }
    true
}

/// Whether a policy names centres of the world and the members of the set.
pub(crate) fn has_shape(world: &World, set: SetId, policy: &Policy) -> bool
    requires { set.0 < length world.now.sets }
    ensures { result ≡ has_shape world.now set.0 policy.now }
{
    let centres = world.centre_count();
    let members = world.members(set);
    match policy {
        Policy::Direct {
            replicas,
            primary,
            ..
        } => {
            lies_below(centres, replicas)
                && primaries_below(centres, primary.as_slice())
                && has_primaries(primary.as_slice(), members)
        }
        Policy::Relay {
            replicas,
            primary,
            parent,
            ..
        } => {
            lies_below(centres, replicas)
                && primaries_below(centres, primary.as_slice())
                && parents_below(centres, parent.as_slice())
                && has_primaries(primary.as_slice(), members)
                && has_hops(parent.as_slice(), members, replicas)
        }
        Policy::Strong {
            replicas,
            members: quorums,
            ..
        } => {
            lies_below(centres, replicas)
                && quorums_below(centres, quorums.as_slice())
                && has_quorums(quorums.as_slice(), members)
        }
    }
}
