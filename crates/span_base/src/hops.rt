ghost use Rattle.std.specs.Prelude.{◌≡◌, ℕ, ◌++◌, ◌↔◌, IsTrue, List, map, MatchOption};
ghost use Rattle.std.specs.List.{All, flat_map};
ghost use Rattle.span_base.specs.Policy.{AreHops, IsDirect, lane_of, lanes_of};

use crate::dc_set::{CENTRES, DcSet};
use crate::ids::DcId;
use crate::policy::{Hop, Near};

pub(crate) fn are_hops(replicas: DcSet, primary: &[Near], hops: &[Hop]) -> bool
    ensures { IsTrue result ↔ AreHops replicas primary.now hops.now }
{
    have_lanes(replicas, primary, hops) && all_direct(hops)
}

fn all_direct(hops: &[Hop]) -> bool
    ensures { IsTrue result ↔ All (λ h. IsDirect hops.now h.member h.parent) hops.now }
{
    for hop in hops {
        if !is_direct(hops, hop.member, hop.parent) {
            return false;
        }
    }
    true
}

fn is_direct(hops: &[Hop], member: DcId, at: DcId) -> bool
    ensures { IsTrue result ↔ IsDirect hops.now member at }
{
    hops.contains(&Hop {
        member,
        child: at,
        parent: at,
    })
}

/// Whether the hops are those of each member in its turn, one to each replica.
fn have_lanes(replicas: DcSet, primary: &[Near], hops: &[Hop]) -> bool
    ensures { IsTrue result ↔ (map lane_of hops.now ≡ flat_map (λ n. lanes_of replicas n.member.0) primary.now) }
{
    let mut rest = hops;
    for near in primary {
        match after_lanes(replicas, near.member, rest) {
            Some(more) => rest = more,
            None => return false,
        }
    }
    rest.is_empty()
}

/// The hops after those of `member` to each replica, where the list begins with these.
fn after_lanes(replicas: DcSet, member: DcId, hops: &[Hop]) -> Option<&[Hop]>
    ensures { MatchOption result ((more : List (ℕ × ℕ)) → ¬ (map lane_of hops.now ≡ lanes_of replicas member.0 ++ more)) (λ rest. map lane_of hops.now ≡ lanes_of replicas member.0 ++ map lane_of rest.now) }
{
    let mut rest = hops;
    for centre in 0..CENTRES {
        if replicas.has(DcId(centre)) {
            let (hop, more) = rest.split_first()?;
            if hop.member != member || hop.child != DcId(centre) {
                return None;
            }
            rest = more;
        }
    }
    Some(rest)
}
