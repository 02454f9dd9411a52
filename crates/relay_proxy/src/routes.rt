//! How a member's write comes to each replica.

ghost use Rattle.std.specs.Prelude.{◌≡◌, ℕ, ◌&&◌, ◌==◌, find};
ghost use Rattle.std.specs.Option.{option_map_or};
ghost use Rattle.span_base.specs.DcSet.{has};
ghost use Rattle.relay_proxy.specs.Routes.{parent_of, is_direct, is_onward, onward_of};

use span_base::{CENTRES, DcId, DcSet, Hop, Policy};

/// Where the write of `member` to the replica `child` comes from.
fn parent(policy: &Policy, member: DcId, child: u8) -> u8
    ensures { result ≡ parent_of policy.now member.0 child }
{
    match policy {
        Policy::Relay { parent, .. } => parent_in(parent.as_slice(), member, child),
        Policy::Direct { .. } | Policy::Strong { .. } => child,
    }
}

fn parent_in(hops: &[Hop], member: DcId, child: u8) -> u8
    ensures { result ≡ option_map_or (λ h. h.parent.0) (find (λ h. (h.member.0 == member.0) && (h.child.0 == child)) hops.now) child }
{
    for hop in hops {
        if is_lane(hop, member, child) {
            return hop.parent.0;
        }
    }
    child
}

fn is_lane(hop: &Hop, member: DcId, child: u8) -> bool
    ensures { result ≡ ((hop.now.member.0 == member.0) && (hop.now.child.0 == child)) }
{
    hop.member == member && hop.child.0 == child
}

/// Whether the clients of `member` write to the replica `d` themselves.
pub(crate) fn is_direct(policy: &Policy, member: DcId, d: u8) -> bool
    ensures { result ≡ is_direct policy.now member.0 d }
{
    policy.replicas().has(DcId(d)) && parent(policy, member, d) == d
}

fn is_onward(policy: &Policy, member: DcId, p: u8, d: u8) -> bool
    ensures { result ≡ is_onward policy.now member.0 p d }
{
    policy.replicas().has(DcId(d)) && parent(policy, member, d) == p && d != p
}

/// The other replicas that `p` passes the writes of `member` on to.
#[tactic(auto, using(crate::proofs::SetOf::set_start, crate::proofs::SetOf::set_there, crate::proofs::SetOf::set_not_there, crate::proofs::SetOf::set_end, crate::proofs::SetOf::has_set_of))]
pub(crate) fn onward(policy: &Policy, member: DcId, p: u8) -> DcSet
    ensures set { result ≡ onward_of policy.now member.0 p }
    ensures has { (d : ℕ) → has result d ≡ is_onward policy.now member.0 p d }
{
    let mut set = DcSet::empty();
    for d in 0..CENTRES {
        if is_onward(policy, member, p, d) {
            set = set.with(DcId(d));
        }
    }
    set
}
