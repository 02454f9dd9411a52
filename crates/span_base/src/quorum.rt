ghost use Rattle.std.specs.Prelude.{◌↔◌, IsTrue};
ghost use Rattle.std.specs.List.{All};
ghost use Rattle.span_base.specs.Policy.{IsQuorumPolicy, AreQuorums, IsUnion, Meets};

use crate::dc_set::DcSet;
use crate::ids::DcId;
use crate::members::{Member, are_members};
use crate::policy::{Policy, Quorum};

/// The greatest number of replicas that a policy lets fail.
pub const FAULTS: u8 = 3;

impl Member for Quorum {
    ghost centre = { λ q. q.dc.0 };

    fn centre(&self) -> DcId {
        self.dc
    }
}

/// Whether the policy is strong and its quorums meet, so that a read sees every write that
/// ended before it, though `f` replicas fail.
pub fn is_quorum(policy: &Policy) -> bool
    ensures { IsTrue result ↔ IsQuorumPolicy policy.now }
{
    match policy {
        Policy::Strong {
            f,
            replicas,
            members,
        } => are_quorums(*f, *replicas, members.as_slice()),
        Policy::Direct { .. } | Policy::Relay { .. } => false,
    }
}

fn are_quorums(f: u8, replicas: DcSet, members: &[Quorum]) -> bool
    ensures { IsTrue result ↔ AreQuorums f replicas members.now }
{
    f <= FAULTS
        && are_members(members)
        && is_union(replicas, members)
        && all_meet(members, 2 * u32::from(f) + 1)
}

fn is_union(replicas: DcSet, members: &[Quorum]) -> bool
    ensures { IsTrue result ↔ IsUnion replicas members.now }
{
    replicas == asked_by(members)
}

/// The replicas that the members read from and write to.
fn asked_by(members: &[Quorum]) -> DcSet
    ensures { IsUnion result members.now }
{
    let mut asked = DcSet::empty();
    for member in members {
        asked = asked.join(&member.read).join(&member.write);
    }
    asked
}

fn all_meet(members: &[Quorum], many: u32) -> bool
    ensures { IsTrue result ↔ All (λ a. All (λ b. Meets many a b) members.now) members.now }
{
    members
        .iter()
        .all(|member| meets_all(member, members, many))
}

fn meets_all(member: &Quorum, members: &[Quorum], many: u32) -> bool
    ensures { IsTrue result ↔ All (λ b. Meets many member.now b) members.now }
{
    members.iter().all(|other| meets(member, other, many))
}

fn meets(member: &Quorum, other: &Quorum, many: u32) -> bool
    ensures { IsTrue result ↔ Meets many member.now other.now }
{
    member.read.meet(&other.write).count() >= many
        && member.write.meet(&other.write).count() >= many
}
