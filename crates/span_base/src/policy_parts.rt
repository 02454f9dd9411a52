ghost use Rattle.std.specs.Prelude.{◌≡◌, ◌==◌, find, option_map};
ghost use Rattle.span_base.specs.PolicyParts.{faults_of, replicas_of, members_of, member_of, primary_of};

use crate::dc_set::DcSet;
use crate::ids::DcId;
use crate::policy::{Near, Policy, Quorum};

impl Policy {
    /// How many replicas may stop: 0 to 3 of a sound policy.
    pub fn faults(&self) -> u8
        ensures { result ≡ faults_of self.now }
    {
        match self {
            Policy::Direct { f, .. } | Policy::Relay { f, .. } | Policy::Strong { f, .. } => *f,
        }
    }

    /// All replicas.
    pub fn replicas(&self) -> DcSet
        ensures { result ≡ replicas_of self.now }
    {
        match self {
            Policy::Direct { replicas, .. }
            | Policy::Relay { replicas, .. }
            | Policy::Strong { replicas, .. } => *replicas,
        }
    }

    /// The members of a strong policy with their quorums, and none of another one.
    pub fn members(&self) -> &[Quorum]
        ensures { result.now ≡ members_of self.now }
    {
        match self {
            Policy::Strong { members, .. } => members.as_slice(),
            Policy::Direct { .. } | Policy::Relay { .. } => &[],
        }
    }

    /// The quorums of the centre `at`, where the policy is strong and the centre is a member.
    pub fn member(&self, at: DcId) -> Option<Quorum>
        ensures { result ≡ member_of self.now at.0 }
    {
        match self {
            Policy::Strong { members, .. } => find_member(members.as_slice(), at),
            Policy::Direct { .. } | Policy::Relay { .. } => None,
        }
    }

    /// The replica at which the clients of `member` read, where the policy is eventual and
    /// `member` is one of its members.
    pub fn primary(&self, member: DcId) -> Option<DcId>
        ensures { option_map (λ c. c.0) result ≡ primary_of self.now member.0 }
    {
        match self {
            Policy::Direct { primary, .. } => find_primary(primary.as_slice(), member),
            Policy::Relay { primary, .. } => find_primary(primary.as_slice(), member),
            Policy::Strong { .. } => None,
        }
    }
}

fn find_member(members: &[Quorum], at: DcId) -> Option<Quorum>
    ensures { result ≡ find (λ q. q.dc.0 == at.0) members.now }
{
    members.iter().copied().find(|member| member.dc.0 == at.0)
}

fn find_primary(primary: &[Near], member: DcId) -> Option<DcId>
    ensures { option_map (λ c. c.0) result ≡ option_map (λ n. n.at.0) (find (λ n. n.member.0 == member.0) primary.now) }
{
    for near in primary {
        if near.member == member {
            return Some(near.at);
        }
    }
    None
}
