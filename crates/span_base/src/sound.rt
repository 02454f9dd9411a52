ghost use Rattle.std.specs.Prelude.{◌≡◌, ◌↔◌, IsTrue};
ghost use Rattle.std.specs.List.{All};
ghost use Rattle.span_base.specs.DcSet.{has};
ghost use Rattle.span_base.specs.Policy.{IsSoundPolicy, ArePrimaries};

use crate::dc_set::DcSet;
use crate::hops::are_hops;
use crate::ids::DcId;
use crate::members::{Member, are_members};
use crate::policy::{Near, Policy};
use crate::quorum::{FAULTS, is_quorum};

impl Member for Near {
    ghost centre = { λ n. n.member.0 };

    fn centre(&self) -> DcId {
        self.member
    }
}

/// Whether a set of keys may have the policy.
pub fn is_sound(policy: &Policy) -> bool
    ensures { IsTrue result ↔ IsSoundPolicy policy.now }
{
    match policy {
        Policy::Direct {
            f,
            replicas,
            primary,
        } => are_primaries(*f, *replicas, primary.as_slice()),
        Policy::Relay {
            f,
            replicas,
            primary,
            parent,
        } => {
            are_primaries(*f, *replicas, primary.as_slice())
                && are_hops(*replicas, primary.as_slice(), parent.as_slice())
        }
        Policy::Strong { .. } => is_quorum(policy),
    }
}

fn are_primaries(f: u8, replicas: DcSet, primary: &[Near]) -> bool
    ensures { IsTrue result ↔ ArePrimaries f replicas primary.now }
{
    f <= FAULTS
        && are_members(primary)
        && replicas.count() > u32::from(f)
        && all_at_replicas(replicas, primary)
}

fn all_at_replicas(replicas: DcSet, primary: &[Near]) -> bool
    ensures { IsTrue result ↔ All (λ n. IsTrue (has replicas n.at.0)) primary.now }
{
    primary.iter().all(|near| replicas.has(near.at))
}
