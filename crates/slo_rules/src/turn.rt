//! Whose line comes next.
ghost use Rattle.std.specs.Prelude.{◌≡◌, option_map, slice_get};
ghost use Rattle.span_base.specs.DcSet.{centres_of};
ghost use Rattle.slo_rules.specs.PolicyReading.{due_primary, due_quorum, due_hop};

use span_base::{CENTRES, DcId, DcSet};
use workload::Demand;

/// The line that comes next.
#[derive(Clone, Copy, Debug)]
pub(crate) enum Due {
    Replicas,
    Primary(DcId),
    Hop { member: DcId, child: DcId },
    Quorum(DcId),
}

pub(crate) fn due_primary(members: &[Demand], count: usize) -> Option<Due>
    ensures { result ≡ due_primary members.now count }
{
    match members.get(count) {
        Some(m) => Some(Due::Primary(m.dc)),
        None => None,
    }
}

pub(crate) fn due_quorum(members: &[Demand], count: usize) -> Option<Due>
    ensures { result ≡ due_quorum members.now count }
{
    match members.get(count) {
        Some(m) => Some(Due::Quorum(m.dc)),
        None => None,
    }
}

/// The centre of this number among those of a set, counted from 0.
#[tactic(auto, using(crate::proofs::Turns::centre_places))]
fn nth_centre(set: &DcSet, count: usize) -> Option<DcId>
    ensures { option_map (λ dc. dc.0) result ≡ slice_get (centres_of set.now) count }
{
    let mut left = count;
    for d in 0..CENTRES {
        if set.has(DcId(d)) {
            if left == 0 {
                return Some(DcId(d));
            }
            left -= 1;
        }
    }
    None
}

/// The hop that comes behind so many: each member's in turn, one for every replica.
pub(crate) fn due_hop(members: &[Demand], replicas: &DcSet, count: usize) -> Option<Due>
    ensures { result ≡ due_hop members.now replicas.now count }
{
    let each = replicas.count() as usize;
    let mut left = count;
    for m in members {
        if left < each {
            return match nth_centre(replicas, left) {
                Some(child) => Some(Due::Hop {
                    member: m.dc,
                    child,
                }),
                None => None,
            };
        }
        left -= each;
    }
    None
}
