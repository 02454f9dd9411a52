ghost use Rattle.std.specs.Prelude.{◌≡◌, ◌≢◌, ℕ, ◌<◌, ◌↔◌, IsTrue, map};
ghost use Rattle.std.specs.List.{All, AllPairs};
ghost use Rattle.span_base.specs.Policy.{AreMembers};

use crate::dc_set::{CENTRES, DcSet};
use crate::ids::DcId;

/// The greatest number of members of a policy.
pub const MEMBERS: usize = 8;

/// A part of a policy that speaks of one member centre.
pub(crate) trait Member {
    ghost centre: { Self → ℕ };

    fn centre(&self) -> DcId
        ensures { result.0 ≡ centre self.now };
}

pub(crate) fn are_members<M: Member>(members: &[M]) -> bool
    ensures { IsTrue result ↔ AreMembers (map M.centre members.now) }
{
    !members.is_empty() && members.len() <= MEMBERS && are_distinct(members)
}

fn are_distinct<M: Member>(members: &[M]) -> bool
    ensures { IsTrue result ↔ (AllPairs (λ c d. c ≢ d) (map M.centre members.now) × All (λ c. c < CENTRES) (map M.centre members.now)) }
{
    let mut seen = DcSet::empty();
    for member in members {
        let centre = member.centre();
        if centre.0 >= CENTRES || seen.has(centre) {
            return false;
        }
        seen = seen.with(centre);
    }
    true
}
