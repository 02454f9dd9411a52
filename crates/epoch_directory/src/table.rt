ghost use Rattle.std.specs.Prelude.{◌≡◌, ◌≢◌, ℕ, position};
ghost use Rattle.std.specs.Option.{option_copied};
ghost use Rattle.epoch_directory.specs.Tables.{is_line_of, listed};

use span_base::{Policy, SetId};
use std::alloc::AllocError;

/// A key: the set that it belongs to.
#[derive(Clone, Copy, Debug, PartialEq, Eq)]
pub struct KeySet {
    pub set: SetId,
}

/// A line of a table: the policy of a set from the next epoch on.
#[derive(Debug, PartialEq, Eq, Drop)]
pub struct SetPolicy {
    pub set: SetId,
    pub policy: Policy,
}

impl Clone for SetPolicy {
    ghost use Rattle.std.specs.Prelude.{◌≡◌};

    ghost is_clone = { λ line copy. copy ≡ line };

    fn clone(&self) -> Result<SetPolicy, AllocError> {
        Ok(SetPolicy {
            set: self.set,
            policy: self.policy.clone()?,
        })
    }
}

/// Why a table isn't published.
#[derive(Clone, Copy, Debug, PartialEq, Eq)]
pub enum PublishFault {
    /// As many epochs are published as can be; this one would be too many.
    Limit { number: u32 },
    /// The table doesn't list this strong set.
    MissingSet { set: SetId },
    /// This strong set's policy isn't one whose quorums meet.
    NotQuorum { set: SetId },
    /// Memory ran out. Nothing else is wrong with the table.
    NoMemory(AllocError),
}

impl From<AllocError> for PublishFault {
    ghost use Rattle.std.specs.Prelude.{◌≡◌};
    ghost use Rattle.epoch_directory.specs.declared.table.PublishFault.TheVariants.{NoMemory};

    ghost from_gives = { λ error fault. fault ≡ NoMemory error };

    fn from(error: AllocError) -> PublishFault {
        PublishFault::NoMemory(error)
    }
}

/// Where the set's line stands in a table.
fn place_of(table: &[SetPolicy], set: SetId) -> Option<usize>
    ensures { result ≡ position (is_line_of set.0) table.now }
{
    table.iter().position(|line| line.set.0 == set.0)
}

/// The policy that a table lists for the set.
#[tactic(auto, using(crate::proofs::Lines::listed_none, crate::proofs::Lines::listed_some))]
pub(crate) fn listed(table: &[SetPolicy], set: SetId) -> Option<&Policy>
    ensures { option_copied result ≡ listed table.now set.0 }
{
    let place = place_of(table, set)?;
    Some(&table[place].policy)
}

/// Takes the set's line out of a table, where there is one, and gives its policy.
#[tactic(auto, using(crate::proofs::Lines::listed_none, crate::proofs::Lines::listed_some, crate::proofs::Lines::listed_rest))]
pub(crate) fn take_listed(table: &mut Vec<SetPolicy>, set: SetId) -> Option<Policy>
    ensures policy { result ≡ listed table.old.items set.0 }
    ensures rest { (other : ℕ) → other ≢ set.0 → listed table.new.items other ≡ listed table.old.items other }
{
    let place = place_of(table.as_slice(), set)?;
    let SetPolicy { set: _, policy } = table.remove(place);
    Some(policy)
}
