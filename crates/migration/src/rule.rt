ghost use Rattle.std.specs.Prelude.{◌≡◌};
ghost use Rattle.migration.specs.Rule.{Rule};

use call_phase::Phase;
use span_base::{DcSet, Policy};

/// What the moves of strong and of eventual keys do differently.
pub trait MoveRule {
    ghost rule: { Rule };

    /// Whether the replicas of the old policy that are frozen are enough, so that the greatest of
    /// their versions is that of the epoch.
    fn is_frozen(old: &Policy, phase: &Phase) -> bool
        ensures { result ≡ rule.is_frozen old.now phase.now };

    /// The replicas of the new policy that the seed goes to.
    fn seed_set(new: &Policy) -> DcSet
        ensures { result ≡ rule.seed_set new.now };

    /// Whether enough of them have the seed.
    fn is_seeded(new: &Policy, phase: &Phase) -> bool
        ensures { result ≡ rule.is_seeded new.now phase.now };

    /// Whether so many of them refused the seed that the move is lost.
    fn is_lost(new: &Policy, phase: &Phase) -> bool
        ensures { result ≡ rule.is_lost new.now phase.now };
}
