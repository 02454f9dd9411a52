ghost use Rattle.migration.specs.Eventual.{eventual};

use crate::rule::MoveRule;
use call_phase::Phase;
use span_base::{DcSet, Policy};

/// What is enough for the move of an eventual key.
#[derive(Clone, Copy, Debug)]
pub struct Eventual;

impl MoveRule for Eventual {
    ghost rule = { eventual };

    /// Every replica is frozen, since each may have the greatest version alone.
    fn is_frozen(_old: &Policy, phase: &Phase) -> bool {
        phase.good.bits() == phase.asked.bits()
    }

    /// Every replica.
    fn seed_set(new: &Policy) -> DcSet {
        new.replicas()
    }

    /// `f + 1` replicas have the seed, so that one keeps it though `f` stop.
    fn is_seeded(new: &Policy, phase: &Phase) -> bool {
        u32::from(new.faults()) + 1 <= phase.good.count()
    }

    /// One replica refused.
    fn is_lost(_new: &Policy, phase: &Phase) -> bool {
        phase.is_lost(0)
    }
}
