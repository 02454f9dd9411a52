ghost use Rattle.std.specs.Prelude.{◌≡◌};
ghost use Rattle.migration.specs.Strong.{strong, is_stopped};

use crate::rule::MoveRule;
use call_phase::Phase;
use span_base::{DcSet, Policy};

/// What is enough for the move of a strong key.
#[derive(Clone, Copy, Debug)]
pub struct Strong;

impl MoveRule for Strong {
    ghost rule = { strong };

    /// More than `f` of every member's read set and of every member's write set are frozen. Then
    /// no read or write of the old epoch ends any more.
    fn is_frozen(old: &Policy, phase: &Phase) -> bool {
        let f = old.faults();
        old.members().iter().all(|member| is_stopped(f, phase.good, member.read)
            && is_stopped(f, phase.good, member.write))
    }

    /// The write set of the first member.
    fn seed_set(new: &Policy) -> DcSet {
        match new.members().first() {
            Some(member) => member.write,
            None => DcSet::empty(),
        }
    }

    /// All but `f` of it have the seed.
    fn is_seeded(new: &Policy, phase: &Phase) -> bool {
        phase.has_quorum(new.faults())
    }

    /// More than `f` of it refused.
    fn is_lost(new: &Policy, phase: &Phase) -> bool {
        phase.is_lost(new.faults())
    }
}

/// Whether more than `f` of the set's replicas are frozen.
fn is_stopped(f: u8, frozen: DcSet, set: DcSet) -> bool
    ensures { result ≡ is_stopped f frozen set }
{
    frozen.meet(&set).count() > u32::from(f)
}
