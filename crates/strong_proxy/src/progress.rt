ghost use Rattle.std.specs.Prelude.{◌≡◌};
ghost use Rattle.strong_proxy.specs.Rule.{leg_under};

use call_phase::Phase;
use span_base::{DcId, DcSet, KeyId, Quorum};
use ticket_rules::Stamp;
use wire_msg::View;

/// A try of a call in one epoch, by what the proxy's view told when it began.
#[derive(Clone, Copy, Debug, PartialEq, Eq)]
pub struct Leg {
    /// From 1 on.
    pub epoch: u32,
    /// How many replicas may stop.
    pub f: u8,
    /// Whom a read asks: all but `f` of them answer for the whole set.
    pub reads: DcSet,
    /// Where a write asks for its ticket and stores, and a read repairs: at all but `f` of them.
    pub writes: DcSet,
    /// A write's ticket, drawn for this leg; stamp zero in a read.
    pub ticket: Stamp,
}

impl Leg {
    /// The leg that the member begins under the view.
    pub(crate) fn under(view: &View, member: Quorum, ticket: Stamp) -> Leg
        ensures { result ≡ leg_under view.now member ticket }
    {
        Leg {
            epoch: view.epoch,
            f: view.policy.faults(),
            reads: member.read,
            writes: member.write,
            ticket,
        }
    }
}

/// Which answers a call waits for.
#[derive(Clone, Copy, Debug, PartialEq, Eq)]
pub enum Stage {
    /// Those of a leg's first phase: a read reads, a write asks for its ticket.
    First,
    /// Those of a leg's second phase: a read repairs, a write stores.
    Second,
    /// The directory's.
    Looking,
    /// None any more.
    Ended,
}

/// How far a call is: all that it keeps but values.
#[derive(Clone, Copy, Debug, PartialEq, Eq)]
pub struct Progress {
    /// The key that the call reads or writes.
    pub key: KeyId,
    /// The centre in which the proxy stands.
    pub at: DcId,
    pub leg: Leg,
    pub stage: Stage,
    /// The present phase: its number is that of the call's last requests.
    pub phase: Phase,
    /// How often the call looked its key up to go over to a later epoch: at most 4 times.
    pub lookups: u8,
    /// The greatest mark of the leg's first phase.
    pub top_mark: Stamp,
    /// Whether a Gone counted in the present phase.
    pub had_gone: bool,
    /// The greatest epoch of the Gone that counted in the whole call, 0 before the first one.
    pub top_gone: u32,
    /// The greatest stamp of the Held that counted in the leg's first phase.
    pub top_held: Stamp,
}
