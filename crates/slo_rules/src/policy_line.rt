//! One line of a policy, by its form. What its names stand for is looked up on the way, so that
//! nothing of the line is kept.
ghost use Rattle.std.specs.Prelude.{◌≡◌, ◌≤◌, length, IfErr};
ghost use Rattle.slo_rules.specs.PolicyLines.{form_of, line_says};

use crate::line_reader::LineReader;
use span_base::{DcId, DcSet};
use workload::World;

/// Why a line of a policy is refused.
#[derive(Clone, Copy, Debug, PartialEq, Eq)]
pub enum PolicyFault {
    /// The line is of no form: it can't go on at the byte `at`, counted from 0, at its length
    /// where it ends too early.
    Bad { at: usize },
    /// It is of another form than the one that is due.
    Kind,
    /// It names a centre that the world lacks.
    Unknown,
    /// It is another member's than the one whose turn it is.
    Member,
    /// A list of centres, or of a member's hops, isn't in world order.
    Order,
}

/// What a line of a policy says. A name that no centre has is none, and a list tells its first
/// fault.
#[derive(Clone, Copy, Debug)]
pub(crate) enum PolicyLine {
    Replicas(Result<DcSet, PolicyFault>),
    Primary {
        member: Option<DcId>,
        at: Option<DcId>,
    },
    Parent {
        member: Option<DcId>,
        child: Option<DcId>,
        parent: Option<DcId>,
    },
    Quorum {
        member: Option<DcId>,
        read: Result<DcSet, PolicyFault>,
        write: Result<DcSet, PolicyFault>,
    },
}

/// What a whole line says, or how many bytes are left where it can't go on.
fn read_line(world: &World, line: &[u8]) -> Result<PolicyLine, usize>
    ensures says { result ≡ form_of world.now line.now }
    ensures left { IfErr result (λ left. left ≤ length line.now) }
{
    let mut reader = LineReader { rest: line };
    let said = reader.form(world)?;
    if reader.rest.is_empty() {
        Ok(said)
    } else {
        Err(reader.rest.len())
    }
}

/// What a line says, without its line feed.
#[tactic(auto, unfolding(crate::specs::PolicyLines::line_says))]
pub(crate) fn read_policy_line(world: &World, line: &[u8]) -> Result<PolicyLine, PolicyFault>
    ensures { result ≡ line_says world.now line.now }
{
    match read_line(world, line) {
        Ok(said) => Ok(said),
        Err(left) => Err(PolicyFault::Bad {
            at: line.len() - left,
        }),
    }
}
