ghost use Rattle.std.specs.Prelude.{◌≡◌, ◌<◌, ◌↔◌, pos, ◌<ℤ◌, ℤ, IsTrue};
ghost use Rattle.cert_checker.specs.Ceilings.{IsCeiling, ceilings_with};
ghost use Rattle.cert_checker.specs.Moves.{HasLeaf, IsVerdict};

use crate::faults::CertFault;
use bound_cert::Goal;

/// What the leaves with `s > 0` showed: each bounds the cost by a ceiling from below.
#[derive(Clone, Copy, Debug, PartialEq, Eq)]
pub struct Ceilings {
    /// The line of the first such leaf.
    pub first: u64,
    /// The least ceiling.
    pub least: i128,
    /// The first line that has it.
    pub line: u64,
}

/// The least integer that reaches the value when it is taken `s` times.
fn ceiling(value: i128, s: u32) -> i128
    requires { 0 < s }
    ensures { IsCeiling value s result }
{
    let s = i128::from(s);
    let quotient = value / s;
    let is_short = value % s > 0;
    if is_short { quotient + 1 } else { quotient }
}

/// The ceilings with that of a later line. Of equal ones the first stands.
fn with_ceiling(before: Option<Ceilings>, line: u64, ceiling: i128) -> Ceilings
    ensures { result ≡ ceilings_with before line ceiling }
{
    match before {
        None => Ceilings {
            first: line,
            least: ceiling,
            line,
        },
        Some(before) => {
            if ceiling < before.least {
                Ceilings {
                    first: before.first,
                    least: ceiling,
                    line,
                }
            } else {
                before
            }
        }
    }
}

/// The ceilings with that of a later leaf, if it has one.
pub(crate) fn with_leaf(
    before: Option<Ceilings>,
    line: u64,
    value: i128,
    s: u32,
) -> Option<Ceilings>
    ensures { HasLeaf before line value s result }
{
    if s == 0 {
        return before;
    }
    Some(with_ceiling(before, line, ceiling(value, s)))
}

/// Whether leaves with these ceilings show the goal.
pub(crate) fn compare(ceilings: Ceilings, goal: Goal) -> Result<(), CertFault>
    ensures { IsVerdict ceilings goal result }
{
    match goal {
        Goal::Nothing => Err(CertFault::Bounded {
            line: ceilings.first,
        }),
        Goal::Cost(cost) => {
            if is_below(ceilings.least, cost) {
                Err(CertFault::NotClosed {
                    line: ceilings.line,
                })
            } else {
                Ok(())
            }
        }
    }
}

/// Whether the ceiling is below the cost.
fn is_below(least: i128, cost: u128) -> bool
    ensures { IsTrue result ↔ (least <ℤ pos cost) }
{
    least < 0 || (least as u128) < cost
}
