//! What is wrong with a line, and which of several flaws is told.

ghost use Rattle.std.specs.Prelude.{◌≡◌};
ghost use Rattle.schedule_text.specs.Flaws.{turn_of, first_flaw, at_line, both, within, after, listed, Gives};

use crate::fault::ScheduleFault;
use span_base::{Cause, Listed, What};
use std::alloc::AllocError;

/// What is wrong with a line. The flaws of a line are tried in this order.
#[derive(Clone, Copy, Debug)]
pub(crate) enum Flaw {
    /// It is of no form that is allowed at its place.
    Syntax,
    /// A number is misspelt, or must not be 0.
    Number,
    /// This number passes its limit.
    Limit { what: What, number: u128 },
    /// A replica or a set isn't there, or a set stands twice.
    Range,
    /// A policy may not be its set's.
    Policy,
}

impl Flaw {
    /// In which turn the flaw is tried.
    fn turn(self) -> u8
        ensures { result ≡ turn_of self }
    {
        match self {
            Flaw::Syntax => 0,
            Flaw::Number => 1,
            Flaw::Limit { .. } => 2,
            Flaw::Range => 3,
            Flaw::Policy => 4,
        }
    }

    /// The flaw that is told of a part with this flaw and one to its right with another.
    fn or(self, right: Flaw) -> Flaw
        ensures { result ≡ first_flaw self right }
    {
        if right.turn() < self.turn() {
            right
        } else {
            self
        }
    }

    /// The fault of a line with this flaw.
    pub(crate) fn at(self, line: u64) -> ScheduleFault
        ensures { result ≡ at_line line self }
    {
        match self {
            Flaw::Syntax => bad(line, Cause::Syntax),
            Flaw::Number => bad(line, Cause::Number),
            Flaw::Limit { what, number } => ScheduleFault::Limit { line, what, number },
            Flaw::Range => bad(line, Cause::Range),
            Flaw::Policy => bad(line, Cause::Policy),
        }
    }
}

fn bad(line: u64, cause: Cause) -> ScheduleFault
    ensures { result ≡ ScheduleFault.Bad line cause }
{
    ScheduleFault::Bad { line, cause }
}

/// Two parts of a line, from left to right: both, or the flaw that is told.
pub(crate) fn both<A: Drop, B: Drop>(
    left: Result<A, Flaw>,
    right: Result<B, Flaw>,
) -> Result<(A, B), Flaw>
    ensures { result ≡ both left right }
{
    match (left, right) {
        (Ok(a), Ok(b)) => Ok((a, b)),
        (Ok(_), Err(flaw)) => Err(flaw),
        (Err(flaw), Ok(_)) => Err(flaw),
        (Err(left), Err(right)) => Err(left.or(right)),
    }
}

/// A part that is refused for `test` first.
pub(crate) fn after<A: Drop>(test: Result<(), Flaw>, part: Result<A, Flaw>) -> Result<A, Flaw>
    ensures { result ≡ after test part }
{
    match (test, part) {
        (Ok(()), Ok(a)) => Ok(a),
        (Ok(()), Err(flaw)) => Err(flaw),
        (Err(flaw), Ok(_)) => Err(flaw),
        (Err(left), Err(right)) => Err(left.or(right)),
    }
}

/// One part more in a list of parts.
pub(crate) fn listed<A: Drop>(
    items: Result<Listed<A>, Flaw>,
    item: Result<A, Flaw>,
) -> Result<Result<Listed<A>, Flaw>, AllocError>
    ensures { Gives (listed items item) result }
{
    match (items, item) {
        (Ok(mut items), Ok(item)) => {
            items.push(item)?;
            Ok(Ok(items))
        }
        (Ok(_), Err(flaw)) => Ok(Err(flaw)),
        (Err(flaw), Ok(_)) => Ok(Err(flaw)),
        (Err(left), Err(right)) => Ok(Err(left.or(right))),
    }
}

/// Whether there are no more than so many.
pub(crate) fn within(what: What, most: usize, number: usize) -> Result<(), Flaw>
    ensures { result ≡ within what most number }
{
    if number <= most {
        Ok(())
    } else {
        Err(Flaw::Limit {
            what,
            number: number as u128,
        })
    }
}
