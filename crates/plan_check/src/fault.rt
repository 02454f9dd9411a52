ghost use Rattle.std.specs.Prelude.{◌≡◌};
ghost use Rattle.plan_check.specs.Refusals.{refusal_of, policy_refusal, FitsBehind};

use cert_checker::CertFault;
use slo_rules::PolicyFault;
use span_base::{Cause, What};
use std::alloc::AllocError;

/// Why a plan isn't accepted. Lines are those of the file, counted from 1.
#[derive(Clone, Copy, Debug, PartialEq, Eq)]
pub enum CheckFault {
    /// There is no file of this name.
    Absent,
    /// The shelf failed.
    ReadFault,
    /// A line has more than 1,048,576 bytes, or the file, as line 0, more than 4,294,967,295.
    TooLarge { line: u64, what: What, number: u128 },
    /// The line is of no form that is allowed at its place.
    Bad { line: u64, cause: Cause },
    /// The line says what isn't so, or isn't shown.
    Refused { line: u64, cause: Cause },
    /// The sink failed.
    WriteFault,
    /// There was no memory.
    NoMemory,
}

impl From<AllocError> for CheckFault {
    ghost use Rattle.std.specs.Prelude.{◌≡◌};
    ghost use Rattle.plan_check.specs.declared.fault.CheckFault.TheVariants.{NoMemory};

    ghost from_gives = { λ _ fault. fault ≡ NoMemory };

    fn from(_: AllocError) -> CheckFault {
        CheckFault::NoMemory
    }
}

fn refused(line: u64, cause: Cause) -> CheckFault
    ensures { result ≡ CheckFault.Refused line cause }
{
    CheckFault::Refused { line, cause }
}

/// The refusal of a line of a tree, or of the result behind it. `before` lines of the file come
/// before the tree's first, and `line` is the number of the line that was judged.
pub(crate) fn refuse(fault: CertFault, before: u64, line: u64) -> CheckFault
    ensures { FitsBehind before fault → result ≡ refusal_of before line fault }
{
    match fault {
        CertFault::TooLong => refused(line, Cause::TooLong),
        CertFault::NoSuchVar => refused(line, Cause::VarUnknown),
        CertFault::VarTwice => refused(line, Cause::VarTwice),
        CertFault::RowUnknown => refused(line, Cause::RowUnknown),
        CertFault::Range => refused(line, Cause::Range),
        CertFault::NotClosed { line: leaf } => refused(
            before.saturating_add(leaf),
            Cause::OpenLeaf,
        ),
        CertFault::TooShort => refused(line, Cause::TooShort),
        CertFault::Bounded { line: leaf } => {
            refused(before.saturating_add(leaf), Cause::BoundedLeaf)
        }
    }
}

/// The refusal of a line of a policy.
pub fn refuse_policy(fault: PolicyFault, line: u64) -> CheckFault
    ensures { result ≡ policy_refusal line fault }
{
    match fault {
        PolicyFault::Bad { .. } => CheckFault::Bad {
            line,
            cause: Cause::Syntax,
        },
        PolicyFault::Kind => refused(line, Cause::Policy),
        PolicyFault::Unknown => refused(line, Cause::Policy),
        PolicyFault::Member => refused(line, Cause::Policy),
        PolicyFault::Order => refused(line, Cause::Policy),
    }
}
