//! The forms of the lines among the policies and the machines of a joint plan.
ghost use Rattle.std.specs.Prelude.{◌≡◌, ◌↔◌, ◌≤◌, ◌<◌, ◌^◌, ◌++◌, ℕ, List, [], Option, IsTrue, length, codes, IfOk, IsErrOf};
ghost use Rattle.span_base.specs.Counts.{Rose};
ghost use Rattle.span_base.specs.Files.{Files};
ghost use Rattle.plan_check.specs.Reading.{HasRead};
ghost use Rattle.span_base.specs.Name.{IsName};
ghost use Rattle.span_base.specs.Number.{IsNumber};
ghost use Rattle.plan_check.specs.Words.{IsPairOf};
ghost use Rattle.joint_plan.specs.Lines.{IsNamedForm, IsMachinesForm, IsNamedOrMachines, IsPolicyForm, RefusesPlanLine, RefusesPolicyLine};

use memchr::memchr;
use plan_check::{CheckFault, behind, is_name, is_number};
use slo_rules::{PolicyFault, PolicyReader};
use span_base::{Cause, SetId};
use std::alloc::{AllocError, Global};
use workload::World;

/// Whether a text is a name and, behind a space, a number.
fn is_name_and_number(text: &[u8]) -> bool
    ensures { IsTrue result ↔ IsPairOf IsName IsNumber text.now }
{
    match memchr(b' ', text) {
        Some(at) => is_name(&text[..at]) && is_number(&text[at + 1..]),
        None => false,
    }
}

/// Whether a line names a set.
fn is_named(line: &[u8]) -> bool
    ensures { IsTrue result ↔ IsNamedForm line.now }
{
    match behind(line, b"set ") {
        Some(rest) => is_name(rest),
        None => false,
    }
}

/// Whether a line tells the machines of a centre.
fn is_machines(line: &[u8]) -> bool
    ensures { IsTrue result ↔ IsMachinesForm line.now }
{
    match behind(line, b"machines ") {
        Some(rest) => is_name_and_number(rest),
        None => false,
    }
}

fn is_named_or_machines(line: &[u8]) -> bool
    ensures { IsTrue result ↔ IsNamedOrMachines line.now }
{
    if is_named(line) {
        return true;
    }
    is_machines(line)
}

/// Whether a line is of the form of a policy's.
fn is_policy(alloc: Global, world: &World, line: &[u8]) -> Result<bool, AllocError>
    ensures { IfOk result (λ is. IsTrue is ↔ IsPolicyForm world.now line.now) }
{
    if world.sets() == 0 {
        return Ok(false);
    }
    let mut reader = PolicyReader::make(alloc, SetId(0))?;
    match reader.take(world, line) {
        Err(PolicyFault::Bad { .. }) => Ok(false),
        _ => Ok(true),
    }
}

fn refused(number: u64, is_out_of_place: bool) -> CheckFault
    ensures place { IsTrue is_out_of_place → result ≡ CheckFault.Refused number Cause.Policy }
    ensures form { ¬ IsTrue is_out_of_place → result ≡ CheckFault.Bad number Cause.Syntax }
{
    if is_out_of_place {
        return CheckFault::Refused {
            line: number,
            cause: Cause::Policy,
        };
    }
    CheckFault::Bad {
        line: number,
        cause: Cause::Syntax,
    }
}

/// The refusal of a line, which is the file's line `number`, where a set's name or a centre's
/// machines are due.
pub(crate) fn refuse_line(
    alloc: Global,
    world: &World,
    line: &[u8],
    number: u64,
) -> Result<CheckFault, AllocError>
    ensures { IfOk result (RefusesPlanLine world.now number line.now) }
{
    if is_named_or_machines(line) {
        return Ok(refused(number, true));
    }
    let is_policy = is_policy(alloc, world, line)?;
    Ok(refused(number, is_policy))
}

/// The refusal of a line, which is the file's line `number`, where a line of a policy is due.
pub(crate) fn refuse_policy_line(fault: PolicyFault, line: &[u8], number: u64) -> CheckFault
    ensures { RefusesPolicyLine fault number line.now result }
{
    match fault {
        PolicyFault::Bad { .. } => refused(number, is_named_or_machines(line)),
        PolicyFault::Kind => refused(number, true),
        PolicyFault::Unknown => refused(number, true),
        PolicyFault::Member => refused(number, true),
        PolicyFault::Order => refused(number, true),
    }
}
