//! The numbers of machines in a joint plan's file.
ghost use Rattle.std.specs.Prelude.{◌≡◌, ◌↔◌, ◌≤◌, ◌<◌, ◌^◌, ◌++◌, ℕ, List, [], ◌∷◌, Option, OnOk, IsTrue, MatchOption, MatchResult, length, codes, IfOk, IsErrOf, Result, Ok, Err};
ghost use Rattle.span_base.specs.Counts.{Rose};
ghost use Rattle.span_base.specs.Files.{Files};
ghost use Rattle.plan_check.specs.Reading.{HasRead};
ghost use Rattle.workload.specs.World.{centre_count};
ghost use Rattle.joint_plan.specs.Stops.{SaysMachines, ReadsMachines, HasFleet, StopsInFleet};

use crate::forms::refuse_line;
use crate::text::push_machines_words;
use plan_check::{CheckFault, PlanLines, behind, number_in};
use span_base::{DcId, Shelf};
use std::alloc::{AllocError, Global};
use workload::World;

/// The number of machines that a line tells of a centre.
fn told_number(
    alloc: Global,
    world: &World,
    dc: DcId,
    line: &[u8],
) -> Result<Option<u128>, AllocError>
    requires { dc.0 < centre_count world.now }
    ensures { IfOk result (SaysMachines world.now dc.0 line.now) }
{
    let mut words = String::new(alloc);
    push_machines_words(&mut words, world, dc)?;
    match behind(line, words.as_bytes()) {
        Some(digits) => Ok(number_in(digits)),
        None => Ok(None),
    }
}

/// Reads the line of a centre's machines.
fn read_machines<S: Shelf>(
    alloc: Global,
    world: &World,
    dc: DcId,
    lines: &mut PlanLines,
    shelf: &mut S,
    name: &str,
) -> Result<u128, CheckFault>
    requires { dc.0 < centre_count world.now }
    ensures reads { (files : Option Files) → S.files shelf.old ≡ files → (front : List ℕ) → HasRead files name.now front lines.old
        → ReadsMachines world.now dc.0 files name.now front lines.new result }
    ensures files_stay { S.files shelf.new ≡ S.files shelf.old }

    ensures faults_stay { S.faults shelf.old ≤ S.faults shelf.new }
    ensures absences_stay { S.absences shelf.old ≤ S.absences shelf.new }
    ensures failed { IsErrOf result CheckFault.ReadFault → Rose (S.faults shelf.old) (S.faults shelf.new) }
    ensures absent { IsErrOf result CheckFault.Absent → Rose (S.absences shelf.old) (S.absences shelf.new) }
    ensures unwritten { ¬ IsErrOf result CheckFault.WriteFault }
{
    lines.next(shelf, name)?;
    let told = told_number(alloc, world, dc, lines.line())?;
    match told {
        Some(number) => Ok(number),
        None => {
            let fault = refuse_line(alloc, world, lines.line(), lines.number)?;
            Err(fault)
        }
    }
}

/// Keeps a number behind those before it.
fn keep(numbers: &mut Vec<u128>, number: u128) -> Result<(), AllocError>
    ensures { OnOk result (numbers.new.items ≡ numbers.old.items ++ number ∷ []) }
{
    numbers.push(number)?;
    Ok(())
}

/// Reads the lines of all centres' machines.
pub(crate) fn read_fleet<S: Shelf>(
    alloc: Global,
    world: &World,
    lines: &mut PlanLines,
    shelf: &mut S,
    name: &str,
) -> Result<Vec<u128>, CheckFault>
    ensures reads { (files : Option Files) → S.files shelf.old ≡ files → (front : List ℕ) → HasRead files name.now front lines.old
        → MatchResult result (λ numbers. HasFleet world.now files name.now front lines.new numbers.items) (StopsInFleet world.now files name.now front) }
    ensures many { IfOk result (λ numbers. length numbers.items ≡ centre_count world.now) }
    ensures files_stay { S.files shelf.new ≡ S.files shelf.old }

    ensures faults_stay { S.faults shelf.old ≤ S.faults shelf.new }
    ensures absences_stay { S.absences shelf.old ≤ S.absences shelf.new }
    ensures failed { IsErrOf result CheckFault.ReadFault → Rose (S.faults shelf.old) (S.faults shelf.new) }
    ensures absent { IsErrOf result CheckFault.Absent → Rose (S.absences shelf.old) (S.absences shelf.new) }
    ensures unwritten { ¬ IsErrOf result CheckFault.WriteFault }
{
    let mut numbers = Vec::with_capacity(alloc, usize::from(world.centre_count()))?;
    for d in 0..world.centre_count() {
        let number = read_machines(alloc, world, DcId(d), lines, shelf, name)?;
        keep(&mut numbers, number)?;
    }
    Ok(numbers)
}
