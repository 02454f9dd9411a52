ghost use Rattle.std.specs.Prelude.{◌≡◌, ◌≤◌, ◌<◌, ◌++◌, ℕ, List, [], Option, length, IfErr, IsErrOf, OnOk, string_bytes};
ghost use Rattle.span_base.specs.Counts.{Rose};
ghost use Rattle.span_base.specs.Files.{Files};
ghost use Rattle.zero_one.specs.Program.{IsWithinLimits};
ghost use Rattle.joint_placement.specs.Programs.{joint_program};
ghost use Rattle.plan_check.specs.Reading.{HasRead};
ghost use Rattle.plan_check.specs.Plans.{HandsOver, IsWanting};
ghost use Rattle.joint_plan.specs.Stops.{ReadsPlan};
ghost use Rattle.joint_plan.specs.Checks.{opening_of, ReadsBody, ReadsText, told_text, ChecksJoint, IsSinkFault, IsShelfFault, IsAbsence};

use crate::fault::JointCheckFault;
use crate::fleet::read_fleet;
use crate::frame::{read_begin, read_joint, read_last};
use crate::judge::judge;
use crate::sets::read_sets;
use joint_placement::{JointPlan, encode_joint};
use machine_text::Machines;
use plan_check::{CheckFault, Claim, PlanLines, hand_over, read_tree, say};
use sink_buffer::SinkBuffer;
use span_base::{Shelf, Sink};
use std::alloc::{AllocError, Global};
use workload::World;
use zero_one::Program;

/// Reads the policies and machines of a plan that is claimed to be least at a cost, and judges it.
fn read_plan<S: Shelf>(
    alloc: Global,
    world: &World,
    machines: &Machines,
    claim: Claim,
    lines: &mut PlanLines,
    shelf: &mut S,
    name: &str,
) -> Result<(), CheckFault>
    requires { IsWithinLimits (joint_program world.now machines.now) }
    ensures reads { (files : Option Files) → S.files shelf.old ≡ files → (front : List ℕ) → HasRead files name.now front lines.old
        → ReadsPlan world.now machines.now files name.now front claim.cost claim.line lines.new result }
    ensures files_stay { S.files shelf.new ≡ S.files shelf.old }

    ensures faults_stay { S.faults shelf.old ≤ S.faults shelf.new }
    ensures absences_stay { S.absences shelf.old ≤ S.absences shelf.new }
    ensures failed { IsErrOf result CheckFault.ReadFault → Rose (S.faults shelf.old) (S.faults shelf.new) }
    ensures absent { IsErrOf result CheckFault.Absent → Rose (S.absences shelf.old) (S.absences shelf.new) }
    ensures unwritten { ¬ IsErrOf result CheckFault.WriteFault }
{
    let policies = read_sets(alloc, world, lines, shelf, name)?;
    let numbers = read_fleet(alloc, world, lines, shelf, name)?;
    let plan = JointPlan::make(policies, numbers);
    judge(world, machines, &plan, claim)
}

/// Reads the tree, the result behind it, and the plan: the cost that it tells to be least, or none
/// where it tells that no plan meets capacity.
fn read_body<S: Shelf>(
    alloc: Global,
    world: &World,
    machines: &Machines,
    program: &Program,
    lines: &mut PlanLines,
    shelf: &mut S,
    name: &str,
) -> Result<Option<u128>, CheckFault>
    requires program { program.now ≡ joint_program world.now machines.now }
    requires limits { IsWithinLimits (joint_program world.now machines.now) }
    ensures reads { (files : Option Files) → S.files shelf.old ≡ files → HasRead files name.now (opening_of world.now machines.now) lines.old
        → ReadsBody world.now machines.now files name.now lines.new result }
    ensures files_stay { S.files shelf.new ≡ S.files shelf.old }

    ensures faults_stay { S.faults shelf.old ≤ S.faults shelf.new }
    ensures absences_stay { S.absences shelf.old ≤ S.absences shelf.new }
    ensures failed { IsErrOf result CheckFault.ReadFault → Rose (S.faults shelf.old) (S.faults shelf.new) }
    ensures absent { IsErrOf result CheckFault.Absent → Rose (S.absences shelf.old) (S.absences shelf.new) }
    ensures unwritten { ¬ IsErrOf result CheckFault.WriteFault }
{
    let found = read_tree(alloc, program, lines, shelf, name)?;
    match found {
        Some(claim) => {
            read_plan(alloc, world, machines, claim, lines, shelf, name)?;
            Ok(Some(claim.cost))
        }
        None => Ok(None),
    }
}

/// Reads the whole text of a joint plan whose program this is.
fn read_text<S: Shelf>(
    alloc: Global,
    world: &World,
    machines: &Machines,
    program: &Program,
    shelf: &mut S,
    name: &str,
) -> Result<Option<u128>, CheckFault>
    requires program { program.now ≡ joint_program world.now machines.now }
    requires limits { IsWithinLimits (joint_program world.now machines.now) }
    ensures reads { ReadsText world.now machines.now (S.files shelf.old) name.now result }
    ensures files_stay { S.files shelf.new ≡ S.files shelf.old }

    ensures faults_stay { S.faults shelf.old ≤ S.faults shelf.new }
    ensures absences_stay { S.absences shelf.old ≤ S.absences shelf.new }
    ensures failed { IsErrOf result CheckFault.ReadFault → Rose (S.faults shelf.old) (S.faults shelf.new) }
    ensures absent { IsErrOf result CheckFault.Absent → Rose (S.absences shelf.old) (S.absences shelf.new) }
    ensures unwritten { ¬ IsErrOf result CheckFault.WriteFault }
{
    let _centres = world.centre_count();
    let mut lines = PlanLines::make(alloc)?;
    read_begin(&mut lines, shelf, name)?;
    read_joint(alloc, program.costs().len(), &mut lines, shelf, name)?;
    let told = read_body(alloc, world, machines, program, &mut lines, shelf, name)?;
    read_last(&mut lines, shelf, name)?;
    Ok(told)
}

/// Adds what is told of an accepted joint plan: its cost, or that there is none.
fn push_told(text: &mut String, told: Option<u128>) -> Result<(), AllocError>
    ensures { OnOk result (string_bytes text.new ≡ string_bytes text.old ++ told_text told) }
{
    match told {
        Some(cost) => write!(text, "joint least {cost}\njoint ok\n"),
        None => write!(text, "joint none\njoint ok\n"),
    }
}

/// Tells of an accepted joint plan.
fn tell<K: Sink>(alloc: Global, told: Option<u128>, out: &mut K) -> Result<(), CheckFault>
    ensures hands { HandsOver (K.taken out.old) (K.taken out.new) (told_text told) result }

    ensures faults_stay { K.faults out.old ≤ K.faults out.new }
    ensures failed { IsErrOf result CheckFault.WriteFault → Rose (K.faults out.old) (K.faults out.new) }
{
    let mut text = String::new(alloc);
    push_told(&mut text, told)?;
    let mut buffer = SinkBuffer::make(alloc)?;
    say(&mut buffer, out, text.as_bytes())?;
    hand_over(&mut buffer, out)
}

/// Checks the file of this name, line by line, as a joint plan of a world and its machines. It writes
/// `joint least COST` or `joint none`, and then `joint ok`, of an accepted one. A limit of the joint
/// program is told before the file is looked at; then the first thing that is met decides.
pub fn check_joint<S: Shelf, K: Sink>(
    alloc: Global,
    world: &World,
    machines: &Machines,
    shelf: &mut S,
    name: &str,
    out: &mut K,
) -> Result<(), JointCheckFault>
    ensures checks { ChecksJoint world.now machines.now (S.files shelf.old) name.now (K.taken out.old) (K.taken out.new) result }
    ensures files_stay { S.files shelf.new ≡ S.files shelf.old }
    ensures faults_stay { S.faults shelf.old ≤ S.faults shelf.new }
    ensures absences_stay { S.absences shelf.old ≤ S.absences shelf.new }
    ensures write_faults_stay { K.faults out.old ≤ K.faults out.new }
    ensures read_fault { IfErr result (λ fault. IsShelfFault fault → Rose (S.faults shelf.old) (S.faults shelf.new)) }
    ensures absent { IfErr result (λ fault. IsAbsence fault → Rose (S.absences shelf.old) (S.absences shelf.new)) }
    ensures write_fault { IfErr result (λ fault. IsSinkFault fault → Rose (K.faults out.old) (K.faults out.new)) }
{
    let program = encode_joint(alloc, world, machines)?;
    let _variables = program.costs();
    let told = read_text(alloc, world, machines, &program, shelf, name)?;
    tell(alloc, told, out)?;
    Ok(())
}
