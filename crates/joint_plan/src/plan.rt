ghost use Rattle.std.specs.Prelude.{◌≡◌, ◌≤◌, ◌^◌, ℕ, List, Option, [], length, IsErrOf};
ghost use Rattle.span_base.specs.Counts.{Rose};
ghost use Rattle.sink_buffer.specs.Said.{IsSaid};
ghost use Rattle.branch_solver.specs.Kept.{StandsFor};
ghost use Rattle.joint_placement.specs.Programs.{joint_program};
ghost use Rattle.planner.specs.Writes.{Tells};
ghost use Rattle.joint_plan.specs.JointText.{opening_text, begun_text};
ghost use Rattle.joint_plan.specs.Writes.{IsSearched, SaysJoint, TextWrites, JointWrites};

use crate::JointFault;
use crate::ending::push_ending;
use crate::text::push_opening;
use branch_solver::{Progress, Search};
use joint_placement::encode_joint;
use machine_text::Machines;
use plan_text::push_end;
use planner::{Pen, PlanFault, SetEnd, Tree, Watch, write_tree};
use span_base::Sink;
use std::alloc::Global;
use workload::World;
use zero_one::Program;

/// Writes the first lines, of a program of so many variables.
fn write_opening<K: Sink>(
    alloc: Global,
    variables: usize,
    pen: &mut Pen,
    out: &mut K,
) -> Result<(), PlanFault>
    ensures tells { (from : Option (List ℕ)) → IsSaid from (K.taken out.old) pen.old []
        → Tells from (K.taken out.new) pen.new (opening_text variables) result }

    ensures faults_stay { K.faults out.old ≤ K.faults out.new }
    ensures failed { IsErrOf result PlanFault.WriteFault → Rose (K.faults out.old) (K.faults out.new) }
{
    let mut text = String::new(alloc);
    push_opening(&mut text, variables)?;
    pen.put_text(out, &text)
}

/// Writes how a search ended, within a budget of lines, and the last line.
fn write_ending<K: Sink>(
    alloc: Global,
    world: &World,
    machines: &Machines,
    budget: u64,
    search: &Search,
    end: Progress,
    pen: &mut Pen,
    out: &mut K,
) -> Result<SetEnd, PlanFault>
    requires searched { IsSearched (joint_program world.now machines.now) budget search.now end }
    ensures says { (searched : IsSearched (joint_program world.now machines.now) budget search.now end) (from : Option (List ℕ))
        → IsSaid from (K.taken out.old) pen.old (begun_text world.now machines.now searched.lines)
        → SaysJoint world.now machines.now budget from (K.taken out.new) pen.new result }

    ensures faults_stay { K.faults out.old ≤ K.faults out.new }
    ensures failed { IsErrOf result PlanFault.WriteFault → Rose (K.faults out.old) (K.faults out.new) }
{
    // A world is complete and named: what is shown of the joint program is true of its plans.
    let _centres = world.centre_count();
    let mut text = String::new(alloc);
    let told = push_ending(&mut text, alloc, world, machines, budget, search, end)?;
    push_end(&mut text)?;
    pen.put_text(out, &text)?;
    Ok(told)
}

/// Writes the joint plan whose search gave no line yet.
//
// The search is lent here: its owner drops it on each way out, and has the fewer of these.
fn write_searched<K: Sink, W: Watch>(
    alloc: Global,
    world: &World,
    machines: &Machines,
    budget: u64,
    tree: &mut Tree,
    pen: &mut Pen,
    out: &mut K,
    watch: &mut W,
) -> Result<SetEnd, PlanFault>
    requires program { tree.old.program ≡ joint_program world.now machines.now }
    requires budget { tree.old.search.budget ≡ budget }
    requires stands { StandsFor tree.old.program [] tree.old.search }
    requires room { length tree.old.program.rows ≤ tree.old.line.room }
    ensures says { (from : Option (List ℕ)) → IsSaid from (K.taken out.old) pen.old []
        → SaysJoint world.now machines.now budget from (K.taken out.new) pen.new result }

    ensures faults_stay { K.faults out.old ≤ K.faults out.new }
    ensures failed { IsErrOf result PlanFault.WriteFault → Rose (K.faults out.old) (K.faults out.new) }
{
    let _centres = world.centre_count();
    write_opening(alloc, tree.program.costs().len(), pen, out)?;
    let end = write_tree(
        &tree.program,
        &mut tree.search,
        &mut tree.line,
        pen,
        out,
        watch,
    )?;
    write_ending(alloc, world, machines, budget, &tree.search, end, pen, out)
}

/// Writes the joint plan of a search that gave no line yet, up to its last byte.
fn write_whole<K: Sink, W: Watch>(
    alloc: Global,
    world: &World,
    machines: &Machines,
    budget: u64,
    tree: &mut Tree,
    out: &mut K,
    watch: &mut W,
) -> Result<SetEnd, PlanFault>
    requires program { tree.old.program ≡ joint_program world.now machines.now }
    requires budget { tree.old.search.budget ≡ budget }
    requires stands { StandsFor tree.old.program [] tree.old.search }
    requires room { length tree.old.program.rows ≤ tree.old.line.room }
    ensures writes { TextWrites world.now machines.now budget (K.taken out.old) (K.taken out.new) result }

    ensures faults_stay { K.faults out.old ≤ K.faults out.new }
    ensures failed { IsErrOf result PlanFault.WriteFault → Rose (K.faults out.old) (K.faults out.new) }
{
    let mut pen = Pen::make(alloc)?;
    let end = write_searched(alloc, world, machines, budget, tree, &mut pen, out, watch)?;
    pen.flush(out)?;
    Ok(end)
}

/// Writes the joint plan whose program this is, up to its last byte.
fn write_program<K: Sink, W: Watch>(
    alloc: Global,
    world: &World,
    machines: &Machines,
    program: Program,
    budget: u64,
    out: &mut K,
    watch: &mut W,
) -> Result<SetEnd, PlanFault>
    requires program { program ≡ joint_program world.now machines.now }
    requires budget { budget ≤ 10 ^ 9 }
    ensures writes { TextWrites world.now machines.now budget (K.taken out.old) (K.taken out.new) result }

    ensures faults_stay { K.faults out.old ≤ K.faults out.new }
    ensures failed { IsErrOf result PlanFault.WriteFault → Rose (K.faults out.old) (K.faults out.new) }
{
    let mut tree = Tree::of(alloc, program, budget)?;
    write_whole(alloc, world, machines, budget, &mut tree, out, watch)
}

/// Plans all sets of a world together with the machines of its centres, and writes the joint plan,
/// with at most `budget` lines of its tree. Where no joint plan meets capacity it ends as a set
/// without a policy.
pub fn plan_joint<K: Sink, W: Watch>(
    alloc: Global,
    world: &World,
    machines: &Machines,
    budget: u64,
    out: &mut K,
    watch: &mut W,
) -> Result<SetEnd, JointFault>
    requires { budget ≤ 10 ^ 9 }
    ensures writes { JointWrites world.now machines.now budget (K.taken out.old) (K.taken out.new) result }

    ensures faults_stay { K.faults out.old ≤ K.faults out.new }
    ensures failed { IsErrOf result JointFault.WriteFault → Rose (K.faults out.old) (K.faults out.new) }
{
    let program = encode_joint(alloc, world, machines)?;
    let _variables = program.costs();
    let end = write_program(alloc, world, machines, program, budget, out, watch)?;
    Ok(end)
}
