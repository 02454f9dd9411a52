ghost use Rattle.std.specs.Prelude.{◌≡◌, ◌≤◌, ◌<◌, ◌^◌, [], length, IfOk, IsErrOf};
ghost use Rattle.span_base.specs.Counts.{Rose};
ghost use Rattle.placement.specs.Placement.{program_of};
ghost use Rattle.branch_solver.specs.Kept.{StandsFor};
ghost use Rattle.planner.specs.Trees.{SaysTree};

use crate::pen::Pen;
use crate::{PlanFault, Watch};
use branch_solver::{LineBuf, Progress, Search};
use placement::encode;
use span_base::{SetId, Sink};
use std::alloc::{AllocError, Global};
use workload::World;
use zero_one::Program;

/// The search of a program, with the line that it gave last.
#[derive(Drop)]
pub struct Tree {
    pub program: Program,
    pub line: LineBuf,
    pub search: Search,
}

impl Tree {
    /// A search of a program that gave no line, and is to give at most `budget`.
    pub fn of(alloc: Global, program: Program, budget: u64) -> Result<Tree, AllocError>
        requires { budget ≤ 10 ^ 9 }
        ensures program { IfOk result (λ tree. tree.program ≡ program) }
        ensures budget { IfOk result (λ tree. tree.search.budget ≡ budget) }
        ensures stands { IfOk result (λ tree. StandsFor tree.program [] tree.search) }
        ensures room { IfOk result (λ tree. length tree.program.rows ≤ tree.line.room) }
    {
        let line = LineBuf::make(alloc, &program)?;
        let search = Search::make(alloc, &program, budget)?;
        Ok(Tree {
            program,
            line,
            search,
        })
    }

    /// A search of a set's program that gave no line, and is to give at most `budget`.
    pub(crate) fn make(
        alloc: Global,
        world: &World,
        set: SetId,
        budget: u64,
    ) -> Result<Tree, AllocError>
        requires set { set.0 < length world.now.sets }
        requires budget { budget ≤ 10 ^ 9 }
        ensures program { IfOk result (λ tree. tree.program ≡ program_of world.now set.0) }
        ensures budget { IfOk result (λ tree. tree.search.budget ≡ budget) }
        ensures stands { IfOk result (λ tree. StandsFor tree.program [] tree.search) }
        ensures room { IfOk result (λ tree. length tree.program.rows ≤ tree.line.room) }
    {
        let program = encode(alloc, world, set)?;
        Tree::of(alloc, program, budget)
    }
}

/// Writes the lines of a search's tree as the search gives them, and tells how it ends.
pub fn write_tree<K: Sink, W: Watch>(
    program: &Program,
    search: &mut Search,
    line: &mut LineBuf,
    pen: &mut Pen,
    out: &mut K,
    watch: &mut W,
) -> Result<Progress, PlanFault>
    requires stands { StandsFor program.now [] search.old }
    requires room { length program.now.rows ≤ line.old.room }
    ensures tree { SaysTree program.now search.old.budget search.new (K.taken out.old) pen.old (K.taken out.new) pen.new result }

    ensures faults_stay { K.faults out.old ≤ K.faults out.new }
    ensures failed { IsErrOf result PlanFault.WriteFault → Rose (K.faults out.old) (K.faults out.new) }
{
    'tree: loop {
        match search.step(program, line) {
            Progress::Line => {
                pen.put_tree_line(out, line.line())?;
                watch.line_written();
            }
            end => return Ok(end),
        }
    }
}
