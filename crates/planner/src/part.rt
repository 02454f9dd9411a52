ghost use Rattle.std.specs.Prelude.{◌≡◌, ◌≤◌, ◌<◌, ◌^◌, ◌++◌, [], Some, true, ℕ, List, Option, length, IfOk, IfSome, IsSome, IsErrOf, option_map};
ghost use Rattle.span_base.specs.Counts.{Rose};
ghost use Rattle.sink_buffer.specs.Said.{IsSaid};
ghost use Rattle.slo_rules.specs.PolicyText.{NamesCentres};
ghost use Rattle.slo_rules.specs.Rules.{fits_set};
ghost use Rattle.placement.specs.Placement.{program_of, decoded};
ghost use Rattle.branch_solver.specs.Best.{Best, IsBest};
ghost use Rattle.branch_solver.specs.Kept.{StandsFor};
ghost use Rattle.plan_text.specs.Parts.{cut_off, complete};
ghost use Rattle.plan_text.specs.PlanText.{begun_text, ending_text};
ghost use Rattle.planner.specs.Ends.{set_end_of, found_of};
ghost use Rattle.planner.specs.Writes.{Tells, SaysPart};
ghost use Rattle.planner.specs.Trees.{IsSearched};

use crate::pen::Pen;
use crate::tree::{Tree, write_tree};
use crate::{PlanFault, SetEnd, Watch};
use branch_solver::{Progress, Search};
use placement::decode;
use slo_rules::cost;
use span_base::{Policy, SetId, Sink};
use std::alloc::{AllocError, Global};
use workload::World;

/// Writes the part of a set: the lines of its tree as the search gives them, and how it ends.
pub(crate) fn write_part<K: Sink, W: Watch>(
    alloc: Global,
    world: &World,
    set: SetId,
    budget: u64,
    pen: &mut Pen,
    out: &mut K,
    watch: &mut W,
) -> Result<SetEnd, PlanFault>
    requires set { set.0 < length world.now.sets }
    requires budget { budget ≤ 10 ^ 9 }
    ensures part { (from : Option (List ℕ)) (text : List ℕ) → IsSaid from (K.taken out.old) pen.old text
        → SaysPart world.now budget set.0 from (K.taken out.new) pen.new text result }

    ensures faults_stay { K.faults out.old ≤ K.faults out.new }
    ensures failed { IsErrOf result PlanFault.WriteFault → Rose (K.faults out.old) (K.faults out.new) }
{
    let mut tree = Tree::make(alloc, world, set, budget)?;
    write_searched(alloc, world, set, budget, &mut tree, pen, out, watch)
}

/// Writes the part of a set whose search gave no line yet.
//
// The search is lent here: its owner drops it on each way out, and has the fewer of these.
fn write_searched<K: Sink, W: Watch>(
    alloc: Global,
    world: &World,
    set: SetId,
    budget: u64,
    tree: &mut Tree,
    pen: &mut Pen,
    out: &mut K,
    watch: &mut W,
) -> Result<SetEnd, PlanFault>
    requires set { set.0 < length world.now.sets }
    requires program { tree.old.program ≡ program_of world.now set.0 }
    requires budget { tree.old.search.budget ≡ budget }
    requires stands { StandsFor tree.old.program [] tree.old.search }
    requires room { length tree.old.program.rows ≤ tree.old.line.room }
    ensures part { (from : Option (List ℕ)) (text : List ℕ) → IsSaid from (K.taken out.old) pen.old text
        → SaysPart world.now budget set.0 from (K.taken out.new) pen.new text result }

    ensures faults_stay { K.faults out.old ≤ K.faults out.new }
    ensures failed { IsErrOf result PlanFault.WriteFault → Rose (K.faults out.old) (K.faults out.new) }
{
    let _centres = world.centre_count();
    pen.put_set(out, world, set, tree.program.costs().len())?;
    let end = write_tree(
        &tree.program,
        &mut tree.search,
        &mut tree.line,
        pen,
        out,
        watch,
    )?;
    write_ending(alloc, world, set, budget, &tree.search, end, pen, out)
}

/// Writes how the search of a set ended, within a budget of lines.
fn write_ending<K: Sink>(
    alloc: Global,
    world: &World,
    set: SetId,
    budget: u64,
    search: &Search,
    end: Progress,
    pen: &mut Pen,
    out: &mut K,
) -> Result<SetEnd, PlanFault>
    requires set { set.0 < length world.now.sets }
    requires searched { IsSearched world.now budget set.0 search.now end }
    ensures part { (searched : IsSearched world.now budget set.0 search.now end) (from : Option (List ℕ)) (text : List ℕ)
        → IsSaid from (K.taken out.old) pen.old (text ++ begun_text world.now set.0 searched.lines)
        → SaysPart world.now budget set.0 from (K.taken out.new) pen.new text result }

    ensures faults_stay { K.faults out.old ≤ K.faults out.new }
    ensures failed { IsErrOf result PlanFault.WriteFault → Rose (K.faults out.old) (K.faults out.new) }
{
    let _centres = world.centre_count();
    match end {
        Progress::Line => unreachable!(),
        Progress::Found { cost } => write_complete(alloc, world, set, search, cost, pen, out),
        Progress::NoneThere => {
            pen.put_none(out)?;
            Ok(SetEnd::NoPolicy)
        }
        Progress::Budget { .. } => write_cut(alloc, world, set, search, budget, pen, out),
    }
}

/// Writes the result of a set whose search found a least choice, and its policy.
fn write_complete<K: Sink>(
    alloc: Global,
    world: &World,
    set: SetId,
    search: &Search,
    cost: u128,
    pen: &mut Pen,
    out: &mut K,
) -> Result<SetEnd, PlanFault>
    requires set { set.0 < length world.now.sets }
    requires best { IsBest (program_of world.now set.0) search.now.best }
    requires found { IsSome search.now.best }
    ensures tells { (from : Option (List ℕ)) (text : List ℕ) → IsSaid from (K.taken out.old) pen.old text
        → (best : Best) → search.now.best ≡ Some best → (lines : ℕ)
        → Tells from (K.taken out.new) pen.new (text ++ ending_text world.now lines (complete cost (decoded world.now set.0 best.x))) result }
    ensures end { IfOk result (λ end. end ≡ SetEnd.Complete cost) }

    ensures faults_stay { K.faults out.old ≤ K.faults out.new }
    ensures failed { IsErrOf result PlanFault.WriteFault → Rose (K.faults out.old) (K.faults out.new) }
{
    let Some(policy) = best_policy(alloc, world, set, search)? else {
        unreachable!();
    };
    pen.put_complete(out, world, cost, &policy)?;
    Ok(SetEnd::Complete { cost })
}

/// Writes the result of a set whose search was cut off behind so many lines, and the best policy
/// found, if one was.
fn write_cut<K: Sink>(
    alloc: Global,
    world: &World,
    set: SetId,
    search: &Search,
    lines: u64,
    pen: &mut Pen,
    out: &mut K,
) -> Result<SetEnd, PlanFault>
    requires set { set.0 < length world.now.sets }
    requires best { IsBest (program_of world.now set.0) search.now.best }
    ensures tells { (from : Option (List ℕ)) (text : List ℕ) → IsSaid from (K.taken out.old) pen.old text
        → Tells from (K.taken out.new) pen.new (text ++ ending_text world.now lines (cut_off (found_of world.now set.0 search.now.best))) result }
    ensures end { IfOk result (λ end. end ≡ set_end_of (cut_off (found_of world.now set.0 search.now.best))) }

    ensures faults_stay { K.faults out.old ≤ K.faults out.new }
    ensures failed { IsErrOf result PlanFault.WriteFault → Rose (K.faults out.old) (K.faults out.new) }
{
    match best_policy(alloc, world, set, search)? {
        Some(policy) => {
            let cost = cost(world, set, &policy);
            pen.put_cut(out, world, lines, cost, &policy)?;
            Ok(SetEnd::Budget { best: Some(cost) })
        }
        None => {
            pen.put_cut_without(out, lines)?;
            Ok(SetEnd::Budget { best: None })
        }
    }
}

/// The policy that the best choice of a search is, if it has one.
fn best_policy(
    alloc: Global,
    world: &World,
    set: SetId,
    search: &Search,
) -> Result<Option<Policy>, AllocError>
    requires set { set.0 < length world.now.sets }
    requires best { IsBest (program_of world.now set.0) search.now.best }
    ensures policy { IfOk result (λ policy. policy ≡ option_map (λ (best : Best). decoded world.now set.0 best.x) search.now.best) }
    ensures names { IfOk result (λ policy. IfSome policy (NamesCentres world.now)) }
    ensures fits { IfOk result (λ policy. IfSome policy (λ p. fits_set world.now set.0 p ≡ true)) }
{
    let _centres = world.centre_count();
    match search.best() {
        Some(x) => Ok(Some(decode(alloc, world, set, x)?)),
        None => Ok(None),
    }
}
