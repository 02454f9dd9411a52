//! The line of one node: a leaf that closes it, or a branch.

ghost use Rattle.std.specs.Prelude.{◌≡◌, ℕ, None, length, map, IfNone, IfSome, IsTrue, IsFalse, MatchBool};
ghost use Rattle.zero_one.specs.Program.{IsWithinLimits};
ghost use Rattle.bound_cert.specs.Trees.{IsFree};
ghost use Rattle.dual_ascent.specs.Kept.{IsFor};
ghost use Rattle.dual_ascent.specs.Short.{NoShortEnds};
ghost use Rattle.branch_solver.specs.Best.{goal_of};
ghost use Rattle.branch_solver.specs.Given.{IsLeastFree};
ghost use Rattle.branch_solver.specs.Nodes.{Improves, IsAnswered, IsNodeLine, IsReady, is_one};

use crate::incumbent::Incumbent;
use crate::line_buf::LineBuf;
use bound_cert::Goal;
use dual_ascent::{Ascent, short_end};
use zero_one::{Bits, Fixed, Program};

/// How often a node is looked at again after a better assignment was found there.
const LOOKS: u8 = 3;

/// What a search works with at a node.
#[derive(Drop)]
pub(crate) struct Desk {
    pub ascent: Ascent,
    pub incumbent: Incumbent,
    // An assignment that is looked at.
    pub found: Bits,
    // How deep the children of the branch lie at which the ascent was kept.
    pub kept_for: Option<usize>,
}

/// Looks at the whole program before the first line.
#[tactic(auto, using(crate::proofs::Improving::improves_same, crate::proofs::Improving::improves_on, crate::proofs::Improving::improves_taken))]
pub(crate) fn explore(program: &Program, desk: &mut Desk, is_first: bool)
    requires ready { IsReady program.now desk.old }
    ensures ready { IsReady program.now desk.new }
    ensures improves { Improves program.now desk.old.incumbent desk.new.incumbent }
{
    if is_first && desk.ascent.explore(program, &mut desk.found) {
        desk.incumbent.offer(program, &desk.found);
    }
}

/// Keeps where the ascent stands at a branch, for the second of its children, which lie this deep.
pub(crate) fn keep_for(desk: &mut Desk, depth: usize)
    ensures ascent { desk.new.ascent ≡ desk.old.ascent }
    ensures incumbent { desk.new.incumbent ≡ desk.old.incumbent }
    ensures found { desk.new.found ≡ desk.old.found }
{
    desk.ascent.keep();
    desk.kept_for = Some(depth);
}

/// Lets the ascent stand where it was kept, if that was for the second child that lies this deep
/// and comes next: the branch above is the last one that was made, since a later one lies deeper or
/// was kept in its place.
pub(crate) fn restore_for(desk: &mut Desk, depth: usize)
    ensures ascent { desk.new.ascent ≡ desk.old.ascent }
    ensures incumbent { desk.new.incumbent ≡ desk.old.incumbent }
    ensures found { desk.new.found ≡ desk.old.found }
{
    if desk.kept_for == Some(depth) {
        desk.ascent.restore();
    }
}

/// Writes the line of the node at the end of a path: a leaf, or a branch on the variable that is
/// given back.
#[tactic(auto, using(crate::proofs::Ends::rows_hold))]
pub(crate) fn write_node(
    program: &Program,
    fixed: &Fixed,
    desk: &mut Desk,
    line: &mut LineBuf,
) -> Option<u16>
    requires vars { length fixed.now ≡ length program.now.costs }
    requires ready { IsReady program.now desk.old }
    ensures ready { IsReady program.now desk.new }
    ensures improves { Improves program.now desk.old.incumbent desk.new.incumbent }
    ensures room { line.new.room ≡ line.old.room }
    ensures branch { IfSome result (IsLeastFree fixed.now) }
    ensures line { IsNodeLine program.now (goal_of desk.new.incumbent.best) fixed.now line.new.line result }
{
    let Some(var) = least_free(program, fixed) else {
        close_whole(program, fixed, desk, line);
        return None;
    };
    if settle(program, fixed, desk, line) {
        return None;
    }
    line.write_branch(var);
    Some(var)
}

/// The free variable of least number.
fn least_free(program: &Program, fixed: &Fixed) -> Option<u16>
    requires { length fixed.now ≡ length program.now.costs }
    ensures none { IfNone result ((var : ℕ) → ¬ IsFree fixed.now var) }
    ensures least { IfSome result (IsLeastFree fixed.now) }
    ensures within { IsWithinLimits program.now }
{
    let bits = fixed.as_slice();
    for var in 0..program.costs().len() {
        if bits[var].is_none() {
            return Some(var as u16);
        }
    }
    None
}

/// Writes a leaf that closes the node, if one is found. A better assignment that is found on the
/// way makes it easier, so the node is looked at again.
#[tactic(auto, using(crate::proofs::Improving::improves_same, crate::proofs::Improving::improves_on, crate::proofs::Improving::improves_taken))]
fn settle(program: &Program, fixed: &Fixed, desk: &mut Desk, line: &mut LineBuf) -> bool
    requires vars { length fixed.now ≡ length program.now.costs }
    requires ready { IsReady program.now desk.old }
    ensures ready { IsReady program.now desk.new }
    ensures improves { Improves program.now desk.old.incumbent desk.new.incumbent }
    ensures room { line.new.room ≡ line.old.room }
    ensures line { MatchBool result
        (IsNodeLine program.now (goal_of desk.new.incumbent.best) fixed.now line.new.line None)
        (NoShortEnds program.now fixed.now (goal_of desk.new.incumbent.best)) }
{
    for _ in 0..LOOKS {
        if close_by_ascent(program, fixed, desk, line) {
            return true;
        }
        if !find_better(program, fixed, desk) {
            return false;
        }
    }
    close_short(program, fixed, desk.incumbent.goal(), line)
}

/// Writes the leaf that the ascent finds, if it closes the node.
fn close_by_ascent(program: &Program, fixed: &Fixed, desk: &mut Desk, line: &mut LineBuf) -> bool
    requires vars { length fixed.now ≡ length program.now.costs }
    requires ready { IsReady program.now desk.old }
    ensures ready { IsReady program.now desk.new }
    ensures incumbent { desk.new.incumbent ≡ desk.old.incumbent }
    ensures room { line.new.room ≡ line.old.room }
    ensures line { MatchBool result
        (IsNodeLine program.now (goal_of desk.old.incumbent.best) fixed.now line.new.line None)
        (NoShortEnds program.now fixed.now (goal_of desk.old.incumbent.best)) }
{
    let goal = desk.incumbent.goal();
    if !desk.ascent.improve(program, fixed, goal) {
        return false;
    }
    line.write_leaf(desk.ascent.leaf()) || close_short(program, fixed, goal, line)
}

/// Writes the first short leaf that closes the node, if one does.
fn close_short(program: &Program, fixed: &Fixed, goal: Goal, line: &mut LineBuf) -> bool
    requires vars { length fixed.now ≡ length program.now.costs }
    ensures room { line.new.room ≡ line.old.room }
    ensures line { MatchBool result (IsNodeLine program.now goal fixed.now line.new.line None)
        (NoShortEnds program.now fixed.now goal) }
{
    match short_end(program, fixed, goal) {
        Some(short) => {
            line.write_short(short);
            true
        }
        None => false,
    }
}

/// Rounds to an assignment that agrees with the fixed variables, and takes it where it is better.
#[tactic(auto, using(crate::proofs::Improving::improves_same, crate::proofs::Improving::improves_on, crate::proofs::Improving::improves_taken))]
fn find_better(program: &Program, fixed: &Fixed, desk: &mut Desk) -> bool
    requires vars { length fixed.now ≡ length program.now.costs }
    requires ready { IsReady program.now desk.old }
    ensures ready { IsReady program.now desk.new }
    ensures improves { Improves program.now desk.old.incumbent desk.new.incumbent }
    ensures same { IsFalse result → desk.new.incumbent ≡ desk.old.incumbent }
{
    let least = desk.incumbent.value();
    desk.ascent.round(program, fixed, least, &mut desk.found)
        && desk.incumbent.offer(program, &desk.found)
}

/// Writes a leaf at the end of a path that leaves no variable free: one without rows where its
/// assignment is feasible, else one of a row that it breaks.
fn close_whole(program: &Program, fixed: &Fixed, desk: &mut Desk, line: &mut LineBuf)
    requires vars { length fixed.now ≡ length program.now.costs }
    requires within { IsWithinLimits program.now }
    requires ready { IsReady program.now desk.old }
    requires whole { (var : ℕ) → ¬ IsFree fixed.now var }
    ensures ready { IsReady program.now desk.new }
    ensures improves { Improves program.now desk.old.incumbent desk.new.incumbent }
    ensures room { line.new.room ≡ line.old.room }
    ensures line { IsNodeLine program.now (goal_of desk.new.incumbent.best) fixed.now line.new.line None }
{
    offer_whole(program, fixed, desk);
    let closed = close_short(program, fixed, desk.incumbent.goal(), line);
    prove!(closed);
}

/// Takes the assignment of a path that leaves no variable free, where it is feasible and better.
#[tactic(auto, using(crate::proofs::Improving::improves_same, crate::proofs::Improving::improves_on, crate::proofs::Improving::improves_taken, crate::proofs::Improving::breach))]
fn offer_whole(program: &Program, fixed: &Fixed, desk: &mut Desk)
    requires vars { length fixed.now ≡ length program.now.costs }
    requires ready { IsReady program.now desk.old }
    ensures ready { IsReady program.now desk.new }
    ensures improves { Improves program.now desk.old.incumbent desk.new.incumbent }
    ensures answered { IsAnswered program.now (map is_one fixed.now) desk.new.incumbent.best }
{
    write_bits(fixed, &mut desk.found);
    match program.broken_row(&desk.found) {
        Some(_) => {}
        None => {
            desk.incumbent.offer(program, &desk.found);
        }
    }
}

/// Writes the bits of the fixed variables, 0 for a free one.
fn write_bits(fixed: &Fixed, bits: &mut Bits)
    requires { length bits.old ≡ length fixed.now }
    ensures { bits.new ≡ map is_one fixed.now }
{
    let fixed = fixed.as_slice();
    for i in 0..fixed.len() {
        bits.set(i, is_one(fixed[i]));
    }
}

/// The bit of a fixed variable, 0 for a free one.
fn is_one(bit: Option<bool>) -> bool
    ensures { result ≡ is_one bit }
{
    match bit {
        Some(bit) => bit,
        None => false,
    }
}
