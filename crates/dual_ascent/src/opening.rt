//! The opening: before any variable is fixed, runs and roundings in turn seek a good assignment,
//! and a dive that fixes one variable after another seeks a better one.

ghost use Rattle.std.specs.Prelude.{◌≡◌, ◌^◌, ◌<◌, ◌≤◌, length, All};
ghost use Rattle.dual_ascent.specs.Kept.{IsScoutFor};

use crate::scout::Scout;
use bound_cert::Goal;
use primal_dual::Outcome;
use zero_one::{Bits, Fixed, Program};

/// Runs before the dive.
const RUNS: u32 = 12;
/// The runs end where so many after the last better assignment found that no leaf closes.
const STILL_RUNS: u32 = 4;
/// The rounds of such a run; so that the last one is a check.
const ROUNDS: u32 = 251;
/// How many variables a dive fixes at most.
const DEPTH: u32 = 32;
/// The rounds of a run of the dive.
const DIVE_ROUNDS: u32 = 81;

/// Seeks a feasible assignment, and gives the cost of what it wrote. `fixed` fixes nothing, before
/// and after.
pub(crate) fn explore(
    scout: &mut Scout,
    program: &Program,
    fixed: &mut Fixed,
    found: &mut Bits,
) -> Option<u128>
    requires room { IsScoutFor program.now scout.old }
    requires vars { length fixed.old ≡ length program.now.costs }
    requires bits { length found.old ≡ length program.now.costs }
    ensures room { scout.new ≡ scout.old }
    ensures vars { length fixed.new ≡ length program.now.costs }
    ensures bits { length found.new ≡ length program.now.costs }
{
    let runs = run_and_round(scout, program, fixed, found);
    match runs.least {
        Some(least) if !runs.is_closed => Some(dive_and_rise(scout, program, fixed, least, found)),
        least => least,
    }
}

/// What the runs led to.
#[derive(Clone, Copy)]
struct Runs {
    // The least cost that is known.
    least: Option<u128>,
    // The last run found a leaf that shows that nothing costs less.
    is_closed: bool,
}

/// Runs and rounds in turn, until a leaf closes or nothing better comes any more.
fn run_and_round(scout: &mut Scout, program: &Program, free: &Fixed, found: &mut Bits) -> Runs
    requires room { IsScoutFor program.now scout.old }
    requires vars { length free.now ≡ length program.now.costs }
    requires bits { length found.old ≡ length program.now.costs }
    ensures room { scout.new ≡ scout.old }
    ensures bits { length found.new ≡ length program.now.costs }
{
    let mut least = scout.round(program, free, None, found);
    let mut still = 0;
    for _run in 0..RUNS {
        let goal = goal_below(least, program.costs());
        let outcome = scout.run(program, free, goal, ROUNDS, least.is_none());
        if outcome == Outcome::Closed {
            return Runs {
                least,
                is_closed: true,
            };
        }
        let better = scout.round(program, free, least, found);
        still = still_after(still, outcome, better);
        if still == STILL_RUNS {
            break;
        }
        if better.is_some() {
            least = better;
        }
    }
    Runs {
        least,
        is_closed: false,
    }
}

/// How many runs brought nothing since something better was found.
fn still_after(still: u32, outcome: Outcome, better: Option<u128>) -> u32
    requires { still < 4 }
    ensures { result ≤ 4 }
{
    if better.is_some() {
        0
    } else if outcome == Outcome::Open {
        still + 1
    } else {
        still
    }
}

/// To show that nothing costs less; while no assignment is known, less than all together and one.
fn goal_below(least: Option<u128>, costs: &[u128]) -> Goal
    requires cheap { All (λ cost. cost < 10 ^ 24) costs.now }
    requires few { length costs.now ≤ 4096 }
{
    match least {
        Some(cost) => Goal::Cost(cost),
        None => Goal::Cost(all_costs(costs) + 1),
    }
}

/// All costs, added up.
fn all_costs(costs: &[u128]) -> u128
    requires cheap { All (λ cost. cost < 10 ^ 24) costs.now }
    requires few { length costs.now ≤ 4096 }
    ensures { result < 10 ^ 28 }
{
    let mut sum = 0;
    for cost in costs {
        sum += *cost;
    }
    sum
}

/// Dives, and leaves the scout where it stood and no variable fixed.
fn dive_and_rise(
    scout: &mut Scout,
    program: &Program,
    fixed: &mut Fixed,
    cost: u128,
    found: &mut Bits,
) -> u128
    requires room { IsScoutFor program.now scout.old }
    requires vars { length fixed.old ≡ length program.now.costs }
    requires bits { length found.old ≡ length program.now.costs }
    ensures room { scout.new ≡ scout.old }
    ensures vars { length fixed.new ≡ length program.now.costs }
    ensures bits { length found.new ≡ length program.now.costs }
{
    scout.keep();
    let least = dive(scout, program, fixed, cost, found);
    scout.restore();
    free_all(fixed);
    least
}

/// Fixes one undecided variable after another, to 1 unless that closes, and gives the least cost
/// that is known then.
fn dive(
    scout: &mut Scout,
    program: &Program,
    fixed: &mut Fixed,
    cost: u128,
    found: &mut Bits,
) -> u128
    requires room { IsScoutFor program.now scout.old }
    requires vars { length fixed.old ≡ length program.now.costs }
    requires bits { length found.old ≡ length program.now.costs }
    ensures room { scout.new ≡ scout.old }
    ensures vars { length fixed.new ≡ length program.now.costs }
    ensures bits { length found.new ≡ length program.now.costs }
{
    let mut least = cost;
    for _depth in 0..DEPTH {
        let Some(var) = scout.undecided(fixed) else {
            return least;
        };
        if !descend(scout, program, fixed, var, least) {
            return least;
        }
        if let Some(better) = scout.round(program, fixed, Some(least), found) {
            least = better;
        }
    }
    least
}

/// Fixes a variable to 1, or where that closes to 0. Says whether one of both doesn't close.
fn descend(scout: &mut Scout, program: &Program, fixed: &mut Fixed, var: usize, least: u128) -> bool
    requires room { IsScoutFor program.now scout.old }
    requires vars { length fixed.old ≡ length program.now.costs }
    requires var { var < length fixed.old }
    ensures room { scout.new ≡ scout.old }
    ensures vars { length fixed.new ≡ length program.now.costs }
{
    for bit in [true, false] {
        fixed.set(var, Some(bit));
        let goal = Goal::Cost(least);
        if scout.run(program, fixed, goal, DIVE_ROUNDS, true) != Outcome::Closed {
            return true;
        }
    }
    false
}

fn free_all(fixed: &mut Fixed)
    ensures { length fixed.new ≡ length fixed.old }
{
    for var in 0..fixed.len() {
        fixed.set(var, None);
    }
}
