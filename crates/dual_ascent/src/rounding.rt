//! Feasible assignments by rounding where the variables stand: those far enough from 0 are chosen,
//! others are raised until every row is met, and then those are lowered that no row needs.

ghost use Rattle.std.specs.Prelude.{◌≡◌, ℕ, ◌+◌, ◌*◌, ◌^◌, ◌<◌, ◌≤◌, length, IfOk, IfSome, IsTrue};
ghost use Rattle.dual_ascent.specs.Short.{IsSolution};
ghost use Rattle.dual_ascent.specs.Tallies.{IsTallyFor};

use crate::solution::{copy_bits, is_solution};
use crate::tally::Tally;
use std::alloc::{AllocError, Global};
use std::marker::Model;
use zero_one::{Bits, Fixed, Program};

/// Where a variable stands that is 1, in units of 2^-40; 0 is where one stands that is 0.
pub(crate) const ONE: u64 = 1 << 40;

/// A way to round.
#[derive(Clone, Copy, Debug)]
struct Way {
    // Free variables that stand above this are chosen at first.
    threshold: u64,
    // Whether cheap variables are preferred to those nearer to 1.
    by_cost: bool,
}

/// The ways that are tried. From low thresholds much is chosen that is lowered again in a better
/// order than it would have been raised.
const WAYS: [Way; 5] = [
    Way {
        threshold: ONE / 2,
        by_cost: false,
    },
    Way {
        threshold: ONE / 4,
        by_cost: false,
    },
    Way {
        threshold: ONE / 20,
        by_cost: false,
    },
    Way {
        threshold: ONE / 2,
        by_cost: true,
    },
    Way {
        threshold: ONE / 20,
        by_cost: true,
    },
];

/// A variable in an order: where it stands, how cheap it is, and its number.
type Ranked = (u64, u128, usize);

/// Rounds for one program.
#[derive(Drop)]
pub(crate) struct Rounding {
    tally: Tally,
    // The variables as they are lowered: those nearest to 0 first, of these the dearest.
    nearest_first: Vec<Ranked>,
    // The same, where only the cost counts.
    dearest_first: Vec<Ranked>,
}

impl Model for Rounding {
    ghost use Rattle.std.specs.Prelude.{◌≡◌, length};
    ghost use Rattle.dual_ascent.specs.Tallies.{Tallied};

    ghost Value = { Tallied };

    ghost view = { λ r. r.tally };

    ghost invariant = { λ r. (length r.nearest_first.items ≡ r.tally.variables) × (length r.dearest_first.items ≡ r.tally.variables) };
}

impl Rounding {
    /// Takes all memory that rounding ever needs.
    pub(crate) fn make(alloc: Global, program: &Program) -> Result<Rounding, AllocError>
        ensures { IfOk result (IsTallyFor program.now) }
    {
        let variables = program.costs().len();
        let nowhere = vec![in alloc; 0; variables]?;
        let mut dearest_first = vec![in alloc; (0, 0, 0); variables]?;
        rank(&mut dearest_first, program.costs(), nowhere.as_slice());
        Ok(Rounding {
            tally: Tally::make(alloc, program)?,
            nearest_first: vec![in alloc; (0, 0, 0); variables]?,
            dearest_first,
        })
    }

    /// Rounds in all ways. Writes the best assignment that it finds and gives its cost, if that is
    /// below the least so far.
    pub(crate) fn round(
        &mut self,
        program: &Program,
        fixed: &Fixed,
        places: &[u64],
        least: Option<u128>,
        found: &mut Bits,
    ) -> Option<u128>
        requires room { IsTallyFor program.now self.old }
        requires vars { length fixed.now ≡ length program.now.costs }
        requires places { length places.now ≡ length program.now.costs }
        requires bits { length found.old ≡ length program.now.costs }
        ensures room { IsTallyFor program.now self.new }
        ensures bits { length found.new ≡ length program.now.costs }
        ensures found { IfSome result (λ _. IsSolution program.now fixed.now found.new) }
    {
        self.order(program, places);
        let mut better = None;
        for way in WAYS {
            if self.try_way(program, fixed.as_slice(), places, way) {
                better = self.take_cheaper(program, fixed, least, better, found);
            }
        }
        better
    }

    /// Puts the variables in the order in which they are lowered.
    fn order(&mut self, program: &Program, places: &[u64])
        requires room { IsTallyFor program.now self.old }
        requires places { length places.now ≡ length program.now.costs }
        ensures { self.new ≡ self.old }
    {
        rank(&mut self.nearest_first, program.costs(), places);
    }

    /// Rounds in one way, and says whether each row is met.
    fn try_way(
        &mut self,
        program: &Program,
        fixed: &[Option<bool>],
        places: &[u64],
        way: Way,
    ) -> bool
        requires room { IsTallyFor program.now self.old }
        requires vars { length fixed.now ≡ length program.now.costs }
        requires places { length places.now ≡ length program.now.costs }
        ensures { IsTallyFor program.now self.new }
    {
        start(&mut self.tally, program, fixed, places, way.threshold);
        if !raise(&mut self.tally, program, fixed, places, way.by_cost) {
            return false;
        }
        if way.by_cost {
            lower(
                &mut self.tally,
                program,
                fixed,
                self.dearest_first.as_slice(),
            );
        } else {
            lower(
                &mut self.tally,
                program,
                fixed,
                self.nearest_first.as_slice(),
            );
        }
        true
    }

    /// Writes the choice if it is an assignment that is cheaper than the least so far and than the
    /// better one, if there is one. Gives the cost of the better one then.
    fn take_cheaper(
        &self,
        program: &Program,
        fixed: &Fixed,
        least: Option<u128>,
        better: Option<u128>,
        found: &mut Bits,
    ) -> Option<u128>
        requires room { IsTallyFor program.now self.now }
        requires vars { length fixed.now ≡ length program.now.costs }
        requires bits { length found.old ≡ length program.now.costs }
        requires found { IfSome better (λ _. IsSolution program.now fixed.now found.old) }
        ensures bits { length found.new ≡ length program.now.costs }
        ensures found { IfSome result (λ _. IsSolution program.now fixed.now found.new) }
    {
        let chosen = self.tally.chosen();
        let cost = program.value(chosen);
        let is_cheaper = is_below(cost, least) && is_below(cost, better);
        if !is_cheaper || !is_solution(program, fixed, chosen) {
            return better;
        }
        copy_bits(found, chosen);
        Some(cost)
    }
}

/// Whether the cost is below the least so far, if there is one.
fn is_below(cost: u128, least: Option<u128>) -> bool {
    match least {
        Some(least) => cost < least,
        None => true,
    }
}

/// Puts the variables in order: those nearest to 0 first, of these the dearest.
fn rank(order: &mut Vec<Ranked>, costs: &[u128], places: &[u64])
    requires order { length order.old.items ≡ length places.now }
    requires costs { length costs.now ≡ length places.now }
    ensures { length order.new.items ≡ length order.old.items }
{
    for (var, place) in places.iter().enumerate() {
        order[var] = (*place, u128::MAX - costs[var], var);
    }
    order.sort_unstable();
}

/// Chooses what is fixed to 1, and what stands above the threshold.
fn start(
    tally: &mut Tally,
    program: &Program,
    fixed: &[Option<bool>],
    places: &[u64],
    threshold: u64,
)
    requires room { IsTallyFor program.now tally.old }
    requires vars { length fixed.now ≡ length program.now.costs }
    requires places { length places.now ≡ length program.now.costs }
    ensures room { IsTallyFor program.now tally.new }
    ensures reach { tally.new.reach ≤ 4097 * 2 ^ 32 }
{
    tally.clear(program);
    for var in 0..program.costs().len() {
        if begins_chosen(fixed[var], places[var], threshold) {
            tally.turn(var, true);
        }
    }
}

/// Whether a variable is chosen at first.
fn begins_chosen(fixed: Option<bool>, place: u64, threshold: u64) -> bool {
    match fixed {
        Some(bit) => bit,
        None => place > threshold,
    }
}

/// Raises free variables until every row is met. Says whether that can be done so.
fn raise(
    tally: &mut Tally,
    program: &Program,
    fixed: &[Option<bool>],
    places: &[u64],
    by_cost: bool,
) -> bool
    requires room { IsTallyFor program.now tally.old }
    requires vars { length fixed.now ≡ length program.now.costs }
    requires places { length places.now ≡ length program.now.costs }
    requires reach { tally.old.reach ≤ 4097 * 2 ^ 32 }
    ensures room { IsTallyFor program.now tally.new }
    ensures reach { tally.new.reach ≤ 8194 * 2 ^ 32 }
{
    // Each variable is raised at most once.
    for _raised in 0..=program.costs().len() {
        let Some(row) = tally.first_unmet() else {
            return true;
        };
        let chosen = tally.chosen().as_slice();
        let Some(var) = best_raise(program, fixed, places, chosen, row, by_cost) else {
            return false;
        };
        tally.turn(var, true);
    }
    false
}

/// A variable that can be raised for a row.
#[derive(Clone, Copy)]
struct Candidate {
    place: u64,
    cost: u128,
    var: usize,
}

/// The free variable that raises the row's sum and is nearest to 1, of these the cheapest.
fn best_raise(
    program: &Program,
    fixed: &[Option<bool>],
    places: &[u64],
    chosen: &[bool],
    row: usize,
    by_cost: bool,
) -> Option<usize>
    requires vars { length fixed.now ≡ length program.now.costs }
    requires places { length places.now ≡ length program.now.costs }
    requires bits { length chosen.now ≡ length program.now.costs }
    requires row { row < length program.now.rows }
    ensures { IfSome result (λ var. var < length program.now.costs) }
{
    let mut best = None;
    for entry in program.rows()[row].entries.as_slice() {
        let var = usize::from(entry.var);
        let can_rise = entry.coef > 0 && fixed[var].is_none() && !chosen[var];
        let candidate = Candidate {
            place: rounded(places[var], by_cost),
            cost: program.costs()[var],
            var,
        };
        best = better(best, can_rise, candidate);
    }
    let best = best?;
    Some(best.var)
}

/// Where a variable stands; if costs count first, only whether it is nearer to 1 than to 0.
fn rounded(place: u64, by_cost: bool) -> u64 {
    if by_cost {
        u64::from(place >= ONE / 2)
    } else {
        place
    }
}

/// The better one of two, if the second one counts; of equal ones the first.
fn better(first: Option<Candidate>, counts: bool, second: Candidate) -> Option<Candidate>
    ensures { (limit : ℕ) → IfSome first (λ one. one.var < limit) → second.var < limit → IfSome result (λ one. one.var < limit) }
{
    if !counts {
        return first;
    }
    let Some(best) = first else {
        return Some(second);
    };
    let is_nearer = second.place > best.place;
    let is_cheaper = second.place == best.place && second.cost < best.cost;
    if is_nearer || is_cheaper {
        Some(second)
    } else {
        first
    }
}

/// Lowers the free variables that no row needs, until each is needed.
fn lower(tally: &mut Tally, program: &Program, fixed: &[Option<bool>], order: &[Ranked])
    requires room { IsTallyFor program.now tally.old }
    requires vars { length fixed.now ≡ length program.now.costs }
    requires order { length order.now ≡ length program.now.costs }
    requires reach { tally.old.reach ≤ 8194 * 2 ^ 32 }
    ensures { IsTallyFor program.now tally.new }
{
    // Each pass but the last lowers a variable.
    for _pass in 0..=program.costs().len() {
        if !lower_once(tally, fixed, order) {
            return;
        }
    }
}

/// Lowers the free variables one after another that no row needs. Says whether there was one.
fn lower_once(tally: &mut Tally, fixed: &[Option<bool>], order: &[Ranked]) -> bool
    requires vars { length fixed.now ≡ tally.old.variables }
    requires few { length order.now ≤ 4096 }
    requires reach { tally.old.reach ≤ 2 ^ 60 }
    ensures variables { tally.new.variables ≡ tally.old.variables }
    ensures rows { tally.new.rows ≡ tally.old.rows }
    ensures reach { tally.new.reach ≤ tally.old.reach + 4096 * 2 ^ 32 }
{
    let mut is_changed = false;
    for ranked in order {
        let (_, _, var) = *ranked;
        if is_free(fixed, var) && lower_unless_needed(tally, var) {
            is_changed = true;
        }
    }
    is_changed
}

/// Lowers a chosen variable that no row needs, and says whether it is one.
fn lower_unless_needed(tally: &mut Tally, var: usize) -> bool
    requires var { var < tally.old.variables }
    requires reach { tally.old.reach ≤ 2 ^ 61 }
    ensures variables { tally.new.variables ≡ tally.old.variables }
    ensures rows { tally.new.rows ≡ tally.old.rows }
    ensures reach { tally.new.reach ≤ tally.old.reach + 2 ^ 32 }
{
    if !tally.chosen().as_slice()[var] || tally.is_needed(var) {
        return false;
    }
    tally.turn(var, false);
    true
}

/// Whether the variable is one of the program's and free.
fn is_free(fixed: &[Option<bool>], var: usize) -> bool
    ensures { IsTrue result → var < length fixed.now }
{
    match fixed.get(var) {
        Some(bit) => bit.is_none(),
        None => false,
    }
}
