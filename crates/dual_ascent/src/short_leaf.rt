//! Short leaves: those of at most one row, by an evident multiplier. All of them are looked at,
//! each in the time that its row takes.

ghost use Rattle.std.specs.Prelude.{◌≡◌, ◌+◌, ◌<◌, ◌≤◌, ◌*◌, ◌^◌, ℕ, pos, ◌-ℤ◌, ◌*ℤ◌, unsigned_abs, length, sum_by, All, ◌↔◌, IfNone, IfSome, IsTrue, slice_index};
ghost use Rattle.std.specs.Int.{int_min};
ghost use Rattle.zero_one.specs.Rows.{fixed_bit};
ghost use Rattle.bound_cert.specs.Leaves.{leaf_bound, least_of, row_at, sum_below};
ghost use Rattle.bound_cert.specs.Sizes.{IsCheap, coefs_size};
ghost use Rattle.dual_ascent.specs.Short.{EndsPath, NoShortEnds, NoRowRefutes, NoRowPrices, NoPriceEnds, no_row, one_row, short_leaf, IsEnd};
ghost use Rattle.dual_ascent.specs.Change.{row_change};

use bound_cert::{Goal, Pair, closes};
use zero_one::{Entry, Fixed, Program};

/// A short leaf.
#[derive(Clone, Copy, Debug, PartialEq, Eq)]
pub enum Short {
    /// The costs alone, once.
    Costs,
    /// One row: the costs `s` times, less the row by its multiplier.
    OneRow { s: u32, pair: Pair },
}

/// The first short leaf that ends the path, if one does.
pub fn short_end(program: &Program, fixed: &Fixed, goal: Goal) -> Option<Short>
    requires { length fixed.now ≡ length program.now.costs }
    ensures none { IfNone result (NoShortEnds program.now fixed.now goal) }
    ensures found { IfSome result (λ short. IsEnd program.now fixed.now goal (short_leaf short)) }
{
    if let Some(pair) = refuting_pair(program, fixed, goal) {
        return Some(Short::OneRow { s: 0, pair });
    }
    let costs = bare_value(program, fixed, 1);
    if closes(costs, 1, goal) {
        return Some(Short::Costs);
    }
    match pricing_pair(program, fixed, costs, goal) {
        Some(pair) => Some(Short::OneRow { s: 1, pair }),
        None => None,
    }
}

/// The first row that ends the path by itself, taken once.
fn refuting_pair(program: &Program, fixed: &Fixed, goal: Goal) -> Option<Pair>
    requires { length fixed.now ≡ length program.now.costs }
    ensures none { IfNone result (NoRowRefutes program.now fixed.now goal (length program.now.rows)) }
    ensures found { IfSome result (λ pair. IsEnd program.now fixed.now goal (one_row 0 pair)) }
{
    let nothing = bare_value(program, fixed, 0);
    for row in 0..program.rows().len() {
        let pair = Pair {
            row: row as u16,
            mult: 1,
        };
        let value = value_with_row(program, fixed, 0, nothing, pair);
        if closes(value, 0, goal) {
            return Some(pair);
        }
    }
    None
}

/// The first row with the first cost of its variables that end the path together.
fn pricing_pair(program: &Program, fixed: &Fixed, costs: i128, goal: Goal) -> Option<Pair>
    requires vars { length fixed.now ≡ length program.now.costs }
    requires costs { costs ≡ leaf_bound program.now fixed.now (no_row 1) }
    requires small { unsigned_abs costs ≤ 10 ^ 28 }
    ensures none { IfNone result (NoRowPrices program.now fixed.now goal (length program.now.rows)) }
    ensures found { IfSome result (λ pair. IsEnd program.now fixed.now goal (one_row 1 pair)) }
{
    for row in 0..program.rows().len() {
        if let Some(pair) = price_of_row(program, fixed, costs, goal, row) {
            return Some(pair);
        }
    }
    None
}

/// The first cost of the row's variables with which the row ends the path.
fn price_of_row(
    program: &Program,
    fixed: &Fixed,
    costs: i128,
    goal: Goal,
    row: usize,
) -> Option<Pair>
    requires vars { length fixed.now ≡ length program.now.costs }
    requires costs { costs ≡ leaf_bound program.now fixed.now (no_row 1) }
    requires small { unsigned_abs costs ≤ 10 ^ 28 }
    requires row { row < length program.now.rows }
    ensures none { IfNone result (NoPriceEnds program.now fixed.now goal row (row_at program.now.rows row).entries) }
    ensures found { IfSome result (λ pair. IsEnd program.now fixed.now goal (one_row 1 pair)) }
{
    for entry in program.rows()[row].entries.as_slice() {
        let pair = Pair {
            row: row as u16,
            mult: program.costs()[usize::from(entry.var)],
        };
        if pair_ends(program, fixed, costs, goal, pair) {
            return Some(pair);
        }
    }
    None
}

/// Whether the costs with one row, taken by this multiplier, are a leaf that ends the path.
fn pair_ends(program: &Program, fixed: &Fixed, costs: i128, goal: Goal, pair: Pair) -> bool
    requires vars { length fixed.now ≡ length program.now.costs }
    requires costs { costs ≡ leaf_bound program.now fixed.now (no_row 1) }
    requires small { unsigned_abs costs ≤ 10 ^ 28 }
    requires row { pair.row < length program.now.rows }
    requires range { pair.mult ≤ 10 ^ 24 }
    ensures { IsTrue result ↔ (0 < pair.mult) × EndsPath program.now fixed.now goal (one_row 1 pair) }
{
    pair.mult > 0 && closes(value_with_row(program, fixed, 1, costs, pair), 1, goal)
}

/// The value of the leaf without rows.
fn bare_value(program: &Program, fixed: &Fixed, s: u32) -> i128
    requires vars { length fixed.now ≡ length program.now.costs }
    requires scale { s ≤ 1 }
    ensures exact { result ≡ leaf_bound program.now fixed.now (no_row s) }
    ensures small { unsigned_abs result ≤ 10 ^ 28 }
{
    least_sum(program.costs(), fixed.as_slice(), s)
}

/// Adds up the least that each variable adds, at its cost taken `s` times.
fn least_sum(costs: &[u128], fixed: &[Option<bool>], s: u32) -> i128
    requires scale { s ≤ 1 }
    requires cheap { All IsCheap costs.now }
    requires bits { length fixed.now ≡ length costs.now }
    requires few { length costs.now ≤ 4096 }
    ensures sum { result ≡ sum_below (length fixed.now) (λ var. least_of (fixed_bit fixed.now var) (pos (s * slice_index costs.now var))) }
    ensures small { unsigned_abs result ≤ 10 ^ 28 }
{
    let mut sum = 0;
    for (var, bit) in fixed.iter().enumerate() {
        sum += least_of(*bit, scaled(s, costs[var]));
    }
    sum
}

/// The value of the leaf with one row, from that of the leaf without.
fn value_with_row(program: &Program, fixed: &Fixed, s: u32, bare: i128, pair: Pair) -> i128
    requires vars { length fixed.now ≡ length program.now.costs }
    requires scale { s ≤ 1 }
    requires bare { bare ≡ leaf_bound program.now fixed.now (no_row s) }
    requires small { unsigned_abs bare ≤ 10 ^ 28 }
    requires row { pair.row < length program.now.rows }
    requires range { pair.mult ≤ 10 ^ 24 }
    ensures { result ≡ leaf_bound program.now fixed.now (one_row s pair) }
{
    let row = &program.rows()[usize::from(pair.row)];
    let entries = row.entries.as_slice();
    let change = change_by_row(entries, program.costs(), fixed.as_slice(), s, pair.mult);
    let asked = times(pair.mult, row.bound);
    bare + asked + change
}

/// What a row changes in the least that its variables add.
fn change_by_row(
    entries: &[Entry],
    costs: &[u128],
    fixed: &[Option<bool>],
    s: u32,
    mult: u128,
) -> i128
    requires scale { s ≤ 1 }
    requires cheap { All IsCheap costs.now }
    requires known { All (λ entry. entry.var < length costs.now) entries.now }
    requires bits { length fixed.now ≡ length costs.now }
    requires light { coefs_size entries.now ≤ 10 ^ 7 }
    requires range { mult ≤ 10 ^ 24 }
    ensures exact { result ≡ row_change entries.now costs.now fixed.now s mult }
    ensures small { unsigned_abs result ≤ 10 ^ 31 }
{
    let mut change = 0;
    for entry in entries {
        let var = usize::from(entry.var);
        change += change_by_entry(fixed[var], scaled(s, costs[var]), mult, entry.coef);
    }
    change
}

/// What a coefficient, taken by the multiplier, changes in the least that its variable adds.
fn change_by_entry(bit: Option<bool>, cost: u128, mult: u128, coef: i32) -> i128
    requires cheap { cost ≤ 10 ^ 24 }
    requires range { mult ≤ 10 ^ 24 }
    ensures exact { result ≡ least_of bit (pos cost -ℤ (pos mult *ℤ coef)) -ℤ least_of bit (pos cost) }
    ensures small { unsigned_abs result ≤ mult * unsigned_abs coef }
{
    let taken = times(mult, coef);
    match bit {
        Some(true) => -taken,
        Some(false) => 0,
        None => at_most_nothing(cost, taken),
    }
}

/// A cost less what is taken of it, where that is below 0, and else 0.
fn at_most_nothing(cost: u128, taken: i128) -> i128
    requires cheap { cost ≤ 10 ^ 24 }
    requires small { unsigned_abs taken < 2 ^ 112 }
    ensures exact { result ≡ int_min (pos cost -ℤ taken) (pos 0) }
    ensures small { unsigned_abs result ≤ unsigned_abs taken }
{
    let left = cost as i128 - taken;
    if left < 0 { left } else { 0 }
}

fn times(mult: u128, coef: i32) -> i128
    requires { mult ≤ 10 ^ 24 }
    ensures exact { result ≡ pos mult *ℤ coef }
    ensures small { unsigned_abs result ≤ mult * unsigned_abs coef }
    ensures bounded { unsigned_abs result < 2 ^ 112 }
{
    mult as i128 * i128::from(coef)
}

fn scaled(s: u32, cost: u128) -> u128
    requires scale { s ≤ 1 }
    requires cheap { cost < 10 ^ 24 }
    ensures exact { result ≡ s * cost }
    ensures small { result ≤ 10 ^ 24 }
{
    u128::from(s) * cost
}

/// The least that a variable adds at a cost that is no bounty.
fn least_of(bit: Option<bool>, cost: u128) -> i128
    requires { cost ≤ 10 ^ 24 }
    ensures exact { result ≡ least_of bit (pos cost) }
    ensures small { unsigned_abs result ≤ 10 ^ 24 }
{
    match bit {
        Some(true) => cost as i128,
        Some(false) | None => 0,
    }
}
