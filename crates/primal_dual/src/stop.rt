//! When a run stops: its leaf closes, or likely no leaf will.

ghost use Rattle.std.specs.Prelude.{◌≡◌, ◌+◌, ◌*◌, ◌^◌, ◌<◌, ◌≤◌, ℕ, pos, ◌≤ℤ◌, unsigned_abs, length, All, IfSome};
ghost use Rattle.zero_one.specs.Rows.{KnowsItsVars, row_weight, weight_of};
ghost use Rattle.primal_dual.specs.Locals.{IsShown};

use crate::side::Side;
use crate::sums::{place_product, product};
use zero_one::Row;

/// What the rows ask for where the multipliers stand, each multiplier in units of 2^shift.
pub(crate) fn asked(multipliers: &Side, shift: u32, rows: &[Row]) -> i128
    requires shift { shift < 128 }
    requires count { length rows.now ≡ multipliers.now.sizes.lines }
    requires light { weight_of rows.now ≤ 10 ^ 7 }
    ensures { unsigned_abs result ≤ 10 ^ 7 * 2 ^ 100 }
{
    let mut asked = 0;
    for (line, row) in rows.iter().enumerate() {
        asked += asked_by(multipliers, line, shift, row.bound);
    }
    asked
}

/// What a row with this bound asks for. Most bounds are 0.
fn asked_by(multipliers: &Side, line: usize, shift: u32, bound: i32) -> i128
    requires line { line < multipliers.now.sizes.lines }
    requires shift { shift < 128 }
    requires bound { unsigned_abs bound ≤ 10 ^ 7 }
    ensures { unsigned_abs result ≤ unsigned_abs bound * 2 ^ 100 }
{
    if bound == 0 {
        return 0;
    }
    place_product(bound, multipliers.standing(line, shift))
}

/// The least that the variables add, each by what its cost is after the multipliers' last step.
pub(crate) fn left(variables: &Side, shift: u32, fixed: &[Option<bool>], targets: &[i64]) -> i128
    requires shift { shift < 128 }
    requires count { length fixed.now ≡ variables.now.sizes.lines }
    requires few { length fixed.now ≤ 16384 }
    requires others { length targets.now ≡ variables.now.sizes.others }
    requires small { All (IsShown variables.now.limit) targets.now }
    ensures { unsigned_abs result ≤ 2 ^ 126 }
{
    let mut left = 0;
    for (var, bit) in fixed.iter().enumerate() {
        left += least_of(*bit, variables.force_after(var, targets, shift));
    }
    left
}

/// Costs count as at most this in either direction. Those of a program are far below.
const GREATEST_COST: i128 = 1 << 112;

/// The least that a variable with this force adds: the force is its cost negated.
fn least_of(bit: Option<bool>, force: i128) -> i128
    requires { unsigned_abs force ≤ 2 ^ 121 }
    ensures { unsigned_abs result ≤ 2 ^ 112 }
{
    let cost = (-force).max(-GREATEST_COST).min(GREATEST_COST);
    match bit {
        Some(true) => cost,
        Some(false) => 0,
        None => cost.min(0),
    }
}

/// A whole variable, in the units of the test for a stop.
const WHOLE: i64 = 1 << 20;

/// Writes where the variables stand, in units of 2^-20.
pub(crate) fn note_values(variables: &Side, shift: u32, values: &mut [u32])
    requires shift { shift < 128 }
    requires top { variables.now.top ≡ 2 ^ 96 }
    requires count { length values.old ≡ variables.now.sizes.lines }
    ensures { All (λ value. value ≤ 2 ^ 20) values.new }
{
    for var in 0..values.len() {
        values[var] = (variables.standing(var, shift) >> 76) as u32;
    }
}

/// What the rows lack, each at its multiplier's price; none where one lacks more than this much,
/// in units of 2^-20, for each unit of its size.
pub(crate) fn lack_of_all(
    multipliers: &Side,
    shift: u32,
    rows: &[Row],
    values: &[u32],
    slack: u32,
) -> Option<u128>
    requires shift { shift < 128 }
    requires count { length rows.now ≡ multipliers.now.sizes.lines }
    requires known { All (KnowsItsVars (length values.now)) rows.now }
    requires light { weight_of rows.now ≤ 10 ^ 7 }
    requires small { All (λ value. value ≤ 2 ^ 20) values.now }
    ensures { IfSome result (λ lack. lack ≤ 2 ^ 125) }
{
    let mut all = 0;
    for (line, row) in rows.iter().enumerate() {
        let lack = lack_of(row, values);
        let most = u64::from(multipliers.size(line)) * u64::from(slack);
        if lack > 0 && lack.unsigned_abs() > most {
            return None;
        }
        all += lack_price(multipliers, line, shift, lack);
    }
    Some(all)
}

/// What a row lacks of its bound, in units of 2^-20; below 0 where it has more.
fn lack_of(row: &Row, values: &[u32]) -> i64
    requires known { KnowsItsVars (length values.now) row.now }
    requires light { row_weight row.now ≤ 10 ^ 7 }
    requires small { All (λ value. value ≤ 2 ^ 20) values.now }
    ensures { unsigned_abs result ≤ row_weight row.now * 2 ^ 20 }
{
    let mut lack = i64::from(row.bound) * WHOLE;
    for entry in row.entries.as_slice() {
        lack -= taken(entry.coef, values[usize::from(entry.var)]);
    }
    lack
}

fn taken(coef: i32, value: u32) -> i64
    requires coef { unsigned_abs coef ≤ 10 ^ 7 }
    requires value { value ≤ 2 ^ 20 }
    ensures { unsigned_abs result ≤ unsigned_abs coef * 2 ^ 20 }
{
    product(coef, i64::from(value))
}

/// What a row's lack costs, in units of 2^-20: a million times its price is its multiplier.
fn lack_price(multipliers: &Side, line: usize, shift: u32, lack: i64) -> u128
    requires line { line < multipliers.now.sizes.lines }
    requires shift { shift < 128 }
    requires lack { unsigned_abs lack ≤ 2 ^ 44 }
    ensures { result ≤ unsigned_abs lack * 2 ^ 81 }
{
    if lack <= 0 {
        return 0;
    }
    multipliers.standing(line, shift) / 1_000_000 * lack as u128
}

/// What the variables cost, in units of 2^-20.
pub(crate) fn cost_of(costs: &[u128], values: &[u32]) -> u128
    requires costs { All (λ cost. cost < 10 ^ 24) costs.now }
    requires few { length costs.now ≤ 16384 }
    requires count { length values.now ≡ length costs.now }
    requires small { All (λ value. value ≤ 2 ^ 20) values.now }
    ensures { result ≤ 2 ^ 120 }
{
    let mut all = 0;
    for (var, cost) in costs.iter().enumerate() {
        all += share_of(*cost, values[var]);
    }
    all
}

fn share_of(cost: u128, value: u32) -> u128
    requires cost { cost < 10 ^ 24 }
    requires value { value ≤ 2 ^ 20 }
    ensures { result ≤ 10 ^ 24 * 2 ^ 20 }
{
    cost * u128::from(value)
}

/// Whether a cost, in units of 2^-20, is below the goal by more than a margin of a millionth.
pub(crate) fn is_below(cost: u128, goal: u128) -> bool
    requires { cost ≤ 2 ^ 126 }
{
    // No assignment costs as much as 2^100.
    let goal = goal.min(1 << 100) as i128;
    (cost as i128) < (goal - 1) * i128::from(WHOLE) - goal
}
