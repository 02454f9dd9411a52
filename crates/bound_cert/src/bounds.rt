ghost use Rattle.std.specs.Prelude.{◌≡◌, ◌+◌, ◌*◌, ◌^◌, ◌<◌, ◌≤◌, ℕ, pos, ◌-ℤ◌, ◌*ℤ◌, unsigned_abs, length, sum_by, All, slice_index, slice_index_or};
ghost use Rattle.zero_one.specs.Rows.{fixed_bit, KnowsItsVars, row_weight};
ghost use Rattle.bound_cert.specs.Leaves.{coef_of, column_part, bound_part, sum_below, least_of, leaf_bound, LeafFits};
ghost use Rattle.bound_cert.specs.Sizes.{coefs_size, pairs_weight, IsCheap, HasRanges};

use crate::leaves::{Leaf, Pair};
use zero_one::{Entry, Fixed, MAX_VARIABLES, Program, Row};

/// The bound of a leaf.
pub fn leaf_value(program: &Program, fixed: &Fixed, leaf: &Leaf) -> i128
    requires fits { LeafFits program.now leaf.now }
    requires vars { length fixed.now ≡ length program.now.costs }
    ensures { result ≡ leaf_bound program.now fixed.now leaf.now }
{
    let mut scratch = [0; MAX_VARIABLES];
    let vars = program.costs().len();
    leaf_value_in(program, fixed, leaf, &mut scratch[..vars])
}

/// The bound of a leaf, worked out in a scratch space that has a place for each variable. What
/// the scratch holds before doesn't matter.
pub fn leaf_value_in(program: &Program, fixed: &Fixed, leaf: &Leaf, scratch: &mut [i128]) -> i128
    requires fits { LeafFits program.now leaf.now }
    requires vars { length fixed.now ≡ length program.now.costs }
    requires scratch { length scratch.old ≡ length program.now.costs }
    ensures { result ≡ leaf_bound program.now fixed.now leaf.now }
{
    scale_costs(program.costs(), leaf.s, scratch);
    let asked = take_rows(program.rows(), leaf.pairs.as_slice(), scratch);
    asked + least_sum(fixed.as_slice(), scratch)
}

/// Writes the cost of each variable, `s` times, into its place.
fn scale_costs(costs: &[u128], s: u32, scratch: &mut [i128])
    requires cheap { All IsCheap costs.now }
    requires scale { s ≤ 10 ^ 6 }
    requires places { length scratch.old ≡ length costs.now }
    ensures each { (var : ℕ) → var < length costs.now → slice_index_or scratch.new var (pos 0) ≡ pos (s * slice_index costs.now var) }
    ensures size { sum_by unsigned_abs scratch.new ≤ length costs.now * 10 ^ 30 }
{
    for (var, cost) in costs.iter().enumerate() {
        scratch[var] = (u128::from(s) * *cost) as i128;
    }
}

/// Takes the rows of the pairs, by their multipliers, off the places of their variables, and
/// gives what they ask for.
fn take_rows(rows: &[Row], pairs: &[Pair], scratch: &mut [i128]) -> i128
    requires known { All (KnowsItsVars (length scratch.old)) rows.now }
    requires existing { All (λ pair. pair.row < length rows.now) pairs.now }
    requires ranges { All HasRanges pairs.now }
    requires light { pairs_weight rows.now pairs.now ≤ 10 ^ 7 }
    requires small { sum_by unsigned_abs scratch.old ≤ 2 ^ 13 * 10 ^ 30 }
    ensures asked { result ≡ bound_part rows.now pairs.now }
    ensures each { (var : ℕ) → slice_index_or scratch.new var (pos 0) ≡ slice_index_or scratch.old var (pos 0) -ℤ column_part rows.now pairs.now var }
    ensures size { sum_by unsigned_abs scratch.new + unsigned_abs result ≤ 2 ^ 14 * 10 ^ 30 + 10 ^ 37 }
{
    let mut asked = 0;
    for pair in pairs {
        let row = &rows[usize::from(pair.row)];
        take_entries(row.entries.as_slice(), pair.mult, scratch);
        asked += pair.mult as i128 * i128::from(row.bound);
    }
    asked
}

/// Takes the entries, by a multiplier, off the places of their variables.
fn take_entries(entries: &[Entry], mult: u128, scratch: &mut [i128])
    requires known { All (λ entry. entry.var < length scratch.old) entries.now }
    requires range { mult ≤ 10 ^ 30 }
    requires small { sum_by unsigned_abs scratch.old + mult * coefs_size entries.now < 2 ^ 126 }
    ensures each { (var : ℕ) → slice_index_or scratch.new var (pos 0) ≡ slice_index_or scratch.old var (pos 0) -ℤ (pos mult *ℤ coef_of entries.now var) }
    ensures size { sum_by unsigned_abs scratch.new ≤ sum_by unsigned_abs scratch.old + mult * coefs_size entries.now }
{
    for entry in entries {
        scratch[usize::from(entry.var)] -= mult as i128 * i128::from(entry.coef);
    }
}

/// Adds up the least that each variable adds, with what is left of its cost in its place.
fn least_sum(fixed: &[Option<bool>], left: &[i128]) -> i128
    requires places { length left.now ≡ length fixed.now }
    requires small { sum_by unsigned_abs left.now < 2 ^ 126 }
    ensures sum { result ≡ sum_below (length fixed.now) (λ var. least_of (fixed_bit fixed.now var) (slice_index_or left.now var (pos 0))) }
    ensures size { unsigned_abs result ≤ sum_by unsigned_abs left.now }
{
    let mut sum = 0;
    for (var, bit) in fixed.iter().enumerate() {
        sum += least_of(*bit, left[var]);
    }
    sum
}

/// The least that a variable adds.
fn least_of(bit: Option<bool>, cost: i128) -> i128
    ensures { result ≡ least_of bit cost }
{
    match bit {
        Some(true) => cost,
        Some(false) => 0,
        None => cost.min(0),
    }
}
