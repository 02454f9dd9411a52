ghost use Rattle.std.specs.Prelude.{◌≡◌, ◌<◌, ◌≤◌, ◌*◌, ◌^◌, ◌-◌, ◌↔◌, ◌<ℤ◌, pos, length, map, All, IsTrue};
ghost use Rattle.std.specs.List.Sorted.{IsStrictlyIncreasing};
ghost use Rattle.bound_cert.specs.Leaves.{LeafFits};
ghost use Rattle.bound_cert.specs.Closing.{Closes};

use crate::leaves::{Goal, Leaf, MAX_MULTIPLIER, MAX_SCALE, Pair};
use zero_one::Program;

/// Whether the leaf is one for the program.
pub fn leaf_fits(program: &Program, leaf: &Leaf) -> bool
    ensures { IsTrue result ↔ LeafFits program.now leaf.now }
{
    let pairs = leaf.pairs.as_slice();
    if leaf.s > MAX_SCALE {
        return false;
    }
    if !are_multipliers(pairs) {
        return false;
    }
    if !rise(pairs) {
        return false;
    }
    are_rows(pairs, program.rows().len())
}

/// Whether each multiplier is in range.
fn are_multipliers(pairs: &[Pair]) -> bool
    ensures { IsTrue result ↔ All (λ pair. (1 ≤ pair.mult) × (pair.mult ≤ 10 ^ 30)) pairs.now }
{
    pairs
        .iter()
        .all(|pair| 1 <= pair.mult && pair.mult <= MAX_MULTIPLIER)
}

/// Whether the rows rise strictly.
fn rise(pairs: &[Pair]) -> bool
    ensures { IsTrue result ↔ IsStrictlyIncreasing (map (λ pair. pair.row) pairs.now) }
{
    for i in 1..pairs.len() {
        if pairs[i].row <= pairs[i - 1].row {
            return false;
        }
    }
    true
}

/// Whether each row is one of the first `count`.
fn are_rows(pairs: &[Pair], count: usize) -> bool
    ensures { IsTrue result ↔ All (λ pair. pair.row < count) pairs.now }
{
    pairs.iter().all(|pair| usize::from(pair.row) < count)
}

/// Whether a leaf of this value and this `s` shows that what is left can't be better than the
/// goal.
pub fn closes(value: i128, s: u32, goal: Goal) -> bool
    ensures { IsTrue result ↔ Closes value s goal }
{
    match goal {
        _ if s == 0 => value > 0,
        Goal::Cost(0) => value > -i128::from(s),
        Goal::Cost(cost) => is_above(value, u128::from(s), cost - 1),
        Goal::Nothing => false,
    }
}

/// Whether the value is above a product that may be past every number.
fn is_above(value: i128, s: u128, cost: u128) -> bool
    ensures { IsTrue result ↔ (pos (s * cost) <ℤ value) }
{
    match s.checked_mul(cost) {
        Some(product) => value > 0 && value.unsigned_abs() > product,
        None => false,
    }
}
