//! The coefficients of a line, each times the value of its line, added up.

ghost use Rattle.std.specs.Prelude.{◌≡◌, ◌*◌, ◌^◌, ◌≤◌, length, All, unsigned_abs};
ghost use Rattle.primal_dual.specs.Tables.{AreKnown, terms_size};
ghost use Rattle.primal_dual.specs.Summing.{AreSummable};

use crate::table::Term;

/// The sum over what the other side shows, or over its targets.
pub(crate) fn sum_of(terms: &[Term], values: &[i64]) -> i64
    requires { AreSummable terms.now values.now }
    ensures { unsigned_abs result ≤ 2 ^ 61 }
{
    let mut sum = 0;
    for term in terms {
        sum += product(term.coef, values[usize::from(term.other)]);
    }
    sum
}

/// A value times a coefficient.
pub(crate) fn product(coef: i32, value: i64) -> i64
    requires { unsigned_abs coef * unsigned_abs value ≤ 2 ^ 62 }
    ensures { unsigned_abs result ≡ unsigned_abs coef * unsigned_abs value }
{
    i64::from(coef) * value
}

/// The sum over the places of the other side's anchors.
pub(crate) fn sum_of_places(terms: &[Term], places: &[u128]) -> i128
    requires known { AreKnown (length places.now) terms.now }
    requires light { terms_size terms.now ≤ 10 ^ 7 }
    requires places { All (λ place. place ≤ 2 ^ 100) places.now }
    ensures { unsigned_abs result ≤ 10 ^ 7 * 2 ^ 100 }
{
    let mut sum = 0;
    for term in terms {
        sum += place_product(term.coef, places[usize::from(term.other)]);
    }
    sum
}

/// A place times a coefficient.
pub(crate) fn place_product(coef: i32, place: u128) -> i128
    requires coef { unsigned_abs coef ≤ 10 ^ 7 }
    requires place { place ≤ 2 ^ 100 }
    ensures { unsigned_abs result ≤ unsigned_abs coef * 2 ^ 100 }
{
    i128::from(coef) * place as i128
}
