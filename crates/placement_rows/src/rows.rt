//! The entries of rows, sums over sets of centres, and rows of two variables.
ghost use Rattle.std.specs.Prelude.{◌≡◌, ◌+◌, ◌*◌, ◌≤◌, ◌∷◌, [], IfOk};
ghost use Rattle.span_base.specs.DcSet.{centres_of};
ghost use Rattle.placement_rows.specs.Rows.{plus, minus, at_least, backed, answered};

use span_base::{CENTRES, DcId, DcSet, Listed};
use std::alloc::{AllocError, Global};
use zero_one::{Entry, Row};

/// An entry that adds a variable.
pub fn plus(var: u16) -> Entry
    ensures { result ≡ plus var }
{
    Entry { var, coef: 1 }
}

/// An entry that takes a variable away.
pub fn minus(var: u16) -> Entry
    ensures { result ≡ minus var }
{
    Entry { var, coef: -1 }
}

/// The row that says that at least `least` of the variables of these centres are 1. Centre 0 has
/// the variable `first`, and each centre the one that is `step` past that of the centre before it.
#[tactic(auto, using(crate::proofs::Collected::entries))]
pub fn sum_row(
    alloc: Global,
    centres: &DcSet,
    first: u16,
    step: u16,
    least: u8,
) -> Result<Row, AllocError>
    requires first { first ≤ 4096 }
    requires step { step ≤ 256 }
    ensures { IfOk result (λ row. row ≡ at_least least (λ d. first + d * step) (centres_of centres.now)) }
{
    let mut entries = Vec::with_capacity(alloc, centres.count() as usize)?;
    for d in 0..CENTRES {
        if centres.has(DcId(d)) {
            entries.push(plus(first + u16::from(d) * step))?;
        }
    }
    Ok(Row {
        entries: Listed::from_vec(entries),
        bound: i32::from(least),
    })
}

/// The row that says that `var` is 1 where `last` is, which follows it.
pub fn backed_row(alloc: Global, var: u16, last: u16) -> Result<Row, AllocError>
    ensures { IfOk result (λ row. row ≡ backed (λ v. v) (var ∷ []) last) }
{
    let mut entries = Vec::with_capacity(alloc, 2)?;
    entries.push(plus(var))?;
    entries.push(minus(last))?;
    Ok(Row {
        entries: Listed::from_vec(entries),
        bound: 0,
    })
}

/// The row that says that `var` is 1 where `first` is, which precedes it.
pub fn answered_row(alloc: Global, first: u16, var: u16) -> Result<Row, AllocError>
    ensures { IfOk result (λ row. row ≡ answered first (λ v. v) (var ∷ [])) }
{
    let mut entries = Vec::with_capacity(alloc, 2)?;
    entries.push(minus(first))?;
    entries.push(plus(var))?;
    Ok(Row {
        entries: Listed::from_vec(entries),
        bound: 0,
    })
}
