ghost use Rattle.std.specs.Prelude.{◌≡◌, ◌^◌, ◌<◌, ◌≤◌, ◌↔◌, length, All, IfOk, IfErr, IfNone, IfSome, IsTrue};
ghost use Rattle.std.specs.List.{HoldsAt};
ghost use Rattle.zero_one.specs.Rows.{Meets, CanHold, KnowsItsVars, HasRisingVars, weight_of};
ghost use Rattle.zero_one.specs.Program.{value_of, IsFeasible, IsWithinLimits};
ghost use Rattle.zero_one.specs.Faults.{HasFault, IsFirstBreach};

use crate::lists::{Bits, Fixed};
use crate::rows::Row;
use span_base::What;
use std::marker::Model;

/// The greatest number of variables of a program.
pub const MAX_VARIABLES: usize = 4_096;
/// The greatest number of rows of a program.
pub const MAX_ROWS: usize = 16_384;
/// The greatest weight of a program: the absolute values of the coefficients and the bounds of
/// its rows, added up.
pub const MAX_WEIGHT: u64 = 10_000_000;

/// Why costs and rows make no program.
#[derive(Clone, Copy, Debug, PartialEq, Eq)]
pub enum ProgramFault {
    /// The row at this place names a variable that has no cost.
    NoSuchVar { row: usize },
    /// In the row at this place the variables don't rise strictly.
    Unsorted { row: usize },
    /// There are more variables or rows than a program may have, or the rows weigh more.
    Limit { what: What, number: u128 },
}

/// A 0-1 program: choose a bit for each variable such that each row is met, at the least cost.
#[derive(Debug, Drop)]
pub struct Program {
    costs: Vec<u128>,
    rows: Vec<Row>,
}

impl Model for Program {
    ghost use Rattle.zero_one.specs.Contents.{Contents};

    ghost Value = { Contents };

    ghost use Rattle.zero_one.specs.Program.{IsWithinLimits};

    ghost view = { λ p. record { costs = p.costs.items; rows = p.rows.items } };

    ghost invariant = { λ p. IsWithinLimits (record { costs = p.costs.items; rows = p.rows.items }) };
}

impl Program {
    /// Takes no memory. A refusal drops the costs and the rows.
    pub fn make(costs: Vec<u128>, rows: Vec<Row>) -> Result<Self, ProgramFault>
        requires { All (λ cost. cost < 10 ^ 24) costs.items }
        ensures made { IfOk result (λ program. program ≡ record { costs = costs.items; rows = rows.items }) }
        ensures within { IfOk result IsWithinLimits }
        ensures fault { IfErr result (HasFault costs.items rows.items) }
    {
        if let Some(row) = first_unknown(rows.as_slice(), costs.len()) {
            return Err(ProgramFault::NoSuchVar { row });
        }
        if let Some(row) = first_unsorted(rows.as_slice()) {
            return Err(ProgramFault::Unsorted { row });
        }
        if costs.len() > MAX_VARIABLES {
            return Err(ProgramFault::Limit {
                what: What::Variables,
                number: costs.len() as u128,
            });
        }
        if rows.len() > MAX_ROWS {
            return Err(ProgramFault::Limit {
                what: What::Rows,
                number: rows.len() as u128,
            });
        }
        let weight = weight_of(rows.as_slice());
        if weight > u128::from(MAX_WEIGHT) {
            return Err(ProgramFault::Limit {
                what: What::Weight,
                number: weight,
            });
        }
        Ok(Program { costs, rows })
    }

    /// The cost of each variable, below 10^24; a variable is named by its place.
    pub fn costs(&self) -> &[u128]
        ensures costs { result.now ≡ self.now.costs }
        ensures within { IsWithinLimits self.now }
    {
        self.costs.as_slice()
    }

    /// The rows, each named by its place.
    pub fn rows(&self) -> &[Row]
        ensures rows { result.now ≡ self.now.rows }
        ensures within { IsWithinLimits self.now }
    {
        self.rows.as_slice()
    }

    /// What an assignment costs.
    pub fn value(&self, x: &Bits) -> u128
        requires { length x.now ≡ length self.now.costs }
        ensures { result ≡ value_of self.now.costs x.now }
    {
        let x = x.as_slice();
        let mut value = 0;
        for (i, cost) in self.costs.iter().enumerate() {
            if x[i] {
                value += *cost;
            }
        }
        value
    }

    /// The first row that an assignment doesn't meet.
    pub fn broken_row(&self, x: &Bits) -> Option<usize>
        requires { length x.now ≡ length self.now.costs }
        ensures feasible { IfNone result (IsFeasible self.now x.now) }
        ensures broken { IfSome result (IsFirstBreach (Meets x.now) self.now.rows) }
    {
        let x = x.as_slice();
        for (i, row) in self.rows.iter().enumerate() {
            if row.sum(x) < i64::from(row.bound) {
                return Some(i);
            }
        }
        None
    }

    /// Whether some choice of the free variables meets the row, whatever becomes of the others.
    pub fn row_can_hold(&self, fixed: &Fixed, row: usize) -> bool
        requires vars { length fixed.now ≡ length self.now.costs }
        requires row { row < length self.now.rows }
        ensures { IsTrue result ↔ HoldsAt (CanHold fixed.now) self.now.rows row }
    {
        let row = &self.rows[row];
        row.greatest_sum(fixed.as_slice()) >= i64::from(row.bound)
    }
}

/// The first row that speaks of a variable past the first `count`.
fn first_unknown(rows: &[Row], count: usize) -> Option<usize>
    ensures none { IfNone result (All (KnowsItsVars count) rows.now) }
    ensures first { IfSome result (IsFirstBreach (KnowsItsVars count) rows.now) }
{
    for (i, row) in rows.iter().enumerate() {
        if !row.knows_its_vars(count) {
            return Some(i);
        }
    }
    None
}

/// The first row whose variables don't rise strictly.
fn first_unsorted(rows: &[Row]) -> Option<usize>
    ensures none { IfNone result (All HasRisingVars rows.now) }
    ensures first { IfSome result (IsFirstBreach HasRisingVars rows.now) }
{
    for (i, row) in rows.iter().enumerate() {
        if !row.has_rising_vars() {
            return Some(i);
        }
    }
    None
}

fn weight_of(rows: &[Row]) -> u128
    requires { length rows.now ≤ 16384 }
    ensures { result ≡ weight_of rows.now }
{
    let mut weight = 0;
    for row in rows {
        weight += row.weight();
    }
    weight
}
