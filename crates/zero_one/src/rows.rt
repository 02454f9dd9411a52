ghost use Rattle.std.specs.Prelude.{◌≡◌};
ghost use Rattle.zero_one.specs.Rows.{most_of};

use span_base::Listed;

/// One term of a row: the coefficient of a variable.
#[derive(Clone, Copy, Debug, PartialEq, Eq)]
pub struct Entry {
    /// The variable's place among the costs of the program.
    pub var: u16,
    /// What the variable adds to the row's sum where it is 1.
    pub coef: i32,
}

/// A demand on a choice: the sum of the coefficients of the variables that are 1 is at least the
/// bound.
#[derive(Debug, Drop)]
pub struct Row {
    /// In a program their variables rise strictly.
    pub entries: Listed<Entry>,
    /// The least sum that meets the row.
    pub bound: i32,
}

impl Row {
    ghost use Rattle.std.specs.Prelude.{◌≡◌, ◌^◌, ◌<◌, ◌≤◌, ◌↔◌, length, IsTrue};
    ghost use Rattle.zero_one.specs.Rows.{KnowsItsVars, HasRisingVars, row_weight, row_sum, greatest_sum};

    /// Whether the row speaks of the first `count` variables alone.
    pub(crate) fn knows_its_vars(&self, count: usize) -> bool
        ensures { IsTrue result ↔ KnowsItsVars count self.now }
    {
        self.entries
            .as_slice()
            .iter()
            .all(|entry| usize::from(entry.var) < count)
    }

    /// Whether the row's variables rise strictly.
    pub(crate) fn has_rising_vars(&self) -> bool
        ensures { IsTrue result ↔ HasRisingVars self.now }
    {
        let entries = self.entries.as_slice();
        for i in 1..entries.len() {
            if entries[i].var <= entries[i - 1].var {
                return false;
            }
        }
        true
    }

    pub(crate) fn weight(&self) -> u128
        ensures exact { result ≡ row_weight self.now }
        ensures small { result < 2 ^ 100 }
    {
        let mut weight = u128::from(self.bound.unsigned_abs());
        for entry in self.entries.as_slice() {
            weight += u128::from(entry.coef.unsigned_abs());
        }
        weight
    }

    /// The sum of the row under an assignment.
    pub(crate) fn sum(&self, x: &[bool]) -> i64
        requires light { row_weight self.now ≤ 10 ^ 7 }
        requires known { KnowsItsVars (length x.now) self.now }
        ensures { result ≡ row_sum self.now.entries x.now }
    {
        let mut sum = 0;
        for entry in self.entries.as_slice() {
            if x[usize::from(entry.var)] {
                sum += i64::from(entry.coef);
            }
        }
        sum
    }

    /// The greatest sum of the row that the fixed variables leave.
    pub(crate) fn greatest_sum(&self, fixed: &[Option<bool>]) -> i64
        requires light { row_weight self.now ≤ 10 ^ 7 }
        requires known { KnowsItsVars (length fixed.now) self.now }
        ensures { result ≡ greatest_sum self.now.entries fixed.now }
    {
        let mut sum = 0;
        for entry in self.entries.as_slice() {
            sum += most_of(fixed[usize::from(entry.var)], entry.coef);
        }
        sum
    }
}

/// The most that a coefficient can add to a sum.
fn most_of(fixed: Option<bool>, coef: i32) -> i64
    ensures { result ≡ most_of fixed coef }
{
    match fixed {
        Some(true) => i64::from(coef),
        Some(false) => 0,
        None => i64::from(coef.max(0)),
    }
}
