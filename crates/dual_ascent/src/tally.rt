//! A choice of the variables, with what each row has of it.

ghost use Rattle.std.specs.Prelude.{◌≡◌, ◌+◌, ◌^◌, ◌<◌, ◌≤◌, ℕ, unsigned_abs, length, IfOk, IfSome};
ghost use Rattle.dual_ascent.specs.Columns.{IsColumn};
ghost use Rattle.dual_ascent.specs.Tallies.{IsTallyFor, reach};

use crate::columns::{Columns, Term};
use crate::row_stack::RowStack;
use std::alloc::{AllocError, Global};
use std::marker::Model;
use zero_one::{Bits, Program, Row};

/// A choice that is changed bit by bit. A change costs the time of the variable's column.
#[derive(Drop)]
pub(crate) struct Tally {
    columns: Columns,
    chosen: Bits,
    // By how much the sum of each row passes its bound; below 0 where the row isn't met.
    excess: Vec<i64>,
    // Each row that isn't met waits, and some that are met again.
    unmet: RowStack,
}

impl Model for Tally {
    ghost use Rattle.std.specs.Prelude.{◌≡◌, length};
    ghost use Rattle.dual_ascent.specs.Tallies.{Tallied, IsSized, reach};

    ghost Value = { Tallied };

    ghost view = { λ t. record { variables = length t.chosen; rows = length t.excess.items; reach = reach t.excess.items } };

    ghost invariant = { λ t. IsSized t.columns t.unmet (length t.chosen) (length t.excess.items) };
}

impl Tally {
    /// All memory that is ever needed.
    pub(crate) fn make(alloc: Global, program: &Program) -> Result<Tally, AllocError>
        ensures { IfOk result (IsTallyFor program.now) }
    {
        let variables = program.costs().len();
        let rows = program.rows().len();
        Ok(Tally {
            columns: Columns::make(alloc, program)?,
            chosen: Bits::from_vec(vec![in alloc; false; variables]?),
            excess: vec![in alloc; 0; rows]?,
            unmet: RowStack::make(alloc, rows)?,
        })
    }

    /// Chooses nothing.
    pub(crate) fn clear(&mut self, program: &Program)
        requires { IsTallyFor program.now self.old }
        ensures same { IsTallyFor program.now self.new }
        ensures reach { self.new.reach ≤ 2 ^ 32 }
    {
        clear_bits(&mut self.chosen);
        self.unmet.clear();
        settle(program.rows(), self.excess.as_mut_slice(), &mut self.unmet);
    }

    /// The choice.
    pub(crate) fn chosen(&self) -> &Bits
        ensures { length result.now ≡ self.now.variables }
    {
        &self.chosen
    }

    /// Gives a variable its other bit, which this is.
    pub(crate) fn turn(&mut self, var: usize, bit: bool)
        requires var { var < self.old.variables }
        requires reach { self.old.reach ≤ 2 ^ 61 }
        ensures variables { self.new.variables ≡ self.old.variables }
        ensures rows { self.new.rows ≡ self.old.rows }
        ensures reach { self.new.reach ≤ self.old.reach + 2 ^ 32 }
    {
        self.chosen.set(var, bit);
        let column = self.columns.of(var);
        add(column, bit, self.excess.as_mut_slice(), &mut self.unmet);
    }

    /// Whether some row would no longer be met without the variable, which is chosen.
    pub(crate) fn is_needed(&self, var: usize) -> bool
        requires { var < self.now.variables }
    {
        self.columns.of(var).iter().any(|term| self.excess[usize::from(term.row)]
            < i64::from(term.coef))
    }

    /// A row that isn't met, if there is one.
    pub(crate) fn first_unmet(&mut self) -> Option<usize>
        ensures same { self.new ≡ self.old }
        ensures row { IfSome result (λ row. row < self.old.rows) }
    {
        first_unmet(self.excess.as_slice(), &mut self.unmet)
    }
}

fn clear_bits(bits: &mut Bits)
    ensures { length bits.new ≡ length bits.old }
{
    for i in 0..bits.len() {
        bits.set(i, false);
    }
}

/// The row that came last of those that wait and aren't met. Those that came after it, and are met,
/// wait no longer.
fn first_unmet(excess: &[i64], unmet: &mut RowStack) -> Option<usize>
    requires { unmet.old ≡ length excess.now }
    ensures same { unmet.new ≡ unmet.old }
    ensures row { IfSome result (λ row. row < length excess.now) }
{
    for _ in 0..excess.len() {
        let row = unmet.top()?;
        if excess[row] < 0 {
            return Some(row);
        }
        unmet.pop();
    }
    None
}

/// Writes the excess of each row where nothing is chosen, and lets those wait that aren't met.
fn settle(rows: &[Row], excess: &mut [i64], unmet: &mut RowStack)
    requires few { length rows.now ≤ 16384 }
    requires rows { length excess.old ≡ length rows.now }
    requires stack { unmet.old ≡ length rows.now }
    ensures rows { length excess.new ≡ length excess.old }
    ensures stack { unmet.new ≡ unmet.old }
    ensures reach { reach excess.new ≤ 2 ^ 32 }
{
    for (number, row) in rows.iter().enumerate() {
        excess[number] = of_nothing(row.bound);
        if row.bound > 0 {
            unmet.push(number as u16);
        }
    }
}

/// By how much the sum of nothing passes the bound.
fn of_nothing(bound: i32) -> i64
    ensures { unsigned_abs result ≤ 2 ^ 31 }
{
    -i64::from(bound)
}

/// Adds what a variable changes that is turned to the bit, and lets those rows wait that aren't met.
fn add(column: &[Term], bit: bool, excess: &mut [i64], unmet: &mut RowStack)
    requires column { IsColumn (length excess.old) column.now }
    requires reach { reach excess.old ≤ 2 ^ 61 }
    requires stack { unmet.old ≡ length excess.old }
    ensures rows { length excess.new ≡ length excess.old }
    ensures stack { unmet.new ≡ unmet.old }
    ensures reach { reach excess.new ≤ reach excess.old + 2 ^ 32 }
{
    for term in column {
        let row = usize::from(term.row);
        let after = changed(excess[row], term.coef, bit);
        excess[row] = after;
        if after < 0 {
            unmet.push(term.row);
        }
    }
}

/// The excess with one coefficient more, or less.
fn changed(excess: i64, coef: i32, bit: bool) -> i64
    requires { unsigned_abs excess < 2 ^ 62 }
    ensures { unsigned_abs result ≤ unsigned_abs excess + unsigned_abs coef }
{
    let coef = i64::from(coef);
    if bit { excess + coef } else { excess - coef }
}
