//! The coefficients of a program, variable by variable.

ghost use Rattle.std.specs.Prelude.{◌≡◌, ℕ, ◌+◌, ◌^◌, ◌<◌, ◌≤◌, [], length, All, IfOk, OnOk};
ghost use Rattle.zero_one.specs.Rows.{weight_of, KnowsItsVars};
ghost use Rattle.bound_cert.specs.Sizes.{coefs_size};
ghost use Rattle.dual_ascent.specs.Columns.{AreIn, AreLight, IsColumn};

use span_base::Listed;
use std::alloc::{AllocError, Global};
use std::marker::Model;
use zero_one::{Entry, Program, Row};

/// A coefficient of a variable, with the row in which it stands.
#[derive(Clone, Copy, Debug, PartialEq, Eq)]
pub(crate) struct Term {
    pub(crate) row: u16,
    pub(crate) coef: i32,
}

/// The coefficients of each variable.
#[derive(Drop)]
pub(crate) struct Columns {
    columns: Vec<Listed<Term>>,
    rows: usize,
}

impl Model for Columns {
    ghost use Rattle.std.specs.Prelude.{length, All};
    ghost use Rattle.dual_ascent.specs.Columns.{Extent, IsColumn};

    ghost Value = { Extent };

    ghost view = { λ c. record { variables = length c.columns.items; rows = c.rows } };

    ghost invariant = { λ c. All (IsColumn c.rows) c.columns.items };
}

impl Columns {
    pub(crate) fn make(alloc: Global, program: &Program) -> Result<Columns, AllocError>
        ensures variables { IfOk result (λ columns. columns.variables ≡ length program.now.costs) }
        ensures rows { IfOk result (λ columns. columns.rows ≡ length program.now.rows) }
    {
        let mut columns = Vec::new(alloc);
        for _ in program.costs() {
            columns.push(Listed::new(alloc))?;
        }
        fill(columns.as_mut_slice(), program.rows())?;
        Ok(Columns {
            columns,
            rows: program.rows().len(),
        })
    }

    /// The coefficients of a variable.
    pub(crate) fn of(&self, var: usize) -> &[Term]
        requires { var < self.now.variables }
        ensures { IsColumn self.now.rows result.now }
    {
        self.columns[var].as_slice()
    }
}

/// Adds the coefficients of all rows to the columns of their variables.
fn fill(columns: &mut [Listed<Term>], rows: &[Row]) -> Result<(), AllocError>
    requires empty { All (λ column. column ≡ []) columns.old }
    requires few { length rows.now ≤ 16384 }
    requires known { All (KnowsItsVars (length columns.old)) rows.now }
    requires weight { weight_of rows.now ≤ 10 ^ 7 }
    ensures count { OnOk result (length columns.new ≡ length columns.old) }
    ensures columns { OnOk result (All (IsColumn (length rows.now)) columns.new) }
{
    for (number, row) in rows.iter().enumerate() {
        fill_row(columns, number as u16, row.entries.as_slice())?;
    }
    Ok(())
}

/// Adds the coefficients of a row to the columns of their variables.
fn fill_row(columns: &mut [Listed<Term>], row: u16, entries: &[Entry]) -> Result<(), AllocError>
    requires known { All (λ entry. entry.var < length columns.old) entries.now }
    ensures count { OnOk result (length columns.new ≡ length columns.old) }
    ensures known { OnOk result ((rows : ℕ) → row < rows → All (AreIn rows) columns.old → All (AreIn rows) columns.new) }
    ensures light { OnOk result ((size : ℕ) → All (AreLight size) columns.old → All (AreLight (size + coefs_size entries.now)) columns.new) }
{
    for entry in entries {
        let term = Term {
            row,
            coef: entry.coef,
        };
        columns[usize::from(entry.var)].push(term)?;
    }
    Ok(())
}
