//! The lines of one side as the sweeps go over them: most are couples, which take no product.

ghost use Rattle.std.specs.Prelude.{ℕ, ◌<◌, All, IfSome};
ghost use Rattle.primal_dual.specs.Tables.{AreKnown};
ghost use Rattle.primal_dual.specs.Parts.{IsCouple};

use crate::layout::size_of;
use crate::table::{Table, Term};
use std::alloc::{AllocError, Global};
use std::marker::Model;

/// A line of two terms, 1 and -1.
#[derive(Clone, Copy)]
pub(crate) struct Couple {
    pub(crate) line: u16,
    pub(crate) plus: u16,
    pub(crate) minus: u16,
}

/// A line that is no couple.
#[derive(Clone, Copy)]
pub(crate) struct Long {
    pub(crate) line: u16,
    /// The step for a force of 1, in units of 2^-32: the inverse of the line's size.
    pub(crate) step: u32,
}

/// The lines of one side.
#[derive(Drop)]
pub(crate) struct Lines {
    table: Table,
    couples: Vec<Couple>,
    long: Vec<Long>,
    // The size of each line; at least 1.
    sizes: Vec<u32>,
}

impl Model for Lines {
    ghost use Rattle.primal_dual.specs.Sizes.{Sizes};
    ghost use Rattle.primal_dual.specs.Parts.{AreParted};

    ghost Value = { Sizes };

    ghost view = { λ l. l.table };

    ghost invariant = { λ l. AreParted l.table.lines l.table.others l.table.size l.couples.items l.long.items l.sizes.items };
}

impl Lines {
    ghost use Rattle.std.specs.Prelude.{◌≡◌, ◌<◌, ◌^◌, ◌≤◌, All, IfOk};
    ghost use Rattle.primal_dual.specs.Tables.{AreKnown, terms_size};
    ghost use Rattle.primal_dual.specs.Parts.{IsCouple};

    /// Parts the lines of a table.
    pub(crate) fn make(alloc: Global, table: Table) -> Result<Lines, AllocError>
        ensures { IfOk result (λ lines. lines ≡ table) }
    {
        let count = table.len();
        let mut couples = Vec::with_capacity(alloc, count)?;
        let mut long = Vec::with_capacity(alloc, count)?;
        let mut sizes = Vec::with_capacity(alloc, count)?;
        for line in 0..count {
            let terms = table.terms(line);
            let size = size_of(terms).max(1);
            sizes.push(size)?;
            add_line(&mut couples, &mut long, line as u16, terms, size)?;
        }
        Ok(Lines {
            table,
            couples,
            long,
            sizes,
        })
    }

    pub(crate) fn couples(&self) -> &[Couple]
        ensures { All (IsCouple self.now.lines self.now.others) result.now }
    {
        self.couples.as_slice()
    }

    pub(crate) fn long(&self) -> &[Long]
        ensures { All (λ one. one.line < self.now.lines) result.now }
    {
        self.long.as_slice()
    }

    /// The number of lines.
    pub(crate) fn len(&self) -> usize
        ensures same { result ≡ self.now.lines }
        ensures few { result ≤ 16384 }
    {
        self.table.len()
    }

    /// The terms of a line.
    pub(crate) fn terms(&self, line: usize) -> &[Term]
        requires { line < self.now.lines }
        ensures known { AreKnown self.now.others result.now }
        ensures size { terms_size result.now ≤ self.now.size }
        ensures light { terms_size result.now ≤ 10 ^ 7 }
    {
        self.table.terms(line)
    }

    /// The absolute values of the coefficients of a line, added up; at least 1.
    pub(crate) fn size(&self, line: usize) -> u32
        requires { line < self.now.lines }
        ensures least { 1 ≤ result }
        ensures most { result ≤ self.now.size }
        ensures light { result ≤ 10 ^ 7 }
    {
        self.sizes[line]
    }

    /// The greatest size of a line.
    pub(crate) fn greatest_size(&self) -> u32
        ensures same { result ≡ self.now.size }
        ensures least { 1 ≤ result }
        ensures light { result ≤ 10 ^ 7 }
    {
        self.table.size()
    }
}

/// Adds a line to the couples or to the long ones.
fn add_line(
    couples: &mut Vec<Couple>,
    long: &mut Vec<Long>,
    line: u16,
    terms: &[Term],
    size: u32,
) -> Result<(), AllocError>
    requires { 0 < size }
    ensures couples { (lines others : ℕ) → line < lines → AreKnown others terms.now → All (IsCouple lines others) couples.old.items → All (IsCouple lines others) couples.new.items }
    ensures long { (lines : ℕ) → line < lines → All (λ one. one.line < lines) long.old.items → All (λ one. one.line < lines) long.new.items }
{
    match couple_of(line, terms) {
        Some(couple) => couples.push(couple)?,
        None => long.push(Long {
            line,
            step: u32::MAX / size,
        })?,
    }
    Ok(())
}

/// The couple that a line's terms are, if they are one.
fn couple_of(line: u16, terms: &[Term]) -> Option<Couple>
    ensures { (lines others : ℕ) → line < lines → AreKnown others terms.now → IfSome result (IsCouple lines others) }
{
    let [first, second] = terms else {
        return None;
    };
    if first.coef == 1 && second.coef == -1 {
        return Some(Couple {
            line,
            plus: first.other,
            minus: second.other,
        });
    }
    if first.coef == -1 && second.coef == 1 {
        return Some(Couple {
            line,
            plus: second.other,
            minus: first.other,
        });
    }
    None
}
