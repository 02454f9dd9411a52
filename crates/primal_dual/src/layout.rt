//! How the terms of a program are laid out, line after line.

ghost use Rattle.std.specs.Prelude.{◌≡◌, ◌+◌, ◌^◌, ◌<◌, ◌≤◌, ℕ, length, sum, All};
ghost use Rattle.zero_one.specs.Rows.{weight_of, KnowsItsVars};
ghost use Rattle.bound_cert.specs.Sizes.{coefs_size};
ghost use Rattle.primal_dual.specs.Tables.{AreKnown, AreSized, LiesWithin, terms_size};

use crate::table::{Span, Term};
use std::alloc::AllocError;
use zero_one::{Entry, Row};

/// Adds the entries of a row as terms.
pub(crate) fn add_terms(terms: &mut Vec<Term>, entries: &[Entry]) -> Result<(), AllocError>
    ensures grown { length terms.old.items ≤ length terms.new.items }
    ensures known { (others : ℕ) → AreKnown others terms.old.items → All (λ entry. entry.var < others) entries.now → AreKnown others terms.new.items }
    ensures size { terms_size terms.new.items ≤ terms_size terms.old.items + coefs_size entries.now }
{
    for entry in entries {
        let term = Term {
            other: entry.var,
            coef: entry.coef,
        };
        terms.push(term)?;
    }
    Ok(())
}

/// Counts the terms of each line of the other side.
pub(crate) fn count_terms(terms: &[Term], counts: &mut [usize])
    requires known { AreKnown (length counts.old) terms.now }
    requires none { sum counts.old ≡ 0 }
    ensures { sum counts.new ≤ length terms.now }
{
    for term in terms {
        counts[usize::from(term.other)] += 1;
    }
}

/// Writes where each line begins, as long as it is empty.
pub(crate) fn lay_out(counts: &[usize], spans: &mut [Span])
    requires places { length spans.old ≡ length counts.now }
    requires few { sum counts.now < 2 ^ 63 }
    ensures { All (LiesWithin (sum counts.now)) spans.new }
{
    let mut total = 0;
    for (line, count) in counts.iter().enumerate() {
        spans[line] = Span {
            begin: total,
            end: total,
        };
        total += *count;
    }
}

/// Adds the entries of all rows to the columns of their variables, negated.
pub(crate) fn fill(rows: &[Row], spans: &mut [Span], terms: &mut [Term])
    requires few { length rows.now ≤ 16384 }
    requires known { All (KnowsItsVars (length spans.old)) rows.now }
    requires light { weight_of rows.now ≤ 10 ^ 7 }
    requires empty { terms_size terms.old ≡ 0 }
    requires named { AreKnown (length rows.now) terms.old }
    requires within { All (LiesWithin (length terms.old)) spans.old }
    ensures known { AreKnown (length rows.now) terms.new }
    ensures within { All (LiesWithin (length terms.new)) spans.new }
    ensures light { terms_size terms.new ≤ 10 ^ 7 }
{
    for (j, row) in rows.iter().enumerate() {
        fill_row(row.entries.as_slice(), j as u16, spans, terms);
    }
}

/// Adds the entries of a row to the columns of their variables, negated.
fn fill_row(entries: &[Entry], row: u16, spans: &mut [Span], terms: &mut [Term])
    requires known { All (λ entry. entry.var < length spans.old) entries.now }
    requires light { coefs_size entries.now ≤ 10 ^ 7 }
    requires within { All (LiesWithin (length terms.old)) spans.old }
    ensures known { (others : ℕ) → row < others → AreKnown others terms.old → AreKnown others terms.new }
    ensures within { All (LiesWithin (length terms.new)) spans.new }
    ensures size { terms_size terms.new ≤ terms_size terms.old + coefs_size entries.now }
{
    for entry in entries {
        let line = usize::from(entry.var);
        let span = spans[line];
        // There is room: the columns were laid out by the counts of these same entries.
        if span.end < terms.len() {
            terms[span.end] = Term {
                other: row,
                coef: -entry.coef,
            };
            spans[line] = Span {
                begin: span.begin,
                end: span.end + 1,
            };
        }
    }
}

/// The greatest size of a line; at least 1.
pub(crate) fn greatest_size(terms: &[Term], spans: &[Span]) -> u32
    requires within { All (LiesWithin (length terms.now)) spans.now }
    requires light { terms_size terms.now ≤ 10 ^ 7 }
    ensures sized { AreSized terms.now result spans.now }
    ensures least { 1 ≤ result }
    ensures greatest { result ≤ 10 ^ 7 }
{
    let mut greatest = 1;
    for span in spans {
        greatest = size_of(&terms[span.begin..span.end]).max(greatest);
    }
    greatest
}

/// The absolute values of the coefficients, added up.
pub(crate) fn size_of(terms: &[Term]) -> u32
    requires { terms_size terms.now ≤ 10 ^ 7 }
    ensures { result ≡ terms_size terms.now }
{
    let mut size = 0;
    for term in terms {
        size += term.coef.unsigned_abs();
    }
    size
}
