//! The coefficients of a program, line by line: a line is a row, or a column taken negated, so
//! that one rule serves both sides.

use crate::layout::{add_terms, count_terms, fill, greatest_size, lay_out};
use std::alloc::{AllocError, Global};
use std::marker::Model;
use zero_one::Program;

/// A coefficient of a line, with the line of the other side that it stands in.
#[derive(Clone, Copy)]
pub(crate) struct Term {
    pub(crate) other: u16,
    pub(crate) coef: i32,
}

/// Where the terms of a line stand: from `begin` on, up to `end`.
#[derive(Clone, Copy)]
pub(crate) struct Span {
    pub(crate) begin: usize,
    pub(crate) end: usize,
}

/// The lines of one side, with all their terms one after another.
#[derive(Drop)]
pub(crate) struct Table {
    terms: Vec<Term>,
    spans: Vec<Span>,
    // The number of lines of the other side.
    others: usize,
    // The greatest size of a line; at least 1.
    size: u32,
}

impl Model for Table {
    ghost use Rattle.std.specs.Prelude.{length};
    ghost use Rattle.primal_dual.specs.Sizes.{Sizes};
    ghost use Rattle.primal_dual.specs.Tables.{IsTable};

    ghost Value = { Sizes };

    ghost view = { λ t. record { lines = length t.spans.items; others = t.others; size = t.size } };

    ghost invariant = { λ t. IsTable t.terms.items t.spans.items t.others t.size };
}

impl Table {
    ghost use Rattle.std.specs.Prelude.{◌≡◌, ◌^◌, ◌<◌, ◌≤◌, length, IfOk};
    ghost use Rattle.primal_dual.specs.Tables.{IsLaidOut, AreKnown, terms_size};

    /// The rows of a program, against its variables.
    pub(crate) fn of_rows(alloc: Global, program: &Program) -> Result<Table, AllocError>
        ensures lines { IfOk result (λ table. table.lines ≡ length program.now.rows) }
        ensures others { IfOk result (λ table. table.others ≡ length program.now.costs) }
    {
        let others = program.costs().len();
        let mut terms = Vec::new(alloc);
        let mut spans = Vec::with_capacity(alloc, program.rows().len())?;
        for row in program.rows() {
            let begin = terms.len();
            add_terms(&mut terms, row.entries.as_slice())?;
            let end = terms.len();
            spans.push(Span { begin, end })?;
        }
        Ok(Table::finished(terms, spans, others))
    }

    /// The columns of a program, against its rows, whose table is given.
    pub(crate) fn of_columns(
        alloc: Global,
        program: &Program,
        rows: &Table,
    ) -> Result<Table, AllocError>
        requires { rows.now.others ≡ length program.now.costs }
        ensures lines { IfOk result (λ table. table.lines ≡ length program.now.costs) }
        ensures others { IfOk result (λ table. table.others ≡ length program.now.rows) }
    {
        let count = program.costs().len();
        let mut spans = vec![in alloc; Span { begin: 0, end: 0 }; count]?;
        if program.rows().is_empty() {
            return Ok(Table::finished(Vec::new(alloc), spans, 0));
        }
        let mut counts = vec![in alloc; 0; count]?;
        count_terms(rows.terms.as_slice(), counts.as_mut_slice());
        lay_out(counts.as_slice(), spans.as_mut_slice());
        let mut terms = vec![in alloc; Term { other: 0, coef: 0 }; rows.terms.len()]?;
        fill(program.rows(), spans.as_mut_slice(), terms.as_mut_slice());
        Ok(Table::finished(terms, spans, program.rows().len()))
    }

    fn finished(terms: Vec<Term>, spans: Vec<Span>, others: usize) -> Table
        requires { IsLaidOut terms.items spans.items others }
        ensures lines { result.lines ≡ length spans.items }
        ensures others { result.others ≡ others }
    {
        let size = greatest_size(terms.as_slice(), spans.as_slice());
        Table {
            terms,
            spans,
            others,
            size,
        }
    }

    /// The number of lines.
    pub(crate) fn len(&self) -> usize
        ensures same { result ≡ self.now.lines }
        ensures few { result ≤ 16384 }
    {
        self.spans.len()
    }

    /// The greatest size of a line.
    pub(crate) fn size(&self) -> u32
        ensures same { result ≡ self.now.size }
        ensures least { 1 ≤ result }
        ensures greatest { result ≤ 10 ^ 7 }
    {
        self.size
    }

    /// The terms of a line.
    pub(crate) fn terms(&self, line: usize) -> &[Term]
        requires { line < self.now.lines }
        ensures known { AreKnown self.now.others result.now }
        ensures size { terms_size result.now ≤ self.now.size }
        ensures light { terms_size result.now ≤ 10 ^ 7 }
        ensures least { 1 ≤ self.now.size }
    {
        let span = self.spans[line];
        &self.terms[span.begin..span.end]
    }
}
