//! Rows that wait to be looked at.

ghost use Rattle.std.specs.Prelude.{◌≡◌, ◌<◌, ◌≤◌, IfOk, IfSome};

use std::alloc::{AllocError, Global};
use std::marker::Model;

/// A stack of rows, each of which waits there at most once. Contracts see for how many rows it is.
#[derive(Drop)]
pub(crate) struct RowStack {
    // The rows that wait stand in the first `count` places.
    rows: Vec<u16>,
    count: usize,
    // For each row whether it waits.
    waits: Vec<bool>,
}

impl Model for RowStack {
    ghost use Rattle.std.specs.Prelude.{ℕ, length};
    ghost use Rattle.dual_ascent.specs.Stacks.{IsStack};

    ghost Value = { ℕ };

    ghost view = { λ s. length s.waits.items };

    ghost invariant = { λ s. IsStack s.rows.items s.count s.waits.items };
}

impl RowStack {
    /// A stack on which no row waits.
    pub(crate) fn make(alloc: Global, rows: usize) -> Result<RowStack, AllocError>
        ensures { IfOk result (λ stack. stack ≡ rows) }
    {
        Ok(RowStack {
            rows: vec![in alloc; 0; rows]?,
            count: 0,
            waits: vec![in alloc; false; rows]?,
        })
    }

    /// Lets no row wait.
    pub(crate) fn clear(&mut self)
        ensures { self.new ≡ self.old }
    {
        self.waits.fill(false);
        self.count = 0;
    }

    /// Lets a row wait that may wait already.
    pub(crate) fn push(&mut self, row: u16)
        requires { row < self.old }
        ensures { self.new ≡ self.old }
    {
        let at = usize::from(row);
        if !self.waits[at] {
            self.waits[at] = true;
            self.rows[self.count] = row;
            self.count += 1;
        }
    }

    /// The row that came last of those that wait.
    pub(crate) fn top(&self) -> Option<usize>
        ensures { IfSome result (λ row. row < self.now) }
    {
        if self.count == 0 {
            None
        } else {
            Some(usize::from(self.rows[self.count - 1]))
        }
    }

    /// Lets the row wait no longer that came last.
    pub(crate) fn pop(&mut self)
        ensures { self.new ≡ self.old }
    {
        if self.count > 0 {
            self.count -= 1;
            let row = usize::from(self.rows[self.count]);
            self.waits[row] = false;
        }
    }
}
