ghost use Rattle.std.specs.Prelude.{◌≡◌, [], ◌∷◌, ◌++◌, length, IfOk, IsTrue};
ghost use Rattle.dual_ascent.specs.Short.{short_leaf};
ghost use Rattle.branch_solver.specs.Buffers.{HasOneRow};

use bound_cert::{Leaf, Line, Pair};
use dual_ascent::Short;
use span_base::Listed;
use std::alloc::{AllocError, Global};
use std::marker::Model;
use std::mem::replace;
use zero_one::Program;

/// Which of a buffer's lines it shows.
#[derive(Clone, Copy, Debug, PartialEq, Eq)]
enum Kind {
    Branch,
    Costs,
    OneRow,
    Long,
}

/// Holds a line that a search gave.
///
/// There is a line of each kind, so that none has to be made anew.
#[derive(Drop)]
pub struct LineBuf {
    kind: Kind,
    branch: Line,
    // The leaf without rows.
    costs: Line,
    // A leaf of exactly one pair, written over in its place.
    one_row: Line,
    // A leaf with memory for a pair of each row.
    long: Line,
    room: usize,
}

impl Model for LineBuf {
    ghost use Rattle.std.specs.Prelude.{◌≡◌, []};
    ghost use Rattle.bound_cert.specs.declared.leaves.Line.TheVariants.{Close};
    ghost use Rattle.branch_solver.specs.Buffers.{Buffer, shown_line, HasOneRow};

    ghost Value = { Buffer };

    ghost view = { λ b. record {
      line = shown_line b.kind b.branch b.costs b.one_row b.long;
      room = b.room;
    } };

    ghost invariant = { λ b. HasOneRow b.one_row × (b.costs ≡ Close (record { s = 1; pairs = [] })) };
}

impl LineBuf {
    /// A buffer with room for each line of the program. Past this it takes no memory.
    pub fn make(alloc: Global, program: &Program) -> Result<LineBuf, AllocError>
        ensures { IfOk result (λ buffer. buffer.room ≡ length program.now.rows) }
    {
        let room = program.rows().len();
        let no_pairs = Listed::from_vec(Vec::new(alloc));
        let one_pair = Listed::from_vec(vec![in alloc; Pair { row: 0, mult: 1 }]?);
        let pairs = Listed::from_vec(Vec::with_capacity(alloc, room)?);
        Ok(LineBuf {
            kind: Kind::Costs,
            branch: Line::Branch { var: 0 },
            costs: Line::Close(Leaf {
                s: 1,
                pairs: no_pairs,
            }),
            one_row: Line::Close(Leaf {
                s: 0,
                pairs: one_pair,
            }),
            long: Line::Close(Leaf { s: 1, pairs }),
            room,
        })
    }

    /// The line that the last step gave.
    pub fn line(&self) -> &Line
        ensures { result.now ≡ self.now.line }
    {
        match self.kind {
            Kind::Branch => &self.branch,
            Kind::Costs => &self.costs,
            Kind::OneRow => &self.one_row,
            Kind::Long => &self.long,
        }
    }

    /// Writes a branch.
    pub(crate) fn write_branch(&mut self, var: u16)
        ensures { self.new ≡ record { line = Line.Branch var; room = self.old.room } }
    {
        self.branch = Line::Branch { var };
        self.kind = Kind::Branch;
    }

    /// Writes a short leaf.
    pub(crate) fn write_short(&mut self, short: Short)
        ensures { self.new ≡ record { line = Line.Close (short_leaf short); room = self.old.room } }
    {
        match short {
            Short::Costs => self.kind = Kind::Costs,
            Short::OneRow { s, pair } => {
                let old = replace(&mut self.one_row, Line::Branch { var: 0 });
                self.one_row = with_one_row(old, s, pair);
                self.kind = Kind::OneRow;
            }
        }
    }

    /// Writes any leaf. Says whether the memory sufficed, as it does for the rows that there is
    /// room for.
    pub(crate) fn write_leaf(&mut self, leaf: &Leaf) -> bool
        ensures room { self.new.room ≡ self.old.room }
        ensures line { IsTrue result → self.new.line ≡ Line.Close leaf.now }
    {
        let old = replace(&mut self.long, Line::Branch { var: 0 });
        let Line::Close(old) = old else {
            return false;
        };
        let mut pairs = old.pairs.into_vec();
        pairs.clear();
        let sufficed = push_pairs(&mut pairs, leaf.pairs.as_slice());
        self.long = Line::Close(Leaf {
            s: leaf.s,
            pairs: Listed::from_vec(pairs),
        });
        self.kind = Kind::Long;
        sufficed
    }
}

/// The leaf with another `s` and another pair in the place of its own.
fn with_one_row(line: Line, s: u32, pair: Pair) -> Line
    requires { HasOneRow line }
    ensures { result ≡ Line.Close (record { s = s; pairs = pair ∷ [] }) }
{
    match line {
        Line::Close(leaf) => {
            let mut pairs = leaf.pairs.into_vec();
            pairs[0] = pair;
            Line::Close(Leaf {
                s,
                pairs: Listed::from_vec(pairs),
            })
        }
        Line::Branch { .. } => unreachable!(),
    }
}

/// Puts the pairs at the end. Says whether the memory sufficed.
#[tactic(auto, using(std::proofs::lemmas::List::take_more))]
fn push_pairs(pairs: &mut Vec<Pair>, more: &[Pair]) -> bool
    ensures { IsTrue result → pairs.new.items ≡ pairs.old.items ++ more.now }
{
    for pair in more {
        if pairs.push(*pair).is_err() {
            return false;
        }
    }
    true
}
