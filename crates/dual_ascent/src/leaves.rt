//! The leaf that is given: that of the multipliers, or a short one. Both have their memory from the
//! start.

ghost use Rattle.std.specs.Prelude.{◌≡◌, ◌+◌, ◌^◌, ◌<◌, ◌≤◌, length, All};
ghost use Rattle.zero_one.specs.Contents.{Contents};
ghost use Rattle.bound_cert.specs.Leaves.{LeafFits};
ghost use Rattle.dual_ascent.specs.Pairs.{AreInOrder};
ghost use Rattle.dual_ascent.specs.Short.{short_leaf};

use crate::short_leaf::Short;
use bound_cert::{Leaf, Pair};
use span_base::Listed;
use std::alloc::{AllocError, Global};
use std::marker::Model;
use std::mem::replace;

/// Which leaf is given.
#[derive(Clone, Copy, Debug, PartialEq, Eq)]
enum Source {
    Ascent,
    OneRow,
}

/// The leaves that can be given; contracts see the one that is.
#[derive(Drop)]
pub(crate) struct Leaves {
    alloc: Global,
    // The leaf of the multipliers, or the costs alone. It has room for a pair of each row.
    ascended: Leaf,
    // A leaf of exactly one pair, written over in its place.
    one_row: Leaf,
    source: Source,
}

impl Model for Leaves {
    ghost use Rattle.std.specs.Prelude.{◌≡◌, length};
    ghost use Rattle.bound_cert.specs.declared.leaves.Leaf.{Leaf};
    ghost use Rattle.dual_ascent.specs.Given.{given_leaf};

    ghost Value = { Leaf };

    ghost view = { λ l. given_leaf l.source l.ascended l.one_row };

    ghost invariant = { λ l. length l.one_row.pairs ≡ 1 };
}

impl Leaves {
    pub(crate) fn make(alloc: Global, rows: usize) -> Result<Leaves, AllocError> {
        Ok(Leaves {
            alloc,
            ascended: Leaf {
                s: 1,
                pairs: Listed::from_vec(Vec::with_capacity(alloc, rows)?),
            },
            one_row: Leaf {
                s: 0,
                pairs: Listed::from_vec(vec![in alloc; Pair { row: 0, mult: 1 }]?),
            },
            source: Source::Ascent,
        })
    }

    pub(crate) fn given(&self) -> &Leaf
        ensures { result.now ≡ self.now }
    {
        match self.source {
            Source::Ascent => &self.ascended,
            Source::OneRow => &self.one_row,
        }
    }

    /// Gives the leaf that takes the costs `s` times and each row by its multiplier. There is room
    /// for a pair of each row, so none is left out; were there not, the leaf would be weaker.
    pub(crate) fn give_multipliers(&mut self, s: u32, multipliers: &[u128])
        requires scale { s ≤ 10 ^ 6 }
        requires rows { length multipliers.now ≤ 16384 }
        requires ranges { All (λ multiplier. multiplier ≤ 10 ^ 30) multipliers.now }
        ensures scale { self.new.s ≡ s }
        ensures fits { (program : Contents) → length multipliers.now ≡ length program.rows → LeafFits program self.new }
    {
        let mut pairs = replace(&mut self.ascended.pairs, Listed::new(self.alloc)).into_vec();
        write_pairs(&mut pairs, multipliers);
        self.ascended = Leaf {
            s,
            pairs: Listed::from_vec(pairs),
        };
        self.source = Source::Ascent;
    }

    /// Gives a short leaf.
    pub(crate) fn give_short(&mut self, short: Short)
        ensures { self.new ≡ short_leaf short }
    {
        match short {
            Short::Costs => {
                let mut pairs = replace(
                    &mut self.ascended.pairs,
                    Listed::new(self.alloc),
                ).into_vec();
                pairs.clear();
                self.ascended = Leaf {
                    s: 1,
                    pairs: Listed::from_vec(pairs),
                };
                self.source = Source::Ascent;
            }
            Short::OneRow { s, pair } => {
                let mut pairs = replace(
                    &mut self.one_row.pairs,
                    Listed::new(self.alloc),
                ).into_vec();
                pairs[0] = pair;
                self.one_row = Leaf {
                    s,
                    pairs: Listed::from_vec(pairs),
                };
                self.source = Source::OneRow;
            }
        }
    }
}

/// Writes a pair for each row whose multiplier isn't 0, as far as there is room.
#[tactic(auto, using(crate::proofs::InOrder::none_in_order))]
fn write_pairs(pairs: &mut Vec<Pair>, multipliers: &[u128])
    requires rows { length multipliers.now ≤ 16384 }
    requires ranges { All (λ multiplier. multiplier ≤ 10 ^ 30) multipliers.now }
    ensures { AreInOrder (length multipliers.now) pairs.new.items }
{
    pairs.clear();
    for (row, multiplier) in multipliers.iter().enumerate() {
        add_pair(pairs, row as u16, *multiplier);
    }
}

/// Puts the row at the end with this multiplier, if that isn't 0 and there is room.
#[tactic(auto, using(crate::proofs::InOrder::more_rows, crate::proofs::InOrder::pair_pushed))]
fn add_pair(pairs: &mut Vec<Pair>, row: u16, mult: u128)
    requires order { AreInOrder row pairs.old.items }
    requires range { mult ≤ 10 ^ 30 }
    ensures { AreInOrder (row + 1) pairs.new.items }
{
    if mult > 0 && pairs.len() < pairs.capacity() {
        pairs.push_reserved(Pair { row, mult });
    }
}
