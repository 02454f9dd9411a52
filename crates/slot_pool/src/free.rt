//! The free slots of a pool, as a tree of words.
//!
//! Node 0 is the root word, and the nodes below word `n` are `64 * n + 1` to `64 * n + 64`. So the
//! bit of node `n` is bit `(n - 1) % 64` of word `(n - 1) / 64`. The slots are the nodes of the
//! lowest level, from `first` on, and the nodes above them are words.
ghost use Rattle.std.specs.Prelude.{◌≡◌, ◌≢◌, ℕ, ◌+◌, ◌*◌, ◌^◌, ◌<◌, ◌≤◌, length, IfOk, replicate, true, false, position, slice_get, Some, slice_set};
ghost use Rattle.std.specs.Int.{bit_at};
ghost use Rattle.slot_pool.specs.Nodes.{first_below, IsSummary, ChangesLeaf};

use std::alloc::{AllocError, Global};
use std::marker::Model;

/// The bits of a word.
const WORD_BITS: usize = 64;

/// Which slots of a pool are free.
#[derive(Drop)]
pub(crate) struct FreeSlots {
    words: Vec<u64>,
    // How many levels of words stand above the slots.
    levels: usize,
    // The node of slot 0.
    first: usize,
    // How many slots there are.
    count: usize,
}

impl Model for FreeSlots {
    ghost use Rattle.std.specs.Prelude.{List, Bool};

    ghost Value = { List Bool };

    ghost use Rattle.slot_pool.specs.Nodes.{flags_from, IsTree};

    ghost view = { λ f. flags_from f.words.items f.first f.count };

    ghost invariant = { λ f. IsTree f.words.items f.levels f.first f.count };
}

// The word with a bit more.
fn with_bit(word: u64, place: usize) -> u64
    requires { place < 64 }
    ensures set { bit_at result place ≡ 1 }
    ensures others { (i : ℕ) → i < 64 → i ≢ place → bit_at result i ≡ bit_at word i }
{
    word | 1 << place
}

// The word without a bit.
fn without_bit(word: u64, place: usize) -> u64
    requires { place < 64 }
    ensures cleared { bit_at result place ≡ 0 }
    ensures smaller { result ≤ word }
    ensures others { (i : ℕ) → i < 64 → i ≢ place → bit_at result i ≡ bit_at word i }
{
    word & !(1 << place)
}

// Gives a leaf its bit, and each word above it.
fn raise(words: &mut [u64], leaf: usize)
    requires summary { IsSummary words.old }
    requires leaf { length words.old ≤ leaf }
    requires below_root { 1 ≤ leaf }
    requires within { leaf ≤ 64 * length words.old }
    ensures summary { IsSummary words.new }
    ensures changes { ChangesLeaf words.old words.new leaf 1 }
{
    let mut node = leaf;
    while node > 0 {
        let above = (node - 1) / WORD_BITS;
        let word = words[above];
        words[above] = with_bit(word, (node - 1) % WORD_BITS);
        if word != 0 {
            return;
        }
        node = above;
    }
}

// Takes a leaf's bit, and that of each word above it that has none left.
fn lower(words: &mut [u64], leaf: usize)
    requires summary { IsSummary words.old }
    requires leaf { length words.old ≤ leaf }
    requires below_root { 1 ≤ leaf }
    requires within { leaf ≤ 64 * length words.old }
    ensures summary { IsSummary words.new }
    ensures changes { ChangesLeaf words.old words.new leaf 0 }
{
    let mut node = leaf;
    while node > 0 {
        let above = (node - 1) / WORD_BITS;
        let word = without_bit(words[above], (node - 1) % WORD_BITS);
        words[above] = word;
        if word != 0 {
            return;
        }
        node = above;
    }
}

// How many levels of words so many slots need, and the node of slot 0 below them.
fn shape(count: usize) -> (usize, usize)
    requires { count ≤ 1000000 }
    ensures first { result.1 ≡ first_below result.0 }
    ensures room { count ≤ 63 * result.1 + 1 }
    ensures small { result.1 < 2 ^ 32 }
    ensures positive { 1 ≤ result.1 }
{
    let mut levels = 1;
    let mut first = 1;
    while count > (WORD_BITS - 1) * first + 1 {
        levels += 1;
        first = WORD_BITS * first + 1;
    }
    (levels, first)
}

impl FreeSlots {
    /// So many slots, each free.
    pub(crate) fn make(alloc: Global, count: u32) -> Result<FreeSlots, AllocError>
        requires { count ≤ 1000000 }
        ensures { IfOk result (λ free. free ≡ replicate count true) }
    {
        let count = count as usize;
        let (levels, first) = shape(count);
        let mut words = vec![in alloc; 0; (first + count - 1).div_ceil(WORD_BITS)]?;
        for slot in 0..count {
            raise(&mut words, first + slot);
        }
        Ok(FreeSlots {
            words,
            levels,
            first,
            count,
        })
    }

    /// The free slot of the smallest number.
    pub(crate) fn smallest(&self) -> Option<u32>
        ensures { result ≡ position (λ free. free) self.now }
    {
        if self.words.first().copied().unwrap_or(0) == 0 {
            return None;
        }
        let mut node = 0;
        for _ in 0..self.levels {
            let place = self.words[node].trailing_zeros() as usize;
            node = WORD_BITS * node + 1 + place;
        }
        Some((node - self.first) as u32)
    }

    /// The slot is no longer free.
    pub(crate) fn fill(&mut self, slot: u32)
        requires { slot < length self.old }
        ensures { self.new ≡ slice_set self.old slot false }
    {
        let leaf = self.first + slot as usize;
        lower(&mut self.words, leaf);
    }

    /// The slot is free again.
    pub(crate) fn release(&mut self, slot: u32)
        requires { slot < length self.old }
        ensures { self.new ≡ slice_set self.old slot true }
    {
        let leaf = self.first + slot as usize;
        raise(&mut self.words, leaf);
    }
}
