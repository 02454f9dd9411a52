//! What the lines so far tell of proxies, tickets and keys.

ghost use Rattle.std.specs.Prelude.{◌≡◌, ℕ, ◌==◌, OnOk, cond, true, length};
ghost use Rattle.ticket_rules.specs.Stamp.{greater};
ghost use Rattle.register_order.specs.Order.{is_same_stamp};
ghost use Rattle.history_audit.specs.Tables.{has_key, last_of, top_at, was_drawn};

use indexmap::IndexMap;
use span_base::KeyId;
use std::alloc::AllocError;
use std::collections::BTreeSet;
use ticket_rules::{Stamp, greater};

/// The number of the last call of each proxy.
#[derive(Debug, Drop)]
pub(crate) struct LastCalls {
    pub(crate) by_proxy: IndexMap<u8, u32>,
}

impl LastCalls {
    /// The number of the proxy's last call, 0 where it began none.
    pub(crate) fn of(&self, proxy: u8) -> u32
        ensures { result ≡ last_of self.now proxy }
    {
        match self.by_proxy.get(&proxy) {
            Some(seq) => *seq,
            None => 0,
        }
    }

    /// The proxy's last call has this number.
    pub(crate) fn set(&mut self, proxy: u8, seq: u32) -> Result<(), AllocError>
        ensures { OnOk result ((other : ℕ) → last_of self.new other ≡ cond (proxy == other) seq (last_of self.old other)) }
    {
        match self.by_proxy.insert(proxy, seq) {
            Ok(_) => Ok(()),
            Err(_) => Err(AllocError),
        }
    }
}

/// The tickets that were drawn. Each tells its call. They are kept in order: whoever writes a log
/// chooses them, and could choose such as share the place of a hash table.
#[derive(Debug, Drop)]
pub(crate) struct Tickets {
    pub(crate) drawn: BTreeSet<Stamp>,
}

impl Tickets {
    /// Whether the ticket was drawn.
    pub(crate) fn has(&self, stamp: Stamp) -> bool
        ensures { result ≡ was_drawn self.now stamp }
    {
        self.drawn.contains(&stamp)
    }

    /// One more ticket is drawn.
    pub(crate) fn add(&mut self, stamp: Stamp) -> Result<(), AllocError>
        ensures { OnOk result ((other : Stamp) → was_drawn self.new other ≡ cond (is_same_stamp stamp other) true (was_drawn self.old other)) }
    {
        match self.drawn.insert(stamp) {
            Ok(_) => Ok(()),
            Err(_) => Err(AllocError),
        }
    }
}

/// For each key with a read or a write, the greatest stamp that one was answered with.
#[derive(Debug, Drop)]
pub(crate) struct Tops {
    pub(crate) by_key: IndexMap<u16, Stamp>,
}

impl Tops {
    /// The greatest stamp that a read or a write of the key was answered with, zero where none
    /// was.
    pub(crate) fn of(&self, key: KeyId) -> Stamp
        ensures { result ≡ top_at self.now key.0 }
    {
        match self.by_key.get(&key.0) {
            Some(top) => *top,
            None => Stamp::zero(),
        }
    }

    /// Whether a read or a write of the key has begun.
    pub(crate) fn has(&self, key: KeyId) -> bool
        ensures { result ≡ has_key self.now key.0 }
    {
        self.by_key.contains_key(&key.0)
    }

    /// The greatest stamp of the key is this one.
    pub(crate) fn set(&mut self, key: KeyId, stamp: Stamp) -> Result<(), AllocError>
        ensures top { OnOk result ((other : ℕ) → top_at self.new other ≡ cond (key.0 == other) stamp (top_at self.old other)) }
        ensures has { OnOk result ((other : ℕ) → has_key self.new other ≡ cond (key.0 == other) true (has_key self.old other)) }
    {
        match self.by_key.insert(key.0, stamp) {
            Ok(_) => Ok(()),
            Err(_) => Err(AllocError),
        }
    }

    /// A read or a write of the key was answered with this stamp.
    pub(crate) fn raise(&mut self, key: KeyId, stamp: Stamp) -> Result<(), AllocError>
        ensures top { OnOk result ((other : ℕ) → top_at self.new other ≡ cond (key.0 == other) (greater (top_at self.old key.0) stamp) (top_at self.old other)) }
        ensures has { OnOk result ((other : ℕ) → has_key self.new other ≡ cond (key.0 == other) true (has_key self.old other)) }
    {
        let top = greater(&self.of(key), &stamp);
        self.set(key, top)
    }
}
