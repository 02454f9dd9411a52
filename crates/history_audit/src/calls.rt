//! What the lines so far tell of each call.

ghost use Rattle.std.specs.Prelude.{◌≡◌, OnOk, OnErr, Some, cond, option_copied, option_map};
ghost use Rattle.run_marks.specs.History.{is_same_call};
ghost use Rattle.history_audit.specs.Summed.{is_counted};
ghost use Rattle.history_audit.specs.Calls.{counting, drawing, ending_so, look};

use indexmap::IndexMap;
use run_marks::Work;
use span_base::{Call, KeyId};
use std::alloc::{AllocError, Global};
use ticket_rules::Stamp;

/// Whether a call has ended, and whether nobody may read its value then.
#[derive(Clone, Copy, Debug, PartialEq, Eq)]
pub(crate) enum Ending {
    Open,
    Ended,
    Dead,
}

/// What the lines so far tell of a call.
#[derive(Debug, Drop)]
pub(crate) struct CallState {
    pub(crate) key: KeyId,
    pub(crate) work: Work,
    /// The greatest stamp that a read or write of the key was answered with before the call began.
    pub(crate) floor: Stamp,
    /// The latest ticket that it drew.
    pub(crate) latest: Option<Stamp>,
    /// The stamp with which it counts, where it does.
    pub(crate) counted: Option<Stamp>,
    pub(crate) ending: Ending,
}

/// The calls that have begun.
#[derive(Debug, Drop)]
pub(crate) struct CallTable {
    /// By their proxies and their numbers.
    pub(crate) calls: IndexMap<(u8, u32), CallState>,
}

impl CallTable {
    /// The call, where it has begun.
    pub(crate) fn find(&self, call: Call) -> Option<&CallState>
        ensures { option_copied result ≡ look self.now call }
    {
        self.calls.get(&(call.proxy, call.seq))
    }

    /// A call begins.
    pub(crate) fn add(&mut self, call: Call, state: CallState) -> Result<(), AllocError>
        ensures { OnOk result ((other : Call) → look self.new other ≡ cond (is_same_call call other) (Some state) (look self.old other)) }
    {
        match self.calls.insert((call.proxy, call.seq), state) {
            Ok(_) => Ok(()),
            Err(_) => Err(AllocError),
        }
    }

    /// The call draws a ticket.
    pub(crate) fn draw(&mut self, call: Call, stamp: Stamp)
        ensures { (other : Call) → look self.new other ≡ cond (is_same_call call other) (option_map (drawing stamp) (look self.old call)) (look self.old other) }
    {
        if let Some(state) = self.calls.get_mut(&(call.proxy, call.seq)) {
            state.latest = Some(stamp);
        }
    }

    /// Whether the call counts.
    pub(crate) fn counts(&self, call: Call) -> bool
        ensures { result ≡ is_counted (look self.now call) }
    {
        match self.find(call) {
            Some(state) => state.counted.is_some(),
            None => false,
        }
    }

    /// The call counts with this stamp.
    pub(crate) fn count(&mut self, call: Call, stamp: Stamp)
        ensures { (other : Call) → look self.new other ≡ cond (is_same_call call other) (option_map (counting stamp) (look self.old call)) (look self.old other) }
    {
        if let Some(state) = self.calls.get_mut(&(call.proxy, call.seq)) {
            state.counted = Some(stamp);
        }
    }

    /// The call is over.
    pub(crate) fn end(&mut self, call: Call, ending: Ending)
        ensures { (other : Call) → look self.new other ≡ cond (is_same_call call other) (option_map (ending_so ending) (look self.old call)) (look self.old other) }
    {
        if let Some(state) = self.calls.get_mut(&(call.proxy, call.seq)) {
            state.ending = ending;
        }
    }
}
