//! How much a call sends, told before it is made.

ghost use Rattle.std.specs.Prelude.{◌≡◌, ◌+◌, ◌≤◌, length};
ghost use Rattle.call_phase.specs.Best.{lent_found};
ghost use Rattle.strong_proxy.specs.Parts.{first_bulk, repair_bulk, store_bulk, bulk_for};

use crate::next::Next;
use crate::progress::{Leg, Progress};
use crate::state::Work;
use call_phase::Lent;
use span_base::{DcSet, Value};
use wire_msg::Bulk;
use wire_msg::sizes::{
    ASK_BYTES, CONFIRM_BYTES, LOOKUP_BYTES, READ_BYTES, REPAIR_BYTES, STORE_BYTES,
};

impl Progress {
    /// How much is sent, before it is made.
    pub(crate) fn bulk(&self, next: &Next, work: &Work, best: Option<Lent>) -> Bulk
        ensures { result ≡ bulk_for next.now work.now (lent_found best.entry) self.now }
    {
        match next {
            Next::Repair => repair_bulk(best, self.leg.writes),
            Next::Store => store_bulk(work, self.leg.writes),
            Next::Stored => Bulk::to_each(self.leg.writes, CONFIRM_BYTES),
            Next::Look | Next::Moved => Bulk::one(LOOKUP_BYTES),
            Next::Enter(leg) => first_bulk(work, leg),
            Next::Wait
            | Next::Value
            | Next::Fenced
            | Next::Unsure
            | Next::Outside
            | Next::NumbersOut => Bulk::none(),
        }
    }
}

fn first_bulk(work: &Work, leg: &Leg) -> Bulk
    ensures { result ≡ first_bulk work.now leg.now }
{
    match work {
        Work::ToRead => Bulk::to_each(leg.reads, READ_BYTES),
        Work::ToWrite(_) => Bulk::to_each(leg.writes, ASK_BYTES),
    }
}

fn repair_bulk(best: Option<Lent>, writes: DcSet) -> Bulk
    ensures { result ≡ repair_bulk (lent_found best.entry) writes }
{
    match best {
        Some(found) => Bulk::to_each(writes, with_value(REPAIR_BYTES, found.value)),
        None => Bulk::none(),
    }
}

fn store_bulk(work: &Work, writes: DcSet) -> Bulk
    ensures { result ≡ store_bulk work.now writes }
{
    match work {
        Work::ToWrite(value) => Bulk::to_each(writes, with_value(STORE_BYTES, value)),
        Work::ToRead => Bulk::none(),
    }
}

/// The bytes of a frame with its value.
fn with_value(bytes: u32, value: &Value) -> u32
    requires { bytes ≤ 64 }
    ensures sum { result ≡ bytes + length value.now }
    ensures limit { result ≤ 4160 }
{
    bytes + value.len() as u32
}
