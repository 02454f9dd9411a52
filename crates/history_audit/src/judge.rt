//! The clauses, tried at each line on what the lines before it told.

ghost use Rattle.std.specs.Prelude.{◌≡◌, ◌≢◌, ◌==◌, ◌↔◌, ◌+◌, ◌&&◌, IsTrue, ℕ, Bool, List, [], Ok, OnOk, Some, cond, min, not, option_copied, option_map, true};
ghost use Rattle.run_marks.specs.History.{is_dead, is_register_work, is_same_call};
ghost use Rattle.history_audit.specs.Calls.{counting, look};
ghost use Rattle.history_audit.specs.Tables.{has_key, top_at};
ghost use Rattle.history_audit.specs.Summed.{is_counted};
ghost use Rattle.ticket_rules.specs.Stamp.{stamp_zero};
ghost use Rattle.run_marks.specs.declared.mark.Work.TheVariants as w;
ghost use Rattle.run_marks.specs.declared.mark.Mark.TheVariants as k;
ghost use Rattle.history_audit.specs.Told.{IsKept, KeepsFirst, Tells};
ghost use Rattle.history_audit.specs.Judging.{CountsGiven, EndsAsRead, Judges, ReadBreaks, TellsNoStamp, ToldBy, WasWritten, drawer_of};
ghost use Rattle.register_order.specs.Form.{KeepsForm};
ghost use Rattle.wire_msg.specs.declared.outputs.Reply.{Reply};
ghost use Rattle.wire_msg.specs.declared.outputs.Reply.TheVariants as r;

use crate::calls::{CallState, CallTable, Ending};
use crate::fault::Clause;
use crate::form::{
    breaks_dead, end_break, ending_of, is_dead, is_reading, is_register_work, is_write_of,
    is_writing, is_zero, may_count, ticket_break, writer_break, zero_break,
};
use crate::summary::Summary;
use crate::tables::{LastCalls, Tickets, Tops};
use indexmap::IndexMap;
use run_marks::{Mark, Work};
use span_base::{Call, KeyId, Value};
use std::alloc::{AllocError, Global};
use std::collections::BTreeSet;
use ticket_rules::Stamp;
use wire_msg::Reply;

/// What the lines so far told. The step at each takes a time that doesn't grow with their number,
/// and memory is taken for calls, tickets and keys alone.
#[derive(Debug, Drop)]
pub(crate) struct Judge {
    calls: CallTable,
    lasts: LastCalls,
    tickets: Tickets,
    tops: Tops,
    /// Of the lines so far.
    pub(crate) summary: Summary,
}

impl Judge {
    /// No line was read. It takes no memory.
    pub(crate) fn new(alloc: Global) -> Judge
        ensures { ToldBy [] result }
    {
        Judge {
            calls: CallTable {
                calls: IndexMap::new(alloc),
            },
            lasts: LastCalls {
                by_proxy: IndexMap::new(alloc),
            },
            tickets: Tickets {
                drawn: BTreeSet::new(alloc),
            },
            tops: Tops {
                by_key: IndexMap::new(alloc),
            },
            summary: Summary {
                calls: 0,
                counted: 0,
                keys: 0,
            },
        }
    }

    /// Takes the mark of the next line, or tells the first clause that it breaks.
    pub(crate) fn take(&mut self, mark: Mark) -> Result<Option<Clause>, AllocError>
        ensures { (marks : List Mark) → ToldBy marks self.old → Judges marks mark self.new result }
    {
        match mark {
            Mark::Begin { call, key, work } => self.begin(call, key, work),
            Mark::Ticket { call, stamp } => self.ticket(call, stamp),
            Mark::End { call, reply } => self.end(call, &reply),
            Mark::Epoch { .. } => Ok(None),
            Mark::NoEpoch { .. } => Ok(None),
        }
    }

    fn begin(&mut self, call: Call, key: KeyId, work: Work) -> Result<Option<Clause>, AllocError>
        ensures { (marks : List Mark) → ToldBy marks self.old → Judges marks (k.Begin call key work) self.new result }
    {
        let last = self.lasts.of(call.proxy);
        if !is_next(call.seq, last) {
            return Ok(Some(Clause::Call));
        }
        let floor = self.tops.of(key);
        note_begin(&mut self.tops, &mut self.summary, key, &work)?;
        let state = CallState {
            key,
            work,
            floor,
            latest: None,
            counted: None,
            ending: Ending::Open,
        };
        self.calls.add(call, state)?;
        self.lasts.set(call.proxy, call.seq)?;
        Ok(None)
    }

    fn ticket(&mut self, call: Call, stamp: Stamp) -> Result<Option<Clause>, AllocError>
        ensures { (marks : List Mark) → ToldBy marks self.old → Judges marks (k.Ticket call stamp) self.new result }
    {
        let Some(state) = self.calls.find(call) else {
            return Ok(Some(Clause::Call));
        };
        if let Some(clause) = ticket_break(state, call, stamp) {
            return Ok(Some(clause));
        }
        self.tickets.add(stamp)?;
        self.calls.draw(call, stamp);
        Ok(None)
    }

    fn end(&mut self, call: Call, reply: &Reply) -> Result<Option<Clause>, AllocError>
        ensures { (marks : List Mark) → ToldBy marks self.old → Judges marks (k.End call reply.now) self.new result }
    {
        let Some(state) = self.calls.find(call) else {
            return Ok(Some(Clause::Call));
        };
        if let Some(clause) = end_break(state, reply) {
            return Ok(Some(clause));
        }
        match reply {
            Reply::Value { stamp, value } => {
                if is_reading(&state.work) {
                    let key = state.key;
                    let floor = state.floor;
                    return self.end_read(call, key, floor, *stamp, value);
                }
                Ok(self.end_other(call, false))
            }
            Reply::Stored { stamp } => {
                if is_writing(&state.work) {
                    return self.end_write(call, *stamp);
                }
                Ok(self.end_other(call, false))
            }
            _ => Ok(self.end_other(call, is_dead(reply))),
        }
    }

    /// A read of the key ends with this value.
    fn end_read(
        &mut self,
        call: Call,
        key: KeyId,
        floor: Stamp,
        stamp: Stamp,
        value: &Value,
    ) -> Result<Option<Clause>, AllocError>
        ensures { (marks : List Mark) → ToldBy marks self.old → EndsAsRead (look self.old.calls call) key floor → KeepsForm marks (k.End call (r.Value stamp value.now)) → Judges marks (k.End call (r.Value stamp value.now)) self.new result }
    {
        if let Some(clause) = self.read_break(key, floor, stamp, value) {
            return Ok(Some(clause));
        }
        count_given(&mut self.calls, &mut self.summary.counted, stamp);
        count(&mut self.calls, &mut self.summary.counted, call, stamp);
        self.calls.end(call, Ending::Ended);
        self.tops.raise(key, stamp)?;
        Ok(None)
    }

    /// The first clause that a read of the key breaks that gives this value.
    fn read_break(&self, key: KeyId, floor: Stamp, stamp: Stamp, value: &Value) -> Option<Clause>
        ensures { (marks : List Mark) → ToldBy marks self.now → ReadBreaks marks (look self.now.calls) key floor stamp value.now result }
    {
        if is_zero(stamp) {
            return zero_break(floor, value);
        }
        let Some(writer) = self.written(key, stamp, value) else {
            return Some(Clause::Value);
        };
        writer_break(writer, floor, stamp)
    }

    /// The write of the key that drew the ticket, where it wrote this value.
    fn written(&self, key: KeyId, stamp: Stamp, value: &Value) -> Option<&CallState>
        ensures { (marks : List Mark) → ToldBy marks self.now → WasWritten marks (look self.now.calls) key stamp value.now (option_copied result) }
    {
        if !self.tickets.has(stamp) {
            return None;
        }
        let Some(state) = self.calls.find(drawer(stamp)) else {
            return None;
        };
        if !is_write_of(state, key, value) {
            return None;
        }
        Some(state)
    }

    /// A write ends stored.
    fn end_write(&mut self, call: Call, stamp: Stamp) -> Result<Option<Clause>, AllocError>
        ensures { (marks : List Mark) (key : KeyId) (value : List ℕ) → ToldBy marks self.old → IsKept (look self.old.calls call) key (w.Write value) → KeepsForm marks (k.End call (r.Stored stamp)) → Judges marks (k.End call (r.Stored stamp)) self.new result }
    {
        let Some(state) = self.calls.find(call) else {
            return Ok(Some(Clause::Call));
        };
        if !may_count(state, stamp) {
            return Ok(Some(Clause::Order));
        }
        let key = state.key;
        count(&mut self.calls, &mut self.summary.counted, call, stamp);
        self.calls.end(call, Ending::Ended);
        self.tops.raise(key, stamp)?;
        Ok(None)
    }

    /// A call ends with what no read gives.
    fn end_other(&mut self, call: Call, dead: bool) -> Option<Clause>
        ensures { (marks : List Mark) (reply : Reply) → ToldBy marks self.old → KeepsFirst marks (k.End call reply) → TellsNoStamp (look self.old.calls call) reply → dead ≡ is_dead reply → Judges marks (k.End call reply) self.new (Ok result) }
    {
        let Some(state) = self.calls.find(call) else {
            return Some(Clause::Call);
        };
        if breaks_dead(state, dead) {
            return Some(Clause::Dead);
        }
        self.calls.end(call, ending_of(dead));
        None
    }
}

/// Whether the number comes next after the last one.
fn is_next(seq: u32, last: u32) -> bool
    ensures { IsTrue result ↔ (seq ≡ last + 1) }
{
    seq > last && seq - last == 1
}

/// One more. A log of 4,000,000 lines has no number that stands still here.
fn one_more(count: u32) -> u32
    ensures { result ≡ min (count + 1) 4294967295 }
{
    count.saturating_add(1)
}

/// A call of the key begins.
fn note_begin(
    tops: &mut Tops,
    summary: &mut Summary,
    key: KeyId,
    work: &Work,
) -> Result<(), AllocError>
    ensures tops { OnOk result ((other : ℕ) → top_at tops.new other ≡ top_at tops.old other) }
    ensures has { OnOk result ((other : ℕ) → has_key tops.new other ≡ cond (is_register_work work.now && not (has_key tops.old key.0)) (cond (key.0 == other) true (has_key tops.old other)) (has_key tops.old other)) }
    ensures counted { OnOk result (summary.new.counted ≡ summary.old.counted) }
    ensures calls { OnOk result (summary.new.calls ≡ cond (is_register_work work.now) (min (summary.old.calls + 1) 4294967295) summary.old.calls) }
    ensures keys { OnOk result (summary.new.keys ≡ cond (is_register_work work.now && not (has_key tops.old key.0)) (min (summary.old.keys + 1) 4294967295) summary.old.keys) }
{
    if !is_register_work(work) {
        return Ok(());
    }
    summary.calls = one_more(summary.calls);
    if !tops.has(key) {
        summary.keys = one_more(summary.keys);
        tops.set(key, Stamp::zero())?;
    }
    Ok(())
}

/// The call counts with this stamp.
fn count(calls: &mut CallTable, counted: &mut u32, call: Call, stamp: Stamp)
    ensures calls { (other : Call) → look calls.new other ≡ cond (is_same_call call other) (option_map (counting stamp) (look calls.old call)) (look calls.old other) }
    ensures counted { counted.new ≡ cond (is_counted (look calls.old call)) counted.old (min (counted.old + 1) 4294967295) }
{
    if !calls.counts(call) {
        *counted = one_more(*counted);
    }
    calls.count(call, stamp);
}

/// The write that drew the ticket counts, since a read gave it: none where the read gave what
/// nobody wrote.
fn count_given(calls: &mut CallTable, counted: &mut u32, stamp: Stamp)
    ensures tells { (marks : List Mark) (last : ℕ → ℕ) (drawn : Stamp → Bool) → Tells marks (look calls.old) last drawn → Tells marks (look calls.new) last drawn }
    ensures given { CountsGiven stamp (look calls.old) (look calls.new) }
    ensures none { stamp ≡ stamp_zero → counted.new ≡ counted.old }
    ensures one { stamp ≢ stamp_zero → counted.new ≡ cond (is_counted (look calls.old (drawer_of stamp))) counted.old (min (counted.old + 1) 4294967295) }
    ensures kept { (other : Call) (key : KeyId) (work : Work) → IsKept (look calls.old other) key work → IsKept (look calls.new other) key work }
{
    if is_zero(stamp) {
        return;
    }
    count(calls, counted, drawer(stamp), stamp);
}

/// The call that drew the ticket.
fn drawer(stamp: Stamp) -> Call
    ensures { result ≡ drawer_of stamp }
{
    Call {
        proxy: stamp.proxy,
        seq: stamp.seq,
    }
}
