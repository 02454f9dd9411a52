//! What a line may say of its call, by what was told of the call.

ghost use Rattle.std.specs.Prelude.{◌≡◌, ◌↔◌, ◌&&◌, IsTrue, cond, is_some, not};
ghost use Rattle.ticket_rules.specs.Stamp.{stamp_zero};
ghost use Rattle.history_audit.specs.declared.calls.Ending.TheVariants.{Dead, Ended};
ghost use Rattle.run_marks.specs.History.{is_dead, is_register_work};
ghost use Rattle.register_order.specs.Order.{is_reading};
ghost use Rattle.register_order.specs.Form.{answers_of, draws, fits};
ghost use Rattle.history_audit.specs.Judged.{CountsAs, EndBreaks, GivesLast, IsNext, IsWriteWork, TicketBreaks, WriterBreaks, ZeroBreaks};

use crate::calls::{CallState, Ending};
use crate::fault::Clause;
use run_marks::Work;
use span_base::{Call, KeyId, Value};
use ticket_rules::Stamp;
use wire_msg::Reply;

/// Whether the work is that of a register.
pub(crate) fn is_register_work(work: &Work) -> bool
    ensures { result ≡ is_register_work work.now }
{
    match work {
        Work::Read => true,
        Work::Write(_) => true,
        _ => false,
    }
}

/// Whether the end leaves a write with a value that nobody may read.
pub(crate) fn is_dead(reply: &Reply) -> bool
    ensures { result ≡ is_dead reply.now }
{
    match reply {
        Reply::Moved { .. } => true,
        Reply::Fenced { .. } => true,
        Reply::Outside => true,
        Reply::Full => true,
        Reply::NumbersOut => true,
        _ => false,
    }
}

/// Whether the work is a move.
fn is_move(work: &Work) -> bool
    ensures opens { result ≡ (answers_of work.now).opens }
    ensures stays { result ≡ (answers_of work.now).stays }
    ensures goes_on { not result ≡ (answers_of work.now).goes_on }
    ensures enters { not result ≡ (answers_of work.now).enters }
{
    matches!(work, Work::Move)
}

/// Whether a call with this work is answered with a value.
fn gives(work: &Work) -> bool
    ensures { result ≡ (answers_of work.now).gives }
{
    match work {
        Work::Read => true,
        Work::Get => true,
        Work::GetAny => true,
        _ => false,
    }
}

/// Whether the work is a read of a register.
pub(crate) fn is_reading(work: &Work) -> bool
    ensures { result ≡ is_reading work.now }
{
    matches!(work, Work::Read)
}

/// Whether the work is a write of a register, which may lose its ticket.
pub(crate) fn is_writing(work: &Work) -> bool
    ensures { result ≡ (answers_of work.now).loses }
{
    matches!(work, Work::Write(_))
}

/// Whether a call with this work draws tickets, and is answered with one.
fn draws(work: &Work) -> bool
    ensures draws { result ≡ draws work.now }
    ensures stores { result ≡ (answers_of work.now).stores }
    ensures runs_out { result ≡ (answers_of work.now).runs_out }
{
    match work {
        Work::Write(_) => true,
        Work::Put(_) => true,
        _ => false,
    }
}

/// Whether a call with this work may end so.
fn may_end(work: &Work, reply: &Reply) -> bool
    ensures { result ≡ fits (answers_of work.now) reply.now }
{
    match reply {
        Reply::Value { .. } => gives(work),
        Reply::Stored { .. } => draws(work),
        Reply::At { .. } => is_move(work),
        Reply::Moved { .. } => !is_move(work),
        Reply::Fenced { .. } => is_writing(work),
        Reply::Unsure => is_writing(work),
        Reply::Current { .. } => is_move(work),
        Reply::Stale { .. } => is_move(work),
        Reply::Outside => !is_move(work),
        Reply::Full => true,
        Reply::NumbersOut => draws(work),
        Reply::GivenUp => true,
    }
}

/// Whether the ticket is the call's, and above its earlier ones.
fn is_next_ticket(latest: Option<Stamp>, call: Call, stamp: Stamp) -> bool
    ensures { IsTrue result ↔ IsNext latest call stamp }
{
    if stamp.proxy != call.proxy || stamp.seq != call.seq || stamp.number == 0 {
        return false;
    }
    match latest {
        Some(latest) => stamp > latest,
        None => true,
    }
}

/// Whether a reply that gives a ticket gives the latest one.
fn gives_latest(latest: Option<Stamp>, reply: &Reply) -> bool
    ensures { IsTrue result ↔ GivesLast latest reply.now }
{
    match reply {
        Reply::Stored { stamp } => latest == Some(*stamp),
        _ => true,
    }
}

/// The first clause on form that the ticket of the call breaks.
pub(crate) fn ticket_break(state: &CallState, call: Call, stamp: Stamp) -> Option<Clause>
    ensures { TicketBreaks state.now call stamp result }
{
    if state.ending != Ending::Open {
        Some(Clause::Call)
    } else if !draws(&state.work) {
        Some(Clause::Kind)
    } else if !is_next_ticket(state.latest, call, stamp) {
        Some(Clause::Stamp)
    } else {
        None
    }
}

/// The first clause on form that the end of the call breaks.
pub(crate) fn end_break(state: &CallState, reply: &Reply) -> Option<Clause>
    ensures { EndBreaks state.now reply.now result }
{
    if state.ending != Ending::Open {
        Some(Clause::Call)
    } else if !may_end(&state.work, reply) {
        Some(Clause::Kind)
    } else if !gives_latest(state.latest, reply) {
        Some(Clause::Stamp)
    } else {
        None
    }
}

/// Whether a write that came so far may count with this stamp: with the one with which it counts
/// already, or with one above its floor.
pub(crate) fn may_count(state: &CallState, stamp: Stamp) -> bool
    ensures { IsTrue result ↔ CountsAs state.now.counted state.now.floor stamp }
{
    match state.counted {
        Some(counted) => counted == stamp,
        None => stamp > state.floor,
    }
}

/// Whether the stamp is that of the empty value that nobody wrote.
pub(crate) fn is_zero(stamp: Stamp) -> bool
    ensures { IsTrue result ↔ (stamp ≡ stamp_zero) }
{
    stamp.epoch == 0 && stamp.number == 0 && stamp.proxy == 0 && stamp.seq == 0
}

/// Whether the call is a write of the key with this value.
pub(crate) fn is_write_of(state: &CallState, key: KeyId, value: &Value) -> bool
    ensures { IsTrue result ↔ ((state.now.key ≡ key) × IsWriteWork state.now.work value.now) }
{
    match &state.work {
        Work::Write(written) => state.key == key && written == value,
        _ => false,
    }
}

/// The first clause that a read with this floor breaks that gives the value that nobody wrote.
pub(crate) fn zero_break(floor: Stamp, value: &Value) -> Option<Clause>
    ensures { ZeroBreaks floor value.now result }
{
    if !value.is_empty() {
        Some(Clause::Value)
    } else if floor > Stamp::zero() {
        Some(Clause::Order)
    } else {
        None
    }
}

/// The first clause that a read with this floor breaks that gives what this write stored with
/// this ticket.
pub(crate) fn writer_break(writer: &CallState, floor: Stamp, stamp: Stamp) -> Option<Clause>
    ensures { WriterBreaks writer.now floor stamp result }
{
    if writer.ending == Ending::Dead {
        Some(Clause::Dead)
    } else if floor > stamp {
        Some(Clause::Order)
    } else if !may_count(writer, stamp) {
        Some(Clause::Order)
    } else {
        None
    }
}

/// Whether a call ends so that nobody may read its value, though a read gave it.
pub(crate) fn breaks_dead(state: &CallState, dead: bool) -> bool
    ensures { result ≡ (dead && is_some state.now.counted) }
{
    dead && state.counted.is_some()
}

/// How a call is over.
pub(crate) fn ending_of(dead: bool) -> Ending
    ensures { result ≡ cond dead Dead Ended }
{
    if dead { Ending::Dead } else { Ending::Ended }
}
