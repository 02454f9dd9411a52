//! The line of an event.

ghost use Rattle.std.specs.Prelude.{◌≡◌, ◌≤◌, length};
ghost use Rattle.schedule_text.specs.Flaws.{Gives, made};
ghost use Rattle.schedule_text.specs.Pieces.{pieces};
ghost use Rattle.schedule_text.specs.Tables.{table_says};
ghost use Rattle.schedule_text.specs.Events.{plain_call, call_says, write_says, put_says, stop_of, stop_says, give_up_says, deliver_says, delivers, event_by, event_says};

use crate::flaw::{Flaw, both};
use crate::numbers::{count_of, value_of};
use crate::parts::{first_piece, one, three, two};
use crate::setting::{Form, Setting};
use crate::tables::table_of;
use run_marks::Work;
use span_base::Value;
use std::alloc::{AllocError, Global};
use world_core::Event;

/// A call without a value.
#[tactic(auto, unfolding(crate::specs::Events::plain_call))]
fn plain_call(work: Work, rest: Option<&[u8]>) -> Result<Event, Flaw>
    ensures { result ≡ plain_call work (pieces 32 rest.entry) }
{
    let Some((proxy, key)) = two(rest, b' ') else {
        return Err(Flaw::Syntax);
    };
    match both(count_of(proxy), count_of(key)) {
        Ok((proxy, key)) => Ok(Event::Start { proxy, key, work }),
        Err(flaw) => Err(flaw),
    }
}

/// The proxy, the key and the value of a call with a value.
#[tactic(auto, unfolding(crate::specs::Events::call_says))]
fn valued_call(
    alloc: Global,
    rest: Option<&[u8]>,
) -> Result<Result<((u32, u32), Value), Flaw>, AllocError>
    ensures { Gives (call_says (pieces 32 rest.entry)) result }
{
    let Some((proxy, key, value)) = three(rest, b' ') else {
        return Ok(Err(Flaw::Syntax));
    };
    let value = value_of(alloc, value)?;
    Ok(both(both(count_of(proxy), count_of(key)), value))
}

/// A call that writes a strong key.
#[tactic(auto, unfolding(crate::specs::Events::write_says))]
fn write_call(alloc: Global, rest: Option<&[u8]>) -> Result<Result<Event, Flaw>, AllocError>
    ensures { Gives (write_says (pieces 32 rest.entry)) result }
{
    match valued_call(alloc, rest)? {
        Ok(((proxy, key), value)) => Ok(Ok(Event::Start {
            proxy,
            key,
            work: Work::Write(value),
        })),
        Err(flaw) => Ok(Err(flaw)),
    }
}

/// A call that writes an eventual key.
#[tactic(auto, unfolding(crate::specs::Events::put_says))]
fn put_call(alloc: Global, rest: Option<&[u8]>) -> Result<Result<Event, Flaw>, AllocError>
    ensures { Gives (put_says (pieces 32 rest.entry)) result }
{
    match valued_call(alloc, rest)? {
        Ok(((proxy, key), value)) => Ok(Ok(Event::Start {
            proxy,
            key,
            work: Work::Put(value),
        })),
        Err(flaw) => Ok(Err(flaw)),
    }
}

/// The stop of an actor.
#[tactic(auto, unfolding(crate::specs::Events::stop_says))]
fn stop(rest: Option<&[u8]>) -> Result<Event, Flaw>
    ensures { result ≡ stop_says (pieces 32 rest.entry) }
{
    let Some((actor, number)) = two(rest, b' ') else {
        return Err(Flaw::Syntax);
    };
    if actor == b"replica".as_slice() {
        count_of(number).map(|replica| Event::StopReplica { replica })
    } else if actor == b"proxy".as_slice() {
        count_of(number).map(|proxy| Event::StopProxy { proxy })
    } else {
        Err(Flaw::Syntax)
    }
}

/// A client that waits no longer.
#[tactic(auto, unfolding(crate::specs::Events::give_up_says))]
fn give_up(rest: Option<&[u8]>) -> Result<Event, Flaw>
    ensures { result ≡ give_up_says (pieces 32 rest.entry) }
{
    let Some((proxy, seq)) = two(rest, b' ') else {
        return Err(Flaw::Syntax);
    };
    match both(count_of(proxy), count_of(seq)) {
        Ok((proxy, seq)) => Ok(Event::GiveUp { proxy, seq }),
        Err(flaw) => Err(flaw),
    }
}

/// The delivery of a message.
#[tactic(auto, unfolding(crate::specs::Events::deliver_says))]
fn deliver(rest: Option<&[u8]>) -> Result<Event, Flaw>
    ensures { result ≡ deliver_says (pieces 32 rest.entry) }
{
    match one(rest, b' ') {
        Some(message) => count_of(message).map(|message| Event::Deliver { message }),
        None => Err(Flaw::Syntax),
    }
}

/// Whether schedules of the form deliver messages.
pub(crate) fn delivers(form: Form) -> bool
    ensures { result ≡ delivers form }
{
    match form {
        Form::Plain => true,
        Form::Script => false,
    }
}

/// A table that is published.
fn publish(
    alloc: Global,
    setting: &Setting,
    rest: Option<&[u8]>,
) -> Result<Result<Event, Flaw>, AllocError>
    requires { length setting.now.modes ≤ 64 }
    ensures { Gives (made Event.Publish (table_says setting.now (pieces 32 rest.entry))) result }
{
    match table_of(alloc, setting, rest)? {
        Ok(table) => Ok(Ok(Event::Publish { table })),
        Err(flaw) => Ok(Err(flaw)),
    }
}

/// The event of this word.
#[tactic(auto, unfolding(crate::specs::Events::event_by))]
pub(crate) fn event_by(
    alloc: Global,
    setting: &Setting,
    word: &[u8],
    rest: Option<&[u8]>,
) -> Result<Result<Event, Flaw>, AllocError>
    requires { length setting.now.modes ≤ 64 }
    ensures { Gives (event_by setting.now word.now (pieces 32 rest.entry)) result }
{
    if word == b"read".as_slice() {
        Ok(plain_call(Work::Read, rest))
    } else if word == b"write".as_slice() {
        write_call(alloc, rest)
    } else if word == b"get".as_slice() {
        Ok(plain_call(Work::Get, rest))
    } else if word == b"getany".as_slice() {
        Ok(plain_call(Work::GetAny, rest))
    } else if word == b"put".as_slice() {
        put_call(alloc, rest)
    } else if word == b"move".as_slice() {
        Ok(plain_call(Work::Move, rest))
    } else if word == b"deliver".as_slice() && delivers(setting.form) {
        Ok(deliver(rest))
    } else if word == b"stop".as_slice() {
        Ok(stop(rest))
    } else if word == b"give-up".as_slice() {
        Ok(give_up(rest))
    } else if word == b"publish".as_slice() {
        publish(alloc, setting, rest)
    } else {
        Ok(Err(Flaw::Syntax))
    }
}

/// The event of a line, without its line feed.
#[tactic(auto, unfolding(crate::specs::Events::event_says))]
pub(crate) fn event_of(
    alloc: Global,
    setting: &Setting,
    text: &[u8],
) -> Result<Result<Event, Flaw>, AllocError>
    requires { length setting.now.modes ≤ 64 }
    ensures { Gives (event_says setting.now text.now) result }
{
    let (word, rest) = first_piece(text, b' ');
    event_by(alloc, setting, word, rest)
}
