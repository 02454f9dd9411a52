//! A line of a log.

ghost use Rattle.std.specs.Prelude.{◌≡◌, option_map};
ghost use Rattle.history_audit.specs.Words.{Gives};
ghost use Rattle.history_audit.specs.Lines.{key_says, set_says, keyed_says, work_by, work_says, word_reply, answer_says, reply_by, reply_says, cause_by, cause_says, begin_says, ticket_says, end_says, mark_by, line_by, line_says};

use crate::words::{LineFault, call_of, count_of, cut, number_up_to, stamp_of, value_of};
use run_marks::{Mark, NoEpochCause, Work};
use span_base::{KeyId, SetId, Value};
use std::alloc::Global;
use wire_msg::Reply;

/// What a line of a log says.
#[derive(Debug, PartialEq, Eq, Drop)]
pub enum LogLine {
    /// What an event left to be read.
    Mark(Mark),
    /// How many messages were sent: the last line.
    Messages(u32),
}

/// The number of a key, below 1,000.
#[tactic(auto, unfolding(crate::specs::Lines::key_says))]
fn key_of(text: &[u8]) -> Option<KeyId>
    ensures { result ≡ key_says text.now }
{
    let number = number_up_to(999, text)?;
    Some(KeyId(number as u16))
}

/// The number of a set, below 64.
#[tactic(auto, unfolding(crate::specs::Lines::set_says))]
fn set_of(text: &[u8]) -> Option<SetId>
    ensures { result ≡ set_says text.now }
{
    let number = number_up_to(63, text)?;
    Some(SetId(number as u16))
}

/// A key, and the value behind it.
#[tactic(auto, unfolding(crate::specs::Lines::keyed_says))]
fn keyed_of(alloc: Global, text: &[u8]) -> Result<(KeyId, Value), LineFault>
    ensures { Gives (keyed_says text.now) result }
{
    let Some((key, value)) = cut(text, b' ') else {
        return Err(LineFault::Bad);
    };
    let Some(key) = key_of(key) else {
        return Err(LineFault::Bad);
    };
    let value = value_of(alloc, value)?;
    Ok((key, value))
}

/// What a call does, and with which key.
#[tactic(auto, unfolding(crate::specs::Lines::work_says))]
fn work_of(alloc: Global, text: &[u8]) -> Result<(KeyId, Work), LineFault>
    ensures { Gives (work_says text.now) result }
{
    match cut(text, b' ') {
        Some((word, rest)) => work_by(alloc, word, rest),
        None => Err(LineFault::Bad),
    }
}

/// The work of this word, and its key.
#[tactic(auto, unfolding(crate::specs::Lines::work_by))]
fn work_by(alloc: Global, word: &[u8], rest: &[u8]) -> Result<(KeyId, Work), LineFault>
    ensures { Gives (work_by word.now rest.now) result }
{
    if word == b"read".as_slice() {
        keyed_by(key_of(rest), Work::Read)
    } else if word == b"write".as_slice() {
        let (key, value) = keyed_of(alloc, rest)?;
        Ok((key, Work::Write(value)))
    } else if word == b"get".as_slice() {
        keyed_by(key_of(rest), Work::Get)
    } else if word == b"getany".as_slice() {
        keyed_by(key_of(rest), Work::GetAny)
    } else if word == b"put".as_slice() {
        let (key, value) = keyed_of(alloc, rest)?;
        Ok((key, Work::Put(value)))
    } else if word == b"move".as_slice() {
        keyed_by(key_of(rest), Work::Move)
    } else {
        Err(LineFault::Bad)
    }
}

/// The work with its key, where there is one.
fn keyed_by(key: Option<KeyId>, work: Work) -> Result<(KeyId, Work), LineFault>
    ensures { Gives (option_map (λ k. (k, work)) key) result }
{
    match key {
        Some(key) => Ok((key, work)),
        None => Err(LineFault::Bad),
    }
}

/// An end of one word.
#[tactic(auto, unfolding(crate::specs::Lines::word_reply))]
fn word_reply(text: &[u8]) -> Option<Reply>
    ensures { result ≡ word_reply text.now }
{
    if text == b"unsure".as_slice() {
        Some(Reply::Unsure)
    } else if text == b"outside".as_slice() {
        Some(Reply::Outside)
    } else if text == b"full".as_slice() {
        Some(Reply::Full)
    } else if text == b"numbers-out".as_slice() {
        Some(Reply::NumbersOut)
    } else if text == b"given-up".as_slice() {
        Some(Reply::GivenUp)
    } else {
        None
    }
}

/// An answer: a stamp and a value, a stamp, or an epoch.
#[tactic(auto, unfolding(crate::specs::Lines::answer_says))]
fn answer_of(alloc: Global, text: &[u8]) -> Result<Reply, LineFault>
    ensures { Gives (answer_says text.now) result }
{
    if let Some((stamp, value)) = cut(text, b' ') {
        let Some(stamp) = stamp_of(stamp) else {
            return Err(LineFault::Bad);
        };
        let value = value_of(alloc, value)?;
        return Ok(Reply::Value { stamp, value });
    }
    if let Some(_) = cut(text, b'.') {
        return told(stamp_of(text).map(|stamp| Reply::Stored { stamp }));
    }
    told(count_of(text).map(|epoch| Reply::At { epoch }))
}

/// The reply, where there is one.
fn told(reply: Option<Reply>) -> Result<Reply, LineFault>
    ensures { Gives reply result }
{
    match reply {
        Some(reply) => Ok(reply),
        None => Err(LineFault::Bad),
    }
}

/// An end of a word and what it tells.
#[tactic(auto, unfolding(crate::specs::Lines::reply_by))]
fn reply_by(alloc: Global, word: &[u8], rest: &[u8]) -> Result<Reply, LineFault>
    ensures { Gives (reply_by word.now rest.now) result }
{
    if word == b"ok".as_slice() {
        answer_of(alloc, rest)
    } else if word == b"moved".as_slice() {
        told(count_of(rest).map(|epoch| Reply::Moved { epoch }))
    } else if word == b"fenced".as_slice() {
        told(stamp_of(rest).map(|held| Reply::Fenced { held }))
    } else if word == b"current".as_slice() {
        told(count_of(rest).map(|epoch| Reply::Current { epoch }))
    } else if word == b"stale".as_slice() {
        told(count_of(rest).map(|epoch| Reply::Stale { epoch }))
    } else {
        Err(LineFault::Bad)
    }
}

/// How a call ended.
#[tactic(auto, unfolding(crate::specs::Lines::reply_says))]
fn reply_of(alloc: Global, text: &[u8]) -> Result<Reply, LineFault>
    ensures { Gives (reply_says text.now) result }
{
    match cut(text, b' ') {
        Some((word, rest)) => reply_by(alloc, word, rest),
        None => told(word_reply(text)),
    }
}

/// Why a table opened no epoch.
#[tactic(auto, unfolding(crate::specs::Lines::cause_says))]
fn cause_of(text: &[u8]) -> Option<NoEpochCause>
    ensures { result ≡ cause_says text.now }
{
    let (word, rest) = cut(text, b' ')?;
    cause_by(word, rest)
}

/// The cause of this word, and its set.
#[tactic(auto, unfolding(crate::specs::Lines::cause_by))]
fn cause_by(word: &[u8], rest: &[u8]) -> Option<NoEpochCause>
    ensures { result ≡ cause_by word.now rest.now }
{
    if word == b"missing".as_slice() {
        set_of(rest).map(|set| NoEpochCause::MissingSet { set })
    } else if word == b"quorum".as_slice() {
        set_of(rest).map(|set| NoEpochCause::NotQuorum { set })
    } else {
        None
    }
}

/// The begin of a call.
#[tactic(auto, unfolding(crate::specs::Lines::begin_says))]
fn begin_of(alloc: Global, text: &[u8]) -> Result<Mark, LineFault>
    ensures { Gives (begin_says text.now) result }
{
    let Some((call, rest)) = cut(text, b' ') else {
        return Err(LineFault::Bad);
    };
    let Some(call) = call_of(call) else {
        return Err(LineFault::Bad);
    };
    let (key, work) = work_of(alloc, rest)?;
    Ok(Mark::Begin { call, key, work })
}

/// The ticket of a call.
#[tactic(auto, unfolding(crate::specs::Lines::ticket_says))]
fn ticket_of(text: &[u8]) -> Option<Mark>
    ensures { result ≡ ticket_says text.now }
{
    let (call, stamp) = cut(text, b' ')?;
    let call = call_of(call)?;
    let stamp = stamp_of(stamp)?;
    Some(Mark::Ticket { call, stamp })
}

/// The end of a call.
#[tactic(auto, unfolding(crate::specs::Lines::end_says))]
fn end_of(alloc: Global, text: &[u8]) -> Result<Mark, LineFault>
    ensures { Gives (end_says text.now) result }
{
    let Some((call, rest)) = cut(text, b' ') else {
        return Err(LineFault::Bad);
    };
    let Some(call) = call_of(call) else {
        return Err(LineFault::Bad);
    };
    let reply = reply_of(alloc, rest)?;
    Ok(Mark::End { call, reply })
}

/// The mark of this kind.
#[tactic(auto, unfolding(crate::specs::Lines::mark_by))]
fn mark_by(alloc: Global, kind: &[u8], rest: &[u8]) -> Result<Mark, LineFault>
    ensures { Gives (mark_by kind.now rest.now) result }
{
    if kind == b"begin".as_slice() {
        begin_of(alloc, rest)
    } else if kind == b"ticket".as_slice() {
        marked(ticket_of(rest))
    } else if kind == b"end".as_slice() {
        end_of(alloc, rest)
    } else if kind == b"epoch".as_slice() {
        marked(count_of(rest).map(|epoch| Mark::Epoch { epoch }))
    } else if kind == b"no-epoch".as_slice() {
        marked(cause_of(rest).map(|cause| Mark::NoEpoch { cause }))
    } else {
        Err(LineFault::Bad)
    }
}

/// The mark, where there is one.
fn marked(mark: Option<Mark>) -> Result<Mark, LineFault>
    ensures { Gives mark result }
{
    match mark {
        Some(mark) => Ok(mark),
        None => Err(LineFault::Bad),
    }
}

/// The line of this kind.
#[tactic(auto, unfolding(crate::specs::Lines::line_by))]
fn line_by(alloc: Global, kind: &[u8], rest: &[u8]) -> Result<LogLine, LineFault>
    ensures { Gives (line_by kind.now rest.now) result }
{
    if kind == b"messages".as_slice() {
        return match count_of(rest) {
            Some(sent) => Ok(LogLine::Messages(sent)),
            None => Err(LineFault::Bad),
        };
    }
    let mark = mark_by(alloc, kind, rest)?;
    Ok(LogLine::Mark(mark))
}

/// Reads a line, without its line feed. It is the inverse of `mark_text` where the numbers are
/// within the limits of a log.
#[tactic(auto, unfolding(crate::specs::Lines::line_says))]
pub(crate) fn read_line(alloc: Global, text: &[u8]) -> Result<LogLine, LineFault>
    ensures { Gives (line_says text.now) result }
{
    match cut(text, b' ') {
        Some((kind, rest)) => line_by(alloc, kind, rest),
        None => Err(LineFault::Bad),
    }
}
