ghost use Rattle.std.specs.Prelude.{◌≡◌, ◌++◌, IfOk, OnOk, string_bytes};
ghost use Rattle.run_marks.specs.Text.{value_text, call_text, stamp_text, work_text, reply_text, cause_text, mark_text};

use crate::mark::{Mark, NoEpochCause, Work};
use span_base::{Bytes, Call, KeyId, Value};
use std::alloc::{AllocError, Global};
use ticket_rules::Stamp;
use wire_msg::Reply;

/// The line of a mark, without its line feed.
pub fn mark_text(alloc: Global, mark: &Mark) -> Result<Bytes, AllocError>
    ensures { IfOk result (λ text. text ≡ mark_text mark.now) }
{
    let mut text = String::new(alloc);
    push_mark(&mut text, mark)?;
    Ok(Bytes::from_vec(text.into_bytes()))
}

/// Puts the line of a mark at the end, without its line feed.
pub fn push_mark(text: &mut String, mark: &Mark) -> Result<(), AllocError>
    ensures { OnOk result (string_bytes text.new ≡ string_bytes text.old ++ mark_text mark.now) }
{
    match mark {
        Mark::Begin { call, key, work } => {
            write!(text, "begin ")?;
            push_call(text, *call)?;
            write!(text, " ")?;
            push_work(text, *key, work)
        }
        Mark::Ticket { call, stamp } => {
            write!(text, "ticket ")?;
            push_call(text, *call)?;
            write!(text, " ")?;
            push_stamp(text, *stamp)
        }
        Mark::End { call, reply } => {
            write!(text, "end ")?;
            push_call(text, *call)?;
            write!(text, " ")?;
            push_reply(text, reply)
        }
        Mark::Epoch { epoch } => write!(text, "epoch {epoch}"),
        Mark::NoEpoch { cause } => push_cause(text, *cause),
    }
}

fn push_call(text: &mut String, call: Call) -> Result<(), AllocError>
    ensures { OnOk result (string_bytes text.new ≡ string_bytes text.old ++ call_text call) }
{
    let proxy = call.proxy;
    let seq = call.seq;
    write!(text, "{proxy}.{seq}")
}

fn push_stamp(text: &mut String, stamp: Stamp) -> Result<(), AllocError>
    ensures { OnOk result (string_bytes text.new ≡ string_bytes text.old ++ stamp_text stamp) }
{
    let epoch = stamp.epoch;
    let number = stamp.number;
    let proxy = stamp.proxy;
    let seq = stamp.seq;
    write!(text, "{epoch}.{number}.{proxy}.{seq}")
}

fn push_value(text: &mut String, value: &Value) -> Result<(), AllocError>
    ensures { OnOk result (string_bytes text.new ≡ string_bytes text.old ++ value_text value.now) }
{
    if value.is_empty() {
        return write!(text, "-");
    }
    let alloc = *text.allocator();
    let digits = hex::encode(alloc, value.as_slice())?;
    text.push_str(digits.as_str())
}

fn push_work(text: &mut String, key: KeyId, work: &Work) -> Result<(), AllocError>
    ensures { OnOk result (string_bytes text.new ≡ string_bytes text.old ++ work_text key.0 work.now) }
{
    let key = key.0;
    match work {
        Work::Read => write!(text, "read {key}"),
        Work::Write(value) => {
            write!(text, "write {key} ")?;
            push_value(text, value)
        }
        Work::Get => write!(text, "get {key}"),
        Work::GetAny => write!(text, "getany {key}"),
        Work::Put(value) => {
            write!(text, "put {key} ")?;
            push_value(text, value)
        }
        Work::Move => write!(text, "move {key}"),
    }
}

fn push_reply(text: &mut String, reply: &Reply) -> Result<(), AllocError>
    ensures { OnOk result (string_bytes text.new ≡ string_bytes text.old ++ reply_text reply.now) }
{
    match reply {
        Reply::Value { stamp, value } => {
            write!(text, "ok ")?;
            push_stamp(text, *stamp)?;
            write!(text, " ")?;
            push_value(text, value)
        }
        Reply::Stored { stamp } => {
            write!(text, "ok ")?;
            push_stamp(text, *stamp)
        }
        Reply::At { epoch } => write!(text, "ok {epoch}"),
        Reply::Moved { epoch } => write!(text, "moved {epoch}"),
        Reply::Fenced { held } => {
            write!(text, "fenced ")?;
            push_stamp(text, *held)
        }
        Reply::Unsure => write!(text, "unsure"),
        Reply::Current { epoch } => write!(text, "current {epoch}"),
        Reply::Stale { epoch } => write!(text, "stale {epoch}"),
        Reply::Outside => write!(text, "outside"),
        Reply::Full => write!(text, "full"),
        Reply::NumbersOut => write!(text, "numbers-out"),
        Reply::GivenUp => write!(text, "given-up"),
    }
}

fn push_cause(text: &mut String, cause: NoEpochCause) -> Result<(), AllocError>
    ensures { OnOk result (string_bytes text.new ≡ string_bytes text.old ++ (mark_text (Mark.NoEpoch cause))) }
{
    match cause {
        NoEpochCause::MissingSet { set } => {
            let set = set.0;
            write!(text, "no-epoch missing {set}")
        }
        NoEpochCause::NotQuorum { set } => {
            let set = set.0;
            write!(text, "no-epoch quorum {set}")
        }
    }
}
