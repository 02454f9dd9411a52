//! The line of an event of a restart run.

ghost use Rattle.std.specs.Prelude.{◌≡◌, ◌≤◌, length};
ghost use Rattle.schedule_text.specs.Flaws.{Gives};
ghost use Rattle.schedule_text.specs.Pieces.{pieces};
ghost use Rattle.schedule_text.specs.Numbers.{spelled};
ghost use Rattle.schedule_text.specs.Kept.{disk_call, image_says, crash_says, kept_by, kept_event_says};

use crate::event_line::event_by;
use crate::flaw::{Flaw, both};
use crate::kept_event::KeptEvent;
use crate::numbers::{count_of, spelled};
use crate::parts::{first_piece, three};
use crate::setting::Setting;
use std::alloc::{AllocError, Global};

/// A call of the disk.
fn disk_call(text: &[u8], spelled: Option<u128>) -> Result<u8, Flaw>
    ensures { result ≡ disk_call text.now spelled }
{
    let Some(call) = spelled else {
        return Err(if text.is_empty() {
            Flaw::Syntax
        } else {
            Flaw::Number
        });
    };
    if 1 <= call && call <= 4 {
        Ok(call as u8)
    } else {
        Err(Flaw::Number)
    }
}

/// Whether the disk has the new bytes of its last call.
fn image_of(text: &[u8]) -> Result<bool, Flaw>
    ensures { result ≡ image_says text.now }
{
    if text == b"new".as_slice() {
        Ok(true)
    } else if text == b"old".as_slice() {
        Ok(false)
    } else {
        Err(Flaw::Syntax)
    }
}

/// The crash of a replica.
#[tactic(auto, unfolding(crate::specs::Kept::crash_says))]
fn crash(rest: Option<&[u8]>) -> Result<KeptEvent, Flaw>
    ensures { result ≡ crash_says (pieces 32 rest.entry) }
{
    let Some((message, call, image)) = three(rest, b' ') else {
        return Err(Flaw::Syntax);
    };
    let call = disk_call(call, spelled(call));
    match both(both(count_of(message), call), image_of(image)) {
        Ok(((message, call), is_new)) => Ok(KeptEvent::Crash {
            message,
            call,
            is_new,
        }),
        Err(flaw) => Err(flaw),
    }
}

/// The event of this word.
#[tactic(auto, unfolding(crate::specs::Kept::kept_by))]
fn kept_by(
    alloc: Global,
    setting: &Setting,
    word: &[u8],
    rest: Option<&[u8]>,
) -> Result<Result<KeptEvent, Flaw>, AllocError>
    requires { length setting.now.modes ≤ 64 }
    ensures { Gives (kept_by setting.now word.now (pieces 32 rest.entry)) result }
{
    if word == b"crash".as_slice() {
        return Ok(crash(rest));
    }
    match event_by(alloc, setting, word, rest)? {
        Ok(event) => Ok(Ok(KeptEvent::Event(event))),
        Err(flaw) => Ok(Err(flaw)),
    }
}

/// The event of a line, without its line feed.
#[tactic(auto, unfolding(crate::specs::Kept::kept_event_says))]
pub(crate) fn kept_event_of(
    alloc: Global,
    setting: &Setting,
    text: &[u8],
) -> Result<Result<KeptEvent, Flaw>, AllocError>
    requires { length setting.now.modes ≤ 64 }
    ensures { Gives (kept_event_says setting.now text.now) result }
{
    let (word, rest) = first_piece(text, b' ');
    kept_by(alloc, setting, word, rest)
}
