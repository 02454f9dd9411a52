ghost use Rattle.std.specs.Prelude.{◌≡◌, ◌↔◌, ◌+◌, ◌<◌, ◌≤◌, IsTrue, length};
ghost use Rattle.span_base.specs.Name.{IsName};
ghost use Rattle.span_base.specs.Number.{IsNumber};
ghost use Rattle.plan_check.specs.Words.{IsModeWord, IsPairOf, IsSetForm};
ghost use Rattle.plan_check.specs.Checks.{RefusesSet};

use crate::fault::CheckFault;
use crate::word::{behind, is_number};
use memchr::memchr;
use span_base::{Cause, read_name};

/// Whether a text is a name.
pub fn is_name(text: &[u8]) -> bool
    ensures { IsTrue result ↔ IsName text.now }
{
    read_name(text).is_ok()
}

/// Whether a text is the word of a mode.
fn is_mode(text: &[u8]) -> bool
    ensures { IsTrue result ↔ IsModeWord text.now }
{
    if text == b"direct".as_slice() {
        return true;
    }
    if text == b"relay".as_slice() {
        return true;
    }
    text == b"strong".as_slice()
}

/// Whether a text is a mode and, behind a space, a number.
fn is_mode_and_count(text: &[u8]) -> bool
    ensures { IsTrue result ↔ IsPairOf IsModeWord IsNumber text.now }
{
    match memchr(b' ', text) {
        Some(at) => is_mode(&text[..at]) && is_number(&text[at + 1..]),
        None => false,
    }
}

/// Whether a text is a name and, behind spaces, a mode and a number.
fn is_described(text: &[u8]) -> bool
    ensures { IsTrue result ↔ IsPairOf IsName (IsPairOf IsModeWord IsNumber) text.now }
{
    match memchr(b' ', text) {
        Some(at) => is_name(&text[..at]) && is_mode_and_count(&text[at + 1..]),
        None => false,
    }
}

/// Whether a line begins the part of some set.
fn is_set_line(line: &[u8]) -> bool
    ensures { IsTrue result ↔ IsSetForm line.now }
{
    match behind(line, b"set ") {
        Some(rest) => is_described(rest),
        None => false,
    }
}

/// The refusal of a line, which is the file's line `number`, where another set's line is due.
pub(crate) fn refuse_set(line: &[u8], number: u64) -> CheckFault
    ensures { RefusesSet line.now number result }
{
    if line == b"end".as_slice() || is_set_line(line) {
        return CheckFault::Refused {
            line: number,
            cause: Cause::Set,
        };
    }
    CheckFault::Bad {
        line: number,
        cause: Cause::Syntax,
    }
}
