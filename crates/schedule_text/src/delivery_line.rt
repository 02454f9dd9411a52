//! The line of a delivery. Most lines of a schedule are one, so it is read by itself, byte by byte,
//! where its number is short.

ghost use Rattle.std.specs.Prelude.{◌≡◌, ◌≢◌, ◌<◌, ◌≤◌, ◌++◌, codes, drop, length, slice_index, IsTrue, MatchOption, IfSome};
ghost use Rattle.schedule_text.specs.Left.{lines_left};
ghost use Rattle.schedule_text.specs.Deliveries.{BeginsWithNumber, BeginsWithDelivery, IsNextDelivery};

use crate::event_line::delivers;
use crate::lines::Lines;
use crate::setting::Setting;

/// The most digits of a number that is read so.
const DIGITS: usize = 9;

/// How many digits come before the line feed at the end of the first line, where there are 1 to 9 of
/// them and nothing else, and the first isn't 0; and the number that they spell.
fn short_number(text: &[u8]) -> Option<(usize, u32)>
    ensures { IfSome result (λ it. BeginsWithNumber text.now it.0 it.1) }
{
    match text {
        [] => None,
        [b'0', ..] => None,
        _ => short_digits(text),
    }
}

/// The same of a text whose first byte isn't `0`.
fn short_digits(text: &[u8]) -> Option<(usize, u32)>
    requires some { 0 < length text.now }
    requires no_zero { slice_index text.now 0 ≢ 48 }
    ensures { IfSome result (λ it. BeginsWithNumber text.now it.0 it.1) }
{
    let mut number: u32 = 0;
    for (at, byte) in text.iter().enumerate() {
        if 0 < at && *byte == b'\n' {
            return Some((at, number));
        }
        if at == DIGITS || !byte.is_ascii_digit() {
            return None;
        }
        number = number * 10 + u32::from(*byte - b'0');
    }
    None
}

/// Whether the text begins with `deliver` and a space.
#[tactic(auto, using(crate::proofs::Deliveries::begins))]
fn begins_delivery(text: &[u8]) -> bool
    ensures begins { IsTrue result → text.now ≡ codes "deliver " ++ drop 8 text.now }
    ensures long { IsTrue result → 8 ≤ length text.now }
{
    match text {
        [b'd', b'e', b'l', b'i', b'v', b'e', b'r', b' ', ..] => true,
        _ => false,
    }
}

/// How many bytes the first line has with its line feed, and the message that it delivers, where it
/// is the line of a delivery, and its number has at most nine digits and isn't 0.
fn delivery_of(text: &[u8]) -> Option<(usize, u32)>
    ensures { IfSome result (λ it. BeginsWithDelivery text.now it.0 it.1) }
{
    if !begins_delivery(text) {
        return None;
    }
    let (digits, message) = short_number(&text[8..])?;
    Some((8 + digits + 1, message))
}

/// The message that the next line delivers, if it is told at once that it delivers one.
pub(crate) fn next_delivery(setting: &Setting, lines: &mut Lines<'_>) -> Option<u32>
    ensures next { MatchOption result (lines.new ≡ lines.old) (λ n. IsNextDelivery setting.now n (lines_left lines.old) (lines_left lines.new)) }
    ensures text { lines.new.text ≡ lines.old.text }
    ensures further { IfSome result (λ _. lines.old.at < lines.new.at) }
{
    if !delivers(setting.form) {
        return None;
    }
    let (len, message) = delivery_of(&lines.text[lines.at..])?;
    lines.at += len;
    Some(message)
}
