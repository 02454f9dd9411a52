//! The words of a log's line, as they are spelled there.

ghost use Rattle.std.specs.Prelude.{◌≡◌, ◌≤◌, ◌↔◌, IfSome, IfOk, IsTrue, Option, option_map, length};
ghost use Rattle.std.specs.List.{list_all};
ghost use Rattle.history_audit.specs.Words.{Gives, cut, is_lower_digit, number_up_to, proxy_says, count_says, call_says, stamp_says, value_says};

use hex::FromHexError;
use memchr::memchr;
use span_base::{Call, Value, read_number};
use std::alloc::{AllocError, Global};
use ticket_rules::Stamp;

/// Why a line, or a word of one, could not be read.
#[derive(Clone, Copy, Debug, PartialEq, Eq)]
pub(crate) enum LineFault {
    /// It is of no form, or a number is above its limit.
    Bad,
    NoMemory(AllocError),
}

impl From<AllocError> for LineFault {
    ghost use Rattle.std.specs.Prelude.{◌≡◌};
    ghost use Rattle.history_audit.specs.declared.words.LineFault.TheVariants.{NoMemory};

    ghost from_gives = { λ error fault. fault ≡ NoMemory error };

    fn from(error: AllocError) -> LineFault {
        LineFault::NoMemory(error)
    }
}

/// What stands before the first such byte, and what after it.
pub(crate) fn cut(text: &[u8], byte: u8) -> Option<(&[u8], &[u8])>
    ensures { option_map (λ parts. (parts.0.now, parts.1.now)) result ≡ cut byte text.now }
{
    let at = memchr(byte, text)?;
    Some((&text[..at], &text[at + 1..]))
}

/// A number of at most so much.
#[tactic(auto, unfolding(crate::specs::Words::number_up_to))]
pub(crate) fn number_up_to(most: u64, text: &[u8]) -> Option<u64>
    ensures number { result ≡ number_up_to most text.now }
    ensures within { IfSome result (λ n. n ≤ most) }
{
    match read_number(text, u128::from(most)) {
        Ok(number) => Some(number as u64),
        Err(_) => None,
    }
}

/// The number of a proxy.
#[tactic(auto, unfolding(crate::specs::Words::proxy_says))]
fn proxy_of(text: &[u8]) -> Option<u8>
    ensures { result ≡ proxy_says text.now }
{
    let number = number_up_to(63, text)?;
    Some(number as u8)
}

/// A count, or the number of a call or of an epoch.
#[tactic(auto, unfolding(crate::specs::Words::count_says))]
pub(crate) fn count_of(text: &[u8]) -> Option<u32>
    ensures { result ≡ count_says text.now }
{
    let number = number_up_to(4_294_967_295, text)?;
    Some(number as u32)
}

/// A call, as `P.SEQ`.
#[tactic(auto, unfolding(crate::specs::Words::call_says))]
pub(crate) fn call_of(text: &[u8]) -> Option<Call>
    ensures { result ≡ call_says text.now }
{
    let (proxy, seq) = cut(text, b'.')?;
    let proxy = proxy_of(proxy)?;
    let seq = count_of(seq)?;
    Some(Call { proxy, seq })
}

/// A stamp, as `EPOCH.NUMBER.PROXY.SEQ`.
#[tactic(auto, unfolding(crate::specs::Words::stamp_says))]
pub(crate) fn stamp_of(text: &[u8]) -> Option<Stamp>
    ensures { result ≡ stamp_says text.now }
{
    let (epoch, rest) = cut(text, b'.')?;
    let (number, call) = cut(rest, b'.')?;
    let epoch = count_of(epoch)?;
    let number = number_up_to(18_446_744_073_709_551_615, number)?;
    let Call { proxy, seq } = call_of(call)?;
    Some(Stamp {
        epoch,
        number,
        proxy,
        seq,
    })
}

/// Whether these are hexadecimal digits, in lower case.
fn are_digits(text: &[u8]) -> bool
    ensures { result ≡ list_all is_lower_digit text.now }
{
    text.iter().all(|c| matches!(*c, b'0'..=b'9' | b'a'..=b'f'))
}

/// A value: `-`, or two digits for each byte.
#[tactic(auto, unfolding(crate::specs::Words::value_says))]
pub(crate) fn value_of(alloc: Global, text: &[u8]) -> Result<Value, LineFault>
    ensures { Gives (value_says text.now) result }
{
    if text == b"-".as_slice() {
        return Ok(Value::empty(alloc));
    }
    if text.len() < 2 || text.len() > 8192 || !are_digits(text) {
        return Err(LineFault::Bad);
    }
    match hex::decode(alloc, text) {
        Ok(bytes) => Ok(Value::from_vec(bytes)),
        Err(FromHexError::OutOfMemory) => Err(LineFault::NoMemory(AllocError)),
        Err(_) => Err(LineFault::Bad),
    }
}
