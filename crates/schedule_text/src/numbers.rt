//! The words of a line that spell numbers, or a value.

ghost use Rattle.std.specs.Prelude.{◌≡◌, ◌≤◌, ◌<◌, IfOk};
ghost use Rattle.std.specs.List.{list_all};
ghost use Rattle.schedule_text.specs.Flaws.{judged, Gives};
ghost use Rattle.schedule_text.specs.Numbers.{spelled, number_by, number_says, count_says, centre_says, one_of, replica_says, rises, next_replica, with_replica, replicas_from, replicas_say, is_lower_digit, value_says};

use crate::flaw::{Flaw, both};
use crate::parts::first_piece;
use hex::FromHexError;
use span_base::{DcId, DcSet, Value, What, read_number};
use std::alloc::{AllocError, Global};

/// The number that a text spells, however great.
#[tactic(auto, unfolding(crate::specs::Numbers::spelled))]
pub(crate) fn spelled(text: &[u8]) -> Option<u128>
    ensures { result ≡ spelled text.now }
{
    match read_number(text, u128::MAX) {
        Ok(number) => Some(number),
        Err(_) => None,
    }
}

/// A number of at most so much, by what its text spells.
fn number_by(what: What, most: u32, text: &[u8], spelled: Option<u128>) -> Result<u32, Flaw>
    ensures number { result ≡ number_by what most text.now spelled }
    ensures within { IfOk result (λ n. n ≤ most) }
{
    let Some(number) = spelled else {
        return Err(if text.is_empty() {
            Flaw::Syntax
        } else {
            Flaw::Number
        });
    };
    if number <= u128::from(most) {
        Ok(number as u32)
    } else {
        Err(Flaw::Limit { what, number })
    }
}

/// A number of at most so much.
#[tactic(auto, unfolding(crate::specs::Numbers::number_says))]
pub(crate) fn number_of(what: What, most: u32, text: &[u8]) -> Result<u32, Flaw>
    ensures number { result ≡ number_says what most text.now }
    ensures within { IfOk result (λ n. n ≤ most) }
{
    number_by(what, most, text, spelled(text))
}

/// A number of which nothing else is asked.
pub(crate) fn count_of(text: &[u8]) -> Result<u32, Flaw>
    ensures { result ≡ count_says text.now }
{
    number_of(What::Number, u32::MAX, text)
}

/// A centre.
#[tactic(auto, unfolding(crate::specs::Numbers::centre_says))]
pub(crate) fn centre_of(text: &[u8]) -> Result<DcId, Flaw>
    ensures centre { result ≡ centre_says text.now }
    ensures below { IfOk result (λ c. c.0 < 16) }
{
    match number_of(What::Centres, 15, text) {
        Ok(number) => Ok(DcId(number as u8)),
        Err(flaw) => Err(flaw),
    }
}

/// The number of a set, one of so many.
pub(crate) fn set_of(text: &[u8], sets: usize) -> Result<u32, Flaw>
    ensures set { result ≡ judged (count_says text.now) (one_of sets) }
    ensures below { IfOk result (λ n. n < sets) }
{
    match count_of(text) {
        Ok(number) if (number as usize) < sets => Ok(number),
        Ok(_) => Err(Flaw::Range),
        Err(flaw) => Err(flaw),
    }
}

/// One of so many replicas.
#[tactic(auto, unfolding(crate::specs::Numbers::replica_says))]
pub(crate) fn replica_of(text: &[u8], replicas: u8) -> Result<DcId, Flaw>
    ensures replica { result ≡ replica_says replicas text.now }
    ensures below { IfOk result (λ c. c.0 < 16) }
{
    match centre_of(text) {
        Ok(centre) if centre.0 < replicas => Ok(centre),
        Ok(_) => Err(Flaw::Range),
        Err(flaw) => Err(flaw),
    }
}

/// Whether two neighbours in a list rise, where both are spelled right.
fn rises(before: Option<u128>, number: Option<u128>) -> bool
    ensures { result ≡ rises before number }
{
    match (before, number) {
        (Some(before), Some(number)) => before < number,
        _ => true,
    }
}

/// A replica behind its neighbour in a list, by what it spells.
fn next_replica(replicas: u8, before: Option<u128>, text: &[u8]) -> Result<DcId, Flaw>
    ensures replica { result ≡ next_replica replicas before text.now }
    ensures below { IfOk result (λ c. c.0 < 16) }
{
    if rises(before, spelled(text)) {
        replica_of(text, replicas)
    } else {
        Err(Flaw::Syntax)
    }
}

/// The set with the replica too.
fn with_replica(set: Result<DcSet, Flaw>, replica: Result<DcId, Flaw>) -> Result<DcSet, Flaw>
    requires { IfOk replica (λ c. c.0 < 16) }
    ensures { result ≡ with_replica set replica }
{
    match both(set, replica) {
        Ok((set, replica)) => Ok(set.with(replica)),
        Err(flaw) => Err(flaw),
    }
}

/// Strictly rising replicas joined by commas.
#[tactic(auto, unfolding(crate::specs::Numbers::replicas_from, crate::specs::Numbers::replicas_say))]
pub(crate) fn replicas_of(text: &[u8], replicas: u8) -> Result<DcSet, Flaw>
    ensures { result ≡ replicas_say replicas text.now }
{
    let mut set = Ok(DcSet::empty());
    let mut before = None;
    let mut rest = Some(text);
    while let Some(items) = rest {
        let (item, more) = first_piece(items, b',');
        set = with_replica(set, next_replica(replicas, before, item));
        before = spelled(item);
        rest = more;
    }
    set
}

/// Whether these are hexadecimal digits, in lower case.
fn are_digits(text: &[u8]) -> bool
    ensures { result ≡ list_all is_lower_digit text.now }
{
    text.iter().all(|c| matches!(*c, b'0'..=b'9' | b'a'..=b'f'))
}

/// A value: `-`, or two digits for each byte.
#[tactic(auto, unfolding(crate::specs::Numbers::value_says))]
pub(crate) fn value_of(alloc: Global, text: &[u8]) -> Result<Result<Value, Flaw>, AllocError>
    ensures { Gives (value_says text.now) result }
{
    if text == b"-".as_slice() {
        return Ok(Ok(Value::empty(alloc)));
    }
    if text.len() < 2 || text.len() > 8192 || !are_digits(text) {
        return Ok(Err(Flaw::Syntax));
    }
    match hex::decode(alloc, text) {
        Ok(bytes) => Ok(Ok(Value::from_vec(bytes))),
        Err(FromHexError::OutOfMemory) => Err(AllocError),
        Err(_) => Ok(Err(Flaw::Syntax)),
    }
}
