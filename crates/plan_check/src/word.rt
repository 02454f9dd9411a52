ghost use Rattle.std.specs.Prelude.{◌≡◌, ◌++◌, ◌↔◌, List, ℕ, IsTrue, MatchOption, codes, length, ◌≤◌, ◌<◌};
ghost use Rattle.span_base.specs.Number.{IsNumber};
ghost use Rattle.plan_check.specs.Words.{SaysWord, SaysResult, IsNumberIn, IsFoundForm, IsCutForm, IsBudgetForm, SaysComplete};

use bound_cert::{Line, LineFault, read_line};
use memchr::memchr;
use span_base::read_number;
use std::alloc::Global;

/// What a line says where a tree goes on or its result comes.
#[derive(Debug, Drop)]
pub(crate) enum TreeWord {
    /// A line of the tree.
    Node(Line),
    /// The tree shows that no policy costs less.
    Complete { cost: u128 },
    /// The tree shows that there is no policy.
    Nothing,
    /// The search was cut off.
    Budget,
}

/// Why a line says nothing there.
#[derive(Clone, Copy, Debug, PartialEq, Eq)]
pub(crate) enum Unread {
    Syntax,
    NoMemory,
}

/// What follows a front of a text, if it begins so.
pub fn behind<'a>(text: &'a [u8], front: &[u8]) -> Option<&'a [u8]>
    ensures { MatchOption result ((rest : List ℕ) → ¬ (text.now ≡ front.now ++ rest)) (λ rest. text.now ≡ front.now ++ rest.now) }
{
    text.strip_prefix(front)
}

/// Whether a text is a number of at most 38 digits.
pub fn is_number(text: &[u8]) -> bool
    ensures { IsTrue result ↔ IsNumber text.now }
{
    read_number(text, u128::MAX).is_ok()
}

/// The number of at most 38 digits that a text is.
pub fn number_in(text: &[u8]) -> Option<u128>
    ensures { IsNumberIn text.now result }
{
    match read_number(text, u128::MAX) {
        Ok(number) => Some(number),
        Err(_) => None,
    }
}

/// The cost that a result of a whole search tells.
fn complete_cost(text: &[u8]) -> Option<u128>
    ensures { SaysComplete text.now result }
{
    match behind(text, b"result complete ") {
        Some(digits) => number_in(digits),
        None => None,
    }
}

/// Whether a text is a hyphen or a number.
fn is_found(text: &[u8]) -> bool
    ensures { IsTrue result ↔ IsFoundForm text.now }
{
    if text == b"-".as_slice() {
        return true;
    }
    is_number(text)
}

/// Whether a text is a number of lines and, behind a space, what was found.
fn is_cut(text: &[u8]) -> bool
    ensures { IsTrue result ↔ IsCutForm text.now }
{
    match memchr(b' ', text) {
        Some(at) => is_number(&text[..at]) && is_found(&text[at + 1..]),
        None => false,
    }
}

/// Whether a text tells that a search was cut off.
fn is_budget(text: &[u8]) -> bool
    ensures { IsTrue result ↔ IsBudgetForm text.now }
{
    match behind(text, b"result budget ") {
        Some(rest) => is_cut(rest),
        None => false,
    }
}

/// Which result a line tells.
#[tactic(auto, using(crate::proofs::Forms::complete_none))]
fn read_result(text: &[u8]) -> Result<TreeWord, Unread>
    ensures { SaysResult text.now result }
{
    if let Some(cost) = complete_cost(text) {
        return Ok(TreeWord::Complete { cost });
    }
    if text == b"result none".as_slice() {
        return Ok(TreeWord::Nothing);
    }
    if is_budget(text) {
        return Ok(TreeWord::Budget);
    }
    Err(Unread::Syntax)
}

/// What a line says, without its line feed.
#[tactic(auto, using(crate::proofs::Forms::result_says))]
pub(crate) fn read_word(alloc: Global, text: &[u8]) -> Result<TreeWord, Unread>
    ensures { SaysWord text.now result }
{
    match read_line(alloc, text) {
        Ok(line) => Ok(TreeWord::Node(line)),
        Err(LineFault::NoMemory(_)) => Err(Unread::NoMemory),
        Err(LineFault::Bad { .. }) => read_result(text),
    }
}
