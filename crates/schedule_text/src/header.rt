//! The lines of a header.

ghost use Rattle.std.specs.Prelude.{◌≡◌, IfOk};
ghost use Rattle.world_core.specs.Run.{IsHeader};
ghost use Rattle.schedule_text.specs.Pieces.{pieces};
ghost use Rattle.schedule_text.specs.Left.{lines_left};
ghost use Rattle.schedule_text.specs.Headers.{IsSmall, Grows, Starts, ReadsHeader, takes_replicas, takes_sets, takes_keys, takes_proxies, is_begin, replicas_line, set_line, key_line, proxy_line, line_by, header_line, header_says};

use crate::fault::ScheduleFault;
use crate::flaw::{Flaw, after, within};
use crate::lines::Lines;
use crate::numbers::{centre_of, number_of, set_of};
use crate::parts::{first_piece, one};
use crate::policies::{is_whole, policy_of};
use crate::words::Words;
use span_base::{Listed, SetId, What};
use std::alloc::{AllocError, Global};
use world_core::Header;

/// How many replicas there are, not 0.
#[tactic(auto, unfolding(crate::specs::Headers::replicas_line))]
fn replicas_line(header: &mut Header, rest: Option<&[u8]>) -> Result<(), Flaw>
    ensures { Grows header.new (replicas_line header.old (pieces 32 rest.entry)) result }
{
    let Some(text) = one(rest, b' ') else {
        return Err(Flaw::Syntax);
    };
    let replicas = number_of(What::Replicas, 16, text)?;
    if replicas == 0 {
        return Err(Flaw::Number);
    }
    header.replicas = replicas as u8;
    Ok(())
}

/// One set more, by its first policy.
#[tactic(auto, unfolding(crate::specs::Headers::set_line))]
fn set_line(
    alloc: Global,
    header: &mut Header,
    rest: Option<&[u8]>,
) -> Result<Result<(), Flaw>, AllocError>
    requires { IsSmall header.old }
    ensures { IfOk result (Grows header.new (set_line header.old (pieces 32 rest.entry))) }
{
    let mut words = Words {
        rest,
        joined: false,
    };
    let policy = policy_of(alloc, header.replicas, &mut words)?;
    match after(within(What::Sets, 64, header.sets.len() + 1), policy) {
        Ok(policy) => {
            if !is_whole(&policy) {
                return Ok(Err(Flaw::Policy));
            }
            header.sets.push(policy)?;
            Ok(Ok(()))
        }
        Err(flaw) => Ok(Err(flaw)),
    }
}

/// One key more, by its set.
#[tactic(auto, unfolding(crate::specs::Headers::key_line))]
fn key_line(header: &mut Header, rest: Option<&[u8]>) -> Result<Result<(), Flaw>, AllocError>
    requires { IsSmall header.old }
    ensures { IfOk result (Grows header.new (key_line header.old (pieces 32 rest.entry))) }
{
    let Some(text) = one(rest, b' ') else {
        return Ok(Err(Flaw::Syntax));
    };
    let set = set_of(text, header.sets.len());
    match after(within(What::Keys, 1000, header.keys.len() + 1), set) {
        Ok(set) => {
            header.keys.push(SetId(set as u16))?;
            Ok(Ok(()))
        }
        Err(flaw) => Ok(Err(flaw)),
    }
}

/// One proxy more, by its centre.
#[tactic(auto, unfolding(crate::specs::Headers::proxy_line))]
fn proxy_line(header: &mut Header, rest: Option<&[u8]>) -> Result<Result<(), Flaw>, AllocError>
    requires { IsSmall header.old }
    ensures { IfOk result (Grows header.new (proxy_line header.old (pieces 32 rest.entry))) }
{
    let Some(text) = one(rest, b' ') else {
        return Ok(Err(Flaw::Syntax));
    };
    match after(
        within(What::Proxies, 64, header.proxies.len() + 1),
        centre_of(text),
    ) {
        Ok(at) => {
            header.proxies.push(at)?;
            Ok(Ok(()))
        }
        Err(flaw) => Ok(Err(flaw)),
    }
}

fn takes_replicas(header: &Header) -> bool
    ensures { result ≡ takes_replicas header.now }
{
    header.replicas == 0
}

fn takes_sets(header: &Header) -> bool
    ensures { result ≡ takes_sets header.now }
{
    header.replicas != 0 && header.keys.len() == 0
}

fn takes_keys(header: &Header) -> bool
    ensures { result ≡ takes_keys header.now }
{
    header.sets.len() != 0 && header.proxies.len() == 0
}

fn takes_proxies(header: &Header) -> bool
    ensures { result ≡ takes_proxies header.now }
{
    header.keys.len() != 0
}

/// Whether the line is `begin`, and may stand here.
fn is_begin(header: &Header, text: &[u8]) -> bool
    ensures { result ≡ is_begin header.now text.now }
{
    text == b"begin".as_slice() && header.proxies.len() != 0
}

/// The line of this word, where it may come next.
#[tactic(auto, unfolding(crate::specs::Headers::line_by))]
fn line_by(
    alloc: Global,
    header: &mut Header,
    word: &[u8],
    rest: Option<&[u8]>,
) -> Result<Result<(), Flaw>, AllocError>
    requires { IsSmall header.old }
    ensures { IfOk result (Grows header.new (line_by header.old word.now (pieces 32 rest.entry))) }
{
    if word == b"replicas".as_slice() && takes_replicas(header) {
        Ok(replicas_line(header, rest))
    } else if word == b"set".as_slice() && takes_sets(header) {
        set_line(alloc, header, rest)
    } else if word == b"key".as_slice() && takes_keys(header) {
        key_line(header, rest)
    } else if word == b"proxy".as_slice() && takes_proxies(header) {
        proxy_line(header, rest)
    } else {
        Ok(Err(Flaw::Syntax))
    }
}

/// Puts what a line says into the header.
#[tactic(auto, unfolding(crate::specs::Headers::header_line))]
fn header_line(
    alloc: Global,
    header: &mut Header,
    text: &[u8],
) -> Result<Result<(), Flaw>, AllocError>
    requires { IsSmall header.old }
    ensures { IfOk result (Grows header.new (header_line header.old text.now)) }
{
    let (word, rest) = first_piece(text, b' ');
    line_by(alloc, header, word, rest)
}

/// The header that the first lines say. The lines of the events are left.
#[tactic(auto, unfolding(crate::specs::Headers::header_from, crate::specs::Headers::header_says))]
pub(crate) fn read_header(alloc: Global, lines: &mut Lines<'_>) -> Result<Header, ScheduleFault>
    ensures header { ReadsHeader (lines_left lines.new) (header_says (lines_left lines.old)) result }
    ensures text { lines.new.text ≡ lines.old.text }
    ensures sound { IfOk result IsHeader }
{
    if !begins(lines) {
        return Err(Flaw::Syntax.at(1));
    }
    let mut header = Header {
        replicas: 0,
        sets: Listed::new(alloc),
        keys: Listed::new(alloc),
        proxies: Listed::new(alloc),
    };
    let mut line: u64 = 2;
    while let Some(text) = lines.next() {
        if is_begin(&header, text) {
            return Ok(header);
        }
        let said = header_line(alloc, &mut header, text)?;
        if let Err(flaw) = said {
            return Err(flaw.at(line));
        }
        line += 1;
    }
    Err(Flaw::Syntax.at(line))
}

/// Whether the first line is that of a schedule.
#[tactic(auto, unfolding(crate::specs::Headers::header_says))]
fn begins(lines: &mut Lines<'_>) -> bool
    ensures start { Starts (lines_left lines.old) (lines_left lines.new) result }
    ensures text { lines.new.text ≡ lines.old.text }
{
    match lines.next() {
        Some(text) => text == b"span-schedule 1".as_slice(),
        None => false,
    }
}
