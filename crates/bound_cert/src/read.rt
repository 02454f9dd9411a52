ghost use Rattle.std.specs.Prelude.{◌≡◌, ◌≢◌, ◌≤◌, IfOk, length, slice_index, take, codes};
ghost use Rattle.bound_cert.specs.Reading.{ReadsLine, IsWithinRanges, IsOutOfMemory, IsLongestNumber, FindsNumber, PassesByte};

use crate::leaves::{Leaf, Line, Pair};
use span_base::{Listed, NUMBER_DIGITS, read_number};
use std::alloc::{AllocError, Global};

/// Why a text is refused as a line.
#[derive(Clone, Copy, Debug, PartialEq, Eq)]
pub enum LineFault {
    /// The text can't go on at the byte `at`, counted from 0: at its length where it ends too
    /// early. Or a VAR or ROW begins there that is above 65,535, or an S above 4,294,967,295.
    Bad { at: usize },
    /// There was no memory for the pairs.
    NoMemory(AllocError),
}

impl From<AllocError> for LineFault {
    ghost use Rattle.std.specs.Prelude.{◌≡◌};
    ghost use Rattle.bound_cert.specs.declared.read.LineFault.TheVariants.{NoMemory};

    ghost from_gives = { λ error fault. fault ≡ NoMemory error };

    fn from(error: AllocError) -> LineFault {
        LineFault::NoMemory(error)
    }
}

/// The greatest VAR or ROW.
const PLACE_LIMIT: u128 = 65_535;
/// The greatest S.
const SCALE_LIMIT: u128 = 4_294_967_295;

/// A number of a text, and the place behind it.
#[derive(Clone, Copy)]
struct Number {
    value: u128,
    end: usize,
}

/// Reads a line, without its line feed: `b VAR`, or `l S` with ` ROW:MULT` for each pair, where
/// numbers are spelled as `read_number` reads them. It is the inverse of `print_line`. Of several
/// faults the first is told. A branch takes no memory.
pub fn read_line(alloc: Global, text: &[u8]) -> Result<Line, LineFault>
    ensures reads { ReadsLine text.now result }
    ensures ranges { IfOk result IsWithinRanges }
    ensures memory { IsOutOfMemory result → take 2 text.now ≡ codes "l " }
{
    match text {
        [b'b', ..] => {
            pass(text, 1, b' ')?;
            read_branch(text)
        }
        [b'l', ..] => {
            pass(text, 1, b' ')?;
            read_leaf(alloc, text)
        }
        _ => Err(LineFault::Bad { at: 0 }),
    }
}

/// Reads a text that begins as a branch: its VAR has to be all that follows.
fn read_branch(text: &[u8]) -> Result<Line, LineFault>
    requires { take 2 text.now ≡ codes "b " }
    ensures reads { ReadsLine text.now result }
    ensures ranges { IfOk result IsWithinRanges }
    ensures memory { ¬ IsOutOfMemory result }
{
    let var = number_at(text, 2, PLACE_LIMIT)?;
    if var.end < text.len() {
        return Err(LineFault::Bad { at: var.end });
    }
    Ok(Line::Branch {
        var: var.value as u16,
    })
}

/// Reads a text that begins as a leaf: its S, and then pairs to the end.
fn read_leaf(alloc: Global, text: &[u8]) -> Result<Line, LineFault>
    requires { take 2 text.now ≡ codes "l " }
    ensures reads { ReadsLine text.now result }
    ensures ranges { IfOk result IsWithinRanges }
{
    let s = number_at(text, 2, SCALE_LIMIT)?;
    let mut pairs = Listed::new(alloc);
    let mut at = s.end;
    while at < text.len() {
        let row_at = pass(text, at, b' ')?;
        let row = number_at(text, row_at, PLACE_LIMIT)?;
        let mult_at = pass(text, row.end, b':')?;
        let mult = number_at(text, mult_at, u128::MAX)?;
        pairs.push(Pair {
            row: row.value as u16,
            mult: mult.value,
        })?;
        at = mult.end;
    }
    Ok(Line::Close(Leaf {
        s: s.value as u32,
        pairs,
    }))
}

/// The place behind the byte that has to stand at `at`.
fn pass(text: &[u8], at: usize, byte: u8) -> Result<usize, LineFault>
    ensures { PassesByte text.now at byte result }
{
    if at < text.len() && text[at] == byte {
        Ok(at + 1)
    } else {
        Err(LineFault::Bad { at })
    }
}

/// The number of at most `limit` that begins at `at`.
fn number_at(text: &[u8], at: usize, limit: u128) -> Result<Number, LineFault>
    requires { at ≤ length text.now }
    ensures { FindsNumber text.now at limit result }
{
    let rest = &text[at..];
    let count = number_len(rest);
    match read_number(&rest[..count], limit) {
        Ok(value) => Ok(Number {
            value,
            end: at + count,
        }),
        Err(_) => Err(LineFault::Bad { at }),
    }
}

/// The length of the longest front that is a number, 0 where none is.
fn number_len(text: &[u8]) -> usize
    ensures { IsLongestNumber text.now result }
{
    match text {
        [b'0', ..] => 1,
        _ => digits_len(text),
    }
}

/// The same for a text that doesn't begin with `0`.
fn digits_len(text: &[u8]) -> usize
    requires { slice_index text.now 0 ≢ 48 }
    ensures { IsLongestNumber text.now result }
{
    for (at, byte) in text.iter().enumerate() {
        if at == NUMBER_DIGITS || !byte.is_ascii_digit() {
            return at;
        }
    }
    text.len()
}
