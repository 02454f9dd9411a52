ghost use Rattle.std.specs.Prelude.{◌≡◌, ◌++◌, IfOk, OnOk, OnErr, string_bytes};
ghost use Rattle.std.specs.Fmt.{decimal};
ghost use Rattle.bound_cert.specs.Text.{line_text, pair_text, pairs_text, AddsFront, HasShortMultipliers};

use crate::leaves::{Line, Pair};
use itoa::Buffer;
use span_base::Bytes;
use std::alloc::{AllocError, Global};

/// The text of a line, without a line feed.
pub fn print_line(alloc: Global, line: &Line) -> Result<Bytes, AllocError>
    requires { HasShortMultipliers line.now }
    ensures { IfOk result (λ text. text ≡ line_text line.now) }
{
    let mut text = String::new(alloc);
    push_line(&mut text, line)?;
    Ok(Bytes::from_vec(text.into_bytes()))
}

/// Puts the text of a line at the end, without a line feed. Where memory lacks, a front of it was
/// put there.
pub fn push_line(text: &mut String, line: &Line) -> Result<(), AllocError>
    ensures whole { OnOk result (string_bytes text.new ≡ string_bytes text.old ++ line_text line.now) }
    ensures front { OnErr result (AddsFront (string_bytes text.old) (string_bytes text.new) (line_text line.now)) }
{
    match line {
        Line::Branch { var } => {
            text.push_str("b ")?;
            push_number(text, u128::from(*var))
        }
        Line::Close(leaf) => {
            text.push_str("l ")?;
            push_number(text, u128::from(leaf.s))?;
            push_pairs(text, leaf.pairs.as_slice())
        }
    }
}

/// Puts the pairs' texts at the end.
fn push_pairs(text: &mut String, pairs: &[Pair]) -> Result<(), AllocError>
    ensures whole { OnOk result (string_bytes text.new ≡ string_bytes text.old ++ pairs_text pairs.now) }
    ensures front { OnErr result (AddsFront (string_bytes text.old) (string_bytes text.new) (pairs_text pairs.now)) }
{
    for pair in pairs {
        push_pair(text, *pair)?;
    }
    Ok(())
}

/// Puts a pair's text at the end.
fn push_pair(text: &mut String, pair: Pair) -> Result<(), AllocError>
    ensures whole { OnOk result (string_bytes text.new ≡ string_bytes text.old ++ pair_text pair) }
    ensures front { OnErr result (AddsFront (string_bytes text.old) (string_bytes text.new) (pair_text pair)) }
{
    text.push_str(" ")?;
    push_number(text, u128::from(pair.row))?;
    text.push_str(":")?;
    push_number(text, pair.mult)
}

/// Puts a number's digits at the end, or nothing.
fn push_number(text: &mut String, number: u128) -> Result<(), AllocError>
    ensures whole { OnOk result (string_bytes text.new ≡ string_bytes text.old ++ decimal number) }
    ensures none { OnErr result (string_bytes text.new ≡ string_bytes text.old) }
{
    text.push_str(Buffer::new().format(number))
}
