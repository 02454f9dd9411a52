ghost use Rattle.std.specs.Prelude.{◌≢◌, ◌<◌, length, slice_index};
ghost use Rattle.span_base.specs.Number.{ReadsNumber};

/// The greatest number of digits of a number.
pub const NUMBER_DIGITS: usize = 38;

/// Why a text is refused as a number.
#[derive(Clone, Copy, Debug, PartialEq, Eq)]
pub enum NumberFault {
    /// The text can't go on at the byte `at`, counted from 0: at its length where it is empty.
    Bad { at: usize },
    /// It is a number, and is above the limit.
    Limit { number: u128 },
}

/// Reads the whole text as a number of at most `limit`: `0`, or 1 to 38 decimal digits of which
/// the first isn't `0`.
pub fn read_number(text: &[u8], limit: u128) -> Result<u128, NumberFault>
    ensures { ReadsNumber text.now limit result }
{
    match text {
        [] => Err(NumberFault::Bad { at: 0 }),
        [b'0'] => Ok(0),
        [b'0', ..] => Err(NumberFault::Bad { at: 1 }),
        _ => read_digits(text, limit),
    }
}

/// Reads a text whose first byte isn't `0`.
fn read_digits(text: &[u8], limit: u128) -> Result<u128, NumberFault>
    requires some { 0 < length text.now }
    requires no_zero { slice_index text.now 0 ≢ 48 }
    ensures { ReadsNumber text.now limit result }
{
    let mut number: u128 = 0;
    for (at, byte) in text.iter().enumerate() {
        if at == NUMBER_DIGITS || !byte.is_ascii_digit() {
            return Err(NumberFault::Bad { at });
        }
        number = number * 10 + u128::from(*byte - b'0');
    }
    if number > limit {
        Err(NumberFault::Limit { number })
    } else {
        Ok(number)
    }
}
