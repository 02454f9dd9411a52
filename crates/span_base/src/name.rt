ghost use Rattle.std.specs.Prelude.{◌≡◌};
ghost use Rattle.span_base.specs.Name.{ReadsName, is_name_byte};

/// The greatest number of bytes of a name.
pub const NAME_BYTES: usize = 32;

/// The text is no name: it can't go on at the byte `at` (at its length where it is empty).
#[derive(Clone, Copy, Debug, PartialEq, Eq)]
pub struct BadName {
    /// The place of the byte, counted from 0.
    pub at: usize,
}

/// Takes the whole text as a name: 1 to 32 bytes, each an ASCII letter, a digit, `-`, `_` or `.`.
pub fn read_name(text: &[u8]) -> Result<(), BadName>
    ensures { ReadsName text.now result }
{
    if text.is_empty() {
        return Err(BadName { at: 0 });
    }
    for (at, byte) in text.iter().enumerate() {
        if at == NAME_BYTES || !fits_name(*byte) {
            return Err(BadName { at });
        }
    }
    Ok(())
}

fn fits_name(byte: u8) -> bool
    ensures { result ≡ is_name_byte byte }
{
    byte.is_ascii_alphanumeric() || byte == b'-' || byte == b'_' || byte == b'.'
}
