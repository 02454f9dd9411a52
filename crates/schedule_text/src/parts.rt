//! The pieces of a text between bytes of one kind.

ghost use Rattle.std.specs.Prelude.{◌≡◌, ◌∷◌, ◌≤◌, length, option_map};
ghost use Rattle.schedule_text.specs.Words.{split_at, one, two, three};
ghost use Rattle.schedule_text.specs.Pieces.{pieces, bytes};

use memchr::memchr;

/// The first piece, and what stands behind the byte that ends it, if one does.
pub(crate) fn first_piece(text: &[u8], byte: u8) -> (&[u8], Option<&[u8]>)
    ensures pieces { split_at byte text.now ≡ result.0.now ∷ pieces byte result.1 }
    ensures shorter { bytes result.1 ≤ length text.now }
{
    match memchr(byte, text) {
        Some(at) => (&text[..at], Some(&text[at + 1..])),
        None => (text, None),
    }
}

/// The only piece.
pub(crate) fn one(text: Option<&[u8]>, byte: u8) -> Option<&[u8]>
    ensures { option_map (λ a. a.now) result ≡ one (pieces byte text.entry) }
{
    let Some(text) = text else {
        return None;
    };
    let (a, rest) = first_piece(text, byte);
    if rest.is_some() { None } else { Some(a) }
}

/// The two pieces, where there are just two.
pub(crate) fn two(text: Option<&[u8]>, byte: u8) -> Option<(&[u8], &[u8])>
    ensures { option_map (λ it. (it.0.now, it.1.now)) result ≡ two (pieces byte text.entry) }
{
    let (a, rest) = first_piece(text?, byte);
    let b = one(rest, byte)?;
    Some((a, b))
}

/// The three pieces, where there are just three.
pub(crate) fn three(text: Option<&[u8]>, byte: u8) -> Option<(&[u8], &[u8], &[u8])>
    ensures { option_map (λ it. (it.0.now, it.1.now, it.2.now)) result ≡ three (pieces byte text.entry) }
{
    let (a, rest) = first_piece(text?, byte);
    let (b, c) = two(rest, byte)?;
    Some((a, b, c))
}
