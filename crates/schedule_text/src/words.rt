//! The words of a line, one after another.

ghost use Rattle.std.specs.Prelude.{◌≡◌, ◌<◌, ◌&&◌, false, [], ◌∷◌, IsTrue, MatchOption, IfSome};
ghost use Rattle.schedule_text.specs.Words.{is_joint};

use crate::parts::first_piece;

/// The words of a line that are left.
#[derive(Clone, Copy, Debug)]
pub(crate) struct Words<'a> {
    pub(crate) rest: Option<&'a [u8]>,
    /// Whether the word `;` joins entries of words.
    pub(crate) joined: bool,
}

impl<'a> Words<'a> {
    ghost use Rattle.schedule_text.specs.Pieces.{bytes, entries, entry, beyond};

    /// The next word of the entry.
    pub(crate) fn next(&mut self) -> Option<&'a [u8]>
        ensures word { MatchOption result ((entry self.old ≡ []) × (self.new ≡ self.old)) (λ w. entry self.old ≡ w.now ∷ entry self.new) }
        ensures beyond { beyond self.new ≡ beyond self.old }
        ensures joined { self.new.joined ≡ self.old.joined }
        ensures shorter { IfSome result (λ w. bytes self.new.rest < bytes self.old.rest) }
    {
        let Some(text) = self.rest else {
            return None;
        };
        let (word, rest) = first_piece(text, b' ');
        if ends_entry(self.joined, word) {
            return None;
        }
        self.rest = rest;
        Some(word)
    }

    /// Goes on to the next entry, if there is one.
    pub(crate) fn next_entry(&mut self) -> bool
        ensures more { IsTrue result → beyond self.old ≡ entry self.new ∷ beyond self.new }
        ensures none { result ≡ false → beyond self.old ≡ [] }
    {
        while self.next().is_some() {}
        let Some(text) = self.rest else {
            return false;
        };
        let (_, rest) = first_piece(text, b' ');
        self.rest = rest;
        true
    }
}

/// Whether the word ends an entry.
fn ends_entry(joined: bool, word: &[u8]) -> bool
    ensures { result ≡ (joined && is_joint word.now) }
{
    joined && word == b";".as_slice()
}
