//! The lines of a text, one after another.

ghost use Rattle.std.specs.Prelude.{◌≡◌, ◌≤◌, ◌<◌, [], ◌∷◌, length, MatchOption, IfSome};

use memchr::memchr;

/// The lines of a text from a place on.
#[derive(Clone, Copy, Debug)]
pub(crate) struct Lines<'a> {
    pub(crate) text: &'a [u8],
    /// Where the next line begins.
    pub(crate) at: usize,
    ghost inside: { at ≤ length text.now },
}

impl<'a> Lines<'a> {
    ghost use Rattle.schedule_text.specs.Left.{lines_left};

    /// The next line, without its line feed.
    pub(crate) fn next(&mut self) -> Option<&'a [u8]>
        ensures line { MatchOption result ((lines_left self.old ≡ []) × (self.new ≡ self.old)) (λ line. lines_left self.old ≡ line.now ∷ lines_left self.new) }
        ensures text { self.new.text ≡ self.old.text }
        ensures further { IfSome result (λ _. self.old.at < self.new.at) }
    {
        let rest = &self.text[self.at..];
        if rest.is_empty() {
            return None;
        }
        match memchr(b'\n', rest) {
            Some(end) => {
                self.at += end + 1;
                Some(&rest[..end])
            }
            None => {
                self.at = self.text.len();
                Some(rest)
            }
        }
    }
}
