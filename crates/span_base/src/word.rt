ghost use Rattle.std.specs.Prelude.{◌≡◌, [], ◌↔◌, length, IsTrue};
ghost use Rattle.std.specs.String.{string_bytes};
ghost use Rattle.std.specs.Cmp.Lexicographic.{pointwise, lists_per};
ghost use Rattle.std.proofs.lemmas.Cmp.{nat_list_eq_equiv};
ghost use Rattle.std.specs.Prelude.{nat_eq};
ghost use Rattle.std.specs.Cmp.{partial_equiv_from_equiv};

use std::alloc::AllocError;
use std::marker::Model;

/// A text, as a name or a word of the command line. Contracts see it as the list of its bytes.
#[derive(Debug, Drop)]
pub struct Word {
    text: String,
}

impl Model for Word {
    ghost use Rattle.std.specs.Prelude.{List, ℕ};
    ghost use Rattle.std.specs.Coded.{coded_list, coded_ℕ};
    ghost use Rattle.std.specs.String.{string_bytes};

    ghost Value = { List ℕ };

    ghost coded = { coded_list coded_ℕ };

    ghost view = { λ w. string_bytes w.text };
}

impl Word {
    /// The word of this text. It takes no more memory.
    pub fn from_string(text: String) -> Word
        ensures { result ≡ string_bytes text }
    {
        Word { text }
    }

    /// The text, as it was given.
    pub fn into_string(self) -> String
        ensures { string_bytes result ≡ self }
    {
        let Word { text } = self;
        text
    }

    /// The text.
    pub fn as_str(&self) -> &str
        ensures { result.now ≡ self.now }
    {
        self.text.as_str()
    }

    /// The bytes of the text in UTF-8.
    pub fn as_bytes(&self) -> &[u8]
        ensures { result.now ≡ self.now }
    {
        self.text.as_bytes()
    }

    /// The number of bytes.
    pub fn len(&self) -> usize
        ensures { result ≡ length self.now }
    {
        self.text.len()
    }

    /// Whether there is no byte.
    pub fn is_empty(&self) -> bool
        ensures { IsTrue result ↔ (self.now ≡ []) }
    {
        self.text.is_empty()
    }
}

impl Clone for Word {
    ghost is_clone = { λ word copy. copy ≡ word };

    fn clone(&self) -> Result<Word, AllocError> {
        Ok(Word {
            text: self.text.clone()?,
        })
    }
}

impl PartialEq for Word {
    ghost eq = { pointwise nat_eq };

    ghost laws = { partial_equiv_from_equiv nat_list_eq_equiv };

    fn eq(&self, other: &Word) -> bool {
        self.text == other.text
    }
}

impl Eq for Word {
    ghost laws = { nat_list_eq_equiv };
}
