ghost use Rattle.std.specs.Prelude.{◌≡◌, ◌<◌, [], ◌∷◌, ◌++◌, ◌↔◌, length, slice_set, IsTrue, OnOk, OnErr};
ghost use Rattle.std.specs.Cmp.Lexicographic.{pointwise, lists_per};
ghost use Rattle.std.proofs.lemmas.Cmp.{lists_equiv};

use std::alloc::{AllocError, Global};
use std::marker::Model;

/// A `Vec` that contracts see as the list of its items.
#[derive(Debug, Drop)]
pub struct Listed<T> {
    items: Vec<T>,
}

/// Bytes, as of a file or of a frame.
pub type Bytes = Listed<u8>;

impl<T> Model for Listed<T> {
    ghost use Rattle.std.specs.Prelude.{List};
    ghost use Rattle.std.specs.Coded.{coded_list};

    ghost Value = { List T };

    ghost coded = { coded_list T.code };

    ghost view = { λ it. it.items.items };
}

impl<T> Listed<T> {
    /// The list of no items. It takes no memory.
    pub fn new(alloc: Global) -> Listed<T>
        ensures { result ≡ [] }
    {
        Listed {
            items: Vec::new(alloc),
        }
    }

    /// The list of these items. It takes no more memory.
    pub fn from_vec(items: Vec<T>) -> Listed<T>
        ensures { result ≡ items.items }
    {
        Listed { items }
    }

    /// The items, for one who changes them otherwise than by `push` and `set`.
    pub fn into_vec(self) -> Vec<T>
        ensures { result.items ≡ self }
    {
        let Listed { items } = self;
        items
    }

    /// The items, from the first on.
    pub fn as_slice(&self) -> &[T]
        ensures { result.now ≡ self.now }
    {
        self.items.as_slice()
    }

    /// How many items there are.
    pub fn len(&self) -> usize
        ensures { result ≡ length self.now }
    {
        self.items.len()
    }

    /// Whether there is no item.
    pub fn is_empty(&self) -> bool
        ensures { IsTrue result ↔ (self.now ≡ []) }
    {
        self.items.is_empty()
    }
}

impl<T: Drop> Listed<T> {
    /// Puts `item` at the end. Where there is no memory for it, the list stays as it was.
    pub fn push(&mut self, item: T) -> Result<(), AllocError>
        ensures ok { OnOk result (self.new ≡ self.old ++ item ∷ []) }
        ensures err { OnErr result (self.new ≡ self.old) }
    {
        self.items.push(item)?;
        Ok(())
    }

    /// Puts `item` in the place of the item that stands at `place`, counted from 0.
    pub fn set(&mut self, place: usize, item: T)
        requires { place < length self.old }
        ensures { self.new ≡ slice_set self.old place item }
    {
        self.items[place] = item;
    }
}

impl<T: Copy> Clone for Listed<T> {
    ghost is_clone = { λ list copy. copy ≡ list };

    fn clone(&self) -> Result<Listed<T>, AllocError> {
        let alloc = *self.items.allocator();
        Ok(Listed {
            items: Vec::from_slice(alloc, self.items.as_slice())?,
        })
    }
}

impl<T: PartialEq> PartialEq for Listed<T> {
    ghost eq = { λ x y. pointwise T.eq x y };

    ghost laws = { lists_per T.laws };

    fn eq(&self, other: &Listed<T>) -> bool {
        self.items == other.items
    }
}

impl<T: Eq> Eq for Listed<T> {
    ghost laws = { lists_equiv T.Eq.laws };
}
