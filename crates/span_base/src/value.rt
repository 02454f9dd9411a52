ghost use Rattle.std.specs.Prelude.{◌≡◌, ◌≤◌, [], ◌↔◌, length, IsTrue, nat_eq};
ghost use Rattle.std.specs.Cmp.{partial_equiv_from_equiv};
ghost use Rattle.std.specs.Cmp.Lexicographic.{pointwise};
ghost use Rattle.std.proofs.lemmas.Cmp.{nat_list_eq_equiv};

use std::alloc::{AllocError, Global};
use std::marker::Model;

/// The greatest number of bytes of a value.
pub const VALUE_LIMIT: usize = 4096;

/// What is kept under a key: at most 4,096 bytes. Contracts see them as a list.
#[derive(Debug, Drop)]
pub struct Value {
    bytes: Vec<u8>,
}

impl Model for Value {
    ghost use Rattle.std.specs.Prelude.{List, ℕ, ◌≤◌, length};
    ghost use Rattle.std.specs.Coded.{coded_list, coded_ℕ};

    ghost Value = { List ℕ };

    ghost coded = { coded_list coded_ℕ };

    ghost view = { λ v. v.bytes.items };

    ghost invariant = { λ v. length v.bytes.items ≤ 4096 };
}

impl Value {
    /// The value of no bytes. It takes no memory.
    pub fn empty(alloc: Global) -> Value
        ensures { result ≡ [] }
    {
        Value {
            bytes: Vec::new(alloc),
        }
    }

    /// The value of these bytes, 4,096 at most. It takes no more memory.
    pub fn from_vec(bytes: Vec<u8>) -> Value
        requires { length bytes.items ≤ VALUE_LIMIT }
        ensures { result ≡ bytes.items }
    {
        Value { bytes }
    }

    /// The bytes, as they were given.
    pub fn into_vec(self) -> Vec<u8>
        ensures value { result.items ≡ self }
        ensures limit { length self ≤ VALUE_LIMIT }
    {
        let Value { bytes } = self;
        bytes
    }

    /// The bytes, from the first on.
    pub fn as_slice(&self) -> &[u8]
        ensures value { result.now ≡ self.now }
        ensures limit { length self.now ≤ VALUE_LIMIT }
    {
        self.bytes.as_slice()
    }

    /// How many bytes there are: 0 to 4,096.
    pub fn len(&self) -> usize
        ensures value { result ≡ length self.now }
        ensures limit { result ≤ VALUE_LIMIT }
    {
        self.bytes.len()
    }

    /// Whether there is no byte.
    pub fn is_empty(&self) -> bool
        ensures { IsTrue result ↔ (self.now ≡ []) }
    {
        self.bytes.is_empty()
    }
}

impl Clone for Value {
    ghost is_clone = { λ value copy. copy ≡ value };

    fn clone(&self) -> Result<Value, AllocError> {
        let alloc = *self.bytes.allocator();
        Ok(Value {
            bytes: Vec::from_slice(alloc, self.bytes.as_slice())?,
        })
    }
}

impl PartialEq for Value {
    ghost eq = { pointwise nat_eq };

    ghost laws = { partial_equiv_from_equiv nat_list_eq_equiv };

    fn eq(&self, other: &Value) -> bool {
        self.bytes == other.bytes
    }
}

impl Eq for Value {
    ghost laws = { nat_list_eq_equiv };
}
