//! Byte strings, which contracts see as lists. The type ensures that all elements are bytes.

ghost use Rattle.std.specs.Prelude.{◌≡◌, IfOk};
ghost use Rattle.llb_wire.specs.Spelling.{AreBytes};

use crate::fault::Memory;
use crate::same::Same;
use std::alloc::Global;
use std::marker::Model;

/// A byte string that owns its memory. Contracts see the list of its bytes.
#[derive(Clone, Debug)]
pub struct Bytes {
    content: Vec<u8>,
}

impl Drop for Bytes {
    fn drop(self) {
        let Bytes { content: _ } = self;
    }
}

impl Model for Bytes {
    ghost use Rattle.std.specs.Prelude.{List, ℕ};

    ghost Value = { List ℕ };

    ghost view = { λ b. b.content.items };

    ghost use Rattle.llb_wire.specs.Spelling.{AreBytes};

    ghost invariant = { λ b. AreBytes b.content.items };
}

impl Bytes {
    /// Makes a byte string of these bytes, without a copy.
    pub fn new(content: Vec<u8>) -> Bytes
        ensures { result ≡ content.items }
    {
        Bytes { content }
    }

    /// Copies the bytes of a slice. Fails with 5 `Memory` alone.
    pub fn from_slice(alloc: Global, bytes: &[u8]) -> Result<Bytes, Memory>
        ensures { IfOk result (λ b. b ≡ bytes.now) }
    {
        let content = Vec::from_slice(alloc, bytes)?;
        Ok(Bytes { content })
    }

    /// Returns the bytes as a slice.
    pub fn as_slice(&self) -> &[u8]
        ensures { result.now ≡ self.now }
    {
        self.content.as_slice()
    }

    /// Proves that each element is below 256.
    pub fn is_bytes(&self)
        ensures { AreBytes self.now }
    {
        let _content = &self.content;
    }

    /// Returns the bytes as a vector, without a copy.
    pub fn into_vec(self) -> Vec<u8>
        ensures { result.items ≡ self }
    {
        let Bytes { content } = self;
        content
    }

    /// Copies the bytes. Fails with 5 `Memory` alone.
    pub fn copy(&self) -> Result<Bytes, Memory>
        ensures { IfOk result (λ b. b ≡ self.now) }
    {
        let content = self.content.clone()?;
        Ok(Bytes { content })
    }
}

impl Same for Bytes {
    fn same(&self, other: &Bytes) -> bool {
        self == other
    }
}

impl PartialEq for Bytes {
    ghost use Rattle.std.specs.Prelude.{nat_eq};
    ghost use Rattle.std.specs.Cmp.{partial_equiv_from_equiv};
    ghost use Rattle.std.specs.Cmp.Lexicographic.{pointwise, nat_list_eq_equiv};

    ghost eq = { pointwise nat_eq };

    ghost laws = { partial_equiv_from_equiv nat_list_eq_equiv };

    fn eq(&self, other: &Self) -> bool {
        self.as_slice() == other.as_slice()
    }
}

impl Eq for Bytes {
    ghost use Rattle.std.specs.Cmp.Lexicographic.{nat_list_eq_equiv};

    ghost laws = { nat_list_eq_equiv };
}
