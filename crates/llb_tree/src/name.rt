//! Names. Contracts see a name as the list of its bytes; names are ordered by their bytes.

ghost use Rattle.std.specs.Prelude.{◌≡◌, Ok, IsTrue};
ghost use Rattle.std.specs.List.{list_all};
ghost use Rattle.std.specs.Str.{IsUtf8};
ghost use Rattle.llb_tree.specs.CallResults.{Gives, MemoryLast};
ghost use Rattle.llb_tree.specs.Path.{is_name, is_name_byte, name_of};

use crate::fault::TreeFault;
use std::alloc::Global;
use std::cmp::Ordering;
use std::marker::Model;

/// A name: 1 to 255 bytes of UTF-8, none of them `/`, 0x7F or below 0x20; and neither `.` nor `..`.
#[derive(Clone)]
pub struct Name {
    text: String,
}

impl Drop for Name {
    fn drop(self) {
        let Name { text: _ } = self;
    }
}

impl Model for Name {
    ghost use Rattle.std.specs.Prelude.{ℕ, List, IsTrue};
    ghost use Rattle.std.specs.String.{string_bytes};
    ghost use Rattle.llb_tree.specs.Path.{is_name};

    ghost Value = { List ℕ };

    ghost view = { λ n. string_bytes n.text };

    ghost invariant = { λ n. IsTrue (is_name (string_bytes n.text)) };
}

impl Name {
    /// Returns whether a text is a name.
    pub fn is_name(text: &str) -> bool
        ensures { result ≡ is_name text.now }
    {
        let bytes = text.as_bytes();
        if bytes.is_empty() {
            return false;
        }
        if bytes.len() > 255 {
            return false;
        }
        if bytes == b".".as_slice() {
            return false;
        }
        if bytes == b"..".as_slice() {
            return false;
        }
        is_plain(bytes)
    }

    /// Reads a text as a name. Fails with 26 `BadName` if it is not a name, else with 27 `Memory`.
    pub fn new(alloc: Global, text: &str) -> Result<Name, TreeFault>
        ensures gives { Gives (λ n. n) result (name_of text.now) }
        ensures last { MemoryLast result (name_of text.now) }
    {
        if !Name::is_name(text) {
            return Err(TreeFault::BadName);
        }
        let text = String::from_str(alloc, text)?;
        Ok(Name { text })
    }

    /// Returns the name as a text.
    pub fn as_str(&self) -> &str
        ensures value { result.now ≡ self.now }
        ensures name { IsTrue (is_name self.now) }
        ensures utf8 { IsUtf8 self.now }
    {
        self.text.as_str()
    }

    /// Copies the name. Fails with 27 `Memory` alone.
    pub fn copy(&self) -> Result<Name, TreeFault>
        ensures { Gives (λ n. n) result (Ok self.now) }
    {
        let name = self.clone()?;
        Ok(name)
    }
}

// Returns whether there is no byte below 0x20, no 0x7F and no `/`.
fn is_plain(bytes: &[u8]) -> bool
    ensures { result ≡ list_all is_name_byte bytes.now }
{
    bytes.iter().all(|b| *b >= 0x20 && *b != 0x7F && *b != b'/')
}

impl PartialEq for Name {
    ghost use Rattle.std.specs.Prelude.{nat_eq};
    ghost use Rattle.std.specs.Cmp as order;
    ghost use Rattle.std.specs.Cmp.Lexicographic.{pointwise, nat_list_eq_equiv};

    ghost eq = { pointwise nat_eq };

    ghost laws = { order.partial_equiv_from_equiv nat_list_eq_equiv };

    fn eq(&self, other: &Self) -> bool {
        self.text.as_bytes() == other.text.as_bytes()
    }
}

impl Eq for Name {
    ghost use Rattle.std.specs.Cmp.Lexicographic.{nat_list_eq_equiv};

    ghost laws = { nat_list_eq_equiv };
}

impl PartialOrd for Name {
    ghost use Rattle.std.specs.Prelude.{Some};
    ghost use Rattle.std.specs.Cmp.Lexicographic.{texts_po};
    ghost use Rattle.llb_tree.specs.Path.{name_cmp};

    ghost partial_cmp = { λ x y. Some (name_cmp x y) };

    ghost laws = { texts_po };

    fn partial_cmp(&self, other: &Self) -> Option<Ordering> {
        Some(self.cmp(other))
    }
}

impl Ord for Name {
    ghost use Rattle.std.proofs.Common.{refl};
    ghost use Rattle.std.specs.Cmp.Lexicographic.{nat_list_cmp_total, texts_ties};
    ghost use Rattle.llb_tree.specs.Path.{name_cmp};

    ghost cmp = { name_cmp };

    ghost total = { nat_list_cmp_total };

    ghost matches_partial_cmp = { λ x y. refl };

    ghost matches_eq = { texts_ties };

    fn cmp(&self, other: &Self) -> Ordering {
        self.text.as_bytes().cmp(other.text.as_bytes())
    }
}
