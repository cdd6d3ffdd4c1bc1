//! The entries that are complete so far, with their digest texts and the size of a definition of these entries.

ghost use Rattle.std.specs.Prelude.{◌≡◌, ◌+◌, ◌++◌, ◌∷◌, ◌≤◌, [], OnOk, length, true, not, nat_lt};
ghost use Rattle.llb_wire.specs.Spelling.{shortest, varint_text};
ghost use Rattle.llb_ops.specs.Limits.{entry_limit, entries_limit};
ghost use Rattle.llb_asm.specs.TextGrammar.{record_length, is_within, labels_of};

use crate::labels::digest_of;
use llb_ops::{DEFINITION_LIMIT, ENTRIES_LIMIT, ENTRY_LIMIT};
use llb_wire::{Bytes, Memory, Text};
use std::alloc::Global;
use std::marker::Model;

#[tactic(auto, using(crate::proofs::PrintedLengths::length_last, crate::proofs::PrintedLengths::length_small, crate::proofs::PrintedLengths::length_positive))]
/// Returns how many bytes the shortest varint of a number has, at most `more` + 1.
fn shortest_length(value: u64, more: u32) -> usize
    requires { more ≤ 9 }
    ensures same { result ≡ length (shortest more value) }
    ensures few { result ≤ 10 }
{
    if more == 0 || value < 0x80 {
        return 1;
    }
    1 + shortest_length(value / 0x80, more - 1)
}

/// Returns how many bytes the record of a LEN field with this number has if its payload has `size` bytes.
pub(crate) fn record_length(number: u32, size: usize) -> usize
    requires { size ≤ entry_limit }
    ensures same { result ≡ record_length number size }
    ensures few { result ≤ entry_limit + 20 }
{
    shortest_length(8 * u64::from(number) + 2, 9) + (shortest_length(size as u64, 9) + size)
}

/// The entries that are complete so far, in order. Contracts see a list with the bytes of each entry.
pub struct Earlier {
    entries: Vec<Bytes>,
    /// The digest text of each entry.
    labels: Vec<Text>,
    /// How many bytes a definition of these entries has.
    size: usize,
}

impl Drop for Earlier {
    fn drop(self) {
        let Earlier {
            entries: _,
            labels: _,
            size: _,
        } = self;
    }
}

impl Model for Earlier {
    ghost use Rattle.std.specs.Prelude.{List, ℕ};
    ghost use Rattle.llb_asm.specs.TextGrammar.{IsKept};

    ghost Value = { List (List ℕ) };

    ghost view = { λ e. e.entries.items };

    ghost invariant = { λ e. IsKept e.entries.items e.labels.items e.size };
}

impl Earlier {
    pub(crate) fn new(alloc: Global) -> Earlier
        ensures { result ≡ [] }
    {
        Earlier {
            entries: Vec::new(alloc),
            labels: Vec::new(alloc),
            size: 0,
        }
    }

    /// Returns the texts of the entries' digests.
    pub(crate) fn labels(&self) -> &[Text]
        ensures { result.now ≡ labels_of self.now }
    {
        self.labels.as_slice()
    }

    /// Returns whether there are as many entries as a definition may have.
    pub(crate) fn is_full(&self) -> bool
        ensures { result ≡ not (nat_lt (length self.now) entries_limit) }
    {
        self.entries.len() >= ENTRIES_LIMIT
    }

    /// Returns whether, with one more entry of this length, both the entry and the definition are within their limits of bytes.
    pub(crate) fn has_room(&self, size: usize) -> bool
        ensures { result ≡ is_within self.now size }
    {
        size <= ENTRY_LIMIT && self.size + record_length(1, size) <= DEFINITION_LIMIT
    }

    // Appends an entry. `has_room` must be true for the entry's length.
    pub(crate) fn push(&mut self, alloc: Global, entry: Bytes) -> Result<(), Memory>
        requires { is_within self.old (length entry) ≡ true }
        ensures { OnOk result (self.new ≡ self.old ++ entry ∷ []) }
    {
        let label = digest_of(alloc, entry.as_slice())?;
        self.labels.reserve(1)?;
        self.entries.reserve(1)?;
        self.size += record_length(1, entry.as_slice().len());
        self.labels.push_reserved(label);
        self.entries.push_reserved(entry);
        Ok(())
    }

    // Returns the entries as a vector, without a copy.
    pub(crate) fn into_entries(self) -> Vec<Bytes>
        ensures { result.items ≡ self }
    {
        let Earlier {
            entries,
            labels: _,
            size: _,
        } = self;
        entries
    }
}
