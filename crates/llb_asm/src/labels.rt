//! The digest texts of the earlier entries, with an ordered index: it finds the label (`%` and the entry's number) of a
//! digest text in logarithmic time, whatever the entries are.

ghost use Rattle.std.specs.Prelude.{◌≡◌, ◌++◌, ◌∷◌, [], IfOk, OnOk, OnErr};
ghost use Rattle.llb_wire.specs.Digest.{digest_text};
ghost use Rattle.llb_asm.specs.DigestTextIndex.{IsIndex};
ghost use Rattle.llb_asm.specs.DisassembledText.{label_for};

use llb_wire::{Memory, Text, text_of_digest};
use sha2::{Digest, Sha256};
use std::alloc::Global;
use std::collections::BTreeMap;
use std::marker::Model;

/// Returns the text of an entry's digest.
pub(crate) fn digest_of(alloc: Global, entry: &[u8]) -> Result<Text, Memory>
    ensures { IfOk result (λ text. text ≡ digest_text entry.now) }
{
    text_of_digest(alloc, &Sha256::digest(entry))
}

// Adds a text to an index, with the text's position (the number of texts before it); does nothing if the index has the text already.
fn learn(first: &mut BTreeMap<String, u64>, texts: &[Text], text: &Text) -> Result<(), Memory>
    requires { IsIndex texts.now first.old }
    ensures learnt { OnOk result (IsIndex (texts.now ++ text.now ∷ []) first.new) }
    ensures kept { OnErr result (IsIndex texts.now first.new) }
{
    if first.get(text.as_str()).is_none() {
        first.insert(text.copy()?.into_string(), texts.len() as u64)?;
    }
    Ok(())
}

/// The digest texts of the earlier entries, with an index that finds the first entry with a given text. Contracts see the list of the texts.
pub struct Labels {
    texts: Vec<Text>,
    /// For each digest text, the number of the first entry with this digest.
    first: BTreeMap<String, u64>,
}

impl Drop for Labels {
    fn drop(self) {
        let Labels { texts: _, first: _ } = self;
    }
}

impl Model for Labels {
    ghost use Rattle.std.specs.Prelude.{List, ℕ};
    ghost use Rattle.llb_asm.specs.DigestTextIndex.{IsIndex};

    ghost Value = { List (List ℕ) };

    ghost view = { λ l. l.texts.items };

    ghost invariant = { λ l. IsIndex l.texts.items l.first };
}

impl Labels {
    /// Makes an index without labels.
    pub(crate) fn new(alloc: Global) -> Labels
        ensures { result ≡ [] }
    {
        Labels {
            texts: Vec::new(alloc),
            first: BTreeMap::new(alloc),
        }
    }

    /// Returns the least number of an entry with this digest text; `None` if there is none.
    pub(crate) fn label_for(&self, digest: &str) -> Option<u64>
        ensures { result ≡ label_for self.now digest.now }
    {
        self.first.get(digest).copied()
    }

    // Appends the digest text of an entry.
    pub(crate) fn push(&mut self, alloc: Global, entry: &[u8]) -> Result<(), Memory>
        ensures { OnOk result (self.new ≡ self.old ++ digest_text entry.now ∷ []) }
    {
        let text = digest_of(alloc, entry)?;
        self.texts.reserve(1)?;
        learn(&mut self.first, self.texts.as_slice(), &text)?;
        self.texts.push_reserved(text);
        Ok(())
    }
}
