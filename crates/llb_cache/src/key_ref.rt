//! A key that borrows its texts from another value. Caches can be searched for such a key, so no `Key`, which owns its
//! texts, has to be made for a search.

ghost use Rattle.std.specs.Prelude.{◌≡◌, ◌==◌, not, length, option_map, true, IfErr, IfOk};
ghost use Rattle.std.specs.Option.{option_cmp};
ghost use Rattle.llb_cache.specs.Caches.{is_locked};
ghost use Rattle.llb_cache.specs.Key.{same_key, seed_by, has_digest, has_text};
ghost use Rattle.llb_cache.specs.KeyOrder.{mode_place, seed_cmp, key_cmp};

use crate::key::{Key, Mode, Seed};
use llb_wire::{Memory, Text};
use std::alloc::Global;
use std::cmp::Ordering;
use std::marker::Model;

/// A key that borrows its texts. Contracts see it as a `Key`.
#[derive(Drop)]
pub struct KeyRef<'a> {
    id: &'a str,
    seed: Option<(&'a str, u32)>,
    mode: Mode,
}

impl<'a> Model for KeyRef<'a> {
    ghost use Rattle.std.specs.Prelude.{option_map};
    ghost use Rattle.llb_cache.specs.Key.{seed_by};
    ghost use Rattle.llb_cache.specs.declared.key.Key as key;

    ghost Value = { key.Key };

    ghost view = { λ k. record { id = k.id.now; seed = option_map (λ s. seed_by s.0.now s.1) k.seed; mode = k.mode } };
}

impl<'a> KeyRef<'a> {
    /// Returns the key with this ID and this mode, and with this seed (the digest text and the index of an output) if one is given.
    /// Does not allocate.
    pub fn new(id: &'a str, seed: Option<(&'a str, u32)>, mode: Mode) -> KeyRef<'a>
        ensures { result ≡ record { id = id.now; seed = option_map (λ s. seed_by s.0.now s.1) seed.entry; mode = mode } }
    {
        KeyRef { id, seed, mode }
    }

    /// Returns an equal key that owns its texts. Fails with 5 `Memory` alone. Does not allocate if all texts of the key are
    /// empty.
    pub fn to_key(&self, alloc: Global) -> Result<Key, Memory>
        ensures ok { IfOk result (λ k. k ≡ self.now) }
        ensures memory { IfErr result (λ _. has_text self.now ≡ true) }
    {
        let id = owned(alloc, self.id)?;
        let seed = owned_seed(alloc, self.seed)?;
        let mode = self.mode;
        Ok(Key { id, seed, mode })
    }

    /// Returns whether the key is locked. Does not allocate.
    pub fn is_locked(&self) -> bool
        ensures { result ≡ is_locked self.now.mode }
    {
        match self.mode {
            Mode::Shared => false,
            Mode::Private => false,
            Mode::Locked => true,
        }
    }

    // Returns the mode of the key.
    pub(crate) fn mode(&self) -> Mode
        ensures { result ≡ self.now.mode }
    {
        self.mode
    }

    // Returns whether this key and the other are the same.
    pub(crate) fn is(&self, other: &KeyRef<'_>) -> bool
        ensures { result ≡ same_key self.now other.now }
    {
        self.order(other).is_eq()
    }

    // Compares keys by ID, then by mode, then by seed; a key without a seed comes before keys with one.
    #[tactic(auto, unfolding(crate::specs::KeyOrder::key_cmp))]
    pub(crate) fn order(&self, other: &KeyRef<'_>) -> Ordering
        ensures { result ≡ key_cmp self.now other.now }
    {
        let ids = self.id.cmp(other.id);
        let modes = place_of(self.mode).cmp(&place_of(other.mode));
        ids.then(modes).then(order_of_seeds(self.seed, other.seed))
    }
}

impl Key {
    /// Returns a key that borrows the texts of this key. Does not allocate.
    pub fn by_ref(&self) -> KeyRef<'_>
        ensures { result ≡ self.now }
    {
        let seed = match &self.seed {
            Some(seed) => Some((seed.digest.as_str(), seed.index)),
            None => None,
        };
        KeyRef {
            id: self.id.as_str(),
            seed,
            mode: self.mode,
        }
    }
}

// Returns the position of a mode in the order shared, private, locked.
fn place_of(mode: Mode) -> u8
    ensures { result ≡ mode_place mode }
{
    match mode {
        Mode::Shared => 0,
        Mode::Private => 1,
        Mode::Locked => 2,
    }
}

// Compares seeds by digest text, then by index; a missing seed comes before any other.
fn order_of_seeds(parts: Option<(&str, u32)>, others: Option<(&str, u32)>) -> Ordering
    ensures { result ≡ option_cmp seed_cmp (option_map (λ s. seed_by s.0.now s.1) parts.entry) (option_map (λ s. seed_by s.0.now s.1) others.entry) }
{
    match parts {
        Some((digest, index)) => match others {
            Some((other, at)) => digest.cmp(other).then(index.cmp(&at)),
            None => Ordering::Greater,
        },
        None => match others {
            Some(_) => Ordering::Less,
            None => Ordering::Equal,
        },
    }
}

// Copies a text. Does not allocate if the text is empty.
fn owned(alloc: Global, text: &str) -> Result<Text, Memory>
    ensures ok { IfOk result (λ t. t ≡ text.now) }
    ensures memory { IfErr result (λ _. not (length text.now == 0) ≡ true) }
{
    if text.is_empty() {
        return Ok(Text::new(String::new(alloc)));
    }
    Ok(Text::from_str(alloc, text)?)
}

// Makes a seed that owns a copy of the digest text.
fn owned_seed(alloc: Global, parts: Option<(&str, u32)>) -> Result<Option<Seed>, Memory>
    ensures ok { IfOk result (λ s. s ≡ option_map (λ s. seed_by s.0.now s.1) parts.entry) }
    ensures memory { IfErr result (λ _. has_digest (option_map (λ s. seed_by s.0.now s.1) parts.entry) ≡ true) }
{
    match parts {
        Some((digest, index)) => {
            let digest = owned(alloc, digest)?;
            Ok(Some(Seed { digest, index }))
        }
        None => Ok(None),
    }
}
