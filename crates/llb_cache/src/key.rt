//! The key of a cache: its ID, its seed (the output whose tree a new instance begins with), and its mode (how leases share
//! the instances). Two keys are the same if all three are equal.

ghost use Rattle.std.specs.Prelude.{◌≡◌, ◌↔◌, IsTrue, IfOk};
ghost use Rattle.llb_cache.specs.Key.{same_key, same_seed, same_seeds, same_mode};

use llb_wire::{Memory, Text};
use std::fmt;

/// How leases share the instances of a cache.
#[derive(Clone, Copy, Debug)]
pub enum Mode {
    /// One instance, which any number of leases can have at once.
    Shared,
    /// One instance for each lease: the lowest-numbered instance that no other lease has.
    Private,
    /// One instance, which one lease can have at a time.
    Locked,
}

/// The output whose tree a new instance begins with: the digest text of an entry, and the index of the output.
#[derive(Debug)]
pub struct Seed {
    pub digest: Text,
    pub index: u32,
}

impl Drop for Seed {
    fn drop(self) {
        let Seed {
            digest: _,
            index: _,
        } = self;
    }
}

/// The key of a cache. A new instance of a key without a seed begins empty.
#[derive(Debug)]
pub struct Key {
    pub id: Text,
    pub seed: Option<Seed>,
    pub mode: Mode,
}

impl Drop for Key {
    fn drop(self) {
        let Key {
            id: _,
            seed: _,
            mode: _,
        } = self;
    }
}

fn same_mode(mode: Mode, other: Mode) -> bool
    ensures { result ≡ same_mode mode other }
{
    match mode {
        Mode::Shared => matches!(other, Mode::Shared),
        Mode::Private => matches!(other, Mode::Private),
        Mode::Locked => matches!(other, Mode::Locked),
    }
}

fn same_seed(seed: &Seed, other: &Seed) -> bool
    ensures { result ≡ same_seed seed.now other.now }
{
    seed.index == other.index && seed.digest == other.digest
}

fn same_seeds(seed: &Option<Seed>, other: &Option<Seed>) -> bool
    ensures { result ≡ same_seeds seed.now other.now }
{
    match seed {
        Some(seed) => match other {
            Some(other) => same_seed(seed, other),
            None => false,
        },
        None => other.is_none(),
    }
}

fn copy_of(seed: &Option<Seed>) -> Result<Option<Seed>, Memory>
    ensures { IfOk result (λ s. s ≡ seed.now) }
{
    match seed {
        Some(seed) => {
            let digest = seed.digest.copy()?;
            let index = seed.index;
            Ok(Some(Seed { digest, index }))
        }
        None => Ok(None),
    }
}

impl Key {
    /// Copies the key. Fails with 5 `Memory` alone.
    pub fn copy(&self) -> Result<Key, Memory>
        ensures { IfOk result (λ k. k ≡ self.now) }
    {
        let id = self.id.copy()?;
        let seed = copy_of(&self.seed)?;
        let mode = self.mode;
        Ok(Key { id, seed, mode })
    }

    /// Returns whether this key and the other are the same. Does not allocate.
    pub fn same(&self, other: &Key) -> bool
        ensures { IsTrue result ↔ (self.now ≡ other.now) }
    {
        self == other
    }
}

/// Prints the ID of the key.
impl fmt::Display for Key {
    ghost use Rattle.std.specs.Prelude.{Some};

    ghost output = { λ k. Some k.id };

    fn fmt<W: fmt::Write>(&self, f: &mut fmt::Formatter<W>) -> fmt::Result {
        let id = &self.id;
        write!(f, "{id}")
    }
}

impl PartialEq for Key {
    ghost use Rattle.std.specs.Cmp.{partial_equiv_from_equiv};
    ghost use Rattle.llb_cache.specs.Key.{same_key};
    ghost use Rattle.llb_cache.specs.KeyEquality.{key_equiv};

    ghost eq = { same_key };

    ghost laws = { partial_equiv_from_equiv key_equiv };

    #[tactic(auto, unfolding(crate::specs::Key::same_key))]
    fn eq(&self, other: &Self) -> bool {
        if !same_mode(self.mode, other.mode) {
            return false;
        }
        if !same_seeds(&self.seed, &other.seed) {
            return false;
        }
        self.id == other.id
    }
}

impl Eq for Key {
    ghost use Rattle.llb_cache.specs.KeyEquality.{key_equiv};

    ghost laws = { key_equiv };
}
