//! The key of a cache: its ID, its seed, and its sharing mode. The seed is the output whose tree is the first tree of a
//! new instance. A key borrows from the op. Keys are ordered by ID, then mode, then seed, so that a set can be searched
//! for an equal key.

ghost use Rattle.std.specs.Prelude.{◌≡◌, Some};
ghost use Rattle.std.specs.Option.{option_copied, option_cmp};
ghost use Rattle.llb_loader.specs.Mounts.{key_of, seed_of, seed_by};
ghost use Rattle.llb_loader.specs.KeyOrder.{seed_cmp};

use crate::mounts::cache_in;
use llb_ops::{Input, Mount};
use std::cmp::Ordering;
use std::marker::Model;

/// The key of a cache. The seed is an output; the key keeps the input that names this output.
#[derive(Drop)]
pub(crate) struct Key<'a> {
    id: &'a str,
    mode: i32,
    seed: Option<&'a Input>,
}

impl<'a> Model for Key<'a> {
    ghost use Rattle.std.specs.Option.{option_copied};
    ghost use Rattle.llb_loader.specs.Mounts.{CacheKey, seed_by};

    ghost Value = { CacheKey };

    ghost view = { λ k. record { id = k.id.now; seed = seed_by (option_copied k.seed); mode = k.mode } };
}

/// Returns the key of the cache that a mount shows; `None` if the mount is no cache mount or has no options.
pub(crate) fn key_of<'a>(inputs: &'a [Input], mount: &'a Mount) -> Option<Key<'a>>
    ensures { result ≡ key_of inputs.now mount.now }
{
    let Some(options) = cache_in(mount) else {
        return None;
    };
    let id = options.id.as_str();
    let mode = options.sharing;
    let seed = seed_in(inputs, mount);
    Some(Key { id, mode, seed })
}

// Returns the input that names the seed of the mount's cache: the input with the mount's input number; `None` if no input has this number (-1: no input).
fn seed_in<'a>(inputs: &'a [Input], mount: &Mount) -> Option<&'a Input>
    ensures { seed_by (option_copied result) ≡ seed_of inputs.now mount.now.input }
{
    if mount.input < 0 {
        return None;
    }
    inputs.get(mount.input as usize)
}

// Compares inputs by digest text, then by index.
fn order_of(input: &Input, other: &Input) -> Ordering
    ensures { result ≡ option_cmp seed_cmp (seed_by (Some input.now)) (seed_by (Some other.now)) }
{
    let digests = input.digest.as_str().cmp(other.digest.as_str());
    digests.then(input.index.cmp(&other.index))
}

// Compares seeds; `None` comes before all seeds.
fn order_of_seeds(seed: Option<&Input>, other: Option<&Input>) -> Ordering
    ensures { result ≡ option_cmp seed_cmp (seed_by (option_copied seed.entry)) (seed_by (option_copied other.entry)) }
{
    match seed {
        Some(seed) => match other {
            Some(other) => order_of(seed, other),
            None => Ordering::Greater,
        },
        None => match other {
            Some(_) => Ordering::Less,
            None => Ordering::Equal,
        },
    }
}

impl<'a> PartialEq for Key<'a> {
    ghost use Rattle.std.specs.Ordering.{eq_by_cmp};
    ghost use Rattle.std.specs.Cmp.{partial_equiv_from_equiv, eq_by_cmp_equiv};
    ghost use Rattle.llb_loader.specs.KeyOrder.{key_cmp, key_cmp-IsTotalOrder};

    ghost eq = { eq_by_cmp key_cmp };

    ghost laws = { partial_equiv_from_equiv (eq_by_cmp_equiv key_cmp-IsTotalOrder) };

    fn eq(&self, other: &Self) -> bool {
        self.cmp(other).is_eq()
    }
}

impl<'a> Eq for Key<'a> {
    ghost use Rattle.std.specs.Cmp.{eq_by_cmp_equiv};
    ghost use Rattle.llb_loader.specs.KeyOrder.{key_cmp-IsTotalOrder};

    ghost laws = { eq_by_cmp_equiv key_cmp-IsTotalOrder };
}

impl<'a> PartialOrd for Key<'a> {
    ghost use Rattle.std.specs.Ordering.{as_partial_cmp};
    ghost use Rattle.std.specs.Cmp.{partial_order_from_total};
    ghost use Rattle.llb_loader.specs.KeyOrder.{key_cmp, key_cmp-IsTotalOrder};

    ghost partial_cmp = { as_partial_cmp key_cmp };

    ghost laws = { partial_order_from_total key_cmp-IsTotalOrder };

    fn partial_cmp(&self, other: &Self) -> Option<Ordering> {
        Some(self.cmp(other))
    }
}

impl<'a> Ord for Key<'a> {
    ghost use Rattle.std.proofs.Common.{refl};
    ghost use Rattle.llb_loader.specs.KeyOrder.{key_cmp, key_cmp-IsTotalOrder};

    ghost cmp = { key_cmp };

    ghost total = { key_cmp-IsTotalOrder };

    ghost matches_partial_cmp = { λ x y. refl };

    ghost matches_eq = { λ x y. refl };

    fn cmp(&self, other: &Self) -> Ordering {
        let ids = self.id.cmp(other.id);
        let modes = self.mode.cmp(&other.mode);
        ids.then(modes).then(order_of_seeds(self.seed, other.seed))
    }
}
