//! Checks whether the cache mounts of an exec show distinct caches.

ghost use Rattle.std.specs.Prelude.{◌↔◌, IfOk, IsTrue};
ghost use Rattle.llb_loader.specs.Mounts.{keys_of, AreApart};

use crate::cache_key::key_of;
use llb_ops::{Input, Mount};
use llb_wire::Memory;
use std::alloc::Global;
use std::collections::BTreeSet;

/// Returns whether no two cache mounts show caches with the same key.
pub fn caches_apart(alloc: Global, inputs: &[Input], mounts: &[Mount]) -> Result<bool, Memory>
    ensures { IfOk result (λ apart. IsTrue apart ↔ AreApart (keys_of inputs.now mounts.now)) }
{
    let mut seen = BTreeSet::new(alloc);
    for mount in mounts {
        let Some(key) = key_of(inputs, mount) else {
            continue;
        };
        if !seen.insert(key)? {
            return Ok(false);
        }
    }
    Ok(true)
}
