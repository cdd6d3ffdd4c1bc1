//! Loads two definitions, one after the other.

ghost use Rattle.std.specs.Prelude.{◌≡◌, IfErr, IfOk, false};
ghost use Rattle.llb_loader.specs.Faults.{is_memory};
ghost use Rattle.llb_loader.specs.LoadResult.{IsGraphIn};
ghost use Rattle.llb_laws.specs.Digests.{DoNotCollide, LoadWithoutCollision, ShareOutcomes};
ghost use Rattle.llb_laws.specs.Refusals.{IsRefusalOfTwo};

use crate::two_graphs::one_digest_one_outcome;
use llb_loader::{Graph, LoadFault, load};
use std::alloc::Global;

/// Returns the graphs of two definitions. If entries of the two definitions with the same digest are equal, vertices of the two graphs with the same digest
/// have the same plain outcome, given the same trees of the sources at or before them. Fails with the fault of `load` for the first definition, else for the
/// second, or for want of memory.
pub fn load_both(alloc: Global, first: &[u8], second: &[u8]) -> Result<(Graph, Graph), LoadFault>
    ensures first { IfOk result (λ made. IsGraphIn first.now made.0) }
    ensures second { IfOk result (λ made. IsGraphIn second.now made.1) }
    ensures shared { IfOk result (λ made. DoNotCollide first.now second.now
        → LoadWithoutCollision first.now made.0 second.now made.1 × ShareOutcomes made.0 made.1) }
    ensures refused { IfErr result (λ e. is_memory e ≡ false → IsRefusalOfTwo first.now second.now e) }
{
    let graph = load(alloc, first)?;
    let other = load(alloc, second)?;
    one_digest_one_outcome(first, &graph, second, &other);
    Ok((graph, other))
}
