//! Lays one tree over another. At a path the result has what the upper tree has there. If the upper tree has nothing there, the result has what the lower tree
//! has, unless a file of the upper tree is above the path.

ghost use Rattle.std.specs.Prelude.{◌≡◌, IfOk, OnOk, OnErr, Some, None, false};
ghost use Rattle.llb_tree.specs.Overlay.{settings_of};
ghost use Rattle.llb_merge.specs.Laying.{lay};

use crate::fault::Memory;
use llb_tree::{OverlaySettings, Tree};
use std::alloc::Global;

// Returns the `OverlaySettings` that leaves each upper entry its mode and owner, also if both trees have a directory at its path.
fn plain() -> OverlaySettings
    ensures { settings_of None None None false ≡ Some result }
{
    OverlaySettings::new(None, None, None, false).unwrap()
}

/// Lays the upper tree over the lower one, and returns the result. At a path the result has what the upper tree has there. If the upper tree has nothing
/// there, the result has what the lower tree has, unless a file of the upper tree is above the path. Fails with 55 `Memory` alone.
pub fn lay(_: Global, lower: &Tree, upper: &Tree) -> Result<Tree, Memory>
    ensures { IfOk result (λ t. t ≡ lay lower.now upper.now) }
{
    lay_onto(lower.copy()?, upper)
}

/// Lays the upper tree over the lower one, as `lay` does, but takes ownership of the lower tree: so a caller that lays several trees one over another copies
/// no tree. Fails with 55 `Memory` alone.
pub fn lay_onto(lower: Tree, upper: &Tree) -> Result<Tree, Memory>
    ensures { IfOk result (λ t. t ≡ lay lower upper.now) }
{
    let settings = plain();
    Ok(lower.overlaid(&settings, upper)?)
}

/// Lays the upper tree over the lower one as `lay` does, and replaces the lower tree by the result. Fails with 55 `Memory` alone; then the lower tree is
/// unchanged.
pub fn lay_over(lower: &mut Tree, upper: &Tree) -> Result<(), Memory>
    ensures ok { OnOk result (lower.new ≡ lay lower.old upper.now) }
    ensures err { OnErr result (lower.new ≡ lower.old) }
{
    let settings = plain();
    Ok(lower.overlay(&settings, upper)?)
}
