//! Copies lists of trees; the trees of a copy share their memory with the originals.

ghost use Rattle.std.specs.Prelude.{◌≡◌, IfOk};

use llb_tree::Tree;
use llb_wire::Memory;
use std::alloc::Global;

/// Returns shared copies of trees. Fails with 5 `Memory` alone.
pub(crate) fn copied_trees(alloc: Global, trees: &[Tree]) -> Result<Vec<Tree>, Memory>
    ensures { IfOk result (λ t. t.items ≡ trees.now) }
{
    let mut copies = Vec::new(alloc);
    for tree in trees {
        copies.push(tree.copy()?)?;
    }
    Ok(copies)
}
