//! Removes a path, or all paths that match a pattern, from a copy of a tree. The copy shares with the tree what is not removed.

ghost use Rattle.llb_tree.specs.Tree as tree;
ghost use Rattle.llb_fileop.specs.CallResults.{Gives};
ghost use Rattle.llb_fileop.specs.Removing.{rm, rm_path, rm_pattern, absent};

use crate::fault::ActFault;
use llb_glob::Pattern;
use llb_ops::Rm;
use llb_tree::{Path, Tree, TreeFault};
use std::alloc::Global;

/// Returns the tree without a path, or without all paths that match a pattern, and without what is below them. Fails
/// with 51 `File` and the tree's fault, with 52 `BadPattern`, or with 53 `Memory`.
pub fn rm(alloc: Global, remove: &Rm, base: &Tree) -> Result<Tree, ActFault>
    ensures { Gives (λ t. t) result (rm remove.now base.now) }
{
    if remove.allow_wildcard {
        let pattern = Pattern::read(alloc, remove.path.as_str())?;
        let tree = rm_pattern(&pattern, remove.allow_not_found, base)?;
        return Ok(tree);
    }
    let path = Path::read(alloc, remove.path.as_str())?;
    let tree = rm_path(&path, remove.allow_not_found, base)?;
    Ok(tree)
}

// Returns the tree without what is at and below a path. Fails with 25 `Root` at the root, and with 21 `NotFound` if nothing
// is there and `allowed` is false.
fn rm_path(path: &Path, allowed: bool, base: &Tree) -> Result<Tree, TreeFault>
    ensures gives { tree.Gives (λ t. t) result (rm_path allowed base.now path.now) }
    ensures last { tree.MemoryLast result (rm_path allowed base.now path.now) }
{
    if path.is_root() {
        return Err(TreeFault::Root);
    }
    if base.get(path).is_none() {
        return absent(allowed, base);
    }
    let mut tree = base.copy()?;
    tree.remove(path)?;
    Ok(tree)
}

/// Returns the tree without all paths that match a pattern, and without what is below them. Fails with 25 `Root` if the
/// pattern has no parts, and with 21 `NotFound` if no path matches and `allowed` is false.
pub fn rm_pattern(pattern: &Pattern, allowed: bool, base: &Tree) -> Result<Tree, TreeFault>
    ensures { tree.Gives (λ t. t) result (rm_pattern allowed base.now pattern.now) }
{
    base.is_tree();
    match base.without_passing(pattern.parts())? {
        Some(tree) => Ok(tree),
        None => absent(allowed, base),
    }
}

/// Returns the tree after an action that has found nothing to remove or to copy: a copy of the tree if `allowed` is true; otherwise fails with 21 `NotFound`.
pub fn absent(allowed: bool, base: &Tree) -> Result<Tree, TreeFault>
    ensures gives { tree.Gives (λ t. t) result (absent allowed base.now) }
    ensures last { tree.MemoryLast result (absent allowed base.now) }
{
    if allowed {
        base.copy()
    } else {
        Err(TreeFault::NotFound)
    }
}
