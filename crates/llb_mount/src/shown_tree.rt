//! A mount of a view: a tree that is shown at a dest. Its dest and its selector are paths; a mount that shows its whole tree has
//! the root as its selector.

ghost use Rattle.std.specs.Prelude.{◌≡◌, IfOk};

use crate::fault::Memory;
use llb_tree::{Path, Tree};
use llb_wire::Same;

/// A mount: a tree that is shown at a dest. A path below the dest is looked up in the tree, below the selector; the tree may have nothing at the selector.
/// `View::set_tree` fails for a read-only mount.
pub struct Shown {
    pub dest: Path,
    pub selector: Path,
    pub readonly: bool,
    pub tree: Tree,
}

impl Drop for Shown {
    fn drop(self) {
        let Shown {
            dest: _,
            selector: _,
            readonly: _,
            tree: _,
        } = self;
    }
}

impl Shown {
    /// Copies the mount: its paths, and its tree, which stays shared. Fails with 62 `Memory` alone.
    pub fn copy(&self) -> Result<Shown, Memory>
        ensures { IfOk result (λ m. m ≡ self.now) }
    {
        let dest = self.dest.copy()?;
        let selector = self.selector.copy()?;
        let tree = self.tree.copy()?;
        let readonly = self.readonly;
        Ok(Shown {
            dest,
            selector,
            readonly,
            tree,
        })
    }

    /// Returns the mount's tree, and drops its paths.
    pub fn into_tree(self) -> Tree
        ensures { result ≡ self.tree }
    {
        let Shown {
            dest: _,
            selector: _,
            readonly: _,
            tree,
        } = self;
        tree
    }
}

impl Same for Shown {
    fn same(&self, other: &Shown) -> bool {
        self.dest.same(&other.dest)
            && self.selector.same(&other.selector)
            && self.readonly == other.readonly
            && self.tree.same(&other.tree)
    }
}
