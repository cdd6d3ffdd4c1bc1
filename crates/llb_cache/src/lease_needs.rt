//! The needs of a lease, the instances that a lease has for them, and what a look-up of a key finds.

ghost use Rattle.std.specs.Prelude.{◌≡◌, IfOk};

use crate::key::Key;
use llb_tree::Tree;
use llb_wire::Memory;

/// One need of a lease: an instance of `key`. If the instance is new, it begins with `tree`, the tree of the key's seed
/// or the empty tree.
#[derive(Drop)]
pub struct Need {
    pub key: Key,
    pub tree: Tree,
}

/// An instance: a key, and the number of one of its trees.
#[derive(Drop)]
pub struct Instance {
    pub key: Key,
    pub number: u32,
}

/// What a look-up of a key finds in caches.
#[derive(Drop)]
pub struct Found<'a> {
    /// The number of the key's row; `None` if the key has no row. A later look-up may try that row first.
    pub row: Option<usize>,
    /// Whether a lease of the key would be refused: the key is locked, and a lease has the key's instance.
    pub is_held: bool,
    /// The number of the instance that a lease of the key would take.
    pub number: u32,
    /// The tree of the instance `number`; `None` if this instance does not exist.
    pub tree: Option<&'a Tree>,
}

impl Instance {
    pub(crate) fn copy(&self) -> Result<Instance, Memory>
        ensures { IfOk result (λ p. p ≡ self.now) }
    {
        let key = self.key.copy()?;
        let number = self.number;
        Ok(Instance { key, number })
    }
}
