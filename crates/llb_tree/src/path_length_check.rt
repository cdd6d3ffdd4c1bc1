//! Checks whether a tree can be put at a path without any entry's path having more than 128 names. A tree keeps an upper bound of the number of names in
//! its paths. If this bound does not show that the tree fits, the nodes are visited.

ghost use Rattle.std.specs.Prelude.{◌≡◌, ◌↔◌, ◌≤◌, IsTrue, IfErr, false};
ghost use Rattle.std.specs.FinMap as finite;
ghost use Rattle.llb_tree.specs.Tree.{height, is_memory, places_fit};

use crate::children::Children;
use crate::fault::TreeFault;
use crate::node::{Kind, Node};
use crate::path::Path;
use crate::tree::Tree;

impl Tree {
    /// Checks that this tree can be put at a path. Fails with 26 `BadName` if an entry's path would have more than 128 names. Does not allocate.
    pub fn fits(&self, path: &Path) -> Result<(), TreeFault>
        ensures fit { result ≡ places_fit path.now (finite.keys self.now) }
        ensures known { IfErr result (λ e. is_memory e ≡ false) }
    {
        let room = 128 - path.names().len();
        if self.depth <= room {
            return Ok(());
        }
        if self.root.is_within(room + 1) {
            return Ok(());
        }
        Err(TreeFault::BadName)
    }
}

impl Node {
    // Returns whether this node and what is below it have at most `levels` levels. A file and an empty directory have
    // one level.
    pub(crate) fn is_within(&self, levels: usize) -> bool
        ensures { IsTrue result ↔ (height self.now ≤ levels) }
    {
        let kind = &self.kind;
        if levels == 0 {
            return false;
        }
        match kind {
            Kind::File(..) => true,
            Kind::Dir(_, kids) => {
                let mut left = Children::of(kids.as_slice());
                while let Some((kid, rest)) = left.split_first() {
                    if !kid.node.is_within(levels - 1) {
                        return false;
                    }
                    left = rest;
                }
                true
            }
        }
    }
}
