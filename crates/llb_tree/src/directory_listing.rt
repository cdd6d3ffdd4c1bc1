//! Lists a directory: its children, and their names.

ghost use Rattle.std.specs.Prelude.{◌≡◌, [], ◌∷◌, map, Some, Ok};
ghost use Rattle.std.specs.List.{flat_map};
ghost use Rattle.std.specs.FinMap as finite;
ghost use Rattle.llb_tree.specs.Nodes.{AreSorted, name_of, flat, left_in};
ghost use Rattle.llb_tree.specs.Tree as base;
ghost use Rattle.llb_tree.specs.Tree.{Gives, MemoryLast, list, name_below};

use crate::children::Children;
use crate::directory_names::Names;
use crate::fault::TreeFault;
use crate::name::Name;
use crate::node::{Child, Entry, Kind, Node};
use crate::path::Path;
use crate::tree::Tree;
use std::alloc::Global;

impl Child {
    /// Returns the child's name. Does not allocate.
    pub fn name(&self) -> &Name
        ensures { result.now ≡ name_of self.now }
    {
        &self.name
    }

    /// Returns the child's node, with what is below it. Does not allocate.
    pub fn node(&self) -> &Node
        ensures { result.now ≡ self.now.node }
    {
        &self.node
    }
}

impl Node {
    /// Returns the children in the order of their names; a file has none. The entries of a node are its own entry, and then the entries of its children, child
    /// by child, with the child's name in front of each entry's path. Does not allocate.
    pub fn children(&self) -> Children<'_>
        ensures entries { (e : base.Entry) → finite.get self.now [] ≡ Some e → finite.entries self.now ≡ ([], e) ∷ flat (left_in result) }
        ensures order { AreSorted (left_in result) }
    {
        match &self.kind {
            Kind::File(..) => Children::none(),
            Kind::Dir(_, kids) => Children::of(kids.as_slice()),
        }
    }
}

// Copies the names of children.
fn names_of(alloc: Global, kids: Children<'_>) -> Result<Vec<Name>, TreeFault>
    ensures { Gives (λ v. v.items) result (Ok (flat_map (name_below []) (map (λ e. e.0) (flat (left_in kids.entry))))) }
{
    let mut names = Vec::new(alloc);
    let mut left = kids;
    while let Some((kid, rest)) = left.split_first() {
        let _entry = kid.node.entry();
        names.push(kid.name.copy()?)?;
        left = rest;
    }
    Ok(names)
}

impl Tree {
    /// Returns the names directly below a path, in order. Fails with 21 `NotFound` if nothing is there (nothing is ever below a file), with 22 `NotDir` if a
    /// file is there, else with 27 `Memory`.
    pub fn list(&self, path: &Path) -> Result<Names, TreeFault>
        ensures gives { Gives (λ n. n) result (list self.now path.now) }
        ensures last { MemoryLast result (list self.now path.now) }
    {
        let Some(node) = self.root.at(path.names()) else {
            return Err(TreeFault::NotFound);
        };
        match node.entry() {
            Entry::File(..) => Err(TreeFault::NotDir),
            Entry::Dir(_) => Ok(Names::new(names_of(self.alloc, node.children())?)),
        }
    }
}
