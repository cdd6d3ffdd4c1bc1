//! Decides whether two trees have the same entries. Nodes are compared from the root down, and a directory's children one after another in
//! the order of their names.

ghost use Rattle.std.specs.Prelude.{◌≡◌, ◌↔◌, IsTrue};

use crate::children::Children;
use crate::node::{Kind, Node};
use crate::tree::Tree;
use llb_wire::Same;

/// Two trees are the same if both have the same entries at the same paths.
impl Same for Tree {
    fn same(&self, other: &Tree) -> bool {
        self.root.same(&other.root)
    }
}

impl Node {
    // Returns whether this node and the other have the same entries at the same paths. The calls of `entry` have no effect at run time. They prove that each
    // child has an entry, so the two nodes differ if one of them has a child that the other lacks.
    pub(crate) fn same(&self, other: &Node) -> bool
        ensures { IsTrue result ↔ (self.now ≡ other.now) }
    {
        match (&self.kind, &other.kind) {
            (Kind::File(meta, content), Kind::File(other_meta, other_content)) => {
                meta.same(other_meta) && content.same(other_content)
            }
            (Kind::Dir(meta, kids), Kind::Dir(other_meta, other_kids)) => {
                if !meta.same(other_meta) {
                    return false;
                }
                let mut left = Children::of(kids.as_slice());
                let mut others = Children::of(other_kids.as_slice());
                while let Some((kid, rest)) = left.split_first() {
                    let _kid = kid.node.entry();
                    let Some((other, more)) = others.split_first() else {
                        return false;
                    };
                    let _other = other.node.entry();
                    if *kid.name != *other.name {
                        return false;
                    }
                    if !kid.node.same(&other.node) {
                        return false;
                    }
                    left = rest;
                    others = more;
                }
                match others.split_first() {
                    None => true,
                    Some((other, _)) => {
                        let _other = other.node.entry();
                        false
                    }
                }
            }
            _ => false,
        }
    }
}
