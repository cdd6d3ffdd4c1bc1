//! The trees of a key's instances, and room for one more tree, which is allocated before the caches change.

ghost use Rattle.std.specs.Prelude.{◌≡◌, ◌↔◌, IsTrue, ◌<◌, ◌++◌, List, [], ◌∷◌, length, slice_get, slice_set, option_map, IfOk, Some};
ghost use Rattle.llb_cache.specs.LeaseAdditions.{front};

use llb_tree::Tree;
use llb_wire::{Memory, all_same};
use std::alloc::Global;
use std::marker::Model;

// The trees of a key's instances, by number.
pub(crate) struct Trees {
    items: Vec<Tree>,
}

impl Drop for Trees {
    fn drop(self) {
        let Trees { items: _ } = self;
    }
}

impl Model for Trees {
    ghost use Rattle.std.specs.Prelude.{List};
    ghost use Rattle.std.specs.Coded.{codes};
    ghost use Rattle.llb_tree.specs.Tree.{TreeMap};
    ghost use Rattle.llb_tree.specs.CodedTrees.{coded_tree};

    ghost Value = { List TreeMap };

    ghost coded = { Prim.hlevel (codes, coded_tree) };

    ghost view = { λ t. t.items.items };
}

// An empty list with room for trees. Contracts see for how many trees it has room.
#[derive(Drop)]
pub(crate) struct Room {
    items: Vec<Tree>,
}

impl Model for Room {
    ghost use Rattle.std.specs.Prelude.{◌≡◌, ℕ, [], vec_capacity};

    ghost Value = { ℕ };

    ghost view = { λ r. vec_capacity r.items };

    ghost invariant = { λ r. r.items.items ≡ [] };
}

impl Room {
    // Makes room for the trees of the instances with the numbers 0 to `number`.
    pub(crate) fn up_to(alloc: Global, number: u32) -> Result<Room, Memory>
        ensures { IfOk result (λ r. number < r) }
    {
        let items = Vec::with_capacity(alloc, number as usize + 1)?;
        Ok(Room { items })
    }
}

impl Trees {
    pub(crate) fn new(alloc: Global) -> Trees
        ensures { result ≡ [] }
    {
        Trees {
            items: Vec::new(alloc),
        }
    }

    pub(crate) fn len(&self) -> usize
        ensures { result ≡ length self.now }
    {
        self.items.len()
    }

    // Returns the tree with this number, if there is one.
    pub(crate) fn get(&self, number: u32) -> Option<&Tree>
        ensures { option_map (λ t. t.now) result ≡ slice_get self.now number }
    {
        self.items.get(number as usize)
    }

    // Returns the tree with this number, which must exist.
    pub(crate) fn at(&self, number: u32) -> &Tree
        requires { number < length self.now }
        ensures { slice_get self.now number ≡ Some result.now }
    {
        &self.items[number as usize]
    }

    // Replaces the tree with this number.
    pub(crate) fn set(&mut self, number: u32, tree: Tree)
        requires { number < length self.old }
        ensures { self.new ≡ slice_set self.old number tree }
    {
        self.items[number as usize] = tree;
    }

    // Appends a tree. All trees are moved into the list `room`, which is long enough for one more.
    pub(crate) fn push_into(&mut self, room: Room, tree: Tree)
        requires { length self.old < room }
        ensures { self.new ≡ self.old ++ tree ∷ [] }
    {
        let mut items = room.items;
        items.append(&mut self.items).unwrap();
        items.push_reserved(tree);
        self.items = items;
    }

    // Removes the last tree, if there is one.
    pub(crate) fn pop(&mut self)
        ensures { self.new ≡ front self.old }
    {
        self.items.pop();
    }

    // Copies the list; the copy shares the trees.
    pub(crate) fn copy(&self) -> Result<Trees, Memory>
        ensures { IfOk result (λ t. t ≡ self.now) }
    {
        let mut items = Vec::new(*self.items.allocator());
        for tree in &self.items {
            items.push(tree.copy()?)?;
        }
        Ok(Trees { items })
    }

    // Returns whether both lists have the same trees in the same order.
    pub(crate) fn same(&self, other: &Trees) -> bool
        ensures { IsTrue result ↔ (self.now ≡ other.now) }
    {
        all_same(self.items.as_slice(), other.items.as_slice())
    }
}
