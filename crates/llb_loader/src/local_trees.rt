//! The trees of local sources, by name, in the order in which the names were first added.

ghost use Rattle.std.specs.Prelude.{◌≡◌, ◌↔◌, ℕ, IsTrue, List, [], Some, cond, IfOk, OnOk, OnErr, IfSome, option_map, slice_get, string_bytes};
ghost use Rattle.std.specs.Str.{bytes_eq};
ghost use Rattle.llb_loader.specs.LocalSources.{locals_of, tree_of_local, with_local};

use crate::fault;
use indexmap::IndexMap;
use llb_tree::Tree;
use llb_wire::{Memory, Same, Text};
use std::alloc::Global;
use std::marker::Model;

/// The trees that local sources read, by name. Contracts see a list of names, each with its tree.
pub struct Locals {
    trees: IndexMap<String, Tree>,
}

impl Drop for Locals {
    fn drop(self) {
        let Locals { trees: _ } = self;
    }
}

impl Model for Locals {
    ghost use Rattle.std.specs.Prelude.{List};
    ghost use Rattle.std.specs.Coded.{codes};
    ghost use Rattle.llb_tree.specs.CodedTrees.{coded_tree};
    ghost use Rattle.llb_loader.specs.LocalSources.{Local, locals_of};

    ghost Value = { List Local };

    ghost coded = { Prim.hlevel (codes, coded_tree) };

    ghost view = { λ l. locals_of l.trees.entries };
}

impl Locals {
    /// Makes a list without names and trees.
    #[tactic(auto, unfolding(crate::specs::LocalSources::locals_of))]
    pub fn new(alloc: Global) -> Locals
        ensures { result ≡ [] }
    {
        Locals {
            trees: IndexMap::new(alloc),
        }
    }

    /// Adds a tree under a name. The tree replaces the tree that the name had; if the name had none, the new tree comes after all others.
    ///
    /// Fails with 92 `Memory` alone; then the list is unchanged.
    #[tactic(auto, using(crate::proofs::LocalTreeMaps::locals_added, crate::proofs::LocalTreeMaps::last_given))]
    pub fn add(&mut self, name: Text, tree: Tree) -> Result<(), fault::Memory>
        ensures ok { OnOk result (self.new ≡ with_local self.old name tree) }
        ensures last { OnOk result ((other : List ℕ) → tree_of_local self.new other ≡ cond (bytes_eq name other) (Some tree) (tree_of_local self.old other)) }
        ensures err { OnErr result (self.new ≡ self.old) }
    {
        self.trees.insert(name.into_string(), tree)?;
        Ok(())
    }

    /// Copies the list: the names are copied, and the trees are shared. Fails with 92 `Memory` alone.
    pub fn copy(&self) -> Result<Locals, fault::Memory>
        ensures { IfOk result (λ l. l ≡ self.now) }
    {
        Ok(copied(&self.trees)?)
    }

    /// Returns the tree that was given for a name; `None` if no tree was given for that name.
    pub fn get(&self, name: &str) -> Option<&Tree>
        ensures { option_map (λ t. t.now) result ≡ tree_of_local self.now name.now }
    {
        self.trees.get(name)
    }
}

// Copies the list: the names are copied, and the trees are shared.
fn copied(trees: &IndexMap<String, Tree>) -> Result<Locals, Memory>
    ensures { IfOk result (λ l. l ≡ locals_of trees.now.entries) }
{
    let mut copies = Locals::new(*trees.allocator());
    for i in 0..trees.len() {
        copy_at(&mut copies, trees, i)?;
    }
    Ok(copies)
}

// Adds to `copies` the name at index `i` and a copy of its tree; adds nothing if there is no index `i`.
fn copy_at(copies: &mut Locals, trees: &IndexMap<String, Tree>, i: usize) -> Result<(), Memory>
    ensures { OnOk result (IfSome (slice_get trees.now.entries i) (λ e. copies.new ≡ with_local copies.old (string_bytes e.0) e.1)) }
{
    match trees.get_index(i) {
        Some((name, tree)) => {
            let name = Text::from_str(*trees.allocator(), name.as_str())?;
            copies.add(name, tree.copy()?)?;
            Ok(())
        }
        None => Ok(()),
    }
}

impl Same for Locals {
    fn same(&self, other: &Locals) -> bool {
        same_trees(&self.trees, &other.trees)
    }
}

// Returns whether two lists have the same trees under the same names, in the same order.
fn same_trees(trees: &IndexMap<String, Tree>, others: &IndexMap<String, Tree>) -> bool
    ensures { IsTrue result ↔ (locals_of trees.now.entries ≡ locals_of others.now.entries) }
{
    if trees.len() != others.len() {
        return false;
    }
    for i in 0..trees.len() {
        if !same_at(trees, others, i) {
            return false;
        }
    }
    true
}

// Returns whether two lists have the same name with the same tree at index `i`, or both have no index `i`.
#[tactic(auto, using(crate::proofs::LocalTreeMaps::local_at))]
fn same_at(trees: &IndexMap<String, Tree>, others: &IndexMap<String, Tree>, i: usize) -> bool
    ensures { IsTrue result ↔ (slice_get (locals_of trees.now.entries) i ≡ slice_get (locals_of others.now.entries) i) }
{
    match (trees.get_index(i), others.get_index(i)) {
        (Some((name, tree)), Some((other_name, other))) => {
            name.as_str() == other_name.as_str() && tree.same(other)
        }
        (None, None) => true,
        _ => false,
    }
}
