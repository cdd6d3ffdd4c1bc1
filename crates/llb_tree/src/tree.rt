//! The tree: a root directory, an upper bound of the number of names in its paths, and its allocator. Contracts see only the map from paths to entries. A copy
//! of a tree shares everything with the tree. An edit first makes the checks that can refuse it; then it copies the directories on its path, and changes the
//! last of them.

ghost use Rattle.std.specs.Prelude.{◌≡◌, ◌++◌, ℕ, List, Ok, Err, MatchResult, IfOk, IfErr, OnOk, OnErr, false, option_map};
ghost use Rattle.std.specs.FinMap as finite;
ghost use Rattle.llb_tree.specs.Path.{is_within};
ghost use Rattle.llb_tree.specs.Tree.{is_memory, Gives, MemoryLast, IsTree, empty_tree, put_file, put_dir, remove, subtree, graft, is_dir};
ghost use Rattle.llb_tree.specs.Tree.{dir_there, file_fits, dir_fits, found};
ghost use Rattle.llb_tree.specs.Nodes.{seen};

use crate::fault::TreeFault;
use crate::mode_and_owner::Meta;
use crate::name::Name;
use crate::node::{Entry, Node};
use crate::path::Path;
use llb_wire::Bytes;
use std::alloc::Global;
use std::marker::Model;

/// A map from paths to entries. The root is a directory, and so is each proper prefix of a path that has an entry.
pub struct Tree {
    pub(crate) root: Node,
    pub(crate) depth: usize,
    pub(crate) alloc: Global,
}

impl Drop for Tree {
    fn drop(self) {
        let Tree {
            root: _,
            depth: _,
            alloc: _,
        } = self;
    }
}

impl Model for Tree {
    ghost use Rattle.llb_tree.specs.Tree.{TreeMap};
    ghost use Rattle.llb_tree.specs.CodedTrees.{coded_tree};
    ghost use Rattle.llb_tree.specs.Nodes.{IsWhole};

    ghost Value = { TreeMap };

    ghost coded = { coded_tree };

    ghost view = { λ t. t.root };

    ghost invariant = { λ t. IsWhole t.root t.depth };
}

// Checks that a file may be put at the path that the names make. Fails with 23 `IsDir` if a directory is there.
pub(crate) fn file_may_stand(root: &Node, names: &[Name]) -> Result<(), TreeFault>
    ensures { result ≡ file_fits (finite.get root.now names.now) }
{
    match root.get(names) {
        Some(Entry::Dir(_)) => Err(TreeFault::IsDir),
        Some(Entry::File(..)) => Ok(()),
        None => Ok(()),
    }
}

// Checks that a directory may be made at the path that the names make. Fails with 24 `Conflict` if a file is there.
fn dir_may_stand(root: &Node, names: &[Name]) -> Result<(), TreeFault>
    ensures { result ≡ dir_fits (finite.get root.now names.now) }
{
    match root.get(names) {
        Some(Entry::File(..)) => Err(TreeFault::Conflict),
        Some(Entry::Dir(_)) => Ok(()),
        None => Ok(()),
    }
}

// Checks that an entry is at the path that the names make. Fails with 21 `NotFound` if there is none.
fn is_there(root: &Node, names: &[Name]) -> Result<(), TreeFault>
    ensures there { result ≡ found (finite.get root.now names.now) }
    ensures known { IfErr result (λ e. is_memory e ≡ false) }
{
    match root.get(names) {
        Some(_) => Ok(()),
        None => Err(TreeFault::NotFound),
    }
}

// Returns the directory at the path that the names make. Fails with 21 `NotFound` if nothing is there, with 22 `NotDir` if a file is there.
pub(crate) fn dir_at<'a>(root: &'a Node, names: &[Name]) -> Result<&'a Node, TreeFault>
    ensures there { MatchResult result (λ n. dir_there root.now names.now ≡ Ok tt) (λ e. dir_there root.now names.now ≡ Err e) }
    ensures places { IfOk result (λ n. (q : List (List ℕ)) → finite.get n.now q ≡ finite.get root.now (names.now ++ q)) }
    ensures known { IfErr result (λ e. is_memory e ≡ false) }
{
    match root.at(names) {
        None => Err(TreeFault::NotFound),
        Some(node) => match node.entry() {
            Entry::File(..) => Err(TreeFault::NotDir),
            Entry::Dir(_) => Ok(node),
        },
    }
}

impl Tree {
    /// Makes the tree that has nothing but a root directory, with mode 0755 and owner 0:0. Fails with 27 `Memory` alone.
    pub fn empty(alloc: Global) -> Result<Tree, TreeFault>
        ensures { Gives (λ t. t) result (Ok empty_tree) }
    {
        let root = Node::empty_dir(alloc, Meta::new_dir())?;
        Ok(Tree {
            root,
            depth: 0,
            alloc,
        })
    }

    /// Returns the root with what is below it. Does not allocate.
    pub fn root(&self) -> &Node
        ensures { result.now ≡ self.now }
    {
        &self.root
    }

    /// Returns the entry at a path, if there is one. Does not allocate.
    pub fn get(&self, path: &Path) -> Option<Entry<'_>>
        ensures found { option_map seen result ≡ finite.get self.now path.now }
        ensures tree { IsTree self.now }
    {
        self.root.get(path.names())
    }

    /// Returns whether there is a directory at a path. Does not allocate.
    pub fn is_dir(&self, path: &Path) -> bool
        ensures there { result ≡ is_dir (finite.get self.now path.now) }
        ensures tree { IsTree self.now }
    {
        match self.get(path) {
            Some(Entry::Dir(_)) => true,
            Some(Entry::File(..)) => false,
            None => false,
        }
    }

    /// Proves that the root is a directory, and so is each proper prefix of a path that has an entry; and that each entry has a valid path, a valid mode and
    /// valid owners, and, if it is a file, a content of bytes.
    pub fn is_tree(&self)
        ensures { IsTree self.now }
    {
        let _root = &self.root;
    }

    /// Puts a file at a path, or replaces the file there. Fails, in this order, with 25 `Root` at the root, 21
    /// `NotFound` or 22 `NotDir` at the first parent that is missing or a file, 23 `IsDir` if a directory is there;
    /// else with 27 `Memory`. After a refusal the tree is unchanged.
    pub fn put_file(&mut self, path: &Path, meta: Meta, content: Bytes) -> Result<(), TreeFault>
        ensures gives { Gives (λ _. self.new) result (put_file self.old path.now meta content) }
        ensures last { MemoryLast result (put_file self.old path.now meta content) }
        ensures err { OnErr result (self.new ≡ self.old) }
    {
        meta.is_meta();
        content.is_bytes();
        let names = path.names();
        if path.is_root() {
            return Err(TreeFault::Root);
        }
        self.root.walked(names)?;
        file_may_stand(&self.root, names)?;
        let node = Node::file(self.alloc, meta, content)?;
        self.root.set(self.alloc, names, Some(node))?;
        self.depth = self.depth.max(names.len());
        Ok(())
    }

    /// Makes a directory at a path; a directory that is there (the root too) gets the new mode and owner. Fails, in this order, with 21 `NotFound` or 22
    /// `NotDir` at the first parent that is missing or a file, 24 `Conflict` if a file is there; else with 27 `Memory`. After a refusal the tree is unchanged.
    pub fn put_dir(&mut self, path: &Path, meta: Meta) -> Result<(), TreeFault>
        ensures gives { Gives (λ _. self.new) result (put_dir self.old path.now meta) }
        ensures last { MemoryLast result (put_dir self.old path.now meta) }
        ensures err { OnErr result (self.new ≡ self.old) }
    {
        meta.is_meta();
        let names = path.names();
        self.root.walked(names)?;
        dir_may_stand(&self.root, names)?;
        let node = self.root.dir_at(self.alloc, names, meta)?;
        self.root.set(self.alloc, names, Some(node))?;
        self.depth = self.depth.max(names.len());
        Ok(())
    }

    /// Removes what is at and below a path. Fails, in this order, with 25 `Root` at the root, 21 `NotFound` if nothing is there (nothing is ever below a file);
    /// else with 27 `Memory`. After a refusal the tree is unchanged.
    pub fn remove(&mut self, path: &Path) -> Result<(), TreeFault>
        ensures gives { Gives (λ _. self.new) result (remove self.old path.now) }
        ensures last { MemoryLast result (remove self.old path.now) }
        ensures err { OnErr result (self.new ≡ self.old) }
    {
        let names = path.names();
        if path.is_root() {
            return Err(TreeFault::Root);
        }
        is_there(&self.root, names)?;
        self.root.set(self.alloc, names, None)?;
        Ok(())
    }

    /// Puts another tree at a path: its entries replace what is at and below the path, and are shared, not copied. Fails, in
    /// this order, with 21 `NotFound` or 22 `NotDir` at the first parent that is missing or a file, 26 `BadName` if an
    /// entry's path would have more than 128 names; else with 27 `Memory`. After a refusal the tree is unchanged.
    pub fn graft(&mut self, path: &Path, other: &Tree) -> Result<(), TreeFault>
        ensures gives { Gives (λ _. self.new) result (graft self.old path.now other.now) }
        ensures last { MemoryLast result (graft self.old path.now other.now) }
        ensures inside { OnOk result ((q : List (List ℕ)) → finite.get self.new (path.now ++ q) ≡ finite.get other.now q) }
        ensures outside { OnOk result ((q : List (List ℕ)) → is_within path.now q ≡ false → finite.get self.new q ≡ finite.get self.old q) }
        ensures err { OnErr result (self.new ≡ self.old) }
    {
        let names = path.names();
        self.root.walked(names)?;
        other.fits(path)?;
        let node = other.root.copy()?;
        self.root.set(self.alloc, names, Some(node))?;
        self.depth = self.depth.max(names.len() + other.depth).min(128);
        Ok(())
    }

    /// Returns the tree of what is at and below a path: the result has at `q` what this tree has at the path followed by `q`. The two trees share their nodes.
    /// Fails with 21 `NotFound` if nothing is there (nothing is ever below a file), with 22 `NotDir` if a file is there, else with 27 `Memory`.
    pub fn subtree(&self, path: &Path) -> Result<Tree, TreeFault>
        ensures gives { Gives (λ t. t) result (subtree self.now path.now) }
        ensures last { MemoryLast result (subtree self.now path.now) }
        ensures places { IfOk result (λ t. (q : List (List ℕ)) → finite.get t q ≡ finite.get self.now (path.now ++ q)) }
    {
        let names = path.names();
        let node = dir_at(&self.root, names)?;
        let root = node.copy()?;
        Ok(Tree {
            root,
            depth: self.depth.saturating_sub(names.len()),
            alloc: self.alloc,
        })
    }

    /// Returns a copy of the tree; the two trees share all their nodes. Fails with 27 `Memory` alone.
    pub fn copy(&self) -> Result<Tree, TreeFault>
        ensures { Gives (λ t. t) result (Ok self.now) }
    {
        let root = self.root.copy()?;
        Ok(Tree {
            root,
            depth: self.depth,
            alloc: self.alloc,
        })
    }
}
