//! The nodes of a tree: a file with its content, or a directory with its children in the order of their names. Nodes
//! are shared: a copy of a node copies nothing below it. A path has at most 128 names, so a recursion over
//! nodes, such as their drop, visits at most 129 levels.

ghost use Rattle.std.specs.Prelude.{◌≡◌, ℕ, [], ◌∷◌, ◌++◌, ◌<◌, ◌≤◌, List, length, IfOk, IfErr, Some, false, option_map};
ghost use Rattle.std.specs.FinMap as finite;
ghost use Rattle.llb_tree.specs.Tree.{is_memory, walk, Dir};
ghost use Rattle.llb_tree.specs.Nodes.{AreSorted, dir_look, file_look, pair_of, place, look_in, seen};

use crate::child_pieces::child_of;
use crate::fault::TreeFault;
use crate::mode_and_owner::Meta;
use crate::name::Name;
use llb_wire::Bytes;
use std::alloc::{AllocError, Global};
use std::cmp::Ordering;
use std::marker::Model;
use std::sync::Arc;

/// The entry at a path: a directory, or a file with its content.
#[derive(Clone, Copy)]
pub enum Entry<'a> {
    /// A directory: its mode and owner.
    Dir(Meta),
    /// A file: its mode and owner, and its content.
    File(Meta, &'a Bytes),
}

/// A file, or a directory with what is below it. Contracts see the map from paths to the entries at and below the node.
#[cycle(node)]
#[derive(Drop)]
pub struct Node {
    pub(crate) kind: Kind,
}

// A file with its content, or a directory with the pieces that its children are in. Both have a mode and an owner.
#[cycle(node)]
#[derive(Drop)]
pub(crate) enum Kind {
    File(Meta, Arc<Bytes>),
    Dir(Meta, Arc<Vec<Piece>>),
}

// Consecutive children of a directory, in the order of their names. Copies of the directory share its pieces.
#[cycle(node)]
#[derive(Drop)]
pub(crate) struct Piece {
    pub(crate) rows: Arc<Vec<Child>>,
}

/// A child of a directory: its name, and its node.
#[cycle(node)]
#[derive(Drop)]
pub struct Child {
    pub(crate) name: Arc<Name>,
    pub(crate) node: Node,
}

impl Model for Node {
    ghost use Rattle.llb_tree.specs.Tree.{TreeMap, height};
    ghost use Rattle.llb_tree.specs.CodedTrees.{coded_tree};

    ghost Value = { TreeMap };

    ghost coded = { coded_tree };

    ghost use Rattle.llb_tree.specs.Nodes.{map_of, pieces_of};
    ghost use Rattle.llb_tree.specs.ChildPieces.{ArePieced};

    ghost view = { λ n. map_of n.kind };

    ghost invariant = { λ n. ArePieced (pieces_of n.kind) };

    ghost size = { height };

    ghost use Rattle.llb_tree.specs.TreeHeights.{falls};

    ghost size_decreases = { λ a h. falls a.kind };
}

// Returns the index of the child with a name; if there is no such child, returns as `Err` the index at which the child
// would be inserted. Looks at the last child first, since children are most often added in the order of their names.
pub(crate) fn place_of(kids: &[Child], name: &Name) -> Result<usize, usize>
    requires { AreSorted kids.now }
    ensures place { result ≡ place name.now kids.now }
    ensures row { IfOk result (λ i. i < length kids.now) }
    ensures gap { IfErr result (λ i. i ≤ length kids.now) }
{
    let count = kids.len();
    if count > 0 {
        if let Ordering::Less = (*kids[count - 1].name).cmp(name) {
            return Err(count);
        }
    }
    kids.binary_search_by(|kid| (*kid.name).cmp(name))
}

impl Node {
    /// Returns the node's own entry. Does not allocate.
    pub fn entry(&self) -> Entry<'_>
        ensures { Some (seen result) ≡ finite.get self.now [] }
    {
        match &self.kind {
            Kind::File(meta, content) => Entry::File(*meta, content),
            Kind::Dir(meta, _) => Entry::Dir(*meta),
        }
    }

    // Returns the node of the child with a name; `None` if there is no such child.
    pub(crate) fn child(&self, name: &Name) -> Option<&Node>
        ensures { (q : List (List ℕ)) → look_in (option_map (λ n. n.now) result) q ≡ finite.get self.now (name.now ∷ q) }
    {
        match &self.kind {
            Kind::File(..) => None,
            Kind::Dir(_, kids) => match child_of(kids.as_slice(), name) {
                None => None,
                Some(kid) => Some(&kid.node),
            },
        }
    }

    // Returns the node to which the names lead down from this one; `None` if there is none.
    pub(crate) fn at(&self, names: &[Name]) -> Option<&Node>
        ensures { (q : List (List ℕ)) → look_in (option_map (λ n. n.now) result) q ≡ finite.get self.now (names.now ++ q) }
    {
        let mut node = self;
        for name in names {
            node = node.child(name)?;
        }
        Some(node)
    }

    // Returns the entry to which the names lead down from this node; `None` if there is none.
    pub(crate) fn get(&self, names: &[Name]) -> Option<Entry<'_>>
        ensures { option_map seen result ≡ finite.get self.now names.now }
    {
        match self.at(names) {
            None => None,
            Some(node) => Some(node.entry()),
        }
    }

    // Makes the node of a file.
    pub(crate) fn file(alloc: Global, meta: Meta, content: Bytes) -> Result<Node, AllocError>
        ensures { IfOk result (λ n. (q : List (List ℕ)) → finite.get n q ≡ file_look meta content q) }
    {
        let content = Arc::new(alloc, content)?;
        Ok(Node {
            kind: Kind::File(meta, content),
        })
    }

    // Makes a directory with nothing below it.
    pub(crate) fn empty_dir(alloc: Global, meta: Meta) -> Result<Node, AllocError>
        ensures { IfOk result (λ n. n ≡ finite.insert finite.empty [] (Dir meta)) }
    {
        let kids = Arc::new(alloc, Vec::new(alloc))?;
        Ok(Node {
            kind: Kind::Dir(meta, kids),
        })
    }

    // Returns this directory with another mode and owner; if this node is a file, returns an empty directory with that mode and owner.
    fn with_meta(&self, alloc: Global, meta: Meta) -> Result<Node, AllocError>
        ensures { IfOk result (λ n. (q : List (List ℕ)) → finite.get n q ≡ dir_look meta (finite.get self.now) q) }
    {
        match &self.kind {
            Kind::File(..) => Node::empty_dir(alloc, meta),
            Kind::Dir(_, kids) => {
                let kids = Arc::try_clone(kids)?;
                Ok(Node {
                    kind: Kind::Dir(meta, kids),
                })
            }
        }
    }

    // Returns the directory to which the names lead down from this node, with another mode and owner; if no directory is there, returns an empty directory
    // with that mode and owner.
    pub(crate) fn dir_at(
        &self,
        alloc: Global,
        names: &[Name],
        meta: Meta,
    ) -> Result<Node, AllocError>
        ensures { IfOk result (λ n. (q : List (List ℕ)) → finite.get n q ≡ dir_look meta (λ r. finite.get self.now (names.now ++ r)) q) }
    {
        match self.at(names) {
            None => Node::empty_dir(alloc, meta),
            Some(node) => node.with_meta(alloc, meta),
        }
    }

    // Checks that there is a directory at each proper prefix of these names. Fails at the first prefix at which there is none: with 21 `NotFound` if nothing is
    // there, with 22 `NotDir` if a file is there.
    pub(crate) fn walked(&self, names: &[Name]) -> Result<(), TreeFault>
        ensures walks { result ≡ walk (finite.get self.now) names.now }
        ensures known { IfErr result (λ e. is_memory e ≡ false) }
    {
        let mut node = Some(self);
        for name in names {
            match node {
                None => return Err(TreeFault::NotFound),
                Some(here) => match here.entry() {
                    Entry::File(..) => return Err(TreeFault::NotDir),
                    Entry::Dir(_) => node = here.child(name),
                },
            }
        }
        Ok(())
    }

    // Copies the node; the copy shares the content of a file, or the list of the pieces of a directory. Fails only if the count of owners of that
    // content or list is at its limit.
    pub(crate) fn copy(&self) -> Result<Node, AllocError>
        ensures { IfOk result (λ n. n ≡ self.now) }
    {
        let kind = match &self.kind {
            Kind::File(meta, content) => Kind::File(*meta, Arc::try_clone(content)?),
            Kind::Dir(meta, kids) => Kind::Dir(*meta, Arc::try_clone(kids)?),
        };
        Ok(Node { kind })
    }
}

impl Child {
    // Copies the child; the copy shares the name, and the content or the list of pieces of the node.
    pub(crate) fn copy(&self) -> Result<Child, AllocError>
        ensures { IfOk result (λ k. pair_of k ≡ pair_of self.now) }
    {
        let name = Arc::try_clone(&self.name)?;
        let node = self.node.copy()?;
        Ok(Child { name, node })
    }
}
