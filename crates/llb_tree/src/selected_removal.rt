//! Removes the paths of a tree that pass given tests, and what is below these paths. There is one test for each name of a path, from the root down. The call
//! goes down only into directories whose own names pass, so it visits no path with more names than there are tests.

ghost use Rattle.std.specs.Prelude.{◌≡◌, ◌∷◌, Bool, List, ℕ, IfOk, option_map};
ghost use Rattle.llb_tree.specs.Tree.{Gives, MemoryLast};
ghost use Rattle.llb_tree.specs.Nodes.{left_in};
ghost use Rattle.llb_tree.specs.PathTests.{Keeps, KeepsAll, Thins, rid_of};

use crate::child_pieces::in_pieces;
use crate::children::Children;
use crate::fault::TreeFault;
use crate::name::Name;
use crate::node::{Child, Kind, Node};
use crate::tree::Tree;
use std::alloc::{AllocError, Global};
use std::sync::Arc;

/// A test of names.
pub trait NameTest {
    ghost passes: { Self → List ℕ → Bool };

    /// Returns whether a name passes this test. Does not allocate.
    fn passes(&self, name: &Name) -> bool
        ensures { result ≡ passes self.now name.now };
}

// Returns the node without each path that passes the tests, and without what is below such a path. Returns `None` if no path passes, so nothing is removed.
#[cycle(thin)]
fn thinned<T: NameTest>(
    node: &Node,
    alloc: Global,
    test: &T,
    rest: &[T],
) -> Result<Option<Node>, AllocError>
    ensures { IfOk result (λ o. Thins T.passes (test.now ∷ rest.now) node.now o) }
{
    let Kind::Dir(meta, kids) = &node.kind else {
        return Ok(None);
    };
    match thinned_children(Children::of(kids.as_slice()), alloc, test, rest)? {
        None => Ok(None),
        Some(kept) => {
            let kids = in_pieces(alloc, kept)?;
            Ok(Some(Node {
                kind: Kind::Dir(*meta, kids),
            }))
        }
    }
}

// Returns the children without each path that passes the tests, and without what is below such a path. Returns `None` if no path passes, so nothing is
// removed.
#[cycle(thin)]
fn thinned_children<T: NameTest>(
    kids: Children<'_>,
    alloc: Global,
    test: &T,
    rest: &[T],
) -> Result<Option<Vec<Child>>, AllocError>
    ensures { IfOk result (λ o. KeepsAll T.passes (test.now ∷ rest.now) (left_in kids.entry) (option_map (λ v. v.items) o)) }
{
    let mut kept = Vec::new(alloc);
    let mut changed = false;
    let mut left = kids;
    while let Some((kid, others)) = left.split_first() {
        let goes = keep(&mut kept, alloc, kid, test, rest)?;
        changed = changed || goes;
        left = others;
    }
    if !changed {
        return Ok(None);
    }
    Ok(Some(kept))
}

// Appends a child without the paths that pass the tests, and without what is below these paths; returns whether any path was left out.
#[cycle(thin)]
fn keep<T: NameTest>(
    kept: &mut Vec<Child>,
    alloc: Global,
    kid: &Child,
    test: &T,
    rest: &[T],
) -> Result<bool, AllocError>
    ensures { IfOk result (λ goes. Keeps T.passes (test.now ∷ rest.now) kid.now goes kept.old.items kept.new.items) }
{
    if !test.passes(&kid.name) {
        kept.push(kid.copy()?)?;
        return Ok(false);
    }
    let [next, others @ ..] = rest else {
        let _entry = kid.node.entry();
        return Ok(true);
    };
    match thinned(&kid.node, alloc, next, others)? {
        None => {
            kept.push(kid.copy()?)?;
            Ok(false)
        }
        Some(node) => {
            let name = Arc::try_clone(&kid.name)?;
            kept.push(Child { name, node })?;
            Ok(true)
        }
    }
}

impl Tree {
    /// There is a test for each name of a path, from the root down: a path with as many names as there are tests passes if each name passes its test. Returns
    /// the tree without the paths that pass, and without what is below these; `None` if no path passes. Fails with 25 `Root` if there are no tests, and
    /// otherwise with 27 `Memory` alone. The result shares all unchanged nodes with this tree.
    pub fn without_passing<T: NameTest>(&self, tests: &[T]) -> Result<Option<Tree>, TreeFault>
        ensures gives { Gives (λ o. o) result (rid_of T.passes tests.now self.now) }
        ensures last { MemoryLast result (rid_of T.passes tests.now self.now) }
    {
        let [test, rest @ ..] = tests else {
            return Err(TreeFault::Root);
        };
        match thinned(&self.root, self.alloc, test, rest)? {
            None => Ok(None),
            Some(root) => Ok(Some(Tree {
                root,
                depth: self.depth,
                alloc: self.alloc,
            })),
        }
    }
}
