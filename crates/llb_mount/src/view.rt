//! The view. Contracts see the list of its mounts, in the order in which they were given; a mount's number is its index in the list. The dests never change
//! after `make`: one of them is the root, and no two are the same.

ghost use Rattle.std.specs.Prelude.{◌≡◌, ◌≢◌, ◌↔◌, IsTrue, ℕ, ◌<◌, ◌≤◌, List, length, IfOk, IfErr, IfSome, IsOk, OnOk, OnErr, is_err, Contains, AllPairs};
ghost use Rattle.llb_mount.specs.View.{IsView, dests, mount_at, with_tree_of};
ghost use Rattle.std.specs.Arc.{arc_value};
ghost use Rattle.llb_mount.specs.Route.{IsRoute, route};
ghost use Rattle.llb_mount.specs.DestOrder.{IsOrder};

use crate::dest_order::{Row, ordered, route_by};
use crate::fault::{Memory, ReadOnly};
use crate::shown_tree::Shown;
use llb_tree::{Name, Path, Tree};
use llb_wire::{Many, Same, all_same};
use std::marker::Model;
use std::mem;
use std::sync::Arc;

// The greatest number of mounts for which the dests are not sorted (`order` is `None`): with so few mounts, comparing a path with each dest costs less.
const FEW: usize = 8;

/// Mounts with distinct dests, one of which is the root. Contracts see the list of the mounts.
pub struct View {
    mounts: Vec<Shown>,
    // The order of the dests, which copies of the view share; `None` if there are at most `FEW` mounts, or if memory was refused for the order.
    order: Option<Arc<Vec<Row>>>,
}

impl Drop for View {
    fn drop(self) {
        let View {
            mounts: _,
            order: _,
        } = self;
    }
}

impl Model for View {
    ghost use Rattle.std.specs.Coded.{codes};
    ghost use Rattle.std.specs.Prelude.{List, IfSome};
    ghost use Rattle.std.specs.Arc.{arc_value};
    ghost use Rattle.llb_tree.specs.CodedTrees.{coded_tree};
    ghost use Rattle.llb_mount.specs.declared.shown_tree.Shown.{Shown};
    ghost use Rattle.llb_mount.specs.View.{IsView, dests};
    ghost use Rattle.llb_mount.specs.DestOrder.{IsOrder};

    ghost Value = { List Shown };

    ghost coded = { Prim.hlevel (codes, coded_tree) };

    ghost view = { λ v. v.mounts.items };

    ghost invariant = { λ v. IsView v.mounts.items × IfSome v.order (λ o. IsOrder (dests v.mounts.items) (arc_value o).items) };
}

// Returns whether a mount has a dest with these names.
fn is_taken(mounts: &[Shown], names: &[Name]) -> bool
    ensures { IsTrue result ↔ Contains (dests mounts.now) names.now }
{
    for shown in mounts {
        if shown.dest.names() == names {
            return true;
        }
    }
    false
}

// Returns whether no two mounts have the same dest.
fn all_differ(mounts: &[Shown]) -> bool
    ensures { IsTrue result ↔ AllPairs (λ d e. d ≢ e) (dests mounts.now) }
{
    for i in 0..mounts.len() {
        let (before, _) = mounts.split_at(i);
        if is_taken(before, mounts[i].dest.names()) {
            return false;
        }
    }
    true
}

// Returns the number of the mount with the longest dest that is a prefix of the path, and how many names that dest has.
// Looks at each mount.
fn route_among(mounts: &[Shown], path: &Path) -> (u32, u32)
    requires { IsView mounts.now }
    ensures { IsRoute mounts.now path.now result }
{
    let names = path.names();
    let mut number = 0;
    let mut dropped = 0;
    for (i, shown) in mounts.iter().enumerate() {
        let dest = shown.dest.names();
        if dest.len() >= dropped && names.starts_with(dest) {
            number = i;
            dropped = dest.len();
        }
    }
    (number as u32, dropped as u32)
}

// Makes the order of the dests; `None` if there are at most `FEW` mounts, or if memory is refused.
fn order_of(mounts: &Vec<Shown>) -> Option<Arc<Vec<Row>>>
    requires { IsView mounts.now.items }
    ensures { IfSome result (λ o. IsOrder (dests mounts.now.items) (arc_value o).items) }
{
    if mounts.len() <= FEW {
        return None;
    }
    let alloc = *mounts.allocator();
    match ordered(alloc, mounts) {
        Ok(rows) => Arc::new(alloc, rows).ok(),
        Err(Memory) => None,
    }
}

impl View {
    /// Returns whether a view can be made of these mounts: one dest is the root, no two dests are the same, and there are fewer than 2^32
    /// mounts. Does not allocate; takes time quadratic in the number of mounts.
    pub fn can_make(mounts: &[Shown]) -> bool
        ensures { IsTrue result ↔ IsView mounts.now }
    {
        if mounts.len() > u32::MAX as usize {
            return false;
        }
        if !is_taken(mounts, &[]) {
            return false;
        }
        all_differ(mounts)
    }

    /// Makes a view of mounts that `can_make` accepts, and takes ownership of them. The mounts are numbered from 0 in their
    /// order. For more than eight mounts the call also makes an order of their dests; if memory is refused for the order, the
    /// view does without it. So the call never fails, not even with 62 `Memory`.
    pub fn make(mounts: Many<Shown>) -> Result<View, Memory>
        requires { IsView mounts }
        ensures view { IfOk result (λ v. v ≡ mounts) }
        ensures made { IsOk result }
    {
        let mounts = mounts.into_vec();
        let order = order_of(&mounts);
        Ok(View { mounts, order })
    }

    /// Returns the mounts, by number. Does not allocate.
    pub fn mounts(&self) -> &[Shown]
        ensures all { result.now ≡ self.now }
        ensures view { IsView self.now }
    {
        self.mounts.as_slice()
    }

    /// Returns the number of the mount with the longest dest that is a prefix of the path, by names, and how many names that dest has; the caller drops these
    /// names from the front of the path. Does not allocate. If `make` has sorted the dests, the call compares the path with about log2 N dests (N is the number
    /// of mounts), and then only with dests that are prefixes of one dest. If `make` has not, as for at most eight mounts, the path is compared with all dests.
    pub fn route(&self, path: &Path) -> (u32, u32)
        ensures route { result ≡ route self.now path.now }
        ensures longest { IsRoute self.now path.now result }
        ensures only { (to : ℕ × ℕ) → IsRoute self.now path.now to → to ≡ result }
        ensures mount { result.0 < length self.now }
        ensures dropped { result.1 ≤ length path.now }
    {
        match &self.order {
            Some(rows) => route_by(&self.mounts, rows, path),
            None => route_among(&self.mounts, path),
        }
    }

    /// Returns a mount's dest. Does not allocate.
    pub fn dest(&self, mount: u32) -> &Path
        requires { mount < length self.now }
        ensures { result.now ≡ (mount_at self.now mount).dest }
    {
        &self.mounts[mount as usize].dest
    }

    /// Returns the path in a mount's tree that is shown at the mount's dest: the root if the whole tree is shown. Does not allocate.
    pub fn selector(&self, mount: u32) -> &Path
        requires { mount < length self.now }
        ensures { result.now ≡ (mount_at self.now mount).selector }
    {
        &self.mounts[mount as usize].selector
    }

    /// Returns whether a mount is read-only, so that `set_tree` refuses a tree for it. Does not allocate.
    pub fn is_read_only(&self, mount: u32) -> bool
        requires { mount < length self.now }
        ensures { result ≡ (mount_at self.now mount).readonly }
    {
        self.mounts[mount as usize].readonly
    }

    /// Returns a mount's tree. Does not allocate.
    pub fn tree_of(&self, mount: u32) -> &Tree
        requires { mount < length self.now }
        ensures { result.now ≡ (mount_at self.now mount).tree }
    {
        &self.mounts[mount as usize].tree
    }

    /// Replaces a mount's tree. Fails with 61 `ReadOnly` if the mount is read-only; then the fault holds the tree and
    /// the view is unchanged. Does not allocate.
    pub fn set_tree(&mut self, mount: u32, tree: Tree) -> Result<(), ReadOnly>
        requires { mount < length self.old }
        ensures set { OnOk result (self.new ≡ with_tree_of self.old mount tree) }
        ensures refused { is_err result ≡ (mount_at self.old mount).readonly }
        ensures back { IfErr result (λ e. e.tree ≡ tree) }
        ensures err { OnErr result (self.new ≡ self.old) }
    {
        let shown = &mut self.mounts[mount as usize];
        if shown.readonly {
            return Err(ReadOnly { tree });
        }
        shown.tree = tree;
        Ok(())
    }

    /// Replaces a mount's tree, even if the mount is read-only, and returns the tree that was there. Does not allocate.
    pub fn swap_tree(&mut self, mount: u32, tree: Tree) -> Tree
        requires { mount < length self.old }
        ensures old { result ≡ (mount_at self.old mount).tree }
        ensures new { self.new ≡ with_tree_of self.old mount tree }
    {
        mem::replace(&mut self.mounts[mount as usize].tree, tree)
    }

    /// Returns the mounts, in their order. Does not allocate.
    pub fn into_mounts(self) -> Many<Shown>
        ensures all { result ≡ self }
        ensures view { IsView result }
    {
        let View { mounts, order: _ } = self;
        Many::new(mounts)
    }

    /// Copies the view; the copy shares the trees and the order of the dests. Fails with 62 `Memory` alone.
    pub fn copy(&self) -> Result<View, Memory>
        ensures { IfOk result (λ v. v ≡ self.now) }
    {
        let mut mounts = Vec::new(*self.mounts.allocator());
        for shown in &self.mounts {
            mounts.push(shown.copy()?)?;
        }
        let order = match &self.order {
            Some(rows) => Some(Arc::try_clone(rows)?),
            None => None,
        };
        Ok(View { mounts, order })
    }
}

impl Same for View {
    fn same(&self, other: &View) -> bool {
        all_same(self.mounts(), other.mounts())
    }
}
