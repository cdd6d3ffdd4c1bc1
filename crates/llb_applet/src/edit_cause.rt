//! Why a mount's tree can't be changed at a spot. Nothing here changes the view: an edit is tried on a copy of a tree, which shares its memory with the tree.

ghost use Rattle.std.specs.Prelude.{◌≡◌, ◌≤◌, ◌<◌, ◌+◌, Some, drop, is_some, length, take, IfOk, IfSome};
ghost use Rattle.std.specs.FinMap as finite;
ghost use Rattle.llb_tree.specs.Tree.{remove};
ghost use Rattle.llb_mount.specs.View.{mount_at};
ghost use Rattle.llb_applet.specs.PathsInMounts.{IsSpot, tree_at, entry_at, file_in, dirs_below};
ghost use Rattle.llb_applet.specs.Causes.{parent, no_parent, by_fault, no_change, fault_in, IsFault, no_edit, file_fault, dir_fault, no_file_put, no_mode};
ghost use Rattle.llb_applet.specs.Causes.{no_new_dir, no_removal, file_on, no_dirs_by, no_dest_dir, no_dirs};

use crate::cause::{Cause, What, at};
use crate::path_in_mount::{Spot, extended, new_meta};
use crate::view_changes::make_below;
use llb_mount::View;
use llb_tree::{Bytes, Entry, Meta, Name, Path, Tree, TreeFault};
use llb_wire::Memory;
use std::alloc::Global;

// Returns the path of the first `count` names of a path, or the whole path if it has fewer.
fn front(alloc: Global, path: &Path, count: usize) -> Result<Path, Memory>
    ensures { IfOk result (λ p. p ≡ take count path.now) }
{
    let names = path.names();
    let (first, _) = names.split_at(count.min(names.len()));
    extended(&Path::root(alloc), first)
}

// Returns a path without its last name.
fn parent(alloc: Global, path: &Path) -> Result<Path, Memory>
    ensures { IfOk result (λ p. p ≡ parent path.now) }
{
    front(alloc, path, path.names().len().saturating_sub(1))
}

// Returns whether a file is at a place of a tree.
fn is_file(tree: &Tree, place: &Path) -> bool
    ensures { result ≡ is_some (file_in (finite.get tree.now place.now)) }
{
    match tree.get(place) {
        Some(Entry::File(_, _)) => true,
        Some(Entry::Dir(_)) => false,
        None => false,
    }
}

// Returns the cause if a directory is needed above a path and there is none, given whether a file is there.
fn no_parent(alloc: Global, tree: &Tree, place: &Path, path: &Path) -> Result<Cause, Memory>
    ensures { IfOk result (λ c. c ≡ no_parent (finite.get tree.now (parent place.now)) path.now) }
{
    let what = if is_file(tree, &parent(alloc, place)?) {
        What::IsFile
    } else {
        What::NoDir
    };
    Ok(Cause::At(what, parent(alloc, path)?))
}

// Returns the cause for a fault of putting a file or a directory at a place of a tree.
fn by_fault(
    alloc: Global,
    tree: &Tree,
    place: &Path,
    path: &Path,
    fault: TreeFault,
) -> Result<Cause, Memory>
    ensures { IfOk result (λ c. c ≡ by_fault tree.now place.now path.now fault) }
{
    match fault {
        TreeFault::IsDir => Ok(Cause::At(What::IsDir, path.copy()?)),
        TreeFault::Root => Ok(Cause::At(What::IsDir, path.copy()?)),
        TreeFault::Conflict => Ok(Cause::At(What::IsFile, path.copy()?)),
        TreeFault::NotFound => no_parent(alloc, tree, place, path),
        TreeFault::NotDir => no_parent(alloc, tree, place, path),
        TreeFault::BadName => no_parent(alloc, tree, place, path),
        TreeFault::Memory => no_parent(alloc, tree, place, path),
    }
}

// Returns the cause if the tree of a mount can't be changed.
fn no_change(view: &View, mount: u32) -> Result<Option<Cause>, Memory>
    requires { mount < length view.now }
    ensures { IfOk result (λ c. c ≡ no_change view.now mount) }
{
    if view.is_read_only(mount) {
        return at(What::ReadOnly, view.dest(mount));
    }
    Ok(None)
}

// Returns the fault of an edit, if it has one; fails if memory was refused for the edit.
fn fault_in(edit: Result<(), TreeFault>) -> Result<Option<TreeFault>, Memory>
    ensures { IsFault result edit }
{
    match edit {
        Ok(()) => Ok(None),
        Err(TreeFault::Memory) => Err(Memory),
        Err(TreeFault::NotFound) => Ok(Some(TreeFault::NotFound)),
        Err(TreeFault::NotDir) => Ok(Some(TreeFault::NotDir)),
        Err(TreeFault::IsDir) => Ok(Some(TreeFault::IsDir)),
        Err(TreeFault::Conflict) => Ok(Some(TreeFault::Conflict)),
        Err(TreeFault::Root) => Ok(Some(TreeFault::Root)),
        Err(TreeFault::BadName) => Ok(Some(TreeFault::BadName)),
    }
}

// Returns the fault of putting a file at a place of a tree, if there is one.
fn file_fault(alloc: Global, tree: &Tree, place: &Path) -> Result<Option<TreeFault>, Memory>
    ensures { IfOk result (λ f. f ≡ file_fault tree.now place.now) }
{
    let mut tried = tree.copy()?;
    fault_in(tried.put_file(place, new_meta(), Bytes::new(Vec::new(alloc))))
}

// Returns the fault of putting a directory at a place of a tree, if there is one.
fn dir_fault(tree: &Tree, place: &Path) -> Result<Option<TreeFault>, Memory>
    ensures { IfOk result (λ f. f ≡ dir_fault tree.now place.now) }
{
    let mut tried = tree.copy()?;
    fault_in(tried.put_dir(place, Meta::new_dir()))
}

// Returns the fault of removing what is at a place of a tree, if there is one.
fn removal_fault(tree: &Tree, place: &Path) -> Result<Option<TreeFault>, Memory>
    ensures { IfOk result (λ f. f ≡ fault_in (remove tree.now place.now)) }
{
    let mut tried = tree.copy()?;
    fault_in(tried.remove(place))
}

// Returns the fault of making directories with these names below a place of a tree, if there is one.
fn dirs_fault(
    alloc: Global,
    tree: &Tree,
    at: &Path,
    names: &[Name],
) -> Result<Option<TreeFault>, Memory>
    requires { length at.now + length names.now ≤ 128 }
    ensures { IfOk result (λ f. f ≡ fault_in (dirs_below tree.now at.now names.now)) }
{
    let mut tried = tree.copy()?;
    fault_in(make_below(&mut tried, at, names))
}

// Returns the cause if an entry can't be put at the spot of a path, given the tree's fault, if it has one.
fn no_edit(
    alloc: Global,
    view: &View,
    path: &Path,
    spot: &Spot,
    fault: Option<TreeFault>,
) -> Result<Option<Cause>, Memory>
    requires { spot.now.mount < length view.now }
    ensures { IfOk result (λ c. c ≡ no_edit view.now path.now spot.now fault) }
{
    match fault {
        None => no_change(view, spot.mount),
        Some(fault) => {
            let tree = view.tree_of(spot.mount);
            Ok(Some(by_fault(alloc, tree, &spot.place, path, fault)?))
        }
    }
}

/// Returns the cause if no file can be put at the spot of a path.
pub fn no_file_put(
    alloc: Global,
    view: &View,
    path: &Path,
    spot: &Spot,
) -> Result<Option<Cause>, Memory>
    requires { spot.now.mount < length view.now }
    ensures { IfOk result (λ c. c ≡ no_file_put view.now path.now spot.now) }
{
    if spot.is_dest() {
        if !spot.is_there(view) {
            return at(What::NoSelector, path);
        }
    }
    let fault = file_fault(alloc, view.tree_of(spot.mount), &spot.place)?;
    no_edit(alloc, view, path, spot, fault)
}

/// Returns the cause if the mode of the entry at the spot of a path can't be set.
pub fn no_mode(
    alloc: Global,
    view: &View,
    path: &Path,
    spot: &Spot,
) -> Result<Option<Cause>, Memory>
    requires { spot.now.mount < length view.now }
    ensures { IfOk result (λ c. c ≡ no_mode view.now path.now spot.now (entry_at view.now spot.now)) }
{
    match spot.entry(view) {
        None => at(What::Nothing, path),
        Some(Entry::Dir(_)) => {
            let fault = dir_fault(view.tree_of(spot.mount), &spot.place)?;
            no_edit(alloc, view, path, spot, fault)
        }
        Some(Entry::File(_, _)) => no_file_put(alloc, view, path, spot),
    }
}

/// Returns the cause if no new directory can be made at the spot of a path.
pub fn no_new_dir(
    alloc: Global,
    view: &View,
    path: &Path,
    spot: &Spot,
) -> Result<Option<Cause>, Memory>
    requires { spot.now.mount < length view.now }
    ensures { IfOk result (λ c. c ≡ no_new_dir view.now path.now spot.now) }
{
    if spot.is_there(view) {
        return at(What::IsThere, path);
    }
    if spot.is_dest() {
        return at(What::NoSelector, path);
    }
    let fault = dir_fault(view.tree_of(spot.mount), &spot.place)?;
    no_edit(alloc, view, path, spot, fault)
}

/// Returns the cause if what is at and below the spot of a path can't be removed.
pub fn no_removal(view: &View, path: &Path, spot: &Spot) -> Result<Option<Cause>, Memory>
    requires { spot.now.mount < length view.now }
    ensures { IfOk result (λ c. c ≡ no_removal view.now path.now spot.now) }
{
    if spot.is_dest() {
        return at(What::IsDest, path);
    }
    match removal_fault(view.tree_of(spot.mount), &spot.place)? {
        None => no_change(view, spot.mount),
        Some(_) => at(What::Nothing, path),
    }
}

// Returns how many of the names lead from a place of a tree to the first file on the way, if there is one.
fn file_on(tree: &Tree, place: &Path, names: &[Name]) -> Result<Option<usize>, Memory>
    requires { length place.now + length names.now ≤ 128 }
    ensures means { IfOk result (λ k. k ≡ file_on tree.now place.now names.now) }
    ensures few { IfOk result (λ k. IfSome k (λ n. n ≤ length names.now)) }
{
    match names.split_first() {
        None => Ok(if is_file(tree, place) { Some(0) } else { None }),
        Some((name, more)) => {
            if is_file(tree, place) {
                return Ok(Some(0));
            }
            let mut next = place.copy()?;
            next.push(name.copy()?)?;
            match file_on(tree, &next, more)? {
                None => Ok(None),
                Some(k) => Ok(Some(k + 1)),
            }
        }
    }
}

// Returns the cause if there is no directory at the dest of a mount.
fn no_dest_dir(view: &View, path: &Path, spot: &Spot) -> Result<Option<Cause>, Memory>
    requires { spot.now.mount < length view.now }
    ensures { IfOk result (λ c. c ≡ no_dest_dir path.now (entry_at view.now spot.now)) }
{
    if spot.is_there(view) {
        return at(What::IsFile, path);
    }
    at(What::NoSelector, path)
}

// Returns the cause if directories can't be made down to a spot.
fn no_dirs_below(
    alloc: Global,
    view: &View,
    path: &Path,
    spot: &Spot,
) -> Result<Option<Cause>, Memory>
    requires { IsSpot view.now spot.now }
    ensures { IfOk result (λ c. c ≡ no_dirs_by view.now path.now spot.now
        (fault_in (dirs_below (tree_at view.now spot.now) (mount_at view.now spot.now.mount).selector (drop spot.now.base spot.now.place)))) }
{
    let tree = view.tree_of(spot.mount);
    let selector = view.selector(spot.mount);
    let (_, names) = spot.place.names().split_at(spot.base);
    if dirs_fault(alloc, tree, selector, names)?.is_none() {
        return no_change(view, spot.mount);
    }
    let dest = view.dest(spot.mount);
    match file_on(tree, selector, names)? {
        None => at(What::NoSelector, dest),
        Some(k) => {
            let there = front(alloc, path, dest.names().len() + k)?;
            Ok(Some(Cause::At(What::IsFile, there)))
        }
    }
}

/// Returns the cause if a directory and its parents can't be made at the spot of a path.
pub fn no_dirs(
    alloc: Global,
    view: &View,
    path: &Path,
    spot: &Spot,
) -> Result<Option<Cause>, Memory>
    requires { IsSpot view.now spot.now }
    ensures { IfOk result (λ c. c ≡ no_dirs view.now path.now spot.now) }
{
    if spot.is_dir(view) {
        return Ok(None);
    }
    if spot.is_dest() {
        return no_dest_dir(view, path, spot);
    }
    no_dirs_below(alloc, view, path, spot)
}
