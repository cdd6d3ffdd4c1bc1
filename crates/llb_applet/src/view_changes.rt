//! The changes of a view at a spot. A change takes the mount's tree out, changes it and puts it back; a change that is refused, or for which memory is refused,
//! leaves the view as it was.

ghost use Rattle.std.specs.Prelude.{◌≡◌, ◌+◌, ◌<◌, ◌≤◌, ◌&&◌, ◌||◌, not, is_some, [], false, length, Ok, IfOk, OnErr};
ghost use Rattle.std.specs.FinMap as finite;
ghost use Rattle.llb_tree.specs.Tree as tree;
ghost use Rattle.llb_tree.specs.Tree.{Gives, empty_tree, is_dir};
ghost use Rattle.llb_applet.specs.PathsInMounts.{IsSpot, IsWritable, tree_at, entry_at, is_dest, with_change, with_file, with_dir, without_spot, with_new_dir};
ghost use Rattle.llb_applet.specs.PathsInMounts.{with_dirs, dirs_below, put_then_below};
ghost use Rattle.llb_applet.specs.ViewChanges.{PutsAside, Does, settled};

use crate::path_in_mount::Spot;
use llb_mount::View;
use llb_tree::{Bytes, Content, Meta, Name, Path, Tree, TreeFault};
use llb_wire::Memory;
use std::alloc::{AllocError, Global};

// Takes a mount's tree out of the view and leaves an empty one in its place; returns `None` if the mount is read-only.
fn put_aside(alloc: Global, view: &mut View, mount: u32) -> Result<Option<Tree>, Memory>
    requires { mount < length view.old }
    ensures { PutsAside result view.old mount view.new }
{
    if view.is_read_only(mount) {
        return Ok(None);
    }
    let empty = Tree::empty(alloc)?;
    Ok(Some(view.swap_tree(mount, empty)))
}

// Returns true if a change of a tree is done, and false if the tree refuses the change with any fault but `Memory`. Fails with 5 `Memory` if memory was
// refused for the change.
fn settled(change: Result<(), TreeFault>) -> Result<bool, Memory>
    ensures { result ≡ settled change }
{
    match change {
        Ok(()) => Ok(true),
        Err(TreeFault::Memory) => Err(Memory),
        Err(TreeFault::NotFound) => Ok(false),
        Err(TreeFault::NotDir) => Ok(false),
        Err(TreeFault::IsDir) => Ok(false),
        Err(TreeFault::Conflict) => Ok(false),
        Err(TreeFault::Root) => Ok(false),
        Err(TreeFault::BadName) => Ok(false),
    }
}

/// Puts a file at a spot. Returns false, and leaves the view as it was, if the change is refused, or if the spot is a mount's
/// dest and no entry is there. Fails with 5 `Memory` alone; then too the view is as it was.
pub fn put_file(
    alloc: Global,
    view: &mut View,
    spot: &Spot,
    meta: Meta,
    content: Bytes,
) -> Result<bool, Memory>
    requires { spot.now.mount < length view.old }
    ensures does { Does result (with_file view.old spot.now meta content) view.old view.new }
    ensures last { OnErr result ((IsWritable view.old spot.now) × ((is_dest spot.now && not (is_some (entry_at view.old spot.now))) ≡ false)) }
{
    if spot.is_dest() {
        if !spot.is_there(view) {
            return Ok(false);
        }
    }
    put_there(alloc, view, spot, meta, content)
}

// Puts a file at a spot, as `put_file` does. Unlike `put_file`, does not refuse a spot that is a mount's dest at which there is no entry.
fn put_there(
    alloc: Global,
    view: &mut View,
    spot: &Spot,
    meta: Meta,
    content: Bytes,
) -> Result<bool, Memory>
    requires { spot.now.mount < length view.old }
    ensures does { Does result (with_change view.old spot.now.mount (tree.put_file (tree_at view.old spot.now) spot.now.place meta content)) view.old view.new }
    ensures last { OnErr result (IsWritable view.old spot.now) }
{
    match put_aside(alloc, view, spot.mount)? {
        None => Ok(false),
        Some(mut tree) => {
            let change = tree.put_file(&spot.place, meta, content);
            let _aside = view.swap_tree(spot.mount, tree);
            settled(change)
        }
    }
}

/// Puts a file at a spot, as `put_file` does, with the content of another file. The two files then share the content in
/// memory. Fails as `put_file` does.
pub fn put_shared(
    alloc: Global,
    view: &mut View,
    spot: &Spot,
    meta: Meta,
    content: Content,
) -> Result<bool, Memory>
    requires { spot.now.mount < length view.old }
    ensures does { Does result (with_file view.old spot.now meta content) view.old view.new }
    ensures last { OnErr result ((IsWritable view.old spot.now) × ((is_dest spot.now && not (is_some (entry_at view.old spot.now))) ≡ false)) }
{
    if spot.is_dest() {
        if !spot.is_there(view) {
            return Ok(false);
        }
    }
    share_there(alloc, view, spot, meta, content)
}

// Puts a file with the content of another file at a spot, as `put_shared` does, but even if the spot is a mount's dest and no entry is there.
fn share_there(
    alloc: Global,
    view: &mut View,
    spot: &Spot,
    meta: Meta,
    content: Content,
) -> Result<bool, Memory>
    requires { spot.now.mount < length view.old }
    ensures does { Does result (with_change view.old spot.now.mount (tree.put_file (tree_at view.old spot.now) spot.now.place meta content)) view.old view.new }
    ensures last { OnErr result (IsWritable view.old spot.now) }
{
    match put_aside(alloc, view, spot.mount)? {
        None => Ok(false),
        Some(mut tree) => {
            let change = tree.put_content(&spot.place, meta, content);
            let _aside = view.swap_tree(spot.mount, tree);
            settled(change)
        }
    }
}

/// Sets the mode and the owner of the directory at a spot; if nothing is there, makes a directory with this mode and owner.
/// Returns false, and leaves the view as it was, if the change is refused. Fails with 5 `Memory` alone; then too the view is
/// as it was.
pub fn put_dir(alloc: Global, view: &mut View, spot: &Spot, meta: Meta) -> Result<bool, Memory>
    requires { spot.now.mount < length view.old }
    ensures does { Does result (with_dir view.old spot.now meta) view.old view.new }
    ensures last { OnErr result (IsWritable view.old spot.now) }
{
    match put_aside(alloc, view, spot.mount)? {
        None => Ok(false),
        Some(mut tree) => {
            let change = tree.put_dir(&spot.place, meta);
            let _aside = view.swap_tree(spot.mount, tree);
            settled(change)
        }
    }
}

/// Removes what is at and below a spot. Returns false, and leaves the view as it was, if the spot is a mount's dest, or if the removal is refused. Fails with
/// 5 `Memory` alone; then too the view is as it was.
pub fn remove(alloc: Global, view: &mut View, spot: &Spot) -> Result<bool, Memory>
    requires { spot.now.mount < length view.old }
    ensures does { Does result (without_spot view.old spot.now) view.old view.new }
    ensures last { OnErr result ((IsWritable view.old spot.now) × (is_dest spot.now ≡ false)) }
{
    if spot.is_dest() {
        return Ok(false);
    }
    match put_aside(alloc, view, spot.mount)? {
        None => Ok(false),
        Some(mut tree) => {
            let change = tree.remove(&spot.place);
            let _aside = view.swap_tree(spot.mount, tree);
            settled(change)
        }
    }
}

/// Makes a directory at a spot. Returns false, and leaves the view as it was, if the spot is a mount's dest, if there is an
/// entry at it, or if the change is refused. Fails with 5 `Memory` alone; then too the view is as it was.
pub fn make_dir(alloc: Global, view: &mut View, spot: &Spot) -> Result<bool, Memory>
    requires { spot.now.mount < length view.old }
    ensures does { Does result (with_new_dir view.old spot.now) view.old view.new }
    ensures last { OnErr result ((IsWritable view.old spot.now) × ((is_dest spot.now || is_some (entry_at view.old spot.now)) ≡ false)) }
{
    if spot.is_dest() {
        return Ok(false);
    }
    if spot.is_there(view) {
        return Ok(false);
    }
    put_dir(alloc, view, spot, Meta::new_dir())
}

/// Makes a directory at a spot, and its missing parents below the dest, unless a directory is already there. Returns false,
/// and leaves the view as it was, if the change is refused. Fails with 5 `Memory` alone; then too the view is as it was.
pub fn make_dirs(alloc: Global, view: &mut View, spot: &Spot) -> Result<bool, Memory>
    requires { IsSpot view.old spot.now }
    ensures does { Does result (with_dirs view.old spot.now) view.old view.new }
    ensures last { OnErr result ((IsWritable view.old spot.now) × (is_dest spot.now ≡ false) × (is_dir (entry_at view.old spot.now) ≡ false)) }
{
    if spot.is_dir(view) {
        return Ok(true);
    }
    if spot.is_dest() {
        return Ok(false);
    }
    if view.is_read_only(spot.mount) {
        return Ok(false);
    }
    let selector = view.selector(spot.mount).copy()?;
    let (_, names) = spot.place.names().split_at(spot.base);
    match put_aside(alloc, view, spot.mount)? {
        None => Ok(false),
        Some(mut tree) => {
            let change = dirs_below(alloc, &mut tree, &selector, names);
            let _aside = view.swap_tree(spot.mount, tree);
            settled(change)
        }
    }
}

// Makes a directory for each of the names, the first in `at` and each later one in the directory of the name before it, unless a directory is already there.
// After a fault the tree is unchanged.
fn dirs_below(alloc: Global, tree: &mut Tree, at: &Path, names: &[Name]) -> Result<(), TreeFault>
    requires { length at.now + length names.now ≤ 128 }
    ensures gives { Gives (λ _. tree.new) result (dirs_below tree.old at.now names.now) }
    ensures err { OnErr result (tree.new ≡ tree.old) }
{
    match names.split_first() {
        None => Ok(()),
        Some((name, more)) => {
            let mut next = at.copy()?;
            next.push(name.copy()?)?;
            if tree.is_dir(&next) {
                return dirs_below(alloc, tree, &next, more);
            }
            put_dirs(alloc, tree, &next, more)
        }
    }
}

// Makes a directory at a path that has no directory, and in it a chain of directories, one for each of the names: each in
// the directory of the name before it. All these directories are made in one edit; after a fault the tree is unchanged.
fn put_dirs(alloc: Global, tree: &mut Tree, path: &Path, names: &[Name]) -> Result<(), TreeFault>
    requires short { length path.now + length names.now ≤ 128 }
    requires missing { is_dir (finite.get tree.old path.now) ≡ false }
    ensures gives { Gives (λ _. tree.new) result (put_then_below tree.old path.now names.now) }
    ensures err { OnErr result (tree.new ≡ tree.old) }
{
    if names.is_empty() || tree.get(path).is_some() {
        return tree.put_dir(path, Meta::new_dir());
    }
    let made = chain(alloc, names)?;
    tree.graft(path, &made)
}

// Makes a tree that has only directories, one for each of the names: the first in the root, each later one in the directory of the name before.
fn chain(alloc: Global, names: &[Name]) -> Result<Tree, AllocError>
    requires { length names.now ≤ 128 }
    ensures { IfOk result (λ t. dirs_below empty_tree [] names.now ≡ Ok t) }
{
    let Ok(mut made) = Tree::empty(alloc) else {
        return Err(AllocError);
    };
    match make_below(&mut made, &Path::root(alloc), names) {
        Err(_) => Err(AllocError),
        Ok(()) => Ok(made),
    }
}

/// Makes a chain of directories with these names, each in the one before, as `dirs_below` does; after a fault the first ones may have been made.
pub fn make_below(tree: &mut Tree, at: &Path, names: &[Name]) -> Result<(), TreeFault>
    requires { length at.now + length names.now ≤ 128 }
    ensures { Gives (λ _. tree.new) result (dirs_below tree.old at.now names.now) }
{
    match names.split_first() {
        None => Ok(()),
        Some((name, more)) => {
            let mut next = at.copy()?;
            next.push(name.copy()?)?;
            if !tree.is_dir(&next) {
                tree.put_dir(&next, Meta::new_dir())?;
            }
            make_below(tree, &next, more)
        }
    }
}
