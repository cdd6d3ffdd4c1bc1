//! Puts copied entries into a tree. A file is put at its target. A directory and what is below it are merged into the directory at the target: the copied
//! directory is laid over a copy of the target's directory, and the result replaces the target's directory.

ghost use Rattle.std.specs.Prelude.{◌≡◌, ◌≤◌, [], length, false, Ok, None, Some, IsSome, is_some, map, IfErr};
ghost use Rattle.std.specs.FinMap as finite;
ghost use Rattle.llb_tree.specs.PathEntries.{seen};
ghost use Rattle.llb_tree.specs.Tree.{is_memory, Gives, content_of, moved, IsDirAt, IsTree, is_dir};
ghost use Rattle.llb_fileop.specs.Owners.{copied};
ghost use Rattle.llb_fileop.specs.Copying.{landed, land, meets, at_target};
ghost use Rattle.llb_fileop.specs.CopyPlacement.{put, put_some, laid, all_below, all_meet, land_at};

use crate::owner::{copied, settings};
use llb_ops::CopyFile;
use llb_tree::{Content, Entry, Path, Tree, TreeFault};
use std::alloc::Global;

/// Puts a copy of a file at its target. Fails with 24 `Conflict` if a directory is at the target; else fails
/// as `Tree::put_content` does.
pub fn land_file(
    action: &CopyFile,
    second: &Tree,
    source: &Path,
    goal: &Path,
    tree: &mut Tree,
) -> Result<(), TreeFault>
    requires short { length goal.now ≤ 128 }
    requires there { IsSome (finite.get second.now source.now) }
    requires file { is_dir (finite.get second.now source.now) ≡ false }
    requires tree { IsTree second.now }
    ensures { Gives (λ _. tree.new) result (land_at (copied action.now.mode action.now.owner) (at_target second.now source.now goal.now) goal.now tree.old) }
{
    if tree.is_dir(goal) {
        return Err(TreeFault::Conflict);
    }
    copy_from(action, second, source, goal, tree)
}

/// Puts a copy of a directory, with what is below it, at its target. The directory is given as the root of a tree. Fails with 24 `Conflict` if a file would
/// replace a directory, or a directory would replace a file; else fails as `Tree::put_dir` and `Tree::graft` do.
pub fn land_dir(
    alloc: Global,
    action: &CopyFile,
    source: &Tree,
    goal: &Path,
    tree: &mut Tree,
) -> Result<(), TreeFault>
    requires short { length goal.now ≤ 128 }
    requires dir { IsDirAt (finite.get source.now) [] }
    ensures { Gives (λ _. tree.new) result (land_at (copied action.now.mode action.now.owner)
        (map (moved 0 goal.now) (finite.entries source.now)) goal.now tree.old) }
{
    if !is_there(tree, goal) {
        copy_from(action, source, &Path::root(alloc), goal, tree)?;
    }
    if !tree.is_dir(goal) {
        return Err(TreeFault::Conflict);
    }
    merge_at(action, source, goal, tree)
}

// Returns whether there is an entry at a path.
fn is_there(tree: &Tree, path: &Path) -> bool
    ensures there { result ≡ is_some (finite.get tree.now path.now) }
    ensures tree { IsTree tree.now }
{
    tree.get(path).is_some()
}

// Puts a copy of the entry that the tree `from` has at `path` at the target `goal`; does nothing if `from` has no entry at `path`.
fn copy_from(
    action: &CopyFile,
    from: &Tree,
    path: &Path,
    goal: &Path,
    tree: &mut Tree,
) -> Result<(), TreeFault>
    ensures { Gives (λ _. tree.new) result (put_some (laid (copied action.now.mode action.now.owner) None (finite.get from.now path.now)) tree.old goal.now) }
{
    match from.get(path) {
        None => Ok(()),
        Some(held) => put_copy(action, held, from.content(path)?, goal, tree),
    }
}

// Puts a copy of an entry at the target. A file and its copy share the content in memory.
fn put_copy(
    action: &CopyFile,
    held: Entry,
    shared: Option<Content>,
    path: &Path,
    tree: &mut Tree,
) -> Result<(), TreeFault>
    requires { shared ≡ content_of (Some (seen held)) }
    ensures { Gives (λ _. tree.new) result (put (landed (copied action.now.mode action.now.owner) None (seen held.entry)) tree.old path.now) }
{
    match held {
        Entry::Dir(own) => tree.put_dir(path, copied(action, own)),
        Entry::File(own, _bytes) => {
            let Some(content) = shared else {
                unreachable!();
            };
            tree.put_content(path, copied(action, own), content)
        }
    }
}

// Merges a tree into the directory at a path. Fails with the fault of the tree's first entry that can't be put at its new path.
fn merge_at(action: &CopyFile, source: &Tree, goal: &Path, tree: &mut Tree) -> Result<(), TreeFault>
    requires dir { IsDirAt (finite.get tree.old) goal.now }
    requires tree { IsTree tree.old }
    ensures { Gives (λ _. tree.new) result (land (copied action.now.mode action.now.owner) (map (moved 0 goal.now) (finite.entries source.now)) tree.old) }
{
    let here = tree.subtree(goal)?;
    may_land(&here, source, goal)?;
    let merged = here.overlaid(&settings(action), source)?;
    tree.graft(goal, &merged)
}

// Checks whether each entry of `source` can be put below the path `goal`, over `here`, the subtree that is already there. Fails with the first fault.
fn may_land(here: &Tree, source: &Tree, goal: &Path) -> Result<(), TreeFault>
    ensures { Gives (λ u. u) result (all_below here.now (length goal.now) (finite.entries source.now)) }
{
    if source.fits(goal).is_ok() {
        return may_meet(here, source);
    }
    first_fault(here, source, goal)
}

// Checks whether each entry of `source` can be put over what the tree `here` has at the same path. If `here` has nothing at a path, it has nothing below that
// path either, so the check skips the entries of `source` below that path.
fn may_meet(here: &Tree, source: &Tree) -> Result<(), TreeFault>
    ensures { Gives (λ u. u) result (all_meet here.now (finite.entries source.now)) }
{
    let mut walk = source.walk();
    while let Some((path, entry)) = walk.at() {
        if is_there(here, path) {
            meet(here, path, entry)?;
            walk.advance()?;
        } else {
            walk.skip()?;
        }
    }
    Ok(())
}

// Checks that each entry of `source` can be put at its path below the path `goal`, at and below which the tree now has `here`. Fails with the fault of the
// first entry that can't be put there.
fn first_fault(here: &Tree, source: &Tree, goal: &Path) -> Result<(), TreeFault>
    ensures { Gives (λ u. u) result (all_below here.now (length goal.now) (finite.entries source.now)) }
{
    let mut walk = source.walk();
    while let Some((path, entry)) = walk.at() {
        if goal.names().len() + path.names().len() > 128 {
            return Err(TreeFault::BadName);
        }
        meet(here, path, entry)?;
        walk.advance()?;
    }
    Ok(())
}

// Checks whether an entry can be put over what is at a path: a file can't replace a directory, and a directory can't replace a file.
fn meet(here: &Tree, path: &Path, entry: Entry) -> Result<(), TreeFault>
    ensures meets { result ≡ meets (finite.get here.now path.now) (seen entry.entry) }
    ensures known { IfErr result (λ e. is_memory e ≡ false) }
{
    match here.get(path) {
        None => Ok(()),
        Some(Entry::Dir(_)) => match entry {
            Entry::Dir(_) => Ok(()),
            Entry::File(..) => Err(TreeFault::Conflict),
        },
        Some(Entry::File(..)) => match entry {
            Entry::Dir(_) => Err(TreeFault::Conflict),
            Entry::File(..) => Ok(()),
        },
    }
}
