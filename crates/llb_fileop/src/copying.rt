//! Does a copy action, from a second tree into a tree. The texts are read first; then the sources are copied one after another in path order, each
//! to its target. The changes are made to a copy of the tree, so a fault leaves the tree unchanged.

ghost use Rattle.std.specs.Prelude.{◌≡◌, ◌≤◌, ◌++◌, length, IsSome};
ghost use Rattle.std.specs.FinMap as finite;
ghost use Rattle.llb_tree.specs.Tree as trees;
ghost use Rattle.llb_fileop.specs.CallResults.{Gives, on_tree};
ghost use Rattle.llb_fileop.specs.Owners.{copied};
ghost use Rattle.llb_fileop.specs.Copying.{copy, copy_one, copy_chosen, resolved, OnePath, EachMatch, target, last_name, at_target};
ghost use Rattle.llb_fileop.specs.CopyPlacement.{land_at, placed};

use crate::dest::resolve;
use crate::fault::ActFault;
use crate::making::make_parents;
use crate::merging::{land_dir, land_file};
use crate::removing::absent;
use llb_glob::Pattern;
use llb_ops::CopyFile;
use llb_tree::{Meta, Path, Tree, TreeFault};
use std::alloc::Global;

/// The destination of a copy: the path that the destination's text is read as (`path`), and whether the text ends in `/` (`inside`). If it does, sources are
/// copied into the directory at the path.
#[derive(Drop)]
pub struct Dest {
    pub path: Path,
    pub inside: bool,
}

/// Returns the base after the copy: what the action's `src` names in the second tree is copied to the action's destination in the base. Fails as `act` does.
pub fn copy(alloc: Global, action: &CopyFile, base: &Tree, second: &Tree) -> Result<Tree, ActFault>
    ensures { Gives (λ t. t) result (copy action.now base.now second.now) }
{
    if action.allow_wildcard {
        let pattern = Pattern::read(alloc, action.src.as_str())?;
        let dest = dest_of(alloc, action)?;
        let tree = copy_matches(alloc, action, &dest, &pattern, base, second)?;
        return Ok(tree);
    }
    let source = Path::read(alloc, action.src.as_str())?;
    let dest = dest_of(alloc, action)?;
    let tree = copy_path(alloc, action, &dest, &source, base, second)?;
    Ok(tree)
}

/// Reads the destination of a copy.
pub fn dest_of(alloc: Global, action: &CopyFile) -> Result<Dest, ActFault>
    ensures { Gives (λ d. (d.path, d.inside)) result (on_tree (resolved action.now.dest)) }
{
    let (path, inside) = resolve(alloc, action.dest.as_str())?;
    Ok(Dest { path, inside })
}

// Returns the tree after one path of the second tree is copied.
fn copy_path(
    alloc: Global,
    action: &CopyFile,
    dest: &Dest,
    source: &Path,
    base: &Tree,
    second: &Tree,
) -> Result<Tree, TreeFault>
    ensures { trees.Gives (λ t. t) result (copy_chosen action.now (dest.now.path, dest.now.inside) base.now second.now (OnePath source.now)) }
{
    if second.get(source).is_none() {
        return Err(TreeFault::NotFound);
    }
    let mut tree = base.copy()?;
    copy_one(alloc, action, dest, second, source, &mut tree)?;
    Ok(tree)
}

// Returns the tree after all paths of the second tree that match a pattern are copied.
fn copy_matches(
    alloc: Global,
    action: &CopyFile,
    dest: &Dest,
    pattern: &Pattern,
    base: &Tree,
    second: &Tree,
) -> Result<Tree, TreeFault>
    ensures { trees.Gives (λ t. t) result (copy_chosen action.now (dest.now.path, dest.now.inside) base.now second.now (EachMatch pattern.now)) }
{
    let sources = second.passing(pattern.parts())?;
    if sources.is_empty() {
        return absent(action.allow_empty_wildcard, base);
    }
    let mut tree = base.copy()?;
    for path in &sources {
        copy_one(alloc, action, dest, second, path, &mut tree)?;
    }
    Ok(tree)
}

/// Copies one source to its target; first makes the missing parents of the target, if the action allows this.
pub fn copy_one(
    alloc: Global,
    action: &CopyFile,
    dest: &Dest,
    second: &Tree,
    source: &Path,
    tree: &mut Tree,
) -> Result<(), TreeFault>
    requires { IsSome (finite.get second.now source.now) }
    ensures { trees.Gives (λ _. tree.new) result (copy_one action.now (dest.now.path, dest.now.inside) second.now source.now tree.old) }
{
    let goal = target(action, dest, second, source, tree)?;
    if action.create_dest_path {
        make_parents(alloc, tree, &goal, Meta::new_dir())?;
    }
    land(alloc, action, second, source, &goal, tree)
}

/// Returns the target of a source: the path that the source is copied to.
pub fn target(
    action: &CopyFile,
    dest: &Dest,
    second: &Tree,
    source: &Path,
    tree: &Tree,
) -> Result<Path, TreeFault>
    ensures { trees.Gives (λ p. p) result (placed (target action.now (dest.now.path, dest.now.inside) second.now source.now tree.now)) }
{
    if action.dir_copy_contents && second.is_dir(source) {
        return dest.path.copy();
    }
    if dest.inside || tree.is_dir(&dest.path) {
        return place_in(&dest.path, source);
    }
    dest.path.copy()
}

// Returns the path of a directory with the source's last name after it; if the source is the root, which has no name, the path of the directory itself.
fn place_in(dest: &Path, source: &Path) -> Result<Path, TreeFault>
    ensures { trees.Gives (λ p. p) result (placed (dest.now ++ last_name source.now)) }
{
    let mut goal = dest.copy()?;
    if let Some(name) = source.names().last() {
        goal.push(name.copy()?)?;
    }
    Ok(goal)
}

// Copies the entry at a source to the target, and each entry below the source to the same path below the target.
fn land(
    alloc: Global,
    action: &CopyFile,
    second: &Tree,
    source: &Path,
    goal: &Path,
    tree: &mut Tree,
) -> Result<(), TreeFault>
    requires short { length goal.now ≤ 128 }
    requires there { IsSome (finite.get second.now source.now) }
    ensures { trees.Gives (λ _. tree.new) result (land_at (copied action.now.mode action.now.owner)
        (at_target second.now source.now goal.now) goal.now tree.old) }
{
    if second.is_dir(source) {
        let from = second.subtree(source)?;
        return land_dir(alloc, action, &from, goal, tree);
    }
    land_file(action, second, source, goal, tree)
}
