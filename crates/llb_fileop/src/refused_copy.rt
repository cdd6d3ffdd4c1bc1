//! Why a copy is refused. The sources are copied one after another on a copy of the tree, up to the first whose copy is refused.

ghost use Rattle.std.specs.Prelude.{◌≡◌, ◌≤◌, ◌++◌, length, map, option_map, IsSome, IfOk};
ghost use Rattle.std.specs.Result.{result_ok};
ghost use Rattle.std.specs.FinMap as finite;
ghost use Rattle.llb_tree.specs.PathEntries.{seen};
ghost use Rattle.llb_tree.specs.Tree.{moved};
ghost use Rattle.llb_fileop.specs.Removing.{matching};
ghost use Rattle.llb_fileop.specs.Copying.{resolved, at_target};
ghost use Rattle.llb_fileop.specs.Refusals.{no_meeting, no_landings, no_copy_to, no_copy, no_path_copy, no_match_copy, copy_refusal};

use crate::copying::{Dest, copy_one, dest_of, target};
use crate::fault::ActFault;
use crate::refusal::{Field, Obstacle, Refusal, at};
use crate::refused::{no_parent, path_read, pattern_read};
use llb_glob::Pattern;
use llb_ops::CopyFile;
use llb_tree::{Entry, Name, Path, Tree, TreeFault};
use llb_wire::Memory;
use std::alloc::Global;

// Returns the destination of a copy; `None` if its text is no path.
fn dest_read(alloc: Global, action: &CopyFile) -> Result<Option<Dest>, Memory>
    ensures { IfOk result (λ d. option_map (λ d. (d.path, d.inside)) d ≡ result_ok (resolved action.now.dest)) }
{
    match dest_of(alloc, action) {
        Ok(dest) => Ok(Some(dest)),
        Err(ActFault::Memory) => Err(Memory),
        Err(_) => Ok(None),
    }
}

// Returns a copy of a path with these names appended.
fn extended(path: &Path, names: &[Name]) -> Result<Path, Memory>
    ensures { IfOk result (λ p. p ≡ path.now ++ names.now) }
{
    let mut longer = path.copy()?;
    for name in names {
        longer.push(name.copy()?)?;
    }
    Ok(longer)
}

// Returns what is wrong at a path to which an entry is copied.
fn no_meeting(tree: &Tree, path: &Path, entry: Entry) -> Result<Option<Refusal>, Memory>
    ensures { IfOk result (λ r. r ≡ no_meeting path.now (finite.get tree.now path.now) (seen entry.entry)) }
{
    match tree.get(path) {
        None => Ok(None),
        Some(Entry::Dir(_)) => match entry {
            Entry::Dir(_) => Ok(None),
            Entry::File(..) => at(Obstacle::DirReplaced, path),
        },
        Some(Entry::File(..)) => match entry {
            Entry::Dir(_) => at(Obstacle::IsFile, path),
            Entry::File(..) => Ok(None),
        },
    }
}

// Returns why the first entry of a directory that can't be put at its path below the target can't be put there. The directory is given as the root of a tree.
fn no_landing_below(
    source: &Path,
    from: &Tree,
    goal: &Path,
    tree: &Tree,
) -> Result<Option<Refusal>, Memory>
    ensures { IfOk result (λ r. r ≡ no_landings source.now tree.now (map (moved 0 goal.now) (finite.entries from.now))) }
{
    let mut walk = from.walk();
    while let Some((path, entry)) = walk.at() {
        if goal.names().len() + path.names().len() > 128 {
            return at(Obstacle::TooLong, source);
        }
        let place = extended(goal, path.names())?;
        if let Some(refusal) = no_meeting(tree, &place, entry)? {
            return Ok(Some(refusal));
        }
        walk.advance()?;
    }
    Ok(None)
}

// Returns why the first entry at or below a source that can't be put at its path at or below the target can't be put there.
fn no_landing(
    second: &Tree,
    source: &Path,
    goal: &Path,
    tree: &Tree,
) -> Result<Option<Refusal>, Memory>
    requires short { length goal.now ≤ 128 }
    requires there { IsSome (finite.get second.now source.now) }
    ensures { IfOk result (λ r. r ≡ no_landings source.now tree.now (at_target second.now source.now goal.now)) }
{
    if second.is_dir(source) {
        let from = second.subtree(source)?;
        return no_landing_below(source, &from, goal, tree);
    }
    if tree.is_dir(goal) {
        return at(Obstacle::DirReplaced, goal);
    }
    Ok(None)
}

// Returns why a source can't be copied to its target.
fn no_copy(
    alloc: Global,
    action: &CopyFile,
    dest: &Dest,
    second: &Tree,
    source: &Path,
    tree: &Tree,
) -> Result<Option<Refusal>, Memory>
    requires { IsSome (finite.get second.now source.now) }
    ensures { IfOk result (λ r. r ≡ no_copy action.now (dest.now.path, dest.now.inside) second.now source.now tree.now) }
{
    match target(action, dest, second, source, tree) {
        Err(TreeFault::Memory) => Err(Memory),
        Err(_) => at(Obstacle::TooLong, source),
        Ok(goal) => match no_parent(alloc, action.create_dest_path, tree, &goal)? {
            Some(refusal) => Ok(Some(refusal)),
            None => no_landing(second, source, &goal, tree),
        },
    }
}

// Returns why a path of the second tree can't be copied.
fn no_path_copy(
    alloc: Global,
    action: &CopyFile,
    dest: &Dest,
    source: &Path,
    base: &Tree,
    second: &Tree,
) -> Result<Option<Refusal>, Memory>
    ensures { IfOk result (λ r. r ≡ no_path_copy action.now (dest.now.path, dest.now.inside) second.now source.now base.now
        (finite.get second.now source.now)) }
{
    if second.get(source).is_none() {
        return at(Obstacle::NoSource, source);
    }
    no_copy(alloc, action, dest, second, source, base)
}

// Returns why the paths of the second tree that match a pattern can't be copied.
fn no_match_copy(
    alloc: Global,
    action: &CopyFile,
    dest: &Dest,
    pattern: &Pattern,
    base: &Tree,
    second: &Tree,
) -> Result<Option<Refusal>, Memory>
    ensures { IfOk result (λ r. r ≡ no_match_copy action.now (dest.now.path, dest.now.inside) second.now (matching pattern.now second.now) base.now) }
{
    let sources = second.passing(pattern.parts())?;
    if sources.is_empty() {
        if action.allow_empty_wildcard {
            return Ok(None);
        }
        return Ok(Some(Refusal::NoMatch(Field::Source)));
    }
    let mut tree = base.copy()?;
    for path in &sources {
        let before = tree.copy()?;
        match copy_one(alloc, action, dest, second, path, &mut tree) {
            Ok(()) => {}
            Err(TreeFault::Memory) => return Err(Memory),
            Err(_) => return no_copy(alloc, action, dest, second, path, &before),
        }
    }
    Ok(None)
}

/// Returns why a copy is refused.
pub fn no_copy_of(
    alloc: Global,
    action: &CopyFile,
    base: &Tree,
    second: &Tree,
) -> Result<Option<Refusal>, Memory>
    ensures { IfOk result (λ r. r ≡ copy_refusal action.now base.now second.now) }
{
    if action.allow_wildcard {
        let Some(pattern) = pattern_read(alloc, action.src.as_str())? else {
            return Ok(Some(Refusal::NotPattern(Field::Source)));
        };
        let Some(dest) = dest_read(alloc, action)? else {
            return Ok(Some(Refusal::NotPath(Field::Dest)));
        };
        return no_match_copy(alloc, action, &dest, &pattern, base, second);
    }
    let Some(source) = path_read(alloc, action.src.as_str())? else {
        return Ok(Some(Refusal::NotPath(Field::Source)));
    };
    let Some(dest) = dest_read(alloc, action)? else {
        return Ok(Some(Refusal::NotPath(Field::Dest)));
    };
    no_path_copy(alloc, action, &dest, &source, base, second)
}
