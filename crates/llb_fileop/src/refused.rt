//! Why an action is refused. Nothing here changes a given tree: a copy is tried on a copy of the tree, which shares its memory with the tree.

ghost use Rattle.std.specs.Prelude.{◌≡◌, ◌≤◌, ◌+◌, length, option_map, unwrap_or, IfOk, IfErr};
ghost use Rattle.std.specs.Result.{result_ok};
ghost use Rattle.std.specs.FinMap as finite;
ghost use Rattle.llb_tree.specs.Path.{path_of};
ghost use Rattle.llb_tree.specs.Tree.{empty_tree};
ghost use Rattle.llb_glob.specs.Pattern.{pattern_of};
ghost use Rattle.llb_fileop.specs.FileActions.{act};
ghost use Rattle.llb_fileop.specs.Making.{parents_from};
ghost use Rattle.llb_fileop.specs.Refusals.{not_dir, no_dirs, no_parent, no_file_put, mkfile_refusal, no_dir_put, mkdir_refusal, no_removal, no_removals};
ghost use Rattle.llb_fileop.specs.Refusals.{rm_refusal, copy_refusal, refusal_of, fault_of, fault_in};
ghost use Rattle.llb_fileop.specs.declared.fault.ActFault.TheVariants as fault;

use crate::fault::ActFault;
use crate::refusal::{Field, Obstacle, Refusal, at};
use crate::refused_copy::no_copy_of;
use crate::removing::rm_pattern;
use llb_glob::{Pattern, PatternFault};
use llb_ops::{Action, ActionKind, MkDir, MkFile, Rm};
use llb_tree::{Entry, Name, Path, Tree, TreeFault};
use llb_wire::Memory;
use std::alloc::Global;

/// Returns the path that a text is read as; `None` if the text is no path.
pub fn path_read(alloc: Global, text: &str) -> Result<Option<Path>, Memory>
    ensures { IfOk result (λ p. p ≡ result_ok (path_of text.now)) }
{
    match Path::read(alloc, text) {
        Ok(path) => Ok(Some(path)),
        Err(TreeFault::Memory) => Err(Memory),
        Err(_) => Ok(None),
    }
}

/// Returns the pattern that a text is read as; `None` if the text is no pattern.
pub fn pattern_read(alloc: Global, text: &str) -> Result<Option<Pattern>, Memory>
    ensures { IfOk result (λ p. p ≡ result_ok (pattern_of text.now)) }
{
    match Pattern::read(alloc, text) {
        Ok(pattern) => Ok(Some(pattern)),
        Err(PatternFault::Memory) => Err(Memory),
        Err(PatternFault::BadPattern) => Ok(None),
    }
}

// Returns what is wrong at a path that has to be a directory, or that is made one if nothing is there (`made`).
fn not_dir(made: bool, tree: &Tree, path: &Path) -> Result<Option<Refusal>, Memory>
    ensures { IfOk result (λ r. r ≡ not_dir made path.now (finite.get tree.now path.now)) }
{
    match tree.get(path) {
        None => {
            if made {
                return Ok(None);
            }
            at(Obstacle::NoDir, path)
        }
        Some(Entry::Dir(_)) => Ok(None),
        Some(Entry::File(_, _)) => at(Obstacle::FileAbove, path),
    }
}

// Returns the first parent, at or below a path, of the path with these names after it, at which something is wrong.
fn no_parent_from(
    made: bool,
    tree: &Tree,
    place: &Path,
    names: &[Name],
) -> Result<Option<Refusal>, Memory>
    requires { length place.now + length names.now ≤ 128 }
    ensures { IfOk result (λ r. r ≡ no_dirs made tree.now (parents_from place.now names.now)) }
{
    let Some((name, more)) = names.split_first() else {
        return Ok(None);
    };
    match not_dir(made, tree, place)? {
        Some(refusal) => Ok(Some(refusal)),
        None => {
            let mut next = place.copy()?;
            next.push(name.copy()?)?;
            no_parent_from(made, tree, &next, more)
        }
    }
}

/// Returns the first parent of a path, from the root down, that is a file or missing; if missing parents are made (`made`), the first that is a file.
pub fn no_parent(
    alloc: Global,
    made: bool,
    tree: &Tree,
    path: &Path,
) -> Result<Option<Refusal>, Memory>
    ensures { IfOk result (λ r. r ≡ no_parent made tree.now path.now) }
{
    no_parent_from(made, tree, &Path::root(alloc), path.names())
}

// Returns why no file can be made at a path.
fn no_file_put(alloc: Global, tree: &Tree, path: &Path) -> Result<Option<Refusal>, Memory>
    ensures { IfOk result (λ r. r ≡ no_file_put tree.now path.now) }
{
    if path.is_root() {
        return Ok(Some(Refusal::Root));
    }
    match no_parent(alloc, false, tree, path)? {
        Some(refusal) => Ok(Some(refusal)),
        None => match tree.get(path) {
            Some(Entry::Dir(_)) => at(Obstacle::IsDir, path),
            Some(Entry::File(_, _)) => Ok(None),
            None => Ok(None),
        },
    }
}

// Returns why no directory can be made at a path.
fn no_dir_put(
    alloc: Global,
    made: bool,
    tree: &Tree,
    path: &Path,
) -> Result<Option<Refusal>, Memory>
    ensures { IfOk result (λ r. r ≡ no_dir_put made tree.now path.now (finite.get tree.now path.now)) }
{
    match tree.get(path) {
        None => no_parent(alloc, made, tree, path),
        Some(Entry::Dir(_)) => Ok(None),
        Some(Entry::File(_, _)) => match no_parent(alloc, made, tree, path)? {
            Some(refusal) => Ok(Some(refusal)),
            None => at(Obstacle::IsFile, path),
        },
    }
}

// Returns why a path can't be removed.
fn no_removal(allowed: bool, tree: &Tree, path: &Path) -> Result<Option<Refusal>, Memory>
    ensures { IfOk result (λ r. r ≡ no_removal allowed tree.now path.now) }
{
    if path.is_root() {
        return Ok(Some(Refusal::Root));
    }
    match tree.get(path) {
        Some(_) => Ok(None),
        None => {
            if allowed {
                return Ok(None);
            }
            at(Obstacle::Nothing, path)
        }
    }
}

// Returns why the paths that match a pattern can't be removed.
fn no_removals(allowed: bool, tree: &Tree, pattern: &Pattern) -> Result<Option<Refusal>, Memory>
    ensures { IfOk result (λ r. r ≡ no_removals allowed tree.now pattern.now) }
{
    match rm_pattern(pattern, allowed, tree) {
        Ok(_) => Ok(None),
        Err(TreeFault::Memory) => Err(Memory),
        Err(TreeFault::Root) => Ok(Some(Refusal::Root)),
        Err(_) => Ok(Some(Refusal::NoMatch(Field::Path))),
    }
}

// Returns why an `mkfile` action is refused.
fn mkfile_refusal(alloc: Global, make: &MkFile, base: &Tree) -> Result<Option<Refusal>, Memory>
    ensures { IfOk result (λ r. r ≡ mkfile_refusal make.now base.now) }
{
    match path_read(alloc, make.path.as_str())? {
        Some(path) => no_file_put(alloc, base, &path),
        None => Ok(Some(Refusal::NotPath(Field::Path))),
    }
}

// Returns why an `mkdir` action is refused.
fn mkdir_refusal(alloc: Global, make: &MkDir, base: &Tree) -> Result<Option<Refusal>, Memory>
    ensures { IfOk result (λ r. r ≡ mkdir_refusal make.now base.now) }
{
    match path_read(alloc, make.path.as_str())? {
        Some(path) => no_dir_put(alloc, make.make_parents, base, &path),
        None => Ok(Some(Refusal::NotPath(Field::Path))),
    }
}

// Returns why an `rm` action is refused.
fn rm_refusal(alloc: Global, remove: &Rm, base: &Tree) -> Result<Option<Refusal>, Memory>
    ensures { IfOk result (λ r. r ≡ rm_refusal remove.now base.now) }
{
    if remove.allow_wildcard {
        return match pattern_read(alloc, remove.path.as_str())? {
            Some(pattern) => no_removals(remove.allow_not_found, base, &pattern),
            None => Ok(Some(Refusal::NotPattern(Field::Path))),
        };
    }
    match path_read(alloc, remove.path.as_str())? {
        Some(path) => no_removal(remove.allow_not_found, base, &path),
        None => Ok(Some(Refusal::NotPath(Field::Path))),
    }
}

// Returns why an action is refused.
fn refusal_of(
    alloc: Global,
    action: &Action,
    base: &Tree,
    second: Option<&Tree>,
) -> Result<Option<Refusal>, Memory>
    ensures { IfOk result (λ r. r ≡ refusal_of action.now.kind base.now (unwrap_or (option_map (λ t. t.now) second.entry) empty_tree)) }
{
    match &action.kind {
        Some(ActionKind::MkFile(make)) => mkfile_refusal(alloc, make, base),
        Some(ActionKind::MkDir(make)) => mkdir_refusal(alloc, make, base),
        Some(ActionKind::Copy(copied)) => match second {
            Some(second) => no_copy_of(alloc, copied, base, second),
            None => no_copy_of(alloc, copied, base, &Tree::empty(alloc)?),
        },
        Some(ActionKind::Rm(remove)) => rm_refusal(alloc, remove, base),
        None => Ok(None),
    }
}

/// Returns why `act` refuses an action on the tree `base` and the second tree, or `None` if it returns a tree: the first thing that is wrong, in the order in
/// which `act` looks at the texts, the sources, and for each source at the parents of its target and at its entries in path order. If a source can't be
/// copied, its paths are those of the tree after the copies of the sources before it. Changes neither tree. Fails with 53 `Memory` alone.
pub fn why_refused(
    alloc: Global,
    action: &Action,
    base: &Tree,
    second: Option<&Tree>,
) -> Result<Option<Refusal>, ActFault>
    ensures first { IfOk result (λ r. r ≡ refusal_of action.now.kind base.now (unwrap_or (option_map (λ t. t.now) second.entry) empty_tree)) }
    ensures exact { IfOk result (λ r. option_map fault_of r
        ≡ fault_in (act action.now.kind base.now (unwrap_or (option_map (λ t. t.now) second.entry) empty_tree))) }
    ensures memory { IfErr result (λ e. e ≡ fault.Memory) }
{
    let refusal = refusal_of(alloc, action, base, second)?;
    Ok(refusal)
}
