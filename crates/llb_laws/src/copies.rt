//! Laws of copies: what a copy reads of the tree that it copies from, and a file op of its inputs; and a test of the premise on two trees.

ghost use Rattle.std.specs.Prelude.{◌≡◌, ◌↔◌, IsTrue, IfOk};
ghost use Rattle.std.specs.FinMap as finite;
ghost use Rattle.llb_tree.specs.Nodes.{seen};
ghost use Rattle.llb_fileop.specs.Copying.{EachMatch};
ghost use Rattle.llb_laws.specs.CopiedPaths.{AgreeBelow, AgreeBelowEach, AgreeFor, AgreeOn, CopiesAlike, ReadsEndAlike};

use llb_glob::{Pattern, PatternFault};
use llb_loader::Graph;
use llb_ops::CopyFile;
use llb_tree::{Entry, Path, Tree, TreeFault};
use llb_wire::{Memory, Same};
use std::alloc::Global;

/// Proves that a copy depends on the tree that it copies from only at and below what it copies: its one path, or each path that matches its pattern. On two
/// trees that have the same entries there it has the same result, or fails with the same fault.
pub fn copies_alike(action: &CopyFile, base: &Tree, first: &Tree, second: &Tree)
    ensures { CopiesAlike action.now base.now first.now second.now }
{
    let _ = action;
    let _ = base;
    let _ = first;
    let _ = second;
}

/// Proves a law for two graphs and any relation between their vertices of which this holds: vertices that it relates have the same plain outcome already, do
/// the same on inputs that match, or are the same file op, of which each input matches or is only copied from, and has in both the same entries at and below
/// what is copied. Then all vertices that it relates have the same plain outcome. So a source that changed elsewhere changes nothing.
pub fn reads_end_alike(graph: &Graph, matched: &Graph)
    ensures { ReadsEndAlike graph.now matched.now }
{
    graph.is_graph();
    matched.is_graph();
}

// Returns whether two entries are equal.
fn same_entry(first: Entry, second: Entry) -> bool
    ensures { IsTrue result ↔ (seen first.entry ≡ seen second.entry) }
{
    match first {
        Entry::Dir(meta) => match second {
            Entry::Dir(other) => meta.same(&other),
            Entry::File(..) => false,
        },
        Entry::File(meta, content) => match second {
            Entry::File(other, same) => meta.same(&other) && content.same(same),
            Entry::Dir(_) => false,
        },
    }
}

// Returns whether two trees have the same entry at a path, or none.
fn agree_at(first: &Tree, second: &Tree, path: &Path) -> bool
    ensures { IsTrue result ↔ (finite.get first.now path.now ≡ finite.get second.now path.now) }
{
    match first.get(path) {
        None => second.get(path).is_none(),
        Some(entry) => match second.get(path) {
            None => false,
            Some(other) => same_entry(entry, other),
        },
    }
}

/// Returns whether two trees have the same entries at and below a path. Fails with 5 `Memory` alone.
pub fn agree_below(first: &Tree, second: &Tree, path: &Path) -> Result<bool, Memory>
    ensures { IfOk result (λ is. IsTrue is ↔ AgreeBelow first.now second.now path.now) }
{
    if !agree_at(first, second, path) {
        return Ok(false);
    }
    if !first.is_dir(path) {
        second.is_tree();
        return Ok(true);
    }
    let Ok(tree) = first.subtree(path) else {
        return Err(Memory);
    };
    let Ok(other) = second.subtree(path) else {
        return Err(Memory);
    };
    Ok(tree.same(&other))
}

// Returns whether two trees have the same entries at and below each of these paths.
fn agree_below_each(first: &Tree, second: &Tree, paths: &[Path]) -> Result<bool, Memory>
    ensures { IfOk result (λ is. IsTrue is ↔ AgreeBelowEach first.now second.now paths.now) }
{
    for path in paths {
        if !agree_below(first, second, path)? {
            return Ok(false);
        }
    }
    Ok(true)
}

// Returns whether two trees have the same entries at and below each path that matches a pattern.
fn agree_on_matches(first: &Tree, second: &Tree, pattern: &Pattern) -> Result<bool, Memory>
    ensures { IfOk result (λ is. IsTrue is ↔ AgreeOn first.now second.now (EachMatch pattern.now)) }
{
    first.is_tree();
    second.is_tree();
    let Ok(paths) = first.passing(pattern.parts()) else {
        return Err(Memory);
    };
    if !agree_below_each(first, second, paths.as_slice())? {
        return Ok(false);
    }
    let Ok(others) = second.passing(pattern.parts()) else {
        return Err(Memory);
    };
    agree_below_each(first, second, others.as_slice())
}

/// Returns whether two trees have the same entries at and below what a copy chooses: the premise of `copies_alike`. It is `true` for a copy that fails because
/// its text can't be read. Fails with 5 `Memory` alone.
pub fn agree_for(
    alloc: Global,
    action: &CopyFile,
    first: &Tree,
    second: &Tree,
) -> Result<bool, Memory>
    ensures { IfOk result (λ is. IsTrue is ↔ AgreeFor action.now first.now second.now) }
{
    if action.allow_wildcard {
        return match Pattern::read(alloc, action.src.as_str()) {
            Ok(pattern) => agree_on_matches(first, second, &pattern),
            Err(PatternFault::Memory) => Err(Memory),
            Err(PatternFault::BadPattern) => Ok(true),
        };
    }
    match Path::read(alloc, action.src.as_str()) {
        Ok(path) => agree_below(first, second, &path),
        Err(TreeFault::Memory) => Err(Memory),
        Err(_) => Ok(true),
    }
}
