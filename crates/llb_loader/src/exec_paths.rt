//! Reads the paths of an exec: the dests and selectors of its mounts, and the directory in which its commands are run (`cwd`).

ghost use Rattle.std.specs.Prelude.{◌≡◌, ◌↔◌, [], Some, IfOk, IsTrue, IsSome};
ghost use Rattle.std.specs.List.{All, Contains};
ghost use Rattle.llb_loader.specs.Mounts.{read_as, dests_of, ReadsCwd, AreApart};

use llb_ops::{Meta, Mount};
use llb_tree::{Path, TreeFault};
use llb_wire::{Memory, Text};
use std::alloc::Global;
use std::collections::BTreeSet;

// Reads a text as a path; `None` if the text is no path.
fn path_in(alloc: Global, text: &Text) -> Result<Option<Path>, Memory>
    ensures { IfOk result (λ path. path ≡ read_as text.now) }
{
    match Path::read(alloc, text.as_str()) {
        Ok(path) => Ok(Some(path)),
        Err(TreeFault::Memory) => Err(Memory),
        Err(_) => Ok(None),
    }
}

/// Reads the dests of the mounts as paths; `None` for a dest that is no path.
pub fn dests_of(alloc: Global, mounts: &[Mount]) -> Result<Vec<Option<Path>>, Memory>
    ensures { IfOk result (λ dests. dests.items ≡ dests_of mounts.now) }
{
    let mut dests = Vec::new(alloc);
    for mount in mounts {
        dests.push(path_in(alloc, &mount.dest)?)?;
    }
    Ok(dests)
}

/// Returns whether one of the dests is the root.
pub fn has_root(dests: &[Option<Path>]) -> bool
    ensures { IsTrue result ↔ Contains dests.now (Some []) }
{
    for dest in dests {
        if let Some(path) = dest {
            if path.is_root() {
                return true;
            }
        }
    }
    false
}

/// Returns whether all dests were read as paths.
pub fn all_there(dests: &[Option<Path>]) -> bool
    ensures { IsTrue result ↔ All IsSome dests.now }
{
    for dest in dests {
        if dest.is_none() {
            return false;
        }
    }
    true
}

/// Returns whether all selectors can be read as paths.
pub fn selectors_read(alloc: Global, mounts: &[Mount]) -> Result<bool, Memory>
    ensures { IfOk result (λ read. IsTrue read ↔ All (λ m. IsSome (read_as m.selector)) mounts.now) }
{
    for mount in mounts {
        if path_in(alloc, &mount.selector)?.is_none() {
            return Ok(false);
        }
    }
    Ok(true)
}

/// Returns whether the `cwd` can be read as a path; true if there is no `meta`.
pub fn cwd_reads(alloc: Global, meta: &Option<Meta>) -> Result<bool, Memory>
    ensures { IfOk result (λ read. IsTrue read ↔ ReadsCwd meta.now) }
{
    let Some(meta) = meta else {
        return Ok(true);
    };
    let path = path_in(alloc, &meta.cwd)?;
    Ok(path.is_some())
}

/// Returns whether no two dests are the same path.
pub fn dests_apart(alloc: Global, dests: &[Option<Path>]) -> Result<bool, Memory>
    ensures { IfOk result (λ apart. IsTrue apart ↔ AreApart dests.now) }
{
    let mut seen = BTreeSet::new(alloc);
    for dest in dests {
        let Some(path) = dest else {
            continue;
        };
        let Ok(copy) = path.copy() else {
            return Err(Memory);
        };
        if !seen.insert(copy)? {
            return Ok(false);
        }
    }
    Ok(true)
}
