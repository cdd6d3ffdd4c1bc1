//! Why a command ends with status 1: what is wrong, and at which path. The view is not changed.

ghost use Rattle.std.specs.Prelude.{◌≡◌, ◌==◌, ◌<◌, ◌+◌, ◌^◌, Ok, Some, is_some, length, IfOk};
ghost use Rattle.llb_applet.specs.declared.cause.Cause.TheVariants.{Always, NoPath, At};
ghost use Rattle.llb_applet.specs.PathsInMounts.{entry_at};
ghost use Rattle.llb_applet.specs.Commands.{run, status_of};
ghost use Rattle.llb_applet.specs.Causes.{first_of, nothing, no_file, no_dir, no_kind, no_mode, no_removal, not_written, not_read, none_read, not_into};
ghost use Rattle.llb_applet.specs.Causes.{not_copied_to, not_copied, dir_word, not_made, cause_of, at_word};

use crate::command::{Command, Kind};
use crate::directory_and_variables::Setting;
use crate::edit_cause::{no_dirs, no_file_put, no_mode, no_new_dir, no_removal};
use crate::fault;
use crate::path_in_mount::{Spot, path_by, spot_of};
use llb_mount::View;
use llb_tree::{Entry, Path, TreeFault};
use llb_wire::{Memory, Text};
use std::alloc::Global;

/// What is wrong at a path.
#[derive(Clone, Copy, Debug, PartialEq, Eq)]
pub enum What {
    /// The path would have more than 128 names in the tree of its mount.
    TooLong,
    /// Nothing is there.
    Nothing,
    /// A file is needed, and nothing is there.
    NoFile,
    /// A directory is needed, and nothing is there.
    NoDir,
    /// A directory is needed or made, and a file is there.
    IsFile,
    /// A file is needed or made, and a directory is there.
    IsDir,
    /// Something is there already.
    IsThere,
    /// It is the dest of a mount, which can't be removed.
    IsDest,
    /// It is the dest of a mount whose tree has nothing at the mount's selector.
    NoSelector,
    /// It is the dest of a mount that is read-only.
    ReadOnly,
}

/// Why a command ends with status 1.
#[derive(Drop)]
pub enum Cause {
    /// The command is `false`.
    Always,
    /// The word with this number, counted from 0 (the applet's name), is no path.
    NoPath(usize),
    /// Something is wrong at this path.
    At(What, Path),
}

/// Returns what is wrong at a path, as a cause.
pub fn at(what: What, path: &Path) -> Result<Option<Cause>, Memory>
    ensures { IfOk result (λ c. c ≡ Some (At what path.now)) }
{
    Ok(Some(Cause::At(what, path.copy()?)))
}

// Returns the cause if nothing is at a path.
fn nothing(path: &Path, spot: &Spot, view: &View) -> Result<Option<Cause>, Memory>
    requires { spot.now.mount < length view.now }
    ensures { IfOk result (λ c. c ≡ nothing path.now (entry_at view.now spot.now)) }
{
    match spot.entry(view) {
        Some(_) => Ok(None),
        None => at(What::Nothing, path),
    }
}

// Returns the cause if there is no file at a path.
fn no_file(path: &Path, spot: &Spot, view: &View) -> Result<Option<Cause>, Memory>
    requires { spot.now.mount < length view.now }
    ensures { IfOk result (λ c. c ≡ no_file path.now (entry_at view.now spot.now)) }
{
    match spot.entry(view) {
        Some(Entry::Dir(_)) => at(What::IsDir, path),
        Some(Entry::File(_, _)) => Ok(None),
        None => at(What::NoFile, path),
    }
}

// Returns the cause if there is no directory at a path.
fn no_dir(path: &Path, spot: &Spot, view: &View) -> Result<Option<Cause>, Memory>
    requires { spot.now.mount < length view.now }
    ensures { IfOk result (λ c. c ≡ no_dir path.now (entry_at view.now spot.now)) }
{
    match spot.entry(view) {
        Some(Entry::Dir(_)) => Ok(None),
        Some(Entry::File(_, _)) => at(What::IsFile, path),
        None => at(What::NoDir, path),
    }
}

// Returns the cause if the entry at a path is not of the kind for which `test` asks.
fn no_kind(kind: Kind, path: &Path, spot: &Spot, view: &View) -> Result<Option<Cause>, Memory>
    requires { spot.now.mount < length view.now }
    ensures { IfOk result (λ c. c ≡ no_kind kind path.now (entry_at view.now spot.now)) }
{
    match kind {
        Kind::Something => nothing(path, spot, view),
        Kind::File => no_file(path, spot, view),
        Kind::Dir => no_dir(path, spot, view),
    }
}

// Returns the cause that a word is no path.
fn no_path(word: usize) -> Result<Option<Cause>, Memory>
    ensures { result ≡ Ok (Some (NoPath word)) }
{
    Ok(Some(Cause::NoPath(word)))
}

// Returns the cause if nothing can be written to the file that word `n` of a call names.
fn not_written(
    alloc: Global,
    setting: &Setting,
    view: &View,
    n: usize,
    word: &Text,
) -> Result<Option<Cause>, Memory>
    ensures { IfOk result (λ c. c ≡ not_written setting.now view.now n word.now) }
{
    let Some(path) = path_by(alloc, setting, word)? else {
        return no_path(n);
    };
    let Some(spot) = spot_of(view, &path)? else {
        return at(What::TooLong, &path);
    };
    no_file_put(alloc, view, &path, &spot)
}

// Returns the cause if word `n` of a call names no file.
fn not_read(
    alloc: Global,
    setting: &Setting,
    view: &View,
    n: usize,
    word: &Text,
) -> Result<Option<Cause>, Memory>
    ensures { IfOk result (λ c. c ≡ not_read setting.now view.now n word.now) }
{
    let Some(path) = path_by(alloc, setting, word)? else {
        return no_path(n);
    };
    let Some(spot) = spot_of(view, &path)? else {
        return at(What::TooLong, &path);
    };
    no_file(&path, &spot, view)
}

// Returns the first cause if one of these words, of which the first is word `n` of a call, names no file.
fn none_read(
    alloc: Global,
    setting: &Setting,
    view: &View,
    n: usize,
    words: &[Text],
) -> Result<Option<Cause>, Memory>
    requires { n + length words.now < 2 ^ 64 }
    ensures { IfOk result (λ c. c ≡ none_read setting.now view.now n words.now) }
{
    let Some((word, more)) = words.split_first() else {
        return Ok(None);
    };
    match not_read(alloc, setting, view, n, word)? {
        Some(cause) => Ok(Some(cause)),
        None => none_read(alloc, setting, view, n + 1, more),
    }
}

// Returns the cause if a file can't be put into the directory at a path, under the last name of the source.
fn not_into(alloc: Global, view: &View, source: &Path, path: &Path) -> Result<Option<Cause>, Memory>
    ensures { IfOk result (λ c. c ≡ not_into view.now source.now path.now) }
{
    let Some(name) = source.names().last() else {
        return at(What::IsDir, path);
    };
    let mut longer = path.copy()?;
    match longer.push(name.copy()?) {
        Ok(()) => {}
        Err(TreeFault::Memory) => return Err(Memory),
        Err(_) => return at(What::TooLong, path),
    }
    let Some(spot) = spot_of(view, &longer)? else {
        return at(What::TooLong, &longer);
    };
    no_file_put(alloc, view, &longer, &spot)
}

// Returns the cause if a file can't be copied to a path, or into the directory there.
fn not_copied_to(
    alloc: Global,
    view: &View,
    source: &Path,
    path: &Path,
) -> Result<Option<Cause>, Memory>
    ensures { IfOk result (λ c. c ≡ not_copied_to view.now source.now path.now) }
{
    let Some(spot) = spot_of(view, path)? else {
        return at(What::TooLong, path);
    };
    if spot.is_dir(view) {
        return not_into(alloc, view, source, path);
    }
    no_file_put(alloc, view, path, &spot)
}

// Returns the first cause if the file that one word names can't be copied to the path that another names.
fn not_copied(
    alloc: Global,
    setting: &Setting,
    view: &View,
    from: &Text,
    to: &Text,
) -> Result<Option<Cause>, Memory>
    ensures { IfOk result (λ c. c ≡ not_copied setting.now view.now from.now to.now) }
{
    let Some(source) = path_by(alloc, setting, from)? else {
        return no_path(1);
    };
    let Some(spot) = spot_of(view, &source)? else {
        return at(What::TooLong, &source);
    };
    if let Some(cause) = no_file(&source, &spot, view)? {
        return Ok(Some(cause));
    }
    let Some(path) = path_by(alloc, setting, to)? else {
        return no_path(2);
    };
    not_copied_to(alloc, view, &source, &path)
}

// Returns the first cause if a directory can't be made at the path that a word names, with its parents or without.
fn not_made(
    alloc: Global,
    setting: &Setting,
    view: &View,
    parents: bool,
    word: &Text,
) -> Result<Option<Cause>, Memory>
    ensures { IfOk result (λ c. c ≡ at_word setting.now view.now (dir_word parents) word.now (not_made parents view.now)) }
{
    let Some(path) = path_by(alloc, setting, word)? else {
        return no_path(if parents { 2 } else { 1 });
    };
    let Some(spot) = spot_of(view, &path)? else {
        return at(What::TooLong, &path);
    };
    if parents {
        return no_dirs(alloc, view, &path, &spot);
    }
    no_new_dir(alloc, view, &path, &spot)
}

// Returns the first cause if what a word names can't be removed.
fn not_removed(
    alloc: Global,
    setting: &Setting,
    view: &View,
    word: &Text,
) -> Result<Option<Cause>, Memory>
    ensures { IfOk result (λ c. c ≡ at_word setting.now view.now 1 word.now (no_removal view.now)) }
{
    let Some(path) = path_by(alloc, setting, word)? else {
        return no_path(1);
    };
    let Some(spot) = spot_of(view, &path)? else {
        return at(What::TooLong, &path);
    };
    no_removal(view, &path, &spot)
}

// Returns the first cause if the mode of what a word names can't be set.
fn not_set(
    alloc: Global,
    setting: &Setting,
    view: &View,
    word: &Text,
) -> Result<Option<Cause>, Memory>
    ensures { IfOk result (λ c. c ≡ at_word setting.now view.now 2 word.now (λ names spot. no_mode view.now names spot (entry_at view.now spot))) }
{
    let Some(path) = path_by(alloc, setting, word)? else {
        return no_path(2);
    };
    let Some(spot) = spot_of(view, &path)? else {
        return at(What::TooLong, &path);
    };
    no_mode(alloc, view, &path, &spot)
}

// Returns the first cause if what word `n` of a call names is not of this kind.
fn not_of_kind(
    alloc: Global,
    setting: &Setting,
    view: &View,
    kind: Kind,
    n: usize,
    word: &Text,
) -> Result<Option<Cause>, Memory>
    ensures { IfOk result (λ c. c ≡ at_word setting.now view.now n word.now (λ names spot. no_kind kind names (entry_at view.now spot))) }
{
    let Some(path) = path_by(alloc, setting, word)? else {
        return no_path(n);
    };
    let Some(spot) = spot_of(view, &path)? else {
        return at(What::TooLong, &path);
    };
    no_kind(kind, &path, &spot, view)
}

// Returns a cause, if there is one; else the cause if nothing can be written to the file that word `n` of a call names.
fn or_not_written(
    alloc: Global,
    first: Option<Cause>,
    setting: &Setting,
    view: &View,
    n: usize,
    word: &Text,
) -> Result<Option<Cause>, Memory>
    ensures { IfOk result (λ c. c ≡ first_of first (not_written setting.now view.now n word.now)) }
{
    match first {
        Some(cause) => Ok(Some(cause)),
        None => not_written(alloc, setting, view, n, word),
    }
}

// Returns the first cause of a command's status 1.
fn first_cause(
    alloc: Global,
    command: &Command,
    setting: &Setting,
    view: &View,
) -> Result<Option<Cause>, Memory>
    ensures { IfOk result (λ c. c ≡ cause_of setting.now view.now command.now) }
{
    match command {
        Command::True => Ok(None),
        Command::False => Ok(Some(Cause::Always)),
        Command::Mkdir { parents, path } => not_made(alloc, setting, view, *parents, path),
        Command::Rm { path } => not_removed(alloc, setting, view, path),
        Command::Write { path, word: _ } => not_written(alloc, setting, view, 1, path),
        Command::Append { path, word: _ } => not_written(alloc, setting, view, 1, path),
        Command::Cp { from, to } => not_copied(alloc, setting, view, from, to),
        Command::Concat { out, parts } => {
            let first = none_read(alloc, setting, view, 2, parts.as_slice())?;
            or_not_written(alloc, first, setting, view, 1, out)
        }
        Command::Chmod { mode: _, path } => not_set(alloc, setting, view, path),
        Command::Test { kind, path } => not_of_kind(alloc, setting, view, *kind, 2, path),
        Command::Listing { path, out } => {
            let first = not_of_kind(alloc, setting, view, Kind::Dir, 1, path)?;
            or_not_written(alloc, first, setting, view, 2, out)
        }
        Command::Envfile { out } => not_written(alloc, setting, view, 1, out),
        Command::Sha256 { path, out } => {
            let first = not_read(alloc, setting, view, 1, path)?;
            or_not_written(alloc, first, setting, view, 2, out)
        }
    }
}

/// Returns why a command would end with status 1 on a view, or `None` if it would end with status 0: what is wrong, and at which path. If several things are
/// wrong, returns the first, in the order in which the command looks at its words, at what they name, and at last at the mount that it changes. Does not change
/// the view. Fails with 75 `Memory` alone.
pub fn why_failed(
    alloc: Global,
    command: &Command,
    setting: &Setting,
    view: &View,
) -> Result<Option<Cause>, fault::Memory>
    ensures first { IfOk result (λ c. c ≡ cause_of setting.now view.now command.now) }
    ensures exact { IfOk result (λ c. is_some c ≡ (status_of (run setting.now view.now command.now) == 1)) }
{
    let cause = first_cause(alloc, command, setting, view)?;
    Ok(cause)
}
