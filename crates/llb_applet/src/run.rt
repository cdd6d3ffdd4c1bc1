//! Runs a command on a view. A command that is done changes one mount's tree in place, or nothing; a command that fails, or for which memory is refused, leaves
//! the view as it was. Each function for one command returns whether the command is done.

ghost use Rattle.std.specs.Prelude.{◌≡◌, ◌≢◌, IfOk, IfSome, OnOk, OnErr, IsSome, option_and_then, unwrap_or, slice_get};
ghost use Rattle.llb_applet.specs.declared.command.Command.TheVariants as command;
ghost use Rattle.llb_applet.specs.PathsInMounts.{IsSpot, entry_at};
ghost use Rattle.llb_applet.specs.Commands.{run, status_of, left, writes, written, copied, joined, target_of, with_mode, is_kind};
ghost use Rattle.llb_applet.specs.Commands.{path_by, MayWant};
ghost use Rattle.llb_applet.specs.ViewChanges.{Does};

use crate::command::{Command, Kind};
use crate::directory_and_variables::Setting;
use crate::fault;
use crate::path_in_mount::{Spot, meta_in, path_by, spot_by, spot_of};
use crate::view_changes::{make_dir, make_dirs, put_dir, put_file, put_shared, remove};
use crate::written_contents::{envfile, joined, line, listing_by, more, sha256_by};
use llb_mount::View;
use llb_tree::{Bytes, Entry, Meta, Mode, Path, TreeFault};
use llb_wire::{Memory, Text};
use std::alloc::Global;

// Makes a directory. With `parents`, also makes those of its parents below the mount's dest that are missing.
fn mkdir(
    alloc: Global,
    parents: bool,
    path: &Text,
    setting: &Setting,
    view: &mut View,
) -> Result<bool, Memory>
    ensures does { Does result (run setting.now view.old (command.Mkdir parents path.now)) view.old view.new }
    ensures last { OnErr result (IsSome (path_by setting.now path.now)) }
{
    match spot_by(alloc, setting, view, path)? {
        None => Ok(false),
        Some(spot) => {
            if parents {
                return make_dirs(alloc, view, &spot);
            }
            make_dir(alloc, view, &spot)
        }
    }
}

// Removes what is at and below a path.
fn rm(alloc: Global, path: &Text, setting: &Setting, view: &mut View) -> Result<bool, Memory>
    ensures does { Does result (run setting.now view.old (command.Rm path.now)) view.old view.new }
    ensures last { OnErr result (IsSome (path_by setting.now path.now)) }
{
    match spot_by(alloc, setting, view, path)? {
        None => Ok(false),
        Some(spot) => remove(alloc, view, &spot),
    }
}

// Writes a file with this content at a path.
fn write(
    alloc: Global,
    path: &Text,
    content: Bytes,
    setting: &Setting,
    view: &mut View,
) -> Result<bool, Memory>
    ensures does { Does result (writes setting.now view.old path.now content) view.old view.new }
    ensures last { OnErr result (IsSome (path_by setting.now path.now)) }
{
    match spot_by(alloc, setting, view, path)? {
        None => Ok(false),
        Some(spot) => write_at(alloc, view, &spot, content),
    }
}

// Writes a file with a word and a line end at a path.
fn write_line(
    alloc: Global,
    path: &Text,
    word: &Text,
    setting: &Setting,
    view: &mut View,
) -> Result<bool, Memory>
    ensures does { Does result (run setting.now view.old (command.Write path.now word.now)) view.old view.new }
    ensures last { OnErr result (IsSome (path_by setting.now path.now)) }
{
    match spot_by(alloc, setting, view, path)? {
        None => Ok(false),
        Some(spot) => {
            let content = line(alloc, word.as_str())?;
            write_at(alloc, view, &spot, content)
        }
    }
}

// Writes a file with the entries of the setting's environment at a path.
fn write_env(alloc: Global, path: &Text, setting: &Setting, view: &mut View) -> Result<bool, Memory>
    ensures does { Does result (run setting.now view.old (command.Envfile path.now)) view.old view.new }
    ensures last { OnErr result (IsSome (path_by setting.now path.now)) }
{
    match spot_by(alloc, setting, view, path)? {
        None => Ok(false),
        Some(spot) => {
            let content = envfile(alloc, setting)?;
            write_at(alloc, view, &spot, content)
        }
    }
}

// Writes a file with this content at a spot.
fn write_at(alloc: Global, view: &mut View, spot: &Spot, content: Bytes) -> Result<bool, Memory>
    requires { IsSpot view.old spot.now }
    ensures { Does result (written view.old spot.now content) view.old view.new }
{
    let meta = spot.meta(view);
    put_file(alloc, view, spot, meta, content)
}

// Writes a file with this content at a path; if no content is given, returns false and changes nothing.
fn write_some(
    alloc: Global,
    path: &Text,
    content: Option<Bytes>,
    setting: &Setting,
    view: &mut View,
) -> Result<bool, Memory>
    ensures does { Does result (option_and_then (writes setting.now view.old path.now) content) view.old view.new }
    ensures last { OnErr result (IsSome content) }
    ensures path { OnErr result (IsSome (path_by setting.now path.now)) }
{
    match content {
        None => Ok(false),
        Some(content) => write(alloc, path, content, setting, view),
    }
}

// Appends a word and a line end to the file at a path; if there is no file, writes them to a new one.
fn append(
    alloc: Global,
    path: &Text,
    word: &Text,
    setting: &Setting,
    view: &mut View,
) -> Result<bool, Memory>
    ensures does { Does result (run setting.now view.old (command.Append path.now word.now)) view.old view.new }
    ensures last { OnErr result (IsSome (path_by setting.now path.now)) }
{
    match spot_by(alloc, setting, view, path)? {
        None => Ok(false),
        Some(spot) => {
            let content = more(alloc, view, &spot, word)?;
            write_at(alloc, view, &spot, content)
        }
    }
}

// Copies the file at path `from`, with its mode and owner, to path `to` or, if a directory is there, into this directory.
fn cp(
    alloc: Global,
    from: &Text,
    to: &Text,
    setting: &Setting,
    view: &mut View,
) -> Result<bool, Memory>
    ensures does { Does result (copied setting.now view.old from.now to.now) view.old view.new }
    ensures last { OnErr result (IsSome (path_by setting.now from.now)) }
{
    let Some(source) = path_by(alloc, setting, from)? else {
        return Ok(false);
    };
    let Some(spot) = spot_of(view, &source)? else {
        return Ok(false);
    };
    let Some(content) = spot.shared(view)? else {
        return Ok(false);
    };
    let meta = spot.meta(view);
    let Some(path) = path_by(alloc, setting, to)? else {
        return Ok(false);
    };
    let Some(target) = target_of(view, &source, path)? else {
        return Ok(false);
    };
    put_shared(alloc, view, &target, meta, content)
}

// Returns the spot to which a file is copied: the spot of the path, or, if a directory is there, the spot of the source's last name in that directory.
fn target_of(view: &View, source: &Path, path: Path) -> Result<Option<Spot>, Memory>
    ensures means { IfOk result (λ s. s ≡ target_of view.now source.now path) }
    ensures spot { IfOk result (λ s. IfSome s (λ spot. IsSpot view.now spot)) }
{
    let Some(spot) = spot_of(view, &path)? else {
        return Ok(None);
    };
    if !spot.is_dir(view) {
        return Ok(Some(spot));
    }
    let Some(name) = source.names().last() else {
        return Ok(None);
    };
    let mut path = path;
    match path.push(name.copy()?) {
        Ok(()) => spot_of(view, &path),
        Err(TreeFault::Memory) => Err(Memory),
        Err(_) => Ok(None),
    }
}

// Writes a file with the joined contents of the files that words name at a path; if one of the words names no file, returns false and changes nothing.
fn concat(
    alloc: Global,
    out: &Text,
    parts: &[Text],
    setting: &Setting,
    view: &mut View,
) -> Result<bool, Memory>
    ensures does { Does result (option_and_then (writes setting.now view.old out.now) (joined setting.now view.old parts.now)) view.old view.new }
    ensures last { OnErr result (IsSome (path_by setting.now (unwrap_or (slice_get parts.now 0) out.now))) }
{
    let content = joined(alloc, parts, setting, view)?;
    write_some(alloc, out, content, setting, view)
}

// Sets the mode of the entry at a path.
fn chmod(
    alloc: Global,
    mode: Mode,
    path: &Text,
    setting: &Setting,
    view: &mut View,
) -> Result<bool, Memory>
    ensures does { Does result (run setting.now view.old (command.Chmod mode path.now)) view.old view.new }
    ensures last { OnErr result (IsSome (path_by setting.now path.now)) }
{
    match spot_by(alloc, setting, view, path)? {
        None => Ok(false),
        Some(spot) => chmod_at(alloc, view, &spot, mode),
    }
}

// Sets the mode of the entry at a spot.
fn chmod_at(alloc: Global, view: &mut View, spot: &Spot, mode: Mode) -> Result<bool, Memory>
    requires { IsSpot view.old spot.now }
    ensures { Does result (with_mode view.old spot.now mode (entry_at view.old spot.now)) view.old view.new }
{
    let Some(entry) = spot.entry(view) else {
        return Ok(false);
    };
    let meta = with_bits(&meta_in(&entry), mode);
    if spot.is_dir(view) {
        return put_dir(alloc, view, spot, meta);
    }
    let Some(content) = spot.shared(view)? else {
        return Ok(false);
    };
    put_shared(alloc, view, spot, meta, content)
}

// Returns `meta` with another mode; the owner stays the same.
fn with_bits(meta: &Meta, mode: Mode) -> Meta
    ensures { result ≡ record meta.now { mode = mode } }
{
    Meta::new(mode.bits(), meta.uid(), meta.gid()).unwrap()
}

// Returns whether the entry at a path is of this kind.
fn test(
    alloc: Global,
    kind: Kind,
    path: &Text,
    setting: &Setting,
    view: &View,
) -> Result<bool, Memory>
    ensures does { Does result (run setting.now view.now (command.Test kind path.now)) view.now view.now }
    ensures last { OnErr result (IsSome (path_by setting.now path.now)) }
{
    match spot_by(alloc, setting, view, path)? {
        None => Ok(false),
        Some(spot) => Ok(is_kind(view, &spot, kind)),
    }
}

// Returns whether the entry at a spot is of this kind.
fn is_kind(view: &View, spot: &Spot, kind: Kind) -> bool
    requires { IsSpot view.now spot.now }
    ensures { result ≡ is_kind kind (entry_at view.now spot.now) }
{
    match kind {
        Kind::Something => spot.is_there(view),
        Kind::File => spot.content(view).is_some(),
        Kind::Dir => spot.is_dir(view),
    }
}

// Runs a command, and returns whether the command is done; if not, the view is as it was.
fn done(
    alloc: Global,
    command: &Command,
    setting: &Setting,
    view: &mut View,
) -> Result<bool, Memory>
    ensures does { Does result (run setting.now view.old command.now) view.old view.new }
    ensures last { OnErr result (MayWant setting.now command.now) }
{
    match command {
        Command::True => Ok(true),
        Command::False => Ok(false),
        Command::Mkdir { parents, path } => mkdir(alloc, *parents, path, setting, view),
        Command::Rm { path } => rm(alloc, path, setting, view),
        Command::Write { path, word } => write_line(alloc, path, word, setting, view),
        Command::Append { path, word } => append(alloc, path, word, setting, view),
        Command::Cp { from, to } => cp(alloc, from, to, setting, view),
        Command::Concat { out, parts } => concat(alloc, out, parts.as_slice(), setting, view),
        Command::Chmod { mode, path } => chmod(alloc, *mode, path, setting, view),
        Command::Test { kind, path } => test(alloc, *kind, path, setting, view),
        Command::Listing { path, out } => {
            let content = listing_by(alloc, path, setting, view)?;
            write_some(alloc, out, content, setting, view)
        }
        Command::Envfile { out } => write_env(alloc, out, setting, view),
        Command::Sha256 { path, out } => {
            let content = sha256_by(alloc, path, setting, view)?;
            write_some(alloc, out, content, setting, view)
        }
    }
}

/// Runs a command on a view. Returns status 0 if the command is done. Otherwise returns status 1, and leaves the view as it was: for example if a path is
/// invalid, if nothing is at a path that is read, if a file is where a directory is needed or a directory where a file is needed, or if the tree to change is
/// that of a read-only mount. A relative path begins at the setting's cwd; `View::route` finds the mount of a path, and the path is then looked up below this
/// mount's selector. Fails with 75 `Memory` alone; then the view is as it was. A command changes at most one mount's tree, in place, and copies no tree.
pub fn run_command(
    alloc: Global,
    command: &Command,
    setting: &Setting,
    view: &mut View,
) -> Result<u8, fault::Memory>
    ensures status { IfOk result (λ status. status ≡ status_of (run setting.now view.old command.now)) }
    ensures view { OnOk result (view.new ≡ left view.old (run setting.now view.old command.now)) }
    ensures kept { IfOk result (λ status. status ≢ 0 → view.new ≡ view.old) }
    ensures last { OnErr result (MayWant setting.now command.now) }
    ensures err { OnErr result (view.new ≡ view.old) }
{
    if done(alloc, command, setting, view)? {
        return Ok(0);
    }
    Ok(1)
}
