//! The contents that commands write.

ghost use Rattle.std.specs.Prelude.{◌≡◌, ◌++◌, [], length, ◌∷◌, IfOk, OnOk, OnErr, IsSome, option_map, option_and_then, unwrap_or, slice_get};
ghost use Rattle.std.specs.List.{flat_map};
ghost use Rattle.std.specs.FinMap as finite;
ghost use Rattle.llb_tree.specs.Tree.{is_dir};
ghost use Rattle.llb_applet.specs.PathsInMounts.{IsSpot, entry_at, file_in};
ghost use Rattle.llb_applet.specs.Commands.{line, path_by, file_by, joined, listed, line_of, listing_by};
ghost use Rattle.llb_wire.specs.Digest.{digits_of};

use crate::directory_and_variables::Setting;
use crate::path_in_mount::{Spot, spot_by};
use llb_mount::View;
use llb_tree::{Bytes, Entry, Name, Path, Tree, TreeFault};
use llb_wire::{Memory, Text};
use sha2::{Digest, Sha256};
use std::alloc::Global;

// Appends a word and a line end to a text.
fn push_line(content: &mut Vec<u8>, word: &str) -> Result<(), Memory>
    ensures { OnOk result (content.new.items ≡ content.old.items ++ line word.now) }
{
    content.extend_from_slice(word.as_bytes())?;
    content.push(b'\n')?;
    Ok(())
}

/// Returns a word and a line end. Fails with 5 `Memory` alone.
pub fn line(alloc: Global, word: &str) -> Result<Bytes, Memory>
    ensures { IfOk result (λ b. b ≡ line word.now) }
{
    let mut content = Vec::new(alloc);
    push_line(&mut content, word)?;
    Ok(Bytes::new(content))
}

/// Returns the content of the file at a spot with one more line; if there is no file, returns that line alone. Fails with 5 `Memory` alone.
pub fn more(alloc: Global, view: &View, spot: &Spot, word: &Text) -> Result<Bytes, Memory>
    requires { IsSpot view.now spot.now }
    ensures { IfOk result (λ b. b ≡ unwrap_or (option_map (λ f. f.1) (file_in (entry_at view.now spot.now))) [] ++ line word.now) }
{
    let mut content = Vec::new(alloc);
    if let Some(old) = spot.content(view) {
        content.extend_from_slice(old.as_slice())?;
    }
    push_line(&mut content, word.as_str())?;
    Ok(Bytes::new(content))
}

// Returns the content of the file that a word names; `None` if it names no file.
fn content_by<'v>(
    alloc: Global,
    setting: &Setting,
    view: &'v View,
    word: &Text,
) -> Result<Option<&'v Bytes>, Memory>
    ensures content { IfOk result (λ b. option_map (λ b. b.now) b ≡ option_map (λ f. f.1) (file_by setting.now view.now word.now)) }
    ensures last { OnErr result (IsSome (path_by setting.now word.now)) }
{
    match spot_by(alloc, setting, view, word)? {
        None => Ok(None),
        Some(spot) => Ok(spot.content(view)),
    }
}

/// Returns the joined contents of the files that words name; `None` if one of the words names no file. Fails with 5 `Memory` alone, and only if the first word
/// is a path.
pub fn joined(
    alloc: Global,
    words: &[Text],
    setting: &Setting,
    view: &View,
) -> Result<Option<Bytes>, Memory>
    ensures content { IfOk result (λ b. b ≡ joined setting.now view.now words.now) }
    ensures last { OnErr result (IsSome (option_and_then (path_by setting.now) (slice_get words.now 0))) }
{
    let mut content = Vec::new(alloc);
    for word in words {
        match content_by(alloc, setting, view, word)? {
            None => return Ok(None),
            Some(part) => content.extend_from_slice(part.as_slice())?,
        }
    }
    Ok(Some(Bytes::new(content)))
}

// Returns whether the entry of this name, in the directory at a path, is a directory.
fn is_dir_below(tree: &Tree, path: &Path, name: &Name) -> Result<bool, Memory>
    ensures { IfOk result (λ yes. yes ≡ is_dir (finite.get tree.now (path.now ++ name.now ∷ []))) }
{
    let mut below = path.copy()?;
    match below.push(name.copy()?) {
        Ok(()) => {}
        Err(TreeFault::Memory) => return Err(Memory),
        Err(_) => {
            let _there = tree.get(path);
            return Ok(false);
        }
    }
    Ok(tree.is_dir(&below))
}

// Returns a line for each of these names in a directory.
fn listed(alloc: Global, tree: &Tree, path: &Path, names: &[Name]) -> Result<Bytes, Memory>
    ensures { IfOk result (λ b. b ≡ listed tree.now path.now names.now) }
{
    let mut content = Vec::new(alloc);
    for name in names {
        push_name(&mut content, tree, path, name)?;
    }
    Ok(Bytes::new(content))
}

// Appends the line for a name in a directory.
fn push_name(content: &mut Vec<u8>, tree: &Tree, path: &Path, name: &Name) -> Result<(), Memory>
    ensures { OnOk result (content.new.items ≡ content.old.items ++ line_of tree.now path.now name.now) }
{
    content.extend_from_slice(name.as_str().as_bytes())?;
    if is_dir_below(tree, path, name)? {
        content.push(b'/')?;
    }
    content.push(b'\n')?;
    Ok(())
}

/// Returns a line for each name in the directory that a word names; `None` if it names no directory. Fails with 5 `Memory` alone.
pub fn listing_by(
    alloc: Global,
    path: &Text,
    setting: &Setting,
    view: &View,
) -> Result<Option<Bytes>, Memory>
    ensures content { IfOk result (λ b. b ≡ listing_by setting.now view.now path.now) }
    ensures last { OnErr result (IsSome (path_by setting.now path.now)) }
{
    let Some(spot) = spot_by(alloc, setting, view, path)? else {
        return Ok(None);
    };
    let tree = view.tree_of(spot.mount);
    match tree.list(&spot.place) {
        Ok(names) => {
            let content = listed(alloc, tree, &spot.place, names.as_slice())?;
            Ok(Some(content))
        }
        Err(TreeFault::Memory) => Err(Memory),
        Err(_) => Ok(None),
    }
}

/// Returns the entries of the setting's environment, each with a line end. Fails with 5 `Memory` alone.
pub fn envfile(alloc: Global, setting: &Setting) -> Result<Bytes, Memory>
    ensures { IfOk result (λ b. b ≡ flat_map line setting.now.env) }
{
    let mut content = Vec::new(alloc);
    for entry in setting.env.as_slice() {
        push_line(&mut content, entry.as_str())?;
    }
    Ok(Bytes::new(content))
}

/// Returns the 64 hex digits of the SHA-256 of the file that a word names, and a line end; `None` if it names no file. Fails with 75
/// `Memory` alone.
pub fn sha256_by(
    alloc: Global,
    path: &Text,
    setting: &Setting,
    view: &View,
) -> Result<Option<Bytes>, Memory>
    ensures content { IfOk result (λ b. b ≡ option_map (λ f. line (digits_of f.1)) (file_by setting.now view.now path.now)) }
    ensures last { OnErr result (IsSome (path_by setting.now path.now)) }
{
    match content_by(alloc, setting, view, path)? {
        None => Ok(None),
        Some(content) => {
            let digits = hex::encode(alloc, Sha256::digest(content.as_slice()))?;
            let content = line(alloc, digits.as_str())?;
            Ok(Some(content))
        }
    }
}
