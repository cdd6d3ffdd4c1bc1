//! The spot that a path names on a view: a mount, and a path in the mount's tree. A word names no spot if it is no path, or if
//! the path in the tree would have more than 128 names.

ghost use Rattle.std.specs.Prelude.{◌≡◌, ◌<◌, ◌++◌, length, IfOk, IfSome, OnErr, IsSome, option_map, is_some};
ghost use Rattle.llb_tree.specs.Tree.{meta_in, is_dir};
ghost use Rattle.llb_tree.specs.PathEntries.{seen};
ghost use Rattle.llb_applet.specs.PathsInMounts.{IsSpot, spot_of, entry_at, is_dest, file_in};
ghost use Rattle.llb_applet.specs.Commands.{path_by, spot_by, new_meta, meta_there};

use crate::directory_and_variables::Setting;
use llb_mount::View;
use llb_tree::{Bytes, Content, Entry, Meta, Name, Path, TreeFault};
use llb_wire::{Memory, Text};
use std::alloc::Global;

/// A spot: the path `place` in the tree of the mount with number `mount`. The first `base` names of the path are the mount's selector.
pub struct Spot {
    pub mount: u32,
    pub base: usize,
    pub place: Path,
}

impl Drop for Spot {
    fn drop(self) {
        let Spot {
            mount: _,
            base: _,
            place: _,
        } = self;
    }
}

/// Reads a word as a path, relative to the setting's cwd; `None` if the word is no path. Fails with 5 `Memory` alone.
pub fn path_by(alloc: Global, setting: &Setting, word: &Text) -> Result<Option<Path>, Memory>
    ensures means { IfOk result (λ p. p ≡ path_by setting.now word.now) }
    ensures last { OnErr result (IsSome (path_by setting.now word.now)) }
{
    match Path::read_from(alloc, &setting.cwd, word.as_str()) {
        Ok(path) => Ok(Some(path)),
        Err(TreeFault::Memory) => Err(Memory),
        Err(_) => Ok(None),
    }
}

/// Returns the spot that a path names; `None` if the path in the mount's tree would have more than 128 names. Fails
/// with 5 `Memory` alone.
pub fn spot_of(view: &View, path: &Path) -> Result<Option<Spot>, Memory>
    ensures means { IfOk result (λ s. s ≡ spot_of view.now path.now) }
    ensures spot { IfOk result (λ s. IfSome s (λ spot. IsSpot view.now spot)) }
    ensures last { OnErr result (IsSome (spot_of view.now path.now)) }
{
    let (mount, dropped) = view.route(path);
    let selector = view.selector(mount);
    let base = selector.names().len();
    let (_, rest) = path.names().split_at(dropped as usize);
    if base + rest.len() > 128 {
        return Ok(None);
    }
    let place = extended(selector, rest)?;
    Ok(Some(Spot { mount, base, place }))
}

/// Returns a copy of a path with these names appended.
pub fn extended(path: &Path, names: &[Name]) -> Result<Path, Memory>
    ensures { IfOk result (λ p. p ≡ path.now ++ names.now) }
{
    let mut longer = path.copy()?;
    for name in names {
        longer.push(name.copy()?)?;
    }
    Ok(longer)
}

/// Returns the mode and owner of an entry.
pub fn meta_in(entry: &Entry<'_>) -> Meta
    ensures { result ≡ meta_in (seen entry.now) }
{
    match entry {
        Entry::Dir(meta) => *meta,
        Entry::File(meta, _) => *meta,
    }
}

/// Returns the mode and owner of a new file, 0644 0:0.
pub fn new_meta() -> Meta
    ensures { result ≡ new_meta }
{
    Meta::new(0o644, 0, 0).unwrap()
}

/// Returns the spot that a word names; `None` if it names no spot. Fails with 5 `Memory` alone.
pub fn spot_by(
    alloc: Global,
    setting: &Setting,
    view: &View,
    word: &Text,
) -> Result<Option<Spot>, Memory>
    ensures means { IfOk result (λ s. s ≡ spot_by setting.now view.now word.now) }
    ensures spot { IfOk result (λ s. IfSome s (λ spot. IsSpot view.now spot)) }
    ensures last { OnErr result (IsSome (path_by setting.now word.now)) }
{
    match path_by(alloc, setting, word)? {
        Some(path) => spot_of(view, &path),
        None => Ok(None),
    }
}

impl Spot {
    /// Returns the entry at the spot; `None` if nothing is there.
    pub fn entry<'v>(&self, view: &'v View) -> Option<Entry<'v>>
        requires { self.now.mount < length view.now }
        ensures { option_map seen result ≡ entry_at view.now self.now }
    {
        view.tree_of(self.mount).get(&self.place)
    }

    /// Returns whether there is an entry at the spot.
    pub fn is_there(&self, view: &View) -> bool
        requires { self.now.mount < length view.now }
        ensures { result ≡ is_some (entry_at view.now self.now) }
    {
        self.entry(view).is_some()
    }

    /// Returns whether there is a directory at the spot.
    pub fn is_dir(&self, view: &View) -> bool
        requires { self.now.mount < length view.now }
        ensures { result ≡ is_dir (entry_at view.now self.now) }
    {
        view.tree_of(self.mount).is_dir(&self.place)
    }

    /// Returns the content of the file at the spot; `None` if there is no file.
    pub fn content<'v>(&self, view: &'v View) -> Option<&'v Bytes>
        requires { self.now.mount < length view.now }
        ensures { option_map (λ b. b.now) result ≡ option_map (λ f. f.1) (file_in (entry_at view.now self.now)) }
    {
        match self.entry(view) {
            Some(Entry::Dir(_)) => None,
            Some(Entry::File(_, content)) => Some(content),
            None => None,
        }
    }

    /// Returns the content of the file at the spot, as a value that shares the file's memory; `None` if there is no file. Fails with
    /// 5 `Memory` alone.
    pub fn shared(&self, view: &View) -> Result<Option<Content>, Memory>
        requires { self.now.mount < length view.now }
        ensures { IfOk result (λ c. c ≡ option_map (λ f. f.1) (file_in (entry_at view.now self.now))) }
    {
        match view.tree_of(self.mount).content(&self.place) {
            Ok(content) => Ok(content),
            Err(_) => Err(Memory),
        }
    }

    /// Returns the mode and owner of the entry at the spot; if there is no entry, the mode and owner of a new file, 0644 0:0.
    pub fn meta(&self, view: &View) -> Meta
        requires { self.now.mount < length view.now }
        ensures { result ≡ meta_there (entry_at view.now self.now) }
    {
        match self.entry(view) {
            Some(entry) => meta_in(&entry),
            None => new_meta(),
        }
    }

    /// Returns whether the spot is the dest of a mount.
    pub fn is_dest(&self) -> bool
        ensures { result ≡ is_dest self.now }
    {
        self.place.names().len() == self.base
    }
}
