//! Paths. Contracts see a path as the list of its names, from the root down. The definition `path_of` says how a text is
//! read: it is split at `/`; a part `.` changes nothing, and a part `..` removes the last name.

ghost use Rattle.std.specs.Prelude.{◌≡◌, ◌↔◌, ℕ, ◌+◌, ◌-◌, List, [], ◌++◌, length, take, ◌≤◌, IsTrue, IfErr, OnErr, Ok, false};
ghost use Rattle.std.specs.List.{All};
ghost use Rattle.llb_tree.specs.CallResults.{is_memory, Gives, MemoryLast};
ghost use Rattle.llb_tree.specs.Path.{is_name, below, enter, follow, parts_of, depth, path_of, path_from, IsPath, ReadsBack};

use crate::fault::TreeFault;
use crate::name::Name;
use llb_wire::Same;
use std::alloc::Global;
use std::cmp::Ordering;
use std::marker::Model;

/// A path: at most 128 names, from the root down. The root has no names.
pub struct Path {
    names: Vec<Name>,
}

impl Drop for Path {
    fn drop(self) {
        let Path { names: _ } = self;
    }
}

impl Model for Path {
    ghost use Rattle.std.specs.Prelude.{ℕ, List};
    ghost use Rattle.llb_tree.specs.Path.{IsPath};

    ghost Value = { List (List ℕ) };

    ghost view = { λ p. p.names.items };

    ghost invariant = { λ p. IsPath p.names.items };
}

impl Path {
    /// Returns the root, which has no names.
    pub fn root(alloc: Global) -> Path
        ensures { result ≡ [] }
    {
        Path {
            names: Vec::new(alloc),
        }
    }

    /// Reads a text as a path from the root: the text is split at `/`, empty parts and `.` are dropped, and `..`
    /// removes the last name and stops at the root. Fails with 26 `BadName` at the first part that is no name or is the
    /// 129th name, also if a later `..` would remove it; with 27 `Memory` only if the text can be read as a path.
    pub fn read(alloc: Global, text: &str) -> Result<Path, TreeFault>
        ensures gives { Gives (λ p. p) result (path_of text.now) }
        ensures last { MemoryLast result (path_of text.now) }
    {
        depth_of(0, text)?;
        let mut path = Path::root(alloc);
        path.follow(alloc, text)?;
        Ok(path)
    }

    /// Reads a text as a path, as `read` does, but from the path `start` in place of the root; a text that begins with `/` is
    /// still read from the root. Fails with 26 `BadName` and 27 `Memory` as `read` does.
    pub fn read_from(alloc: Global, start: &Path, text: &str) -> Result<Path, TreeFault>
        ensures gives { Gives (λ p. p) result (path_from start.now text.now) }
        ensures last { MemoryLast result (path_from start.now text.now) }
    {
        let names = start.names();
        if text.as_bytes().starts_with(b"/".as_slice()) {
            return Path::read(alloc, text);
        }
        depth_of(names.len(), text)?;
        let mut path = start.copy()?;
        path.follow(alloc, text)?;
        Ok(path)
    }

    // Applies the parts of a text to the path, one after another. If the call fails, the parts before the faulty one have been
    // applied.
    fn follow(&mut self, alloc: Global, text: &str) -> Result<(), TreeFault>
        ensures { Gives (λ _. self.new) result (follow self.old (parts_of text.now)) }
    {
        for part in text.split('/') {
            self.enter(alloc, part)?;
        }
        Ok(())
    }

    // Applies one part of a text to the path.
    fn enter(&mut self, alloc: Global, part: &str) -> Result<(), TreeFault>
        ensures gives { Gives (λ _. self.new) result (enter self.old part.now) }
        ensures err { OnErr result (self.new ≡ self.old) }
    {
        if part.is_empty() {
            return Ok(());
        }
        if part.as_bytes() == b".".as_slice() {
            return Ok(());
        }
        if part.as_bytes() == b"..".as_slice() {
            self.names.pop();
            return Ok(());
        }
        let name = Name::new(alloc, part)?;
        self.push(name)
    }

    // Joins two lists of names into a path.
    pub(crate) fn joined(alloc: Global, front: &[Name], back: &[Name]) -> Result<Path, TreeFault>
        requires { length front.now + length back.now ≤ 128 }
        ensures { Gives (λ p. p) result (Ok (front.now ++ back.now)) }
    {
        let mut names = Vec::new(alloc);
        push_names(&mut names, front)?;
        push_names(&mut names, back)?;
        Ok(Path { names })
    }

    /// Returns the names from the root down, at most 128.
    pub fn names(&self) -> &[Name]
        ensures all { result.now ≡ self.now }
        ensures short { length self.now ≤ 128 }
        ensures path { IsPath self.now }
    {
        self.names.as_slice()
    }

    /// Returns whether this path is the root.
    pub fn is_root(&self) -> bool
        ensures { IsTrue result ↔ (self.now ≡ []) }
    {
        self.names.is_empty()
    }

    /// Appends a name. Fails with 26 `BadName` if it would be the 129th name, else with 27 `Memory`; after a failure the
    /// path is unchanged.
    pub fn push(&mut self, name: Name) -> Result<(), TreeFault>
        ensures gives { Gives (λ _. self.new) result (below self.old name) }
        ensures last { MemoryLast result (below self.old name) }
        ensures err { OnErr result (self.new ≡ self.old) }
    {
        let _is_name = name.as_str();
        if self.names.len() >= 128 {
            return Err(TreeFault::BadName);
        }
        self.names.push(name)?;
        Ok(())
    }

    // Removes the last name; the root stays the root.
    pub(crate) fn pop(&mut self)
        ensures { self.new ≡ take (length self.old - 1) self.old }
    {
        self.names.pop();
    }

    /// Copies the path. Fails with 27 `Memory` alone.
    pub fn copy(&self) -> Result<Path, TreeFault>
        ensures { Gives (λ p. p) result (Ok self.now) }
    {
        let names = self.names.clone()?;
        Ok(Path { names })
    }

    /// Proves that the path, written with `/` between its names, and with or without a `/` before them, is read as that path.
    pub fn reads_back(&self)
        ensures { ReadsBack self.now }
    {
        let _ = &self.names;
    }
}

// Appends copies of names.
pub(crate) fn push_names(names: &mut Vec<Name>, more: &[Name]) -> Result<(), TreeFault>
    ensures gives { Gives (λ _. names.new.items) result (Ok (names.old.items ++ more.now)) }
    ensures named { All (λ n. IsTrue (is_name n)) names.old.items → All (λ n. IsTrue (is_name n)) names.new.items }
{
    for name in more {
        let copied = name.copy()?;
        let _is_name = copied.as_str();
        names.push(copied)?;
    }
    Ok(())
}

// Returns how many names a path of `start` names has after the parts of a text are applied to it (`depth_after`). Fails with 26
// `BadName` as `read` does. Does not allocate.
fn depth_of(start: usize, text: &str) -> Result<usize, TreeFault>
    ensures depth { (path : List (List ℕ)) → length path ≡ start → result ≡ depth (follow path (parts_of text.now)) }
    ensures known { IfErr result (λ e. is_memory e ≡ false) }
{
    let mut names = start;
    for part in text.split('/') {
        names = depth_after(names, part)?;
    }
    Ok(names)
}

// Returns how many names a path of `names` names has after one part of a text is applied to it: a name is appended, `..` removes the last name, and an empty
// part or `.` changes nothing. Fails with 26 `BadName` alone. Does not allocate.
pub(crate) fn depth_after(names: usize, part: &str) -> Result<usize, TreeFault>
    ensures depth { (path : List (List ℕ)) → length path ≡ names → result ≡ depth (enter path part.now) }
    ensures known { IfErr result (λ e. is_memory e ≡ false) }
{
    if part.is_empty() {
        return Ok(names);
    }
    if part.as_bytes() == b".".as_slice() {
        return Ok(names);
    }
    if part.as_bytes() == b"..".as_slice() {
        return Ok(names.saturating_sub(1));
    }
    if !Name::is_name(part) {
        return Err(TreeFault::BadName);
    }
    if names >= 128 {
        return Err(TreeFault::BadName);
    }
    Ok(names + 1)
}

impl Same for Path {
    fn same(&self, other: &Path) -> bool {
        self == other
    }
}

impl PartialEq for Path {
    ghost use Rattle.std.specs.Prelude.{nat_eq};
    ghost use Rattle.std.specs.Cmp as order;
    ghost use Rattle.std.specs.Cmp.Lexicographic.{pointwise, lists_equiv, nat_list_eq_equiv};

    ghost eq = { pointwise (pointwise nat_eq) };

    ghost laws = { order.partial_equiv_from_equiv (lists_equiv nat_list_eq_equiv) };

    fn eq(&self, other: &Self) -> bool {
        self.names.as_slice() == other.names.as_slice()
    }
}

impl Eq for Path {
    ghost use Rattle.std.specs.Cmp.Lexicographic.{lists_equiv, nat_list_eq_equiv};

    ghost laws = { lists_equiv nat_list_eq_equiv };
}

impl PartialOrd for Path {
    ghost use Rattle.std.specs.Prelude.{Some};
    ghost use Rattle.llb_tree.specs.Path.{path_cmp};
    ghost use Rattle.llb_tree.specs.PathOrder.{path_partial_order};

    ghost partial_cmp = { λ x y. Some (path_cmp x y) };

    ghost laws = { path_partial_order };

    fn partial_cmp(&self, other: &Self) -> Option<Ordering> {
        Some(self.cmp(other))
    }
}

impl Ord for Path {
    ghost use Rattle.std.proofs.Common.{refl};
    ghost use Rattle.llb_tree.specs.Path.{path_cmp};
    ghost use Rattle.llb_tree.specs.PathOrder.{path_cmp-IsTotalOrder, path_ties};

    ghost cmp = { path_cmp };

    ghost total = { path_cmp-IsTotalOrder };

    ghost matches_partial_cmp = { λ x y. refl };

    ghost matches_eq = { path_ties };

    fn cmp(&self, other: &Self) -> Ordering {
        self.names.as_slice().cmp(other.names.as_slice())
    }
}
