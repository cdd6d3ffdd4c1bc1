//! The tree of a text while the text is read. The lines of a directory's files often follow the directory's line. So a
//! new directory is at first a tree of its own: a file is put into it by the file's name alone. This tree is put into the
//! whole tree, at the directory's path, at the end, or before the next entry that is not a file directly below the directory.

ghost use Rattle.std.specs.Prelude.{◌≡◌, ◌++◌, ◌∷◌, ℕ, List, [], Ok, None, true, false, IfSome, IfOk};
ghost use Rattle.std.specs.FinMap as finite;
ghost use Rattle.llb_tree.specs.Path.{is_name};
ghost use Rattle.llb_tree.specs.Tree.{Dir, TreeMap, IsTree, empty_tree, Entry as TreeEntry};
ghost use Rattle.llb_treetext.specs.TreeText.{names_text};
ghost use Rattle.llb_treetext.specs.LineFields.{pair_of};
ghost use Rattle.llb_treetext.specs.TreeAfterNextLine.{put_row};
ghost use Rattle.llb_treetext.specs.GrowingTree.{IsIfAny, IsGrown, IsGrownIfAny, Follows};

use crate::line_fields::Parts;
use crate::path_and_entry::{Row, row_from};
use llb_tree::{Meta, Name, Path, Tree, TreeFault};
use llb_wire::{Memory, read_hex};
use std::alloc::Global;

// The tree of the lines so far. The field `tree` is the whole tree or, if there is an `open`, the tree of a new directory, which is not yet put into the whole
// tree.
#[derive(Drop)]
pub(crate) struct Growing<'a> {
    tree: Tree,
    open: Option<Open<'a>>,
}

// Where a directory belongs that is a tree of its own at first: the tree into which it will be put, the directory's path in it, and that path as a text.
#[derive(Drop)]
pub(crate) struct Open<'a> {
    above: Tree,
    at: Path,
    text: &'a str,
}

// Makes the tree of a root directory alone; `None` if memory is refused.
fn root_alone(alloc: Global, meta: Meta) -> Option<Tree>
    ensures { IsIfAny result (finite.insert empty_tree [] (Dir meta)) }
{
    let Ok(mut tree) = Tree::empty(alloc) else {
        return None;
    };
    match tree.put_dir(&Path::root(alloc), meta) {
        Err(_) => None,
        Ok(()) => Some(tree),
    }
}

// Makes the tree of the first line; `None` if memory is refused.
pub(crate) fn started<'a>(alloc: Global, meta: Meta) -> Option<Growing<'a>>
    ensures { IsGrownIfAny result (finite.insert empty_tree [] (Dir meta)) }
{
    let tree = root_alone(alloc, meta)?;
    Some(Growing { tree, open: None })
}

// Returns the whole tree. If a new directory is still a tree of its own, this tree is put into the whole tree, at the directory's path. `None` if memory is
// refused.
fn whole(growing: Growing<'_>) -> Option<Tree>
    ensures { (t : TreeMap) → IsGrown growing.entry t → IsIfAny result t }
{
    let Growing { tree, open } = growing;
    match open {
        None => Some(tree),
        Some(open) => {
            let Open {
                mut above,
                at,
                text: _,
            } = open;
            match above.graft(&at, &tree) {
                Err(_) => None,
                Ok(()) => Some(above),
            }
        }
    }
}

// Returns the whole tree; `None` if memory was refused before this call, or is refused in this call.
pub(crate) fn whole_if_any(growing: Option<Growing<'_>>) -> Option<Tree>
    ensures { (t : TreeMap) → IsGrownIfAny growing.entry t → IsIfAny result t }
{
    whole(growing?)
}

// Returns the rest of a path after a directory's path and a slash; `None` if the path is not below the directory. Does not
// allocate.
fn rest_below<'a>(dir: &str, path: &'a str) -> Option<&'a str>
    ensures { IfSome result (λ rest. path.now ≡ dir.now ++ 47 ∷ rest.now) }
{
    let later = path.strip_prefix(dir)?;
    later.strip_prefix('/')
}

// Makes the path of one name; `None` if the text is no name.
fn path_of_name(alloc: Global, text: &str) -> Result<Option<Path>, Memory>
    ensures { IfOk result (λ o. IfSome o (λ p. (p ≡ text.now ∷ []) × (is_name text.now ≡ true))) }
{
    let name = match Name::new(alloc, text) {
        Err(TreeFault::Memory) => return Err(Memory),
        Err(_) => return Ok(None),
        Ok(name) => name,
    };
    let _name = name.as_str();
    let mut path = Path::root(alloc);
    match path.push(name) {
        Err(_) => Err(Memory),
        Ok(()) => Ok(Some(path)),
    }
}

// If there is a new directory that is still a tree of its own, and a line is the line of a file directly below this directory, puts the file into that tree by
// its name, and returns true; else returns false and changes nothing. If memory is refused, the result is an error and not `false`, so that the refusal is
// reported.
fn is_put_below(alloc: Global, growing: &mut Growing<'_>, parts: &Parts<'_>) -> Result<bool, Memory>
    ensures put { IfOk result (λ is_put. is_put ≡ true → (t : TreeMap) → IsGrown growing.old t → (row : List (List ℕ) × TreeEntry)
        → Follows t row parts.now → IsGrown growing.new (finite.insert t row.0 row.1)) }
    ensures kept { IfOk result (λ is_put. is_put ≡ false → growing.new ≡ growing.old) }
{
    let Some(open) = &growing.open else {
        return Ok(false);
    };
    let Some(digits) = parts.digits else {
        return Ok(false);
    };
    let _names = open.at.names();
    let Some(name) = rest_below(open.text, parts.path) else {
        return Ok(false);
    };
    let Some(path) = path_of_name(alloc, name)? else {
        return Ok(false);
    };
    let Some(content) = read_hex(alloc, digits)? else {
        return Ok(false);
    };
    match growing.tree.put_file(&path, parts.meta, content) {
        Err(_) => Err(Memory),
        Ok(()) => Ok(true),
    }
}

// Adds an empty directory to a tree, but keeps the directory at first as a tree of its own, to which the files that follow are added; `None` if memory is
// refused.
fn opened<'a>(
    alloc: Global,
    above: Tree,
    at: Path,
    meta: Meta,
    text: &'a str,
) -> Option<Growing<'a>>
    ensures { IsTree above → finite.get above at ≡ None → text.now ≡ names_text at → IsGrownIfAny result (finite.insert above at (Dir meta)) }
{
    let tree = root_alone(alloc, meta)?;
    let open = Open { above, at, text };
    Some(Growing {
        tree,
        open: Some(open),
    })
}

// Adds an entry to a tree: puts a file into the tree, but keeps a new directory beside the tree at first, as a tree of its own (`opened`). Returns `None` if
// memory is refused.
fn with_row<'a>(alloc: Global, mut tree: Tree, row: Row, text: &'a str) -> Option<Growing<'a>>
    ensures { IsTree tree → finite.get tree row.path ≡ None → text.now ≡ names_text row.path
        → put_row tree (pair_of row) ≡ Ok (finite.insert tree row.path (pair_of row).1)
        → IsGrownIfAny result (finite.insert tree row.path (pair_of row).1) }
{
    let Row {
        path,
        meta,
        content,
    } = row;
    match content {
        None => opened(alloc, tree, path, meta, text),
        Some(content) => match tree.put_file(&path, meta, content) {
            Err(_) => None,
            Ok(()) => Some(Growing { tree, open: None }),
        },
    }
}

// Adds the entry of a line to the tree; `None` once memory is refused.
pub(crate) fn with_line<'a>(
    alloc: Global,
    growing: Option<Growing<'a>>,
    parts: &Parts<'a>,
) -> Option<Growing<'a>>
    ensures { (t : TreeMap) → IsGrownIfAny growing.entry t → (row : List (List ℕ) × TreeEntry) → Follows t row parts.now
        → IsGrownIfAny result (finite.insert t row.0 row.1) }
{
    let mut growing = growing?;
    let Ok(is_put) = is_put_below(alloc, &mut growing, parts) else {
        return None;
    };
    if is_put {
        return Some(growing);
    }
    match row_from(alloc, parts) {
        Ok(Some(row)) => with_row(alloc, whole(growing)?, row, parts.path),
        _ => None,
    }
}
