//! Makes trees from rows or by their names, and writes a tree on one line. An entry is written as `d` or `f` and its path, and for a file `=` and the content.
//! After the path the mode and the owner follow in parentheses, if they are not those of a new entry.

use llb_samples::{push_path, tree_named};
use llb_tree::{Bytes, Entry, Meta, Name, Node, Path, Tree, TreeFault};
use std::alloc::Global;
use std::fmt::Display;
use std::process::Abort;

// A row describes an entry of a tree: its path, mode, user and group, and the content if the entry is a file.
pub(crate) type Row<'a> = (&'a str, u16, u32, u32, Option<&'a str>);

// `dir` and `file` return the row of a directory or of a file, with the mode and owner of a new entry.
pub(crate) const fn dir(path: &str) -> Row<'_> {
    (path, 0o755, 0, 0, None)
}

pub(crate) const fn file<'a>(path: &'a str, content: &'a str) -> Row<'a> {
    (path, 0o644, 0, 0, Some(content))
}

pub(crate) fn put(alloc: Global, tree: &mut Tree, row: &Row<'_>) -> Result<(), TreeFault> {
    let (path, mode, uid, gid, content) = *row;
    let Some(meta) = Meta::new(mode, uid, gid) else {
        return Ok(());
    };
    let path = Path::read(alloc, path)?;
    match content {
        None => tree.put_dir(&path, meta),
        Some(content) => {
            let content = Bytes::from_slice(alloc, content.as_bytes())?;
            tree.put_file(&path, meta, content)
        }
    }
}

pub(crate) fn tree_of(alloc: Global, rows: &[Row<'_>]) -> Result<Tree, TreeFault> {
    let mut tree = Tree::empty(alloc)?;
    for row in rows {
        put(alloc, &mut tree, row)?;
    }
    Ok(tree)
}

// Returns the tree of these rows, which are in path order.
pub(crate) fn made(rt: &impl Abort, alloc: Global, rows: &[Row<'_>]) -> Tree {
    tree_of(alloc, rows).expect(rt, "memory")
}

// Returns the tree with this name in `llb_samples`, or the empty tree if the name is empty.
pub(crate) fn sample(rt: &impl Abort, alloc: Global, name: &str) -> Tree {
    let name = if name.is_empty() { "EMPTY" } else { name };
    tree_named(alloc, name).expect(rt, "a tree")
}

// Ends the test if a text is not the expected one; the failure shows both texts.
pub(crate) fn is_same(rt: &impl Abort, printed: &str, wanted: &str) {
    assert_eq!(rt; printed, wanted);
}

// Ends the test if a fault, or another value, does not print the expected text.
pub(crate) fn prints<E: Display>(rt: &impl Abort, alloc: Global, fault: &E, wanted: &str) {
    let mut text = String::new(alloc);
    write!(text, "{fault}").expect(rt, "memory");
    is_same(rt, text.as_str(), wanted);
}

// Ends the test if `is_so` is false; the failure shows the text `row`.
pub(crate) fn holds(rt: &impl Abort, row: &str, is_so: bool) {
    assert!(rt; is_so, "{row}");
}

// Ends the test if `is_so` is false; the failure shows the number `row`.
pub(crate) fn row_holds(rt: &impl Abort, row: usize, is_so: bool) {
    assert!(rt; is_so, "row {row}");
}

// Ends the test if `holds` is false.
pub(crate) fn is_so(rt: &impl Abort, holds: bool) {
    assert!(rt; holds);
}

pub(crate) fn say(rt: &impl Abort, text: &mut String, more: &str) {
    text.push_str(more).expect(rt, "memory");
}

pub(crate) fn say_number(rt: &impl Abort, text: &mut String, number: u32) {
    write!(text, "{number}").expect(rt, "memory");
}

// Appends what a fault prints, and the end of the line.
pub(crate) fn say_fault<E: Display>(rt: &impl Abort, text: &mut String, fault: &E) {
    write!(text, "{fault}\n").expect(rt, "memory");
}

// Returns the text `part`, `count` times, and then `rest`.
pub(crate) fn repeated(
    rt: &impl Abort,
    alloc: Global,
    part: &str,
    count: usize,
    rest: &str,
) -> String {
    let mut text = String::new(alloc);
    for _ in 0..count {
        say(rt, &mut text, part);
    }
    say(rt, &mut text, rest);
    text
}

// Appends a path: each of its names with `/` before it.
pub(crate) fn say_path(rt: &impl Abort, text: &mut String, path: &Path) {
    push_path(text, path).expect(rt, "memory");
}

pub(crate) fn kind_of(entry: &Entry<'_>) -> &'static str {
    match entry {
        Entry::Dir(_) => " d",
        Entry::File(..) => " f",
    }
}

fn say_meta(rt: &impl Abort, text: &mut String, meta: Meta, new: u16) {
    let (mode, uid, gid) = (meta.mode(), meta.uid(), meta.gid());
    if (mode, uid, gid) != (new, 0, 0) {
        write!(text, "({mode:o} {uid}:{gid})").expect(rt, "memory");
    }
}

// Appends a content on one line; each line end is written as `\n`.
fn say_content(rt: &impl Abort, text: &mut String, content: &str) {
    for (at, line) in content.split('\n').enumerate() {
        if at > 0 {
            say(rt, text, "\\n");
        }
        say(rt, text, line);
    }
}

// Appends what follows the path of a file: the mode and owner if they are not those of a new file, `=` and the content.
fn say_file(rt: &impl Abort, text: &mut String, meta: Meta, content: &[u8]) {
    say_meta(rt, text, meta, 0o644);
    say(rt, text, "=");
    say_content(rt, text, str::from_utf8(content).unwrap_or("not UTF-8"));
}

// Appends what follows the path of an entry: the mode and owner if they are not those of a new entry, and a file's content.
pub(crate) fn say_rest(rt: &impl Abort, text: &mut String, entry: &Entry<'_>) {
    match entry {
        Entry::Dir(meta) => say_meta(rt, text, *meta, 0o755),
        Entry::File(meta, content) => say_file(rt, text, *meta, content.as_slice()),
    }
}

/// Appends the entry at a node; `names` is the text of its path.
pub(crate) fn say_node(rt: &impl Abort, text: &mut String, names: &str, node: &Node) {
    let entry = node.entry();
    say(rt, text, kind_of(&entry));
    say(rt, text, names);
    say_rest(rt, text, &entry);
}

pub(crate) fn say_entry(rt: &impl Abort, text: &mut String, path: &Path, entry: &Entry<'_>) {
    say(rt, text, kind_of(entry));
    say_path(rt, text, path);
    say_rest(rt, text, entry);
}

// Appends the entries of a tree, in path order.
pub(crate) fn say_tree(rt: &impl Abort, text: &mut String, tree: &Tree) {
    let mut walk = tree.walk();
    for _ in 0..u64::MAX {
        let Some((path, entry)) = walk.at() else {
            return;
        };
        say_entry(rt, text, path, &entry);
        walk.advance().expect(rt, "memory");
    }
}

pub(crate) fn tree_text(rt: &impl Abort, alloc: Global, tree: &Tree) -> String {
    let mut text = String::new(alloc);
    say_tree(rt, &mut text, tree);
    text
}

pub(crate) fn say_looked(rt: &impl Abort, text: &mut String, tree: &Tree, path: &Path) {
    match tree.get(path) {
        None => say(rt, text, "none"),
        Some(entry) => say_entry(rt, text, path, &entry),
    }
}

pub(crate) fn say_names(rt: &impl Abort, text: &mut String, before: &str, names: &[Name]) {
    for name in names {
        say(rt, text, before);
        say(rt, text, name.as_str());
    }
}
