//! Tests of names, paths and trees.

use super::library_transcripts::are_transcripts;
use super::tree_rows::{Row, file, holds, is_same, is_so, made, repeated, row_holds, say_path};
use llb_tree::{Meta, Name, Path, Tree, TreeFault};
use llb_wire::Same;
use std::alloc::Global;
use std::process::Abort;

// Reads a text as a path, from the path `start` if one is given and otherwise from the root.
fn read(alloc: Global, start: Option<&str>, text: &str) -> Result<Path, TreeFault> {
    match start {
        None => Path::read(alloc, text),
        Some(start) => Path::read_from(alloc, &Path::read(alloc, start)?, text),
    }
}

// Returns the path that a text is read as, with `/` before each name; or the fault.
fn printed(rt: &impl Abort, alloc: Global, start: Option<&str>, text: &str) -> String {
    let mut printed = String::new(alloc);
    match read(alloc, start, text) {
        Ok(path) => say_path(rt, &mut printed, &path),
        Err(fault) => write!(printed, "{fault}").expect(rt, "memory"),
    }
    printed
}

// The path at which a relative text begins, if it is not the root; the text; and the path that the text is read as, or 26, the number of the fault.
const TEXTS: &[(Option<&str>, &str, &str)] = &[
    (None, "/usr//./local/../bin/", "/usr/bin"),
    (None, "usr/bin", "/usr/bin"),
    (None, "bin/usr", "/bin/usr"),
    (None, "/../a/b/../...", "/a/..."),
    (None, "a/...", "/a/..."),
    (None, "", ""),
    (None, "/", ""),
    (None, "//", ""),
    (None, ".", ""),
    (None, "..", ""),
    (None, "/../..", ""),
    (None, "a/..", ""),
    (None, "\u{1f}", "26"),
    (None, "a\u{7f}", "26"),
    (None, "b/\n/c", "26"),
    (None, "x/\0/..", "26"),
    (None, " /\u{80}/~", "/ /\u{80}/~"),
    (Some("/a"), "../b", "/b"),
    (Some("/a"), "/c", "/c"),
    (Some("/a"), "b/./c", "/a/b/c"),
    (Some("/a"), "", "/a"),
    (Some("/a/b"), "../../../c", "/c"),
    (Some("/a"), "/", ""),
    (Some("/a"), "b\n", "26"),
];

#[test]
fn a_text_is_read_part_by_part_from_the_root_or_a_path(rt: HostRuntime) {
    for (start, text, wanted) in TEXTS {
        is_same(&rt, printed(&rt, rt.alloc(), *start, text).as_str(), wanted);
    }
}

// Reads a text as a path, and returns the path's number of names.
fn names_of(alloc: Global, text: &str) -> Result<usize, TreeFault> {
    let path = Path::read(alloc, text)?;
    Ok(path.names().len())
}

// A part of a text, how often the part is repeated, the rest of the text, and how many names the path of the whole text has.
type Counted = (&'static str, usize, &'static str, Result<usize, TreeFault>);

const COUNTS: &[Counted] = &[
    ("a", 255, "", Ok(1)),
    ("a", 256, "", Err(TreeFault::BadName)),
    ("/a", 128, "", Ok(128)),
    ("/a", 129, "", Err(TreeFault::BadName)),
    ("/a", 128, "/../b/.", Ok(128)),
    ("/a", 128, "/c/..", Err(TreeFault::BadName)),
];

#[test]
fn a_name_has_255_bytes_and_a_path_128_names_at_most(rt: HostRuntime) {
    for (part, count, rest, wanted) in COUNTS {
        let text = repeated(&rt, rt.alloc(), part, *count, rest);
        let names = names_of(rt.alloc(), text.as_str());
        row_holds(&rt, *count, names == *wanted);
    }
}

pub(crate) fn path_of(rt: &impl Abort, alloc: Global, text: &str) -> Path {
    Path::read(alloc, text).expect(rt, "a path")
}

// Returns whether two paths are the same, and whether the first comes before the other.
fn compared(rt: &impl Abort, alloc: Global, one: &str, other: &str) -> (bool, bool) {
    let path = path_of(rt, alloc, one);
    let other = path_of(rt, alloc, other);
    (path.same(&other), path < other)
}

// Two paths, whether they are the same, and whether the first comes before the second.
const ORDERED: &[(&str, &str, bool, bool)] = &[
    ("etc", "etc/a", false, true),
    ("etc/z", "etc-", false, true),
    ("etc", "etc", true, false),
    ("usr/bin", "bin/usr", false, false),
];

#[test]
fn paths_are_in_order_name_by_name(rt: HostRuntime) {
    for (one, other, same, before) in ORDERED {
        let answer = compared(&rt, rt.alloc(), one, other);
        holds(&rt, one, answer == (*same, *before));
    }
}

// Returns whether the copy of a name has the text of the name.
fn is_kept(alloc: Global, text: &str) -> Result<bool, TreeFault> {
    let name = Name::new(alloc, text)?.copy()?;
    Ok(name.as_str() == text)
}

fn push(rt: &impl Abort, alloc: Global, path: &mut Path, name: &str) {
    let name = Name::new(alloc, name).expect(rt, "a name");
    path.push(name).expect(rt, "room");
}

// Returns whether a path made from the name `etc`, and its copy, are the same as the path that `/etc` is read as.
fn is_pushed(rt: &impl Abort, alloc: Global) -> bool {
    let mut path = Path::root(alloc);
    push(rt, alloc, &mut path, "etc");
    path.reads_back();
    let copied = path.copy().expect(rt, "memory");
    let read = path_of(rt, alloc, "/etc");
    !path.is_root() && path.same(&read) && copied.same(&read)
}

#[test]
fn names_and_paths_by_hand(rt: HostRuntime) {
    for (text, wanted) in [("...", true), ("..", false), ("a/b", false)] {
        holds(&rt, text, Name::is_name(text) == wanted);
    }
    let alloc = rt.alloc();
    let answers = [is_kept(alloc, "etc"), is_kept(alloc, ".")];
    is_so(&rt, answers == [Ok(true), Err(TreeFault::BadName)]);
    is_so(&rt, is_pushed(&rt, alloc) && Path::root(alloc).is_root());
}

// Returns a path of `names` names, each of which is `a`.
pub(crate) fn path_with(rt: &impl Abort, alloc: Global, names: usize) -> Path {
    let mut path = Path::root(alloc);
    for _ in 0..names {
        push(rt, alloc, &mut path, "a");
    }
    path
}

// Tries to append a name to a path of `count` names. Returns whether this succeeds, and how many names the path has then.
fn one_more(rt: &impl Abort, alloc: Global, count: usize) -> (bool, usize) {
    let mut path = path_with(rt, alloc, count);
    let name = Name::new(alloc, "b").expect(rt, "a name");
    let is_taken = path.push(name).is_ok();
    (is_taken, path.names().len())
}

#[test]
fn a_path_takes_no_129th_name(rt: HostRuntime) {
    is_so(&rt, one_more(&rt, rt.alloc(), 127) == (true, 128));
    is_so(&rt, one_more(&rt, rt.alloc(), 128) == (false, 128));
}

fn numbers(mode: u16) -> Option<(u16, u32, u32)> {
    let meta = Meta::new(mode, 7, 8)?;
    Some((meta.mode(), meta.uid(), meta.gid()))
}

#[test]
fn a_mode_is_at_most_4095(rt: HostRuntime) {
    let rows = [
        (0, Some((0, 7, 8))),
        (4095, Some((4095, 7, 8))),
        (4096, None),
    ];
    for (mode, wanted) in rows {
        row_holds(&rt, usize::from(mode), numbers(mode) == wanted);
    }
}

// Returns whether a directory is at a path.
fn has_directory(rt: &impl Abort, alloc: Global, rows: &[Row<'_>], path: &str) -> bool {
    let tree = made(rt, alloc, rows);
    tree.is_dir(&path_of(rt, alloc, path))
}

#[test]
fn a_directory_is_told_from_a_file(rt: HostRuntime) {
    let rows = [("/a", 0o700, 7, 8, None), ("/a/b", 0o644, 7, 8, Some("x"))];
    for (path, wanted) in [("/b", false), ("/a", true), ("/a/b", false)] {
        holds(
            &rt,
            path,
            has_directory(&rt, rt.alloc(), &rows, path) == wanted,
        );
    }
}

const STORIES: &str = "
    # An empty tree is its root alone.
    > look /
    d
    > tree
    d

    # A parent is made before its file.
    > file /a/b 644 7:8 x
    21
    > dir /a 700 7:8
    > file /a/b 644 7:8 x
    > look /a
    d/a(700 7:8)
    > look /a/b
    f/a/b(644 7:8)=x
    > look /a/b/c
    none
    > tree
    d d/a(700 7:8) f/a/b(644 7:8)=x

    # An edit in the way of another is refused.
    > file /a 600 7:8 y
    23
    > dir /a/b 755 7:8
    24
    > file /a/b/c 600 7:8 y
    22
    > file / 600 7:8 y
    25
    > look /a/b/c
    none
    > tree
    d d/a(700 7:8) f/a/b(644 7:8)=x

    # A file is replaced and a directory takes the new mode.
    > file /a/b 600 7:8 new
    > dir /a 0 7:8
    > dir / 4755 7:8
    > look /
    d(4755 7:8)
    > look /a
    d/a(0 7:8)
    > look /a/b
    f/a/b(600 7:8)=new
    > tree
    d(4755 7:8) d/a(0 7:8) f/a/b(600 7:8)=new

    # Entries stand in path order.
    > new
    > dir /a 700 7:8
    > file /a/b 644 7:8 x
    > dir /a- 755 7:8
    > tree
    d d/a(700 7:8) f/a/b(644 7:8)=x d/a-(755 7:8)

    # A tree is put elsewhere and goes.
    > new
    > dir /a 755 0:0
    > file /a/b 644 0:0
    > remove /
    25
    > graft /a /z
    > list /z
    b
    > remove /a
    > tree
    d d/z f/z/b=

    # What is not there is refused.
    > new
    > dir /a 755 0:0
    > file /a/b 644 0:0
    > remove /a/b/c
    21
    > list /a/b
    22
    > list /a/b/c
    21
    > list /x
    21
    > graft /a/b /z
    22
    > graft /a /x/y
    21
    > graft /a /a/b/c
    22
    > list /
    a
    > tree
    d d/a f/a/b=

    # A graft takes the place of what was below.
    > new
    > dir /a 755 0:0
    > file /a/b 644 0:0
    > dir /c 755 0:0
    > dir /c/d 755 0:0
    > file /c/d/e 644 0:0
    > dir /c- 755 0:0
    > list /c
    d
    > graft /a /c
    > graft /c /
    > tree
    d f/b=
    ";

#[test]
fn a_tree_is_changed_call_by_call(rt: HostRuntime) {
    are_transcripts(&rt, rt.alloc(), STORIES);
}

// Returns a tree of `names` directories, each in the directory before it.
pub(crate) fn deep_tree(rt: &impl Abort, alloc: Global, names: usize) -> Tree {
    let mut tree = Tree::empty(alloc).expect(rt, "memory");
    for at in 0..names {
        let path = path_with(rt, alloc, at + 1);
        tree.put_dir(&path, Meta::new_dir()).expect(rt, "memory");
    }
    tree
}

// Grafts a tree with one file, `/b`, at a path of `names` names of another tree. Returns the result.
fn graft_depth(rt: &impl Abort, alloc: Global, names: usize) -> Result<(), TreeFault> {
    let mut tree = deep_tree(rt, alloc, names);
    let other = made(rt, alloc, &[file("/b", "")]);
    tree.graft(&path_with(rt, alloc, names), &other)
}

#[test]
fn a_place_has_128_names_at_most(rt: HostRuntime) {
    is_so(&rt, graft_depth(&rt, rt.alloc(), 127) == Ok(()));
    is_so(
        &rt,
        graft_depth(&rt, rt.alloc(), 128) == Err(TreeFault::BadName),
    );
}
