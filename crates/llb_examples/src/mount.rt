//! Tests of views. A row describes a mount: its dest, its selector, whether it is read-only, and the name of the only file in
//! its tree. A story has some steps and a line of text: the result of each step, the mounts after the steps, a bar, and the
//! mounts of a copy of the view that was made before the steps.

use super::tree::path_of;
use super::tree_rows::{file, holds, is_same, made, prints, row_holds, say, say_names, say_path};
use llb_mount::{Many, Memory, Path, ReadOnly, Shown, Tree, View};
use std::alloc::Global;
use std::process::Abort;

type Row = (&'static str, &'static str, bool, &'static str);

const THREE: &[Row] = &[
    ("/", "/", false, "a"),
    ("/t", "/", false, "b"),
    ("/t/in", "/sub", true, "c"),
];

fn shown(rt: &impl Abort, alloc: Global, row: &Row) -> Shown {
    let (dest, selector, readonly, name) = *row;
    Shown {
        dest: path_of(rt, alloc, dest),
        selector: path_of(rt, alloc, selector),
        readonly,
        tree: made(rt, alloc, &[file(name, "")]),
    }
}

fn mounts_of(rt: &impl Abort, alloc: Global, rows: &[Row]) -> Vec<Shown> {
    let mut mounts = Vec::new(alloc);
    for row in rows {
        mounts.push(shown(rt, alloc, row)).expect(rt, "memory");
    }
    mounts
}

// Returns the view of these mounts; `None` if they can't be the mounts of a view.
fn view_of(rt: &impl Abort, alloc: Global, rows: &[Row]) -> Option<View> {
    let mounts = mounts_of(rt, alloc, rows);
    if !View::can_make(&mounts) {
        return None;
    }
    Some(View::make(Many::new(mounts)).expect(rt, "memory"))
}

// Mounts, and whether a view can have them.
const VIEWS: &[(&[Row], bool)] = &[
    (THREE, true),
    (&[("//.", "/", true, "a")], true),
    (&[], false),
    (&[("/t", "/", false, "a")], false),
    (
        &[
            ("/t", "/", false, "a"),
            ("/", "/", false, "b"),
            ("t/.", "/sub", true, "c"),
        ],
        false,
    ),
];

#[test]
fn one_mount_is_at_the_root_and_no_two_at_one_dest(rt: HostRuntime) {
    for (at, (rows, wanted)) in VIEWS.iter().enumerate() {
        let view = view_of(&rt, rt.alloc(), rows);
        row_holds(&rt, at, view.is_some() == *wanted);
    }
}

// Returns the number of the mount to which a path leads, and how many names the mount's dest has; `None` if no view has these
// mounts.
fn route(rt: &impl Abort, alloc: Global, rows: &[Row], text: &str) -> Option<(u32, u32)> {
    let view = view_of(rt, alloc, rows)?;
    Some(view.route(&path_of(rt, alloc, text)))
}

// Mounts with the dests of `THREE`, the root last.
const TURNED: &[Row] = &[
    ("/t/in", "/", false, "a"),
    ("/t", "/", false, "b"),
    ("/", "/", false, "c"),
];

// More than eight mounts: such a view does not compare a path with the dest of each mount.
const WIDE: &[Row] = &[
    ("/a/b/c/d/e", "/", false, "a"),
    ("/a", "/", false, "b"),
    ("/a-b", "/", false, "c"),
    ("/a/b/c", "/", false, "d"),
    ("/", "/", false, "e"),
    ("/a/x", "/", false, "f"),
    ("/aa", "/", false, "g"),
    ("/a/b", "/", false, "h"),
    ("/b", "/", false, "i"),
];

// Mounts, a path, the number of the mount to which the path leads, and how many names the dest of this mount has.
const ROUTES: &[(&[Row], &str, u32, u32)] = &[
    (THREE, "/t/in/f", 2, 2),
    (THREE, "/t", 1, 1),
    (THREE, "/tx", 0, 0),
    (THREE, "/", 0, 0),
    (THREE, "/t/in", 2, 2),
    (THREE, "/t/inx/f", 1, 1),
    (THREE, "/a/t/in", 0, 0),
    (TURNED, "/t/in/f", 0, 2),
    (TURNED, "/t/f", 1, 1),
    (TURNED, "/f", 2, 0),
    (WIDE, "/a/b/c/d/f", 3, 3),
    (WIDE, "/a/b/c/d/e/f", 0, 5),
    (WIDE, "/a/x", 5, 2),
    (WIDE, "/a/y", 1, 1),
    (WIDE, "/a/b/cc", 7, 2),
    (WIDE, "/a-b/x", 2, 1),
    (WIDE, "/aaa", 4, 0),
    (WIDE, "/", 4, 0),
    (WIDE, "/z/z", 4, 0),
];

#[test]
fn a_path_is_routed_to_the_longest_dest(rt: HostRuntime) {
    for (rows, text, number, dropped) in ROUTES {
        let routed = route(&rt, rt.alloc(), rows, text);
        holds(&rt, text, routed == Some((*number, *dropped)));
    }
}

// A step of a story: puts a tree with one file of this name into the mount with this number, by `set_tree` (`Set`) or by
// `swap_tree` (`Swap`).
#[derive(Clone, Copy)]
enum Step {
    Set(u32, &'static str),
    Swap(u32, &'static str),
}

// Appends the names of the files in a tree's root, and a space.
fn say_files(rt: &impl Abort, alloc: Global, text: &mut String, tree: &Tree) {
    let names = tree.list(&Path::root(alloc)).expect(rt, "memory");
    say_names(rt, text, "", names.as_slice());
    say(rt, text, " ");
}

// Appends for each mount its dest, `:`, its selector, `!` if it is read-only, `=`, and the names of its files.
fn say_mounts(rt: &impl Abort, alloc: Global, text: &mut String, view: &View) {
    for i in 0..view.mounts().len() as u32 {
        say_path(rt, text, view.dest(i));
        say(rt, text, ":");
        say_path(rt, text, view.selector(i));
        say(rt, text, if view.is_read_only(i) { "!=" } else { "=" });
        say_files(rt, alloc, text, view.tree_of(i));
    }
}

// Appends `ok` if the tree of a mount was replaced. Otherwise appends the fault, and the names of the files in the tree that
// the fault holds.
fn say_set(rt: &impl Abort, alloc: Global, text: &mut String, answer: Result<(), ReadOnly>) {
    match answer {
        Ok(()) => say(rt, text, "ok "),
        Err(fault) => {
            write!(text, "{fault}").expect(rt, "memory");
            say_files(rt, alloc, text, &fault.tree);
        }
    }
}

fn take_step(rt: &impl Abort, alloc: Global, text: &mut String, view: &mut View, step: Step) {
    let (Step::Set(mount, name) | Step::Swap(mount, name)) = step;
    let tree = made(rt, alloc, &[file(name, "")]);
    assert!(rt; (mount as usize) < view.mounts().len());
    match step {
        Step::Set(..) => say_set(rt, alloc, text, view.set_tree(mount, tree)),
        Step::Swap(..) => say_files(rt, alloc, text, &view.swap_tree(mount, tree)),
    }
}

fn take_steps(rt: &impl Abort, alloc: Global, text: &mut String, view: &mut View, steps: &[Step]) {
    for step in steps {
        take_step(rt, alloc, text, view, *step);
    }
}

// Does the steps on the view of `THREE`. Returns the result of each step, the mounts after the steps and, after a bar,
// the mounts of a copy that was made before the steps.
fn story(rt: &impl Abort, alloc: Global, steps: &[Step]) -> String {
    let mut text = String::new(alloc);
    let mut view = view_of(rt, alloc, THREE).expect(rt, "a view");
    let copy = view.copy().expect(rt, "memory");
    take_steps(rt, alloc, &mut text, &mut view, steps);
    say_mounts(rt, alloc, &mut text, &view);
    say(rt, &mut text, "| ");
    let again = View::make(copy.into_mounts()).expect(rt, "memory");
    say_mounts(rt, alloc, &mut text, &again);
    text
}

const STORIES: &[(&[Step], &str)] = &[
    // `set_tree` replaces the tree of a mount that is not read-only, and is refused for a read-only one.
    (
        &[Step::Set(1, "x"), Step::Set(0, "y"), Step::Set(1, "z")],
        "ok ok ok :=y /t:=z /t/in:/sub!=c | :=a /t:=b /t/in:/sub!=c ",
    ),
    (
        &[Step::Set(2, "x")],
        "61x :=a /t:=b /t/in:/sub!=c | :=a /t:=b /t/in:/sub!=c ",
    ),
    // `swap_tree` replaces the tree of any mount.
    (
        &[Step::Swap(2, "x"), Step::Swap(0, "y"), Step::Swap(2, "z")],
        "c a x :=y /t:=b /t/in:/sub!=z | :=a /t:=b /t/in:/sub!=c ",
    ),
];

#[test]
fn a_tree_is_set_where_the_mount_is_not_read_only_and_exchanged_in_any(rt: HostRuntime) {
    for (steps, wanted) in STORIES {
        is_same(&rt, story(&rt, rt.alloc(), steps).as_str(), wanted);
    }
}

#[test]
fn want_of_memory_prints_its_number(rt: HostRuntime) {
    prints(&rt, rt.alloc(), &Memory, "62");
}
