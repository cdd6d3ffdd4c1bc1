//! Tests the nodes of a tree, walks through a tree, and how many names a path may have so that a given tree fits below the
//! path.

use super::tree::{deep_tree, path_with};
use super::tree_rows::{is_same, row_holds, sample, say, say_node, say_path, say_tree};
use llb_tree::{Node, Path, Tree, TreeFault, Walk};
use std::alloc::Global;
use std::process::Abort;

// Returns the text of a path with one more name.
fn path_below(rt: &impl Abort, alloc: Global, names: &str, name: &str) -> String {
    let mut path = String::from_str(alloc, names).expect(rt, "memory");
    say(rt, &mut path, "/");
    say(rt, &mut path, name);
    path
}

// Appends each child of a node, with the text of the child's path, to the list `left`. The last child comes first.
fn leave_children<'a>(
    rt: &impl Abort,
    alloc: Global,
    left: &mut Vec<(String, &'a Node)>,
    names: &str,
    node: &'a Node,
) {
    let mut children = Vec::new(alloc);
    for child in node.children() {
        children.push(child).expect(rt, "memory");
    }
    for child in children.iter().rev() {
        let below = path_below(rt, alloc, names, child.name().as_str());
        left.push((below, child.node())).expect(rt, "memory");
    }
}

// Appends the entry at each node; the entry at a node comes before the entries below it.
fn say_nodes(rt: &impl Abort, alloc: Global, text: &mut String, root: &Node) {
    let mut left = Vec::new(alloc);
    left.push((String::new(alloc), root)).expect(rt, "memory");
    for _ in 0..u64::MAX {
        let Some((names, node)) = left.pop() else {
            return;
        };
        say_node(rt, text, names.as_str(), node);
        leave_children(rt, alloc, &mut left, names.as_str(), node);
    }
}

// Returns the entries of the tree with this name as text: first as the tree's nodes have them and, after a bar, as a walk through the tree
// returns them.
fn printed(rt: &impl Abort, alloc: Global, name: &str) -> String {
    let tree = sample(rt, alloc, name);
    let mut text = String::new(alloc);
    say_nodes(rt, alloc, &mut text, tree.root());
    say(rt, &mut text, "|");
    say_tree(rt, &mut text, &tree);
    text
}

// Names of trees, and what `printed` returns for them.
const TOLD: &[(&str, &str)] = &[
    ("EMPTY", " d| d"),
    ("TWO", " d d/e f/f=x| d d/e f/f=x"),
    (
        "NESTED",
        " d d/a(700 1:1) f/a/b(644 2:2)=x d/a-(755 3:3) d/a-/c(711 0:0) f/a-/c/d(600 0:0)=y f/b=z|\
        \x20d d/a(700 1:1) f/a/b(644 2:2)=x d/a-(755 3:3) d/a-/c(711 0:0) f/a-/c/d(600 0:0)=y f/b=z",
    ),
];

#[test]
fn nodes_and_a_walk_tell_the_same_entries(rt: HostRuntime) {
    for (name, wanted) in TOLD {
        is_same(&rt, printed(&rt, rt.alloc(), name).as_str(), wanted);
    }
}

// Appends the path at which a walk is (`end` after the last entry), and a `|`.
fn say_place(rt: &impl Abort, text: &mut String, walk: &Walk<'_>) {
    match walk.at() {
        None => say(rt, text, "end"),
        Some((path, _)) => say_path(rt, text, path),
    }
    say(rt, text, "|");
}

// Does one step of a walk: `a` goes to the next entry, and `s` to the next entry that is not below the current one.
fn go(rt: &impl Abort, walk: &mut Walk<'_>, step: char) {
    match step {
        'a' => walk.advance().expect(rt, "memory"),
        _ => walk.skip().expect(rt, "memory"),
    }
}

// Returns the paths at which a walk is: at its beginning, and after each step.
fn walked(rt: &impl Abort, alloc: Global, name: &str, steps: &str) -> String {
    let mut text = String::new(alloc);
    let tree = sample(rt, alloc, name);
    let mut walk = tree.walk();
    say_place(rt, &mut text, &walk);
    for step in steps.chars() {
        go(rt, &mut walk, step);
        say_place(rt, &mut text, &walk);
    }
    text
}

// Names of trees, the steps of a walk, and the paths at which the walk is, at its beginning and after each step.
const WALKED: &[(&str, &str, &str)] = &[
    ("EMPTY", "aa", "|end|end|"),
    ("EMPTY", "ss", "|end|end|"),
    ("TWO", "aaa", "|/e|/f|end|"),
    ("TWO", "asssa", "|/e|/f|end|end|end|"),
    (
        "NESTED",
        "aaaaaaaas",
        "|/a|/a/b|/a-|/a-/c|/a-/c/d|/b|end|end|end|",
    ),
    ("NESTED", "sas", "|end|end|end|"),
    ("NESTED", "asss", "|/a|/a-|/b|end|"),
    ("NESTED", "aasas", "|/a|/a/b|/a-|/a-/c|/b|"),
    ("NESTED", "aaaaasa", "|/a|/a/b|/a-|/a-/c|/a-/c/d|/b|end|"),
];

#[test]
fn a_walk_goes_on_and_skips_and_stays_at_its_end(rt: HostRuntime) {
    for (name, steps, wanted) in WALKED {
        is_same(&rt, walked(&rt, rt.alloc(), name, steps).as_str(), wanted);
    }
}

fn cut_at(rt: &impl Abort, tree: &mut Tree, path: &Path) {
    tree.remove(path).expect(rt, "what is there");
}

// Returns whether a tree fits below a path of `names` names. The tree is a chain of `levels` directories, each in the one
// before it; the directories at depth `cut` and deeper are removed.
fn fits(
    rt: &impl Abort,
    alloc: Global,
    levels: usize,
    cut: Option<usize>,
    names: usize,
) -> Result<(), TreeFault> {
    let mut tree = deep_tree(rt, alloc, levels);
    if let Some(cut) = cut {
        cut_at(rt, &mut tree, &path_with(rt, alloc, cut));
    }
    tree.fits(&path_with(rt, alloc, names))
}

// The numbers `levels`, `cut` and `names` of a call of `fits`, and its result.
const DEPTHS: &[(usize, Option<usize>, usize, Result<(), TreeFault>)] = &[
    (0, None, 128, Ok(())),
    (1, None, 127, Ok(())),
    (1, None, 128, Err(TreeFault::BadName)),
    (64, None, 64, Ok(())),
    (65, None, 64, Err(TreeFault::BadName)),
    (128, None, 0, Ok(())),
    (128, None, 1, Err(TreeFault::BadName)),
    (128, Some(3), 126, Ok(())),
    (128, Some(3), 127, Err(TreeFault::BadName)),
];

#[test]
fn what_is_put_below_a_path_ends_at_128_names(rt: HostRuntime) {
    for (at, (levels, cut, names, wanted)) in DEPTHS.iter().enumerate() {
        let answer = fits(&rt, rt.alloc(), *levels, *cut, *names);
        row_holds(&rt, at, answer == *wanted);
    }
}
