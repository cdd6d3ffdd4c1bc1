//! Tests of what a copy reads of the tree that it copies from: what is at and below its path, or at and below each path that matches its pattern. So a build in
//! which the source has changed elsewhere ends alike.

use super::boards_from_texts::{graph_from, locals_of};
use super::fileop::action_in;
use super::tree_rows::{row_holds, say, say_fault, say_tree};
use llb_fileop::act;
use llb_laws::copies::{agree_below, agree_for, copies_alike, reads_end_alike};
use llb_loader::{Graph, Locals};
use llb_ops::{Action, ActionKind, CopyFile, Op, read_op};
use llb_plain::{Outcome, evaluate};
use llb_samples::{entries_of, tree_from};
use llb_tree::{Path, Tree};
use std::alloc::Global;
use std::process::Abort;

const BEFORE: &str = "d 0755 0 0 /
d 0755 0 0 /a
f 0644 0 0 6869 /a/f
d 0755 0 0 /b
f 0644 0 0 31 /b/f
";

// The content of `/b/f` is another one.
const CONTENT: &str = "d 0755 0 0 /
d 0755 0 0 /a
f 0644 0 0 6869 /a/f
d 0755 0 0 /b
f 0644 0 0 32 /b/f
";

// `/b` has another owner, and `/c` is new.
const OWNER: &str = "d 0755 0 0 /
d 0755 0 0 /a
f 0644 0 0 6869 /a/f
d 0755 1 0 /b
f 0644 0 0 31 /b/f
d 0755 0 0 /c
";

// What a copy selects and its other fields, a second tree, and whether that is the same as `BEFORE` at and below what is copied.
type Row = (&'static str, &'static str, &'static str, bool);

const WILD: &str = " | allowWildcard true";

const ROWS: &[Row] = &[
    ("/a", "", CONTENT, true),
    ("/b", "", CONTENT, false),
    ("/b/f", "", CONTENT, false),
    ("/b/f", "", OWNER, true),
    ("/b", "", OWNER, false),
    ("/", "", CONTENT, false),
    // Nothing is there in both, and in one of them.
    ("/none", "", CONTENT, true),
    ("/c", "", OWNER, false),
    // Patterns; the last text is none, so that both copies fail.
    ("/[a]", WILD, CONTENT, true),
    ("/*", WILD, CONTENT, false),
    ("/*/g", WILD, CONTENT, true),
    ("/*/f", WILD, OWNER, true),
    ("/[c]", WILD, OWNER, false),
    ("/[", WILD, CONTENT, true),
];

fn op_of(rt: &impl Abort, alloc: Global, selected: &str, more: &str) -> Op {
    let mut text = String::new(alloc);
    let front = "op { | file { | actions { | copy { | src \"";
    text.push_str(front).expect(rt, "memory");
    text.push_str(selected).expect(rt, "memory");
    text.push_str("\" | dest \"/\" | mode -1")
        .expect(rt, "memory");
    text.push_str(more).expect(rt, "memory");
    text.push_str(" | } | } | } | }").expect(rt, "memory");
    let entries = entries_of(alloc, text.as_str()).expect(rt, "entries");
    let entry = entries.as_slice().first().expect(rt, "an entry");
    read_op(alloc, entry.as_slice()).expect(rt, "an op")
}

fn copy_in(action: &Action) -> Option<&CopyFile> {
    match &action.kind {
        Some(ActionKind::Copy(copy)) => Some(copy),
        _ => None,
    }
}

// Returns the text of the tree after a copy onto the empty tree, or the fault.
fn copied(rt: &impl Abort, alloc: Global, action: &Action, second: &Tree) -> String {
    let empty = Tree::empty(alloc).expect(rt, "memory");
    let mut printed = String::new(alloc);
    match act(alloc, action, &empty, Some(second)) {
        Ok(tree) => say_tree(rt, &mut printed, &tree),
        Err(fault) => say_fault(rt, &mut printed, &fault),
    }
    printed
}

// Returns whether the trees agree as the row says, and whether the copies from them are the same exactly then.
fn is_as_wanted(rt: &impl Abort, alloc: Global, row: &Row) -> bool {
    let op = op_of(rt, alloc, row.0, row.1);
    let action = action_in(&op).expect(rt, "an action");
    let copy = copy_in(action).expect(rt, "a copy");
    let first = tree_from(alloc, BEFORE).expect(rt, "a tree");
    let second = tree_from(alloc, row.2).expect(rt, "a tree");
    copies_alike(copy, &first, &first, &second);
    let agree = agree_for(alloc, copy, &first, &second).expect(rt, "memory");
    let one = copied(rt, alloc, action, &first);
    let other = copied(rt, alloc, action, &second);
    agree == row.3 && (one.as_str() == other.as_str()) == row.3
}

#[test]
fn a_copy_reads_only_what_is_at_and_below_its_paths(rt: HostRuntime) {
    for (at, row) in ROWS.iter().enumerate() {
        row_holds(&rt, at, is_as_wanted(&rt, rt.alloc(), row));
    }
}

#[test]
fn two_trees_can_be_the_same_below_one_path_alone(rt: HostRuntime) {
    let first = tree_from(rt.alloc(), BEFORE).expect(&rt, "a tree");
    let second = tree_from(rt.alloc(), OWNER).expect(&rt, "a tree");
    for (at, (text, wanted)) in [("/a", true), ("/b", false), ("/b/f", true)]
        .iter()
        .enumerate()
    {
        let path = Path::read(rt.alloc(), text).expect(&rt, "a path");
        let agree = agree_below(&first, &second, &path).expect(&rt, "memory");
        row_holds(&rt, at, agree == *wanted);
    }
}

// The entries after the source: a copy of a path from it, and a directory on the copy, of which the source is an input that is not looked at.
fn entries_on(rt: &impl Abort, alloc: Global, source: &str, selected: &str) -> String {
    let mut text = String::new(alloc);
    say(rt, &mut text, source);
    say(
        rt,
        &mut text,
        "; op { | inputs { | digest %0 | } | file { | actions { | input -1 | secondaryInput 0 | copy { | src \"",
    );
    say(rt, &mut text, selected);
    say(
        rt,
        &mut text,
        "\" | dest \"/\" | mode -1 | } | } | } | }; D_ON_1_OF_0_1; RESULT_2",
    );
    text
}

// The attribute has no effect, but the source's digest is another one, and so are those of what is on the source.
const SOURCE_P_AGAIN: &str =
    "op { | source { | identifier \"local://p\" | attrs { | key \"k\" | } | } | }";

fn locals_with(rt: &impl Abort, alloc: Global, tree: &str) -> Locals {
    let mut text = String::new(alloc);
    say(rt, &mut text, "== p\n");
    say(rt, &mut text, tree);
    locals_of(rt, alloc, text.as_str())
}

fn say_outcome(rt: &impl Abort, text: &mut String, outcome: &Outcome) {
    match outcome {
        Outcome::Done(trees) => {
            for tree in trees.as_slice() {
                say_tree(rt, text, tree);
            }
        }
        Outcome::Failed(fault) => say_fault(rt, text, fault),
        Outcome::Blocked => say(rt, text, "blocked\n"),
    }
}

// Returns how the vertices end that are not the source.
fn ends(rt: &impl Abort, alloc: Global, graph: &Graph, tree: &str) -> String {
    let locals = locals_with(rt, alloc, tree);
    let outcomes = evaluate(alloc, graph, &locals).ok().expect(rt, "outcomes");
    let mut text = String::new(alloc);
    for v in 1..3 {
        say_outcome(rt, &mut text, outcomes.get(v).expect(rt, "an outcome"));
    }
    text
}

// Returns whether the copy of a build, which is vertex 1, reads the same of both trees: the premise of the law.
fn reads_alike(rt: &impl Abort, alloc: Global, graph: &Graph, first: &str, second: &str) -> bool {
    let vertex = graph.vertices().get(1).expect(rt, "a vertex");
    let action = action_in(&vertex.op).expect(rt, "an action");
    let copy = copy_in(action).expect(rt, "a copy");
    let first = tree_from(alloc, first).expect(rt, "a tree");
    let second = tree_from(alloc, second).expect(rt, "a tree");
    agree_for(alloc, copy, &first, &second).expect(rt, "memory")
}

fn law(graph: &Graph, matched: &Graph) {
    reads_end_alike(graph, matched);
}

// What is copied from the source `p`, the tree that is `BEFORE` in the first build, and whether both builds end alike.
const BUILDS: &[(&str, &str, bool)] = &[
    ("/a", CONTENT, true),
    ("/b", CONTENT, false),
    ("/b/f", CONTENT, false),
    ("/b/f", OWNER, true),
    ("/b", OWNER, false),
    // Both copies fail, or the first alone.
    ("/none", CONTENT, true),
    ("/c", OWNER, false),
];

#[test]
fn builds_end_alike_if_their_sources_differ_where_nothing_is_copied(rt: HostRuntime) {
    let (rt, alloc) = (&rt, rt.alloc());
    for (at, (selected, second, wanted)) in BUILDS.iter().enumerate() {
        let entries = entries_on(rt, alloc, "SOURCE_P", selected);
        let others = entries_on(rt, alloc, SOURCE_P_AGAIN, selected);
        let graph = graph_from(rt, alloc, entries.as_str());
        let matched = graph_from(rt, alloc, others.as_str());
        law(&graph, &matched);
        let agree = reads_alike(rt, alloc, &graph, BEFORE, second);
        let one = ends(rt, alloc, &graph, BEFORE);
        let other = ends(rt, alloc, &matched, second);
        row_holds(rt, at, agree == *wanted);
        row_holds(rt, at, (one.as_str() == other.as_str()) == *wanted);
    }
}
