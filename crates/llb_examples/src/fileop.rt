//! Calls of `llb_fileop`. The trees that file actions make, and the faults of file actions, are tested by the program
//! (`tests/actions`).

use super::ops::{COPY, MAKES_A};
use super::tree_rows::{is_same, say, say_fault, say_path, say_tree};
use llb_fileop::{ActFault, act, resolve};
use llb_ops::{Action, Kind, Op, read_op};
use llb_tree::Tree;
use std::alloc::Global;
use std::process::Abort;

// Returns the path that a text is read as, and whether the text ends in a slash.
fn resolved(rt: &impl Abort, alloc: Global, text: &str) -> String {
    let (path, ends) = resolve(alloc, text).expect(rt, "a path");
    let mut printed = String::new(alloc);
    say_path(rt, &mut printed, &path);
    say(rt, &mut printed, if ends { " true" } else { " false" });
    printed
}

// Texts. After each text come the path that the text is read as, and whether the text ends in a slash.
const TEXTS: &[(&str, &str)] = &[
    ("a//b/../", "/a true"),
    ("/a/b", "/a/b false"),
    ("/", " true"),
    ("", " false"),
    ("a/.", "/a false"),
];

#[test]
fn a_text_leads_to_a_path_and_may_end_in_a_slash(rt: HostRuntime) {
    for (text, wanted) in TEXTS {
        is_same(&rt, resolved(&rt, rt.alloc(), text).as_str(), wanted);
    }
}

// Returns the first action of a file op.
pub(crate) fn action_in(op: &Op) -> Option<&Action> {
    match &op.kind {
        Some(Kind::File(file)) => file.actions.as_slice().first(),
        _ => None,
    }
}

// Does an action on a tree, without a tree to copy from.
fn act_alone(alloc: Global, action: &Action, tree: &Tree) -> Result<Tree, ActFault> {
    act(alloc, action, tree, None)
}

// Does the action of a file op's entry on the empty tree. Returns the text of the tree after the action, or the fault.
fn acted(rt: &impl Abort, alloc: Global, entry: &[u8]) -> String {
    let op = read_op(alloc, entry).expect(rt, "an op");
    let action = action_in(&op).expect(rt, "an action");
    let empty = Tree::empty(alloc).expect(rt, "memory");
    let mut printed = String::new(alloc);
    match act_alone(alloc, action, &empty) {
        Ok(tree) => say_tree(rt, &mut printed, &tree),
        Err(fault) => say_fault(rt, &mut printed, &fault),
    }
    printed
}

#[test]
fn an_action_leaves_a_tree_or_has_a_fault(rt: HostRuntime) {
    is_same(&rt, acted(&rt, rt.alloc(), MAKES_A).as_str(), " d f/a=hi");
    is_same(&rt, acted(&rt, rt.alloc(), COPY).as_str(), "51 21\n");
}
