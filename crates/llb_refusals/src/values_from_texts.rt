//! Makes the values on which calls are made, from texts: trees from their names, definitions from their entries in the short form of `llb_samples`, and local
//! trees.

use super::value_texts::{printed_bytes, text_of};
use llb_loader::{Graph, Locals};
use llb_ops::{Entries, write_definition};
use llb_samples as samples;
use llb_tree::Tree;
use llb_wire::Bytes;
use std::alloc::Global;
use std::process::Abort;

/// Returns the tree with this name.
pub(crate) fn tree_named(rt: &impl Abort, alloc: Global, name: &str) -> Tree {
    samples::tree_named(alloc, name).expect(rt, "a tree")
}

/// Returns a tree, and another tree that is equal to it. If `on` begins with `copy of `, the second tree is a copy of the first, and shares its nodes.
/// Otherwise the two trees are made separately, by the same steps.
pub(crate) fn tree_and_twin(rt: &impl Abort, alloc: Global, on: &'static str) -> (Tree, Tree) {
    match on.strip_prefix("copy of ") {
        Some(name) => {
            let tree = tree_named(rt, alloc, name);
            let twin = tree.copy().expect(rt, "memory");
            (tree, twin)
        }
        None => (tree_named(rt, alloc, on), tree_named(rt, alloc, on)),
    }
}

/// Returns the assembler's text of the entries that `written` has, in the short form of `llb_samples` with `; ` between them.
pub(crate) fn entries_text(rt: &impl Abort, alloc: Global, written: &str) -> String {
    samples::entries_text(alloc, written).expect(rt, "memory")
}

pub(crate) fn entries_of(rt: &impl Abort, alloc: Global, written: &str) -> Entries {
    samples::entries_of(alloc, written).expect(rt, "entries")
}

pub(crate) fn definition_of(rt: &impl Abort, alloc: Global, written: &str) -> Bytes {
    samples::definition_of(alloc, written).expect(rt, "a definition")
}

/// Returns, in hexadecimal, the bytes of the definition that has these entries.
pub(crate) fn printed_entries(rt: &impl Abort, alloc: Global, entries: &Entries) -> String {
    let bytes = write_definition(alloc, entries).expect(rt, "memory");
    printed_bytes(rt, alloc, bytes.as_slice())
}

pub(crate) fn graph_of(rt: &impl Abort, alloc: Global, written: &str) -> Graph {
    samples::graph_of(alloc, written).expect(rt, "a graph")
}

fn add_local(rt: &impl Abort, alloc: Global, locals: &mut Locals, name: &str, tree: &str) {
    let tree = tree_named(rt, alloc, tree);
    locals
        .add(text_of(rt, alloc, name), tree)
        .expect(rt, "memory");
}

/// Returns local trees that are given as `NAME=TREE`, with a space between two of them.
pub(crate) fn locals_of(rt: &impl Abort, alloc: Global, given: &'static str) -> Locals {
    let mut locals = Locals::new(alloc);
    for local in given.split(' ') {
        if let Some((name, tree)) = local.split_once('=') {
            add_local(rt, alloc, &mut locals, name, tree);
        }
    }
    locals
}
