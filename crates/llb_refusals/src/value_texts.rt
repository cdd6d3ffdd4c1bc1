//! Turns values into words, and compares texts.

use llb_samples::{push_path, text_of_tree};
use llb_tree::{Path, Tree};
use llb_treetext::tree_digest;
use llb_wire::{Text, push_hex};
use std::alloc::Global;
use std::fmt::Display;
use std::process::Abort;

// Ends the test if a text is not the expected one; the failure shows both texts.
pub(crate) fn is_same(rt: &impl Abort, printed: &str, wanted: &str) {
    assert_eq!(rt; printed, wanted);
}

pub(crate) fn say(rt: &impl Abort, text: &mut String, more: &str) {
    text.push_str(more).expect(rt, "memory");
}

// Returns the text that a fault, or another value, prints.
pub(crate) fn printed_fault<E: Display>(rt: &impl Abort, alloc: Global, fault: &E) -> String {
    format!(in alloc; "{fault}").expect(rt, "memory")
}

pub(crate) fn printed_text(rt: &impl Abort, alloc: Global, text: &str) -> String {
    String::from_str(alloc, text).expect(rt, "memory")
}

pub(crate) fn printed_bytes(rt: &impl Abort, alloc: Global, bytes: &[u8]) -> String {
    let mut text = String::new(alloc);
    push_hex(alloc, &mut text, bytes).expect(rt, "memory");
    text
}

// Returns the text of a path: each of the path's names with `/` before it.
pub(crate) fn printed_path(rt: &impl Abort, alloc: Global, path: &Path) -> String {
    let mut text = String::new(alloc);
    push_path(&mut text, path).expect(rt, "memory");
    text
}

fn printed_digest(rt: &impl Abort, alloc: Global, tree: &Tree) -> String {
    let digest = tree_digest(alloc, tree).expect(rt, "memory");
    printed_text(rt, alloc, digest.as_str())
}

// Returns the text of a tree, or the tree's digest if the text has more than 1,000 bytes.
pub(crate) fn printed_tree(rt: &impl Abort, alloc: Global, tree: &Tree) -> String {
    let text = text_of_tree(alloc, tree).expect(rt, "a text");
    if text.len() > 1000 {
        return printed_digest(rt, alloc, tree);
    }
    text
}

// Returns the text of the tree that a call returned, or of the fault.
pub(crate) fn tree_or_fault<E: Display>(
    rt: &impl Abort,
    alloc: Global,
    made: &Result<Tree, E>,
) -> String {
    match made {
        Ok(tree) => printed_tree(rt, alloc, tree),
        Err(fault) => printed_fault(rt, alloc, fault),
    }
}

// Returns two numbers, with a space between them.
pub(crate) fn printed_numbers(rt: &impl Abort, alloc: Global, one: usize, other: u32) -> String {
    format!(in alloc; "{one} {other}").expect(rt, "memory")
}

pub(crate) fn path_of(rt: &impl Abort, alloc: Global, text: &str) -> Path {
    Path::read(alloc, text).expect(rt, "a path")
}

pub(crate) fn text_of(rt: &impl Abort, alloc: Global, text: &str) -> Text {
    Text::from_str(alloc, text).expect(rt, "memory")
}
