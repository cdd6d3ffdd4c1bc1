//! Tests of the text of a tree: the text is printed, hashed to the tree's digest, and read back. Which texts are read, and which fault others have, is tested
//! by the program (`tests/sources/tree-texts.md`).

use super::tree_rows::{file, holds, is_same, is_so, made, prints};
use llb_tree::Tree;
use llb_treetext::{TextFault, one_answer, print_tree, read_tree, reads_back, tree_digest};
use llb_wire::{Over, Same, Text};
use std::alloc::{AllocError, Global};
use std::process::Abort;

// Returns the text of a tree, as `print_tree` writes it.
pub(crate) fn printed(alloc: Global, tree: &Tree) -> Result<Vec<u8>, AllocError> {
    let mut text: Vec<u8> = Vec::new(alloc);
    let mut out = Over::new(&mut text);
    if print_tree(alloc, tree, &mut out).is_err() {
        return Err(AllocError);
    }
    Ok(text)
}

// Returns whether reading a text fails with this fault.
fn same_fault(alloc: Global, text: &str, wanted: TextFault) -> bool {
    one_answer(text.as_bytes());
    match read_tree(alloc, text.as_bytes()) {
        Err(fault) => fault == wanted,
        Ok(_) => false,
    }
}

// Texts with a fault in a late line, and that fault.
const LATE: &[(&str, TextFault)] = &[
    (
        "d 0755 0 0 /\nd 0755 0 0 /a\nd 0755 0 0 /a/b\nf 0644 0 0 - /a/b/c\nf 0644 0 0 00f /d\n",
        TextFault::BadLine(5),
    ),
    (
        "d 0755 0 0 /\nd 0755 0 0 /a\nf 0644 0 0 00ff /a/b\nd 0755 0 0 /c\nd 0755 0 0 /a/d\n",
        TextFault::Order(5),
    ),
    (
        "d 0755 0 0 /\nd 0755 0 0 /a\nd 0755 0 0 /a/b\nd 0755 0 0 /c\nf 0644 0 0 - /d/e\n",
        TextFault::NoParent(5),
    ),
];

// The faulty line is found without allocating, so the test passes even if every allocation is refused.
#[test]
fn a_late_fault_is_told_without_memory(rt: HostRuntime) {
    for (text, wanted) in LATE {
        holds(&rt, text, same_fault(rt.alloc(), text, *wanted));
    }
}

// Returns whether the printed text of a tree is read as the same tree.
fn is_read_back(rt: &impl Abort, alloc: Global) -> bool {
    let tree = made(rt, alloc, &[("/a", 0o700, 1, 2, None), file("/a/b", "hi")]);
    reads_back(&tree);
    let text = printed(alloc, &tree).expect(rt, "memory");
    match read_tree(alloc, text.as_slice()) {
        Ok(read) => read.same(&tree),
        Err(_) => false,
    }
}

#[test]
fn what_is_printed_is_read_back(rt: HostRuntime) {
    is_so(&rt, is_read_back(&rt, rt.alloc()));
}

fn digest(rt: &impl Abort, alloc: Global) -> Text {
    let tree = Tree::empty(alloc).expect(rt, "memory");
    tree_digest(alloc, &tree).expect(rt, "memory")
}

#[test]
fn a_digest_is_that_of_the_text(rt: HostRuntime) {
    let wanted = "sha256:5de211d85590268925259f8c7cd45d229b00372355255c350a38752ed1c86a47";
    is_same(&rt, digest(&rt, rt.alloc()).as_str(), wanted);
}

#[test]
fn a_fault_prints_its_number_and_the_line(rt: HostRuntime) {
    let rows = [
        (TextFault::BadLine(1), "31 1"),
        (TextFault::Order(2), "32 2"),
        (TextFault::NoParent(70000), "33 70000"),
        (TextFault::Memory, "34"),
    ];
    for (fault, wanted) in rows {
        prints(&rt, rt.alloc(), &fault, wanted);
    }
}
