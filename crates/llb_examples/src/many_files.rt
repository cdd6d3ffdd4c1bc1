//! Tests that a change of a tree does not change its copies, on a tree of a thousand files. Trees are compared by their whole texts.

use super::overlay::copied;
use super::tree_rows::{dir, file, is_so, made, put, say};
use super::treetext::printed;
use llb_tree::{Tree, TreeFault};
use std::alloc::Global;
use std::process::Abort;
use std::thread;
use std::thread::Threads;

const FILES: u16 = 1_000;

fn put_file(alloc: Global, tree: &mut Tree, at: u16, content: &str) -> Result<(), TreeFault> {
    let path = format!(in alloc; "/d/{at:03}")?;
    put(alloc, tree, &file(path.as_str(), content))
}

// Puts the same content into each of the thousand files. Returns the tree.
fn filled(alloc: Global, mut tree: Tree, content: &str) -> Result<Tree, TreeFault> {
    for at in 0..FILES {
        put_file(alloc, &mut tree, at, content)?;
    }
    Ok(tree)
}

// Returns the tree with the empty files `/d/000` to `/d/999`.
fn many(rt: &impl Abort, alloc: Global) -> Tree {
    filled(alloc, made(rt, alloc, &[dir("/d")]), "").expect(rt, "memory")
}

// Returns the text of the tree of `many` with the content `of_500` in file 500 and the content `others` in all other files, both in hexadecimal.
fn wanted(rt: &impl Abort, alloc: Global, others: &str, of_500: &str) -> String {
    let mut text = String::new(alloc);
    say(rt, &mut text, "d 0755 0 0 /\nd 0755 0 0 /d\n");
    for at in 0..FILES {
        let digits = if at == 500 { of_500 } else { others };
        write!(text, "f 0644 0 0 {digits} /d/{at:03}\n").expect(rt, "memory");
    }
    text
}

// Returns whether the text of a tree is the text that `wanted` returns.
fn prints(rt: &impl Abort, alloc: Global, tree: &Tree, others: &str, of_500: &str) -> bool {
    let text = printed(alloc, tree).expect(rt, "memory");
    text.as_slice() == wanted(rt, alloc, others, of_500).as_bytes()
}

// Copies a tree and puts one byte into file 500 of the tree. If `first_goes`, drops the tree, and returns whether the copy's text is unchanged. Otherwise
// drops the copy, and returns whether the copy's text was unchanged and the tree's text has one changed line.
fn one_byte(rt: &impl Abort, alloc: Global, mut first: Tree, first_goes: bool) -> bool {
    let copied = copied(rt, &first);
    put_file(alloc, &mut first, 500, "!").expect(rt, "memory");
    if first_goes {
        drop(first);
        return prints(rt, alloc, &copied, "-", "-");
    }
    let kept = prints(rt, alloc, &copied, "-", "-");
    drop(copied);
    kept && prints(rt, alloc, &first, "-", "21")
}

#[test]
fn one_byte_in_one_of_a_thousand_files_is_not_in_the_copy(rt: HostRuntime) {
    for first_goes in [false, true] {
        let tree = many(&rt, rt.alloc());
        is_so(&rt, one_byte(&rt, rt.alloc(), tree, first_goes));
    }
}

// Calls `one_byte` in two threads at once, each with a copy of the same tree. The one call drops the changed tree, the other call the unchanged one.
fn one_byte_each<R: Abort + Threads + Sync>(rt: &R, alloc: Global, tree: &Tree) -> (bool, bool) {
    let (one, other) = (copied(rt, tree), copied(rt, tree));
    thread::join(
        rt,
        move || one_byte(rt, alloc, one, true),
        move || one_byte(rt, alloc, other, false),
    )
}

#[test]
fn two_threads_put_a_byte_each_into_copies_of_one_tree(rt: HostRuntime) {
    let tree = many(&rt, rt.alloc());
    let right = one_byte_each(&rt, rt.alloc(), &tree);
    is_so(&rt, right == (true, true));
    is_so(&rt, prints(&rt, rt.alloc(), &tree, "-", "-"));
}

// Copies a tree twice. Two threads at once put `1` into each file of one copy, and `2` into each file of the other. Returns both copies.
fn filled_at_once(
    rt: &impl Threads,
    alloc: Global,
    tree: &Tree,
) -> Result<(Tree, Tree), TreeFault> {
    let (one, other) = (tree.copy()?, tree.copy()?);
    let (one, other) = thread::join(
        rt,
        move || filled(alloc, one, "1"),
        move || filled(alloc, other, "2"),
    );
    Ok((one?, other?))
}

// Returns whether all files of `tree` are empty, all files of `one` have the content `1`, and all files of `other` the content `2`.
fn all_print(rt: &impl Abort, alloc: Global, tree: &Tree, one: &Tree, other: &Tree) -> bool {
    prints(rt, alloc, tree, "-", "-")
        && prints(rt, alloc, one, "31", "31")
        && prints(rt, alloc, other, "32", "32")
}

#[test]
fn two_threads_change_two_copies(rt: HostRuntime) {
    let tree = many(&rt, rt.alloc());
    let (one, other) = filled_at_once(&rt, rt.alloc(), &tree).expect(&rt, "memory");
    is_so(&rt, all_print(&rt, rt.alloc(), &tree, &one, &other));
}
