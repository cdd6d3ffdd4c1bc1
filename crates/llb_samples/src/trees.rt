//! Sample trees, by their names or by their texts.

use crate::short_definitions::block;
use llb_tree::Tree;
use llb_treetext::read_tree;
use std::alloc::{AllocError, Global};

const TREES: &str = "
== EMPTY
d 0755 0 0 /
== A
d 0755 0 0 /
d 0755 0 0 /a
== A_B
d 0755 0 0 /
d 0755 0 0 /a
f 0644 0 0 6869 /a/b
== OLD
d 0755 0 0 /
f 0600 1 1 - /old
== F
d 0755 0 0 /
f 0644 0 0 6869 /f
== D
d 0755 0 0 /
d 0755 0 0 /d
== D_F
d 0755 0 0 /
d 0755 0 0 /d
d 0755 0 0 /d/f
== ABC
d 0755 0 0 /
f 0644 0 0 616263 /f
== PQ
d 0755 0 0 /
d 0755 0 0 /p
f 0644 0 0 31 /p/q
== P
d 0755 0 0 /
f 0644 0 0 32 /p
== PR
d 0755 0 0 /
d 0755 0 0 /p
f 0644 0 0 33 /p/r
== SUB
d 0755 0 0 /
d 0755 0 0 /sub
f 0644 0 0 6869 /sub/f
== S_F
d 0755 0 0 /
d 0755 0 0 /s
f 0644 0 0 6869 /s/f
== TWO
d 0755 0 0 /
d 0755 0 0 /e
f 0644 0 0 78 /f
== NESTED
d 0755 0 0 /
d 0700 1 1 /a
f 0644 2 2 78 /a/b
d 0755 3 3 /a-
d 0711 0 0 /a-/c
f 0600 0 0 79 /a-/c/d
f 0644 0 0 7a /b
== SHARED: a tree of which others are made
d 0755 0 0 /
d 0755 0 0 /a
f 0644 0 0 78 /a/b
d 0755 0 0 /a/c
f 0644 0 0 79 /a/c/d
== LOWER: a tree that another one is laid over
d 0700 1 1 /
d 0700 1 1 /a
f 0600 1 1 6c6f77 /a/x
f 0600 1 1 6c6f77 /a/y
f 0600 1 1 6c6f77 /c
d 0700 1 1 /z
f 0600 1 1 6c6f77 /z/w
== UPPER: that one
d 0755 0 0 /
d 0755 2 2 /a
f 0644 2 2 7570 /a/x
d 0755 2 2 /b
f 0644 2 2 7570 /b/e
d 0755 2 2 /c
f 0644 2 2 7570 /c/d
f 0644 2 2 7570 /z
";

/// Returns the text of the tree with this name. If there is no such tree, returns `name` itself, which is then the text of a tree.
pub fn tree_text<'a>(name: &'a str) -> &'a str {
    block(TREES, name).unwrap_or(name)
}

/// Returns the tree of a text; `None` if the text can't be read.
pub fn tree_from(alloc: Global, text: &str) -> Option<Tree> {
    read_tree(alloc, text.as_bytes()).ok()
}

// Returns the text of a tree with a directory `/d`, in which are the empty files `000` to `999`.
fn wide_text(alloc: Global) -> Result<String, AllocError> {
    let mut text = String::new(alloc);
    text.push_str("d 0755 0 0 /\nd 0755 0 0 /d\n")?;
    for number in 0..1000u32 {
        write!(text, "f 0644 0 0 - /d/{number:03}\n")?;
    }
    Ok(text)
}

/// Returns the tree with this name. If there is no such tree, reads `name` as the text of a tree. `WIDE` has a directory `/d` with the empty files `000` to
/// `999`.
pub fn tree_named(alloc: Global, name: &str) -> Option<Tree> {
    match name {
        "WIDE" => tree_from(alloc, wide_text(alloc).ok()?.as_str()),
        _ => tree_from(alloc, tree_text(name)),
    }
}
