//! Trees that share memory: an edit of one tree, done or refused, does not change the other tree.

use super::library_transcripts::are_transcripts;
use super::tree_calls::edit;
use super::tree_rows::is_so;
use llb_samples::tree_named;
use llb_tree::{Tree, TreeFault};
use llb_wire::Same;
use std::alloc::Global;

// Each story makes a second tree that shares memory with the first.
const TAKEN_IS_EDITED: &str = "
    # A file of a copy is replaced and a directory goes.
    > new SHARED
    > copy
    > swap
    > file /a/b 600 0:0 new
    > remove /a/c
    > swap
    > tree
    d d/a f/a/b=x d/a/c f/a/c/d=y
    > swap
    > tree
    d d/a f/a/b(600 0:0)=new

    # What was grafted in a copy is edited there.
    > new SHARED
    > copy
    > swap
    > graft /a /z
    > file /z/b 600 0:0 new
    > remove /a/c
    > swap
    > tree
    d d/a f/a/b=x d/a/c f/a/c/d=y
    > swap
    > tree
    d d/a f/a/b=x d/z f/z/b(600 0:0)=new d/z/c f/z/c/d=y

    # A subtree is edited.
    > new SHARED
    > subtree /a
    > swap
    > file /b 600 0:0 new
    > remove /c/d
    > dir / 700 3:3
    > swap
    > tree
    d d/a f/a/b=x d/a/c f/a/c/d=y
    > swap
    > tree
    d(700 3:3) f/b(600 0:0)=new d/c

    # What holds a graft of the whole is edited.
    > new SHARED
    > below /z
    > swap
    > file /z/a/c/d 600 0:0 new
    > remove /z/a/b
    > swap
    > tree
    d d/a f/a/b=x d/a/c f/a/c/d=y
    > swap
    > tree
    d d/z d/z/a d/z/a/c f/z/a/c/d(600 0:0)=new
    ";

const TREE_IS_EDITED: &str = "
    # A directory of the tree goes, and its copy stays.
    > new SHARED
    > copy
    > remove /a
    > tree
    d
    > swap
    > tree
    d d/a f/a/b=x d/a/c f/a/c/d=y

    # Entries of the tree are replaced, and its copy stays.
    > new SHARED
    > copy
    > file /a/b 600 7:8 new
    > dir /a 0 7:8
    > tree
    d d/a(0 7:8) f/a/b(600 7:8)=new d/a/c f/a/c/d=y
    > swap
    > tree
    d d/a f/a/b=x d/a/c f/a/c/d=y

    # The tree is edited, and its subtree stays.
    > new SHARED
    > subtree /a
    > remove /a/c
    > file /a/b 600 0:0 new
    > tree
    d d/a f/a/b(600 0:0)=new
    > swap
    > tree
    d f/b=x d/c f/c/d=y

    # A content is in a second file, and what is put in the place of the first leaves that one.
    > new
    > dir /a 755 0:0
    > file /a/b 644 0:0 x
    > share /a/b /c 600 1:2
    > share /a/b /a/b 640 0:0
    > share /a /e 600 1:2
    > share /none /e 600 1:2
    > tree
    d d/a f/a/b(640 0:0)=x f/c(600 1:2)=x
    > file /a/b 644 0:0 y
    > share /a/b / 600 1:2
    25
    > share /a/b /a 600 1:2
    23
    > share /a/b /x/y 600 1:2
    21
    > share /a/b /c/y 600 1:2
    22
    > tree
    d d/a f/a/b=y f/c(600 1:2)=x

    # The tree is edited, and what holds a graft of it stays.
    > new SHARED
    > below /z
    > remove /a/c/d
    > dir /a 700 0:0
    > tree
    d d/a(700 0:0) f/a/b=x d/a/c
    > swap
    > tree
    d d/z d/z/a f/z/a/b=x d/z/a/c f/z/a/c/d=y
    ";

#[test]
fn what_was_taken_is_edited_and_the_tree_stays(rt: HostRuntime) {
    are_transcripts(&rt, rt.alloc(), TAKEN_IS_EDITED);
}

#[test]
fn the_tree_is_edited_and_what_was_taken_stays(rt: HostRuntime) {
    are_transcripts(&rt, rt.alloc(), TREE_IS_EDITED);
}

fn shared(alloc: Global) -> Result<Tree, TreeFault> {
    tree_named(alloc, "SHARED").ok_or(TreeFault::Memory)
}

// Copies a tree, and edits the tree. Returns whether the copy equals the tree before the edit, and is unchanged by the edit;
// and whether the edit changes the tree or, if memory is refused to the edit, leaves the tree unchanged.
fn is_whole(alloc: Global, call: &str) -> Result<bool, TreeFault> {
    let fresh = shared(alloc)?;
    let mut tree = shared(alloc)?;
    let copied = tree.copy()?;
    let is_same = tree.same(&copied);
    let kept = match edit(alloc, &mut tree, call) {
        Ok(()) => !tree.same(&copied),
        Err(fault) => fault == TreeFault::Memory && tree.same(&copied),
    };
    Ok(is_same && kept && copied.same(&fresh))
}

const EDITS: [&str; 8] = [
    "file /a/b 600 0:0 new",
    "file /a/c/e 644 0:0 new",
    "dir /a/c 700 0:0",
    "dir /z 700 0:0",
    "remove /a/c/d",
    "remove /a",
    "graft /a /a/c/e",
    "share /a/b /c 600 1:2",
];

// The test also passes if one of its allocations is refused: then at most one edit is not checked.
#[test]
fn a_refused_edit_leaves_a_shared_tree_as_it_was(rt: HostRuntime) {
    let mut is_refused = false;
    for one in EDITS {
        match is_whole(rt.alloc(), one) {
            Ok(whole) => is_so(&rt, whole),
            Err(fault) => {
                is_so(&rt, fault == TreeFault::Memory && !is_refused);
                is_refused = true;
            }
        }
    }
}
