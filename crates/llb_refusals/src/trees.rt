//! Calls on paths and trees while memory is refused. A row has the name of the tree on which its call is made (see `written`).

use super::refused_growths::{Row, Trial, are_refused};
use super::value_texts::{
    path_of, printed_fault, printed_path, printed_text, printed_tree, say, tree_or_fault,
};
use super::values_from_texts::{tree_and_twin, tree_named};
use llb_tree::{Bytes, Meta, Names, Path, Tree, TreeFault};
use llb_wire::Same;
use std::alloc::Global;
use std::process::Abort;

#[derive(Drop)]
enum Answer {
    None,
    Done(Result<(), TreeFault>),
    Made(Result<Tree, TreeFault>),
    Listed(Result<Names, TreeFault>),
    Walked(Result<Path, TreeFault>),
}

#[derive(Drop)]
struct OnTree {
    call: &'static str,
    words: &'static str,
    path: Path,
    tree: Tree,
    twin: Tree,
    grafted: Tree,
    contents: Vec<Bytes>,
    meta: Meta,
    answer: Answer,
}

// Returns two equal contents, one for each of two calls.
fn two_contents(rt: &impl Abort, alloc: Global) -> Vec<Bytes> {
    let mut contents = Vec::new(alloc);
    for _ in 0..2 {
        let content = Bytes::from_slice(alloc, b"hi").expect(rt, "memory");
        contents.push(content).expect(rt, "memory");
    }
    contents
}

fn printed_names(rt: &impl Abort, alloc: Global, names: &Names) -> String {
    let mut text = String::new(alloc);
    for name in names.as_slice() {
        say(rt, &mut text, " ");
        say(rt, &mut text, name.as_str());
    }
    text
}

// Returns the subtree at `/a` of the tree `A_B`.
fn subtree_a(rt: &impl Abort, alloc: Global) -> Tree {
    let path = path_of(rt, alloc, "/a");
    let tree = tree_named(rt, alloc, "A_B");
    tree.subtree(&path).expect(rt, "memory")
}

fn put_file(tree: &mut Tree, path: &Path, contents: &mut Vec<Bytes>, meta: Meta) -> Answer {
    match contents.pop() {
        Some(content) => Answer::Done(tree.put_file(path, meta, content)),
        None => Answer::None,
    }
}

impl OnTree {
    fn printed_tree(
        &self,
        rt: &impl Abort,
        alloc: Global,
        answer: &Result<(), TreeFault>,
    ) -> String {
        match answer {
            Ok(()) => printed_tree(rt, alloc, &self.tree),
            Err(fault) => printed_fault(rt, alloc, fault),
        }
    }
}

impl OnTree {
    // Makes the call, and returns its result.
    fn answered(&mut self, alloc: Global) -> Answer {
        let (tree, path) = (&mut self.tree, &self.path);
        match self.call {
            "read" => Answer::Walked(Path::read(alloc, self.words)),
            "read_from" => Answer::Walked(Path::read_from(alloc, path, self.words)),
            "empty" => Answer::Made(Tree::empty(alloc)),
            "copy" => Answer::Made(tree.copy()),
            "subtree" => Answer::Made(tree.subtree(path)),
            "list" => Answer::Listed(tree.list(path)),
            "put_file" => put_file(tree, path, &mut self.contents, self.meta),
            "put_dir" => Answer::Done(tree.put_dir(path, Meta::new_dir())),
            "remove" => Answer::Done(tree.remove(path)),
            _ => Answer::Done(tree.graft(path, &self.grafted)),
        }
    }
}

impl Trial for OnTree {
    fn ready(rt: &impl Abort, alloc: Global, row: &Row) -> OnTree {
        let (call, words) = row.0.split_once(' ').unwrap_or((row.0, ""));
        let (path, words) = words.split_once(' ').unwrap_or((words, words));
        let (tree, twin) = tree_and_twin(rt, alloc, row.1);
        OnTree {
            call,
            words,
            path: path_of(rt, alloc, path),
            tree,
            twin,
            grafted: subtree_a(rt, alloc),
            contents: two_contents(rt, alloc),
            meta: Meta::new(0o644, 0, 0).expect(rt, "a mode"),
            answer: Answer::None,
        }
    }

    fn call(&mut self, alloc: Global) {
        self.answer = self.answered(alloc);
    }

    fn printed(&self, rt: &impl Abort, alloc: Global) -> String {
        match &self.answer {
            Answer::None => printed_text(rt, alloc, "nothing"),
            Answer::Done(done) => self.printed_tree(rt, alloc, done),
            Answer::Made(made) => tree_or_fault(rt, alloc, made),
            Answer::Listed(Ok(names)) => printed_names(rt, alloc, names),
            Answer::Walked(Ok(path)) => printed_path(rt, alloc, path),
            Answer::Listed(Err(fault)) | Answer::Walked(Err(fault)) => printed_fault(
                rt, alloc, fault,
            ),
        }
    }

    fn is_as_before(&mut self, _rt: &impl Abort, _alloc: Global) -> bool {
        self.tree.same(&self.twin)
    }
}

const A_AND_Z: &str = "d 0755 0 0 /\nd 0755 0 0 /a\nd 0755 0 0 /z\nf 0644 0 0 6869 /z/b\n";

const A_B_AND_Z: &str =
    "d 0755 0 0 /\nd 0755 0 0 /a\nf 0644 0 0 6869 /a/b\nd 0755 0 0 /z\nf 0644 0 0 6869 /z/b\n";

const WITH_500: &str = "sha256:78d831ae104aef4e90db47bae37161b498ed53d324d8f1e2743c1b7a5406b731";

const ROWS: &[Row] = &[
    ("read /a/b/c", "EMPTY", "27", "/a/b/c"),
    ("read a//b/../c", "EMPTY", "27", "/a/c"),
    ("read_from /a ../b", "EMPTY", "27", "/b"),
    ("read_from /a /c", "EMPTY", "27", "/c"),
    ("empty", "EMPTY", "27", "EMPTY"),
    ("put_file /a/b", "A", "27", "A_B"),
    ("put_file /a/b", "copy of A", "27", "A_B"),
    ("put_file /a/b", "A_B", "27", "A_B"),
    ("put_file /a/b", "copy of A_B", "27", "A_B"),
    ("put_file /d/500", "WIDE", "27", WITH_500),
    ("put_file /d/500", "copy of WIDE", "27", WITH_500),
    ("put_dir /a", "EMPTY", "27", "A"),
    ("put_dir /a", "copy of EMPTY", "27", "A"),
    ("put_dir /", "A", "", "A"),
    ("put_dir /", "copy of A", "", "A"),
    ("put_dir /a", "A_B", "", "A_B"),
    ("put_dir /a", "copy of A_B", "27", "A_B"),
    ("remove /a", "A_B", "", "EMPTY"),
    ("remove /a", "copy of A_B", "27", "EMPTY"),
    ("graft /z", "A", "27", A_AND_Z),
    ("graft /z", "A_B", "27", A_B_AND_Z),
    ("graft /z", "copy of A_B", "27", A_B_AND_Z),
    (
        "subtree /a",
        "A_B",
        "",
        "d 0755 0 0 /\nf 0644 0 0 6869 /b\n",
    ),
    ("copy", "A_B", "", "A_B"),
    ("list /a", "A_B", "27", " b"),
    ("list /", "A", "27", " a"),
];

#[test]
fn paths_and_trees(rt: HostRuntime) {
    are_refused::<OnTree>(&rt, rt.alloc(), ROWS);
}
