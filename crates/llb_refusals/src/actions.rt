//! File actions and merges while memory is refused. After a refused call, each tree on which the call was made is compared with a second tree,
//! which was equal to it before the call: the call must have changed nothing.

use super::refused_growths::{Row, Trial, are_refused};
use super::value_texts::{printed_fault, printed_text, printed_tree, say, tree_or_fault};
use super::values_from_texts::{entries_of, tree_and_twin, tree_named};
use llb_fileop::{ActFault, Obstacle, Refusal, act, why_refused};
use llb_merge::{Memory, lay, lay_onto, lay_over};
use llb_ops::{Action, Kind, Op, read_op};
use llb_tree::Tree;
use llb_wire::Same;
use std::alloc::Global;
use std::process::Abort;

#[derive(Drop)]
enum Answer {
    None,
    Acted(Result<Tree, ActFault>),
    Why(Result<Option<Refusal>, ActFault>),
    Laid(Result<Tree, Memory>),
    LaidOver(Result<(), Memory>),
}

// The two trees of a call, each with an equal tree to compare with; two copies of the first tree, since `lay_onto` consumes a tree and is called twice; and
// the op of a file action.
#[derive(Drop)]
struct OnTrees {
    call: &'static str,
    op: Op,
    base: Tree,
    twin: Tree,
    second: Tree,
    other: Tree,
    handed: Vec<Tree>,
    answer: Answer,
}

fn copied(rt: &impl Abort, tree: &Tree) -> Tree {
    tree.copy().expect(rt, "memory")
}

fn two_copies(rt: &impl Abort, alloc: Global, tree: &Tree) -> Vec<Tree> {
    vec![in alloc; copied(rt, tree), copied(rt, tree)].expect(rt, "memory")
}

// Returns the op of the first entry that `written` has; the entries are in the short form of `llb_samples`, with `; ` between them.
fn op_in(rt: &impl Abort, alloc: Global, written: &str) -> Op {
    let entries = entries_of(rt, alloc, written);
    let entry = entries.as_slice().first().expect(rt, "an entry");
    read_op(alloc, entry.as_slice()).expect(rt, "an op")
}

// Returns the assembler's text of a file op with one action. `action` is the kind of the action, such as `mkdir`, then `: ` and the action's fields with `, `
// between them.
fn op_text(rt: &impl Abort, alloc: Global, action: &str) -> String {
    let mut text = String::new(alloc);
    let (kind, fields) = action.split_once(": ").unwrap_or((action, ""));
    write!(text, "op {{\nfile {{\nactions {{\n{kind} {{\n").expect(rt, "memory");
    for field in fields.split(", ") {
        write!(text, "{field}\n").expect(rt, "memory");
    }
    text.push_str("}\n}\n}\n}\n").expect(rt, "memory");
    text
}

// Returns a file op with the action that a call is written as. For a call such as `lay`, which does no file action, returns some op, which is not used.
fn op_of(rt: &impl Abort, alloc: Global, call: &str) -> Op {
    let action = if call.contains(": ") {
        call
    } else {
        "rm: path \"/\""
    };
    op_in(rt, alloc, op_text(rt, alloc, action).as_str())
}

fn action_in(op: &Op) -> Option<&Action> {
    match &op.kind {
        Some(Kind::File(file)) => file.actions.as_slice().first(),
        _ => None,
    }
}

fn acted(alloc: Global, op: &Op, base: &Tree, second: &Tree) -> Answer {
    match action_in(op) {
        Some(action) => Answer::Acted(act(alloc, action, base, Some(second))),
        None => Answer::None,
    }
}

fn why(alloc: Global, op: &Op, base: &Tree, second: &Tree) -> Answer {
    match action_in(op) {
        Some(action) => Answer::Why(why_refused(alloc, action, base, Some(second))),
        None => Answer::None,
    }
}

// Returns what `act` returns, or what `why_refused` does for a call that begins with `why `.
fn acted_or_why(alloc: Global, call: &str, op: &Op, base: &Tree, second: &Tree) -> Answer {
    if call.starts_with("why ") {
        return why(alloc, op, base, second);
    }
    acted(alloc, op, base, second)
}

fn word_of(obstacle: Obstacle) -> &'static str {
    match obstacle {
        Obstacle::Nothing => "Nothing",
        Obstacle::NoSource => "NoSource",
        Obstacle::NoDir => "NoDir",
        Obstacle::FileAbove => "FileAbove",
        Obstacle::IsDir => "IsDir",
        Obstacle::IsFile => "IsFile",
        Obstacle::DirReplaced => "DirReplaced",
        Obstacle::TooLong => "TooLong",
    }
}

// Returns what is wrong, and for a path its last name.
fn printed_refusal(rt: &impl Abort, alloc: Global, refusal: &Option<Refusal>) -> String {
    match refusal {
        None => printed_text(rt, alloc, "nothing"),
        Some(Refusal::NotPath(_)) => printed_text(rt, alloc, "NotPath"),
        Some(Refusal::NotPattern(_)) => printed_text(rt, alloc, "NotPattern"),
        Some(Refusal::NoMatch(_)) => printed_text(rt, alloc, "NoMatch"),
        Some(Refusal::Root) => printed_text(rt, alloc, "Root"),
        Some(Refusal::At(obstacle, path)) => {
            let mut text = printed_text(rt, alloc, word_of(*obstacle));
            if let Some(name) = path.names().last() {
                say(rt, &mut text, " ");
                say(rt, &mut text, name.as_str());
            }
            text
        }
    }
}

fn laid(alloc: Global, base: &Tree, second: &Tree) -> Answer {
    Answer::Laid(lay(alloc, base, second))
}

fn laid_over(base: &mut Tree, second: &Tree) -> Answer {
    Answer::LaidOver(lay_over(base, second))
}

fn laid_onto(handed: &mut Vec<Tree>, second: &Tree) -> Answer {
    match handed.pop() {
        Some(tree) => Answer::Laid(lay_onto(tree, second)),
        None => Answer::None,
    }
}

impl OnTrees {
    // Makes the call, and returns its result.
    fn answered(&mut self, alloc: Global) -> Answer {
        match self.call {
            "lay" => laid(alloc, &self.base, &self.second),
            "lay_onto" => laid_onto(&mut self.handed, &self.second),
            "lay_over" => laid_over(&mut self.base, &self.second),
            call => acted_or_why(alloc, call, &self.op, &self.base, &self.second),
        }
    }
}

impl Trial for OnTrees {
    fn ready(rt: &impl Abort, alloc: Global, row: &Row) -> OnTrees {
        let (call, on, _, _) = *row;
        let (on, second) = on.split_once(" with ").unwrap_or((on, "EMPTY"));
        let (base, twin) = tree_and_twin(rt, alloc, on);
        OnTrees {
            call,
            op: op_of(rt, alloc, call.trim_start_matches("why ")),
            handed: two_copies(rt, alloc, &twin),
            base,
            twin,
            second: tree_named(rt, alloc, second),
            other: tree_named(rt, alloc, second),
            answer: Answer::None,
        }
    }

    fn call(&mut self, alloc: Global) {
        self.answer = self.answered(alloc);
    }

    fn printed(&self, rt: &impl Abort, alloc: Global) -> String {
        match &self.answer {
            Answer::None => printed_text(rt, alloc, "nothing"),
            Answer::Acted(acted) => tree_or_fault(rt, alloc, acted),
            Answer::Why(Ok(refusal)) => printed_refusal(rt, alloc, refusal),
            Answer::Why(Err(fault)) => printed_fault(rt, alloc, fault),
            Answer::Laid(laid) => tree_or_fault(rt, alloc, laid),
            Answer::LaidOver(Ok(())) => printed_tree(rt, alloc, &self.base),
            Answer::LaidOver(Err(fault)) => printed_fault(rt, alloc, fault),
        }
    }

    fn is_as_before(&mut self, _rt: &impl Abort, _alloc: Global) -> bool {
        self.base.same(&self.twin) && self.second.same(&self.other)
    }
}

const OLD_AND_D: &str = "d 0755 0 0 /\nd 0755 0 0 /d\nf 0600 1 1 - /old\n";

const OLD_AND_FILE: &str = "d 0755 0 0 /\nf 0644 0 0 6869 /a\nf 0600 1 1 - /old\n";

const OLD_AND_F: &str = "d 0755 0 0 /\nd 0755 0 0 /d\nf 0644 0 0 6869 /d/f\nf 0600 1 1 - /old\n";

const DIRS_AND_F: &str = "d 0755 0 0 /\nd 0755 0 0 /d\nd 0755 0 0 /d/f\nf 0644 0 0 6869 /d/f/f\n";

const D_AND_FILE: &str = "d 0755 0 0 /\nd 0755 0 0 /d\nf 0644 0 0 6869 /d/f\n";

const D_FROM_S: &str =
    "d 0755 0 0 /\nd 0755 0 0 /d\nd 0755 0 0 /d/f\nd 0755 0 0 /d/s\nf 0644 0 0 6869 /d/s/f\n";

const MKDIRS: &str = "d 0755 0 0 /\nf 0600 1 1 - /old\nd 0755 0 0 /x\nd 0755 0 0 /x/y\n";

const ROWS: &[Row] = &[
    ("mkdir: path \"/d\", mode 493", "OLD", "53", OLD_AND_D),
    (
        "mkdir: path \"/x/y\", mode 493, makeParents true",
        "copy of OLD",
        "53",
        MKDIRS,
    ),
    (
        "mkfile: path \"/a\", mode 420, data 6869",
        "OLD",
        "53",
        OLD_AND_FILE,
    ),
    (
        "mkfile: path \"/a\", mode 420, data 6869",
        "copy of OLD",
        "53",
        OLD_AND_FILE,
    ),
    (
        "copy: src \"/f\", dest \"/d/\", mode -1, createDestPath true",
        "OLD with F",
        "53",
        OLD_AND_F,
    ),
    (
        "copy: src \"/f\", dest \"/d/f\", mode -1",
        "D_F with F",
        "53",
        DIRS_AND_F,
    ),
    (
        "copy: src \"/s\", dest \"/d\", mode -1",
        "D_F with S_F",
        "53",
        D_FROM_S,
    ),
    (
        "copy: src \"/s\", dest \"/d\", mode -1, dirCopyContents true",
        "D with S_F",
        "53",
        D_AND_FILE,
    ),
    (
        "copy: src \"/s\", dest \"/d\", mode -1, dirCopyContents true",
        "EMPTY with S_F",
        "53",
        D_AND_FILE,
    ),
    (
        "copy: src \"*.c\", dest \"/d/\", allowWildcard true, allowEmptyWildcard true",
        "D_F with F",
        "53",
        "D_F",
    ),
    (
        "copy: src \"s*\", dest \"/d\", mode -1, allowWildcard true",
        "D_F with S_F",
        "53",
        D_FROM_S,
    ),
    ("rm: path \"/old\"", "OLD", "53", "EMPTY"),
    ("rm: path \"/old\"", "copy of OLD", "53", "EMPTY"),
    ("rm: path \"o*\", allowWildcard true", "OLD", "53", "EMPTY"),
    ("why rm: path \"/x\"", "OLD", "53", "Nothing x"),
    ("why mkdir: path \"/x/y\", mode 493", "OLD", "53", "NoDir x"),
    (
        "why copy: src \"/f\", dest \"/d\", mode -1",
        "D_F with F",
        "53",
        "DirReplaced f",
    ),
    (
        "why copy: src \"s*\", dest \"/d\", mode -1, allowWildcard true",
        "D_F with S_F",
        "53",
        "nothing",
    ),
    ("lay", "PQ with P", "", "P"),
    ("lay", "P with PR", "", "PR"),
    ("lay", "PQ with PR", "55", PQR),
    ("lay_onto", "copy of P with PR", "", "PR"),
    ("lay_over", "P with PR", "", "PR"),
    ("lay_over", "copy of PQ with PR", "55", PQR),
    ("lay_over", "PQ with PR", "55", PQR),
];

const PQR: &str = "d 0755 0 0 /\nd 0755 0 0 /p\nf 0644 0 0 31 /p/q\nf 0644 0 0 33 /p/r\n";

#[test]
fn actions_and_merges(rt: HostRuntime) {
    are_refused::<OnTrees>(&rt, rt.alloc(), ROWS);
}
