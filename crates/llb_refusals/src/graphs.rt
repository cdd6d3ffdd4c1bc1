//! Calls on graphs, faults of definitions, local trees and plain outcomes while memory is refused.

use super::refused_growths::{Row, Trial, are_refused};
use super::value_texts::{
    printed_fault, printed_numbers, printed_text, printed_tree, say, text_of,
};
use super::values_from_texts::{definition_of, entries_of, graph_of, locals_of, tree_named};
use llb_findings::{findings, findings_of};
use llb_loader::{Graph, LoadFault, Locals, Memory, Row as Linked, link, load};
use llb_plain::{Outcomes, PlainFault, evaluate};
use llb_tree::Tree;
use llb_wire::{Bytes, Same, Text};
use std::alloc::Global;
use std::process::Abort;

#[derive(Drop)]
enum Answer {
    None,
    Graph(Result<Graph, LoadFault>),
    Found(Result<Vec<LoadFault>, llb_wire::Memory>),
    Copied(Result<Graph, Memory>),
    Locals(Result<Locals, Memory>),
    Added(Result<(), Memory>),
    Outcomes(Result<Outcomes, PlainFault>),
}

// A definition, rows, a graph and local trees; a graph and local trees that are equal to these; and a name and a tree twice, since `Locals::add` consumes
// both and is called twice.
#[derive(Drop)]
struct OnGraph {
    call: &'static str,
    definition: Bytes,
    rows: Vec<Linked>,
    graph: Graph,
    other: Graph,
    locals: Locals,
    twin: Locals,
    handed: Vec<(Text, Tree)>,
    answer: Answer,
}

// Returns the rows that a text describes. For each row the text has ` = `, the row's digest text (one letter), a space, and the name of the row's entry. The
// last row is the terminal.
fn rows_of(rt: &impl Abort, alloc: Global, written: &str) -> Vec<Linked> {
    let mut rows = Vec::new(alloc);
    for one in written.split(" = ") {
        if let Some((digest, written)) = one.split_once(' ') {
            let entries = entries_of(rt, alloc, written);
            let entry = entries.as_slice().first().expect(rt, "an entry");
            let bytes = Bytes::from_slice(alloc, entry.as_slice()).expect(rt, "memory");
            let digest = text_of(rt, alloc, digest);
            rows.push(Linked { digest, bytes }).expect(rt, "memory");
        }
    }
    rows
}

// Returns a name and the tree `F` twice, for two calls.
fn handed(rt: &impl Abort, alloc: Global, name: &str) -> Vec<(Text, Tree)> {
    let mut handed = Vec::new(alloc);
    for _ in 0..2 {
        let tree = tree_named(rt, alloc, "F");
        handed
            .push((text_of(rt, alloc, name), tree))
            .expect(rt, "memory");
    }
    handed
}

fn added(locals: &mut Locals, handed: &mut Vec<(Text, Tree)>) -> Answer {
    match handed.pop() {
        Some((name, tree)) => Answer::Added(locals.add(name, tree)),
        None => Answer::None,
    }
}

fn linked(alloc: Global, rows: &[Linked]) -> Answer {
    if rows.len() > 65_536 {
        return Answer::None;
    }
    Answer::Graph(link(alloc, rows))
}

fn found(alloc: Global, rows: &[Linked]) -> Answer {
    if rows.len() > 65_536 {
        return Answer::None;
    }
    Answer::Found(findings_of(alloc, rows))
}

// Returns the texts of the faults, with a comma between them.
fn printed_faults(rt: &impl Abort, alloc: Global, faults: &[LoadFault]) -> String {
    let mut text = String::new(alloc);
    for fault in faults {
        if !text.is_empty() {
            say(rt, &mut text, ", ");
        }
        let printed = printed_fault(rt, alloc, fault);
        say(rt, &mut text, printed.as_str());
    }
    text
}

// Returns the number of vertices of a graph, and the vertex of the graph's result.
fn printed_graph(rt: &impl Abort, alloc: Global, graph: &Graph) -> String {
    printed_numbers(rt, alloc, graph.vertices().len(), graph.result().vertex)
}

fn printed_local(rt: &impl Abort, text: &mut String, locals: &Locals, name: &str) {
    if let Some(tree) = locals.get(name) {
        let tree = printed_tree(rt, *text.allocator(), tree);
        say(rt, text, name);
        say(rt, text, "|");
        say(rt, text, tree.as_str());
    }
}

fn printed_locals(rt: &impl Abort, alloc: Global, locals: &Locals) -> String {
    let mut text = String::new(alloc);
    printed_local(rt, &mut text, locals, "p");
    printed_local(rt, &mut text, locals, "q");
    text
}

// Returns the text of the first output of the last vertex.
fn printed_outcomes(rt: &impl Abort, alloc: Global, outcomes: &Outcomes) -> String {
    match outcomes.as_slice().last() {
        Some(outcome) => match outcome.output(0) {
            Some(tree) => printed_tree(rt, alloc, tree),
            None => printed_text(rt, alloc, "no output"),
        },
        None => printed_text(rt, alloc, "no vertex"),
    }
}

impl OnGraph {
    // Makes the call, and returns its result.
    fn answered(&mut self, alloc: Global) -> Answer {
        match self.call {
            "load" => Answer::Graph(load(alloc, self.definition.as_slice())),
            "link" => linked(alloc, &self.rows),
            "findings" => Answer::Found(findings(alloc, self.definition.as_slice())),
            "findings_of" => found(alloc, &self.rows),
            "Graph::copy" => Answer::Copied(self.graph.copy()),
            "Locals::copy" => Answer::Locals(self.locals.copy()),
            "evaluate" => Answer::Outcomes(evaluate(alloc, &self.graph, &self.locals)),
            _ => added(&mut self.locals, &mut self.handed),
        }
    }
}

// Returns `text` if the call is one of the two that are wanted, and `other` if it is not.
fn on_calls<'a>(call: &str, wanted: (&str, &str), text: &'a str, other: &'a str) -> &'a str {
    if call == wanted.0 || call == wanted.1 {
        text
    } else {
        other
    }
}

// Returns the entries of the graph on which a call is made. For the calls that take a definition or rows, these are the entries of a graph that is not used.
fn graph_for<'a>(call: &str, written: &'a str) -> &'a str {
    match call {
        "load" | "link" | "findings" | "findings_of" => "MAKES_A; RESULT 0",
        _ => written,
    }
}

impl Trial for OnGraph {
    fn ready(rt: &impl Abort, alloc: Global, row: &Row) -> OnGraph {
        let (call, on, _, _) = *row;
        let (written, locals) = on.split_once(" on ").unwrap_or((on, ""));
        let graph = graph_for(call, written);
        OnGraph {
            call,
            definition: definition_of(
                rt,
                alloc,
                on_calls(call, ("load", "findings"), written, graph),
            ),
            rows: rows_of(
                rt,
                alloc,
                on_calls(call, ("link", "findings_of"), written, ""),
            ),
            graph: graph_of(rt, alloc, graph),
            other: graph_of(rt, alloc, graph),
            locals: locals_of(rt, alloc, locals),
            twin: locals_of(rt, alloc, locals),
            handed: handed(rt, alloc, call.strip_prefix("Locals::add ").unwrap_or("")),
            answer: Answer::None,
        }
    }

    fn call(&mut self, alloc: Global) {
        self.answer = self.answered(alloc);
    }

    fn printed(&self, rt: &impl Abort, alloc: Global) -> String {
        match &self.answer {
            Answer::None => printed_text(rt, alloc, "nothing"),
            Answer::Graph(Ok(graph)) | Answer::Copied(Ok(graph)) => printed_graph(rt, alloc, graph),
            Answer::Locals(Ok(locals)) => printed_locals(rt, alloc, locals),
            Answer::Added(Ok(())) => printed_locals(rt, alloc, &self.locals),
            Answer::Outcomes(Ok(outcomes)) => printed_outcomes(rt, alloc, outcomes),
            Answer::Found(Ok(faults)) => printed_faults(rt, alloc, faults),
            Answer::Graph(Err(fault)) => printed_fault(rt, alloc, fault),
            Answer::Found(Err(fault)) => printed_fault(rt, alloc, fault),
            Answer::Outcomes(Err(fault)) => printed_fault(rt, alloc, fault),
            Answer::Copied(Err(fault)) | Answer::Locals(Err(fault)) | Answer::Added(Err(fault)) => {
                printed_fault(rt, alloc, fault)
            }
        }
    }

    fn is_as_before(&mut self, _rt: &impl Abort, _alloc: Global) -> bool {
        self.graph.same(&self.other) && self.locals.same(&self.twin)
    }
}

const CHANGED: &str = "SOURCE_P; SOURCE_Q; CHANGES_0_BY_1; RESULT 2";

const RUN: &str = "SOURCE_P; SOURCE_Q; COPIES_BY_A_TMPFS; RESULT 2";

const MERGED: &str = "MAKES_PQ; MAKES_P; MAKES_PR; MERGES_0_1_2; RESULT 3";

const ON_P: &str = "SOURCE_P; SOURCE_Q; CHANGES_0_BY_1; RESULT 2 on p=OLD";

const ON_BOTH: &str = "SOURCE_P; SOURCE_Q; CHANGES_0_BY_1; RESULT 2 on p=OLD q=F";

const RUN_ON_BOTH: &str = "SOURCE_P; SOURCE_Q; COPIES_BY_A_TMPFS; RESULT 2 on p=EMPTY q=SUB";

const D_AND_F: &str = "d 0755 0 0 /\nd 0755 0 0 /d\nf 0644 0 0 6869 /d/f\n";

const BOTH: &str = "p|d 0755 0 0 /\nf 0600 1 1 - /old\nq|d 0755 0 0 /\nf 0644 0 0 6869 /f\n";

const P_OLD: &str = "p|d 0755 0 0 /\nf 0600 1 1 - /old\n";

const ROWS: &[Row] = &[
    ("load", "MAKES_A; RESULT 0", "91", "1 0"),
    ("load", RUN, "91", "3 2"),
    (
        "load",
        "locked: write /c/a x && false; RESULT 0",
        "91",
        "1 0",
    ),
    (
        "load",
        "sh: nosuch; RESULT 0",
        "91",
        "89 0 Script 71 nosuch",
    ),
    ("load", "raw 3a00; RESULT 0", "91", "88 0 DiffOp"),
    ("link", " = A MAKES_A = B D_ON_A = T NAMES_B", "91", "2 1"),
    ("link", " = B D_ON_A = A MAKES_A = T NAMES_B", "91", "2 1"),
    (
        "link",
        " = A MAKES_A = B SCRIPT_ON_A = T NAMES_B",
        "91",
        "2 1",
    ),
    ("findings", "raw 3a00; RESULT 0", "5", "88 0 DiffOp"),
    ("findings", RUN, "5", ""),
    (
        "findings_of",
        " = A D_ON_C = B FIELD_ZERO = T NAMES_A",
        "5 and 82 1 3, 86 0 0",
        "82 1 3, 86 0 0",
    ),
    (
        "findings_of",
        " = A LOCKS_TWICE_ON_B = B SCRIPT_ON_A = T NAMES_A",
        "5",
        "87, 89 0 CacheTwice",
    ),
    ("Graph::copy", CHANGED, "", "3 2"),
    (
        "Locals::add p",
        CHANGED,
        "92",
        "p|d 0755 0 0 /\nf 0644 0 0 6869 /f\n",
    ),
    ("Locals::add q", ON_P, "", BOTH),
    (
        "Locals::add p",
        ON_P,
        "",
        "p|d 0755 0 0 /\nf 0644 0 0 6869 /f\n",
    ),
    ("Locals::copy", ON_P, "92", P_OLD),
    ("evaluate", MERGED, "103", "PR"),
    (
        "evaluate",
        RUN_ON_BOTH,
        "103",
        "d 0755 0 0 /\nf 0644 0 0 6869 /y\n",
    ),
    ("evaluate", ON_BOTH, "103", D_AND_F),
    ("evaluate", ON_P, "103", "101 q"),
];

#[test]
fn graphs(rt: HostRuntime) {
    are_refused::<OnGraph>(&rt, rt.alloc(), ROWS);
}
