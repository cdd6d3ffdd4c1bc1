//! Tests `link`, which makes a graph of rows, or refuses the rows, and `findings_of`, which finds every fault of rows. The digest of a row may be any text
//! here. Rows are written as `DIGEST = NAME`, with `; ` between rows; NAME is the name of an entry of `llb_samples`.

use super::tree_rows::{is_same, prints, say};
use llb_findings::findings_of;
use llb_loader::{Graph, LoadFault, Row, link};
use llb_ops::Entries;
use llb_samples as samples;
use llb_wire::{Bytes, Text};
use std::alloc::Global;
use std::process::Abort;

fn entries_of(rt: &impl Abort, alloc: Global, written: &str) -> Entries {
    samples::entries_of(alloc, written).expect(rt, "entries")
}

fn push_row(rt: &impl Abort, rows: &mut Vec<Row>, digest: &str, entry: &[u8]) {
    let alloc = *rows.allocator();
    let digest = Text::from_str(alloc, digest).expect(rt, "memory");
    let bytes = Bytes::from_slice(alloc, entry).expect(rt, "memory");
    rows.push(Row { digest, bytes }).expect(rt, "memory");
}

fn push_given(rt: &impl Abort, rows: &mut Vec<Row>, given: &str) {
    let alloc = *rows.allocator();
    let (digest, name) = given.split_once(" = ").expect(rt, "a row");
    let entries = entries_of(rt, alloc, name);
    let entry = entries.as_slice().first().expect(rt, "an entry");
    push_row(rt, rows, digest, entry.as_slice());
}

fn rows_of(rt: &impl Abort, alloc: Global, given: &str) -> Vec<Row> {
    let mut rows = Vec::new(alloc);
    for one in given.split("; ") {
        push_given(rt, &mut rows, one);
    }
    assert!(rt; rows.len() <= 65_536);
    rows
}

// Returns the graph that `link` makes of rows, or the fault with which `link` refuses the rows.
fn graph_of(rt: &impl Abort, alloc: Global, given: &str) -> Result<Graph, LoadFault> {
    let rows = rows_of(rt, alloc, given);
    assert!(rt; rows.len() <= 65_536);
    link(alloc, &rows)
}

fn refusal(rt: &impl Abort, alloc: Global, given: &str) -> LoadFault {
    graph_of(rt, alloc, given).err().expect(rt, "a refusal")
}

// Rows, and the fault with which they are refused.
const REFUSED: &[(&str, &str)] = &[
    // In the first case the inputs lead from row to row in a cycle. In the second case an input names no row. In the third case an input names the terminal.
    ("A = ON_B; B = ON_A; T = NAMES_A", "87"),
    ("A = ON_B; B = ON_C; T = NAMES_A", "86 1 0"),
    ("A = D_ON_T; T = NAMES_A", "86 0 0"),
    // An unsupported feature of a later row is reported before a broken rule of an earlier one.
    ("A = NAMES_B; B = DIFF; T = NAMES_A", "88 1 DiffOp"),
    // A row may repeat an earlier row. A fault that both rows have is reported at the earlier row. The later row still counts in the numbers of the rows
    // after it.
    (
        "T = NAMES_INDEX_ONE_OF_ROW_A; A = MAKES_A; A = MAKES_A; T = NAMES_INDEX_ONE_OF_ROW_A",
        "90 0 0",
    ),
    (
        "A = MAKES_A; A = MAKES_A; B = D_ON_C; T = NAMES_B",
        "86 2 0",
    ),
    // Collisions (84), rows that are no ops (82) and a terminal without input (85) are reported before unsupported features.
    ("A = MAKES_A; A = DIFF; T = NAMES_A", "84 1"),
    ("A = MAKES_A; A = DIFF; B = FIELD_ZERO", "82 2 3"),
    ("A = MAKES_A; B = DIFF", "85"),
    // If two rows break rules, the row with the lower number is reported: its number and the rule.
    (
        "A = LOCKS_TWICE_ON_B; B = MOUNTS_BARE; T = NAMES_A",
        "89 0 CacheTwice",
    ),
    (
        "A = SEEDS_FROM_B; B = LOCKS_TWICE; T = NAMES_A",
        "89 1 CacheTwice",
    ),
];

#[test]
fn rows_are_refused_by_their_first_fault(rt: HostRuntime) {
    for (given, wanted) in REFUSED {
        prints(&rt, rt.alloc(), &refusal(&rt, rt.alloc(), given), wanted);
    }
}

// Rows, and all their faults.
const FOUND: &[(&str, &str)] = &[
    ("A = MAKES_A; T = NAMES_A", ""),
    // Each reached row is looked at, also behind a row with a fault; a row that is not reached is not.
    (
        "A = ON_B; B = DIFF; C = LOCKS_TWICE; T = NAMES_A",
        "88 1 DiffOp",
    ),
    (
        "A = LOCKS_TWICE_ON_B; B = MOUNTS_BARE; T = NAMES_A",
        "89 0 CacheTwice, 89 1 NoCacheOpt",
    ),
    // The faults are in the order of their numbers, then of the rows.
    (
        "A = LOCKS_TWICE_ON_B; B = ON_C; T = NAMES_A",
        "86 1 0, 89 0 CacheTwice",
    ),
    ("A = ON_B; B = ON_A; T = NAMES_A", "87"),
    // A row that can't be read is reported in each place; it leads to no row.
    (
        "A = ON_B; B = FIELD_ZERO; C = FIELD_ZERO; T = NAMES_A",
        "82 1 3, 82 2 3",
    ),
    // With a collision, and if there is no result, no row is reached.
    ("A = MAKES_A; A = DIFF; B = FIELD_ZERO", "82 2 3, 84 1"),
    ("A = MAKES_A; B = DIFF", "85"),
];

fn printed_findings(rt: &impl Abort, alloc: Global, given: &str) -> String {
    let rows = rows_of(rt, alloc, given);
    assert!(rt; rows.len() <= 65_536);
    let found = findings_of(alloc, &rows).expect(rt, "memory");
    let mut text = String::new(alloc);
    for fault in &found {
        if !text.is_empty() {
            say(rt, &mut text, ", ");
        }
        write!(text, "{fault}").expect(rt, "memory");
    }
    text
}

#[test]
fn all_faults_of_rows_are_found(rt: HostRuntime) {
    for (given, wanted) in FOUND {
        let printed = printed_findings(&rt, rt.alloc(), given);
        is_same(&rt, printed.as_str(), wanted);
    }
}

// Rows that are refused have their refusal as the first fault.
#[test]
fn the_first_fault_is_the_refusal(rt: HostRuntime) {
    for (given, wanted) in REFUSED {
        let printed = printed_findings(&rt, rt.alloc(), given);
        let first = printed.as_str().split(", ").next().unwrap_or("");
        is_same(&rt, first, wanted);
    }
}

// Returns how many vertices a graph has, the digest text of the first vertex, and the number of the vertex of the result.
fn printed_ends(rt: &impl Abort, alloc: Global, graph: &Graph) -> String {
    graph.is_graph();
    let (count, last) = (graph.vertices().len(), graph.result().vertex);
    let vertex = graph.vertices().first().expect(rt, "a vertex");
    let first = vertex.digest.as_str();
    format!(in alloc; "{count} {first} {last}").expect(rt, "memory")
}

// Rows, and what `printed_ends` returns for their graph.
const GRAPHS: &[(&str, &str)] = &[
    // A cycle among rows that the result does not depend on is no fault.
    ("B = ON_C; A = MAKES_A; C = ON_B; T = NAMES_A", "1 A 0"),
    // Two executions may lock the same cache.
    ("A = LOCKS_ON_B; B = LOCKS; T = NAMES_A", "2 B 1"),
];

fn printed_graph(rt: &impl Abort, alloc: Global, given: &str) -> String {
    let graph = graph_of(rt, alloc, given).expect(rt, "a graph");
    printed_ends(rt, alloc, &graph)
}

#[test]
fn rows_are_graphs(rt: HostRuntime) {
    for (given, wanted) in GRAPHS {
        is_same(&rt, printed_graph(&rt, rt.alloc(), given).as_str(), wanted);
    }
}

// Appends an op of a chain: a merge whose only input names the row with the digest text `below`.
fn push_op(rt: &impl Abort, text: &mut String, below: u32) {
    write!(
        text,
        "op {{\ninputs {{\ndigest \"{below}\"\n}}\nmerge {{\ninputs {{\n}}\n}}\n}}\n"
    )
    .expect(rt, "memory");
}

// Returns the text of a chain of `count` ops, and of a terminal. Each op has the next op as its input, the last op makes `/a`, and the terminal names the
// first op.
fn chain_text(rt: &impl Abort, alloc: Global, count: u32) -> String {
    let mut text = String::new(alloc);
    for at in 1..count {
        push_op(rt, &mut text, at);
    }
    let last = samples::entries_text(alloc, "MAKES_A").expect(rt, "memory");
    say(rt, &mut text, last.as_str());
    push_op(rt, &mut text, 0);
    text
}

fn chain(rt: &impl Abort, alloc: Global, count: u32) -> Vec<Row> {
    let text = chain_text(rt, alloc, count);
    let entries = samples::entries_in(alloc, text.as_str()).expect(rt, "entries");
    let mut rows = Vec::new(alloc);
    for (at, entry) in entries.as_slice().iter().enumerate() {
        let digest = at.to_string(alloc).expect(rt, "memory");
        push_row(rt, &mut rows, digest.as_str(), entry.as_slice());
    }
    rows
}

fn linked(rt: &impl Abort, alloc: Global, rows: &[Row]) -> Graph {
    assert!(rt; rows.len() <= 65_536);
    link(alloc, rows).expect(rt, "a graph")
}

#[test]
fn a_long_chain_is_numbered_from_its_end(rt: HostRuntime) {
    let graph = linked(&rt, rt.alloc(), &chain(&rt, rt.alloc(), 4_000));
    let printed = printed_ends(&rt, rt.alloc(), &graph);
    is_same(&rt, printed.as_str(), "4000 3999 3999");
}
