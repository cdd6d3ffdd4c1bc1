//! Tests a chain of 65,535 vertices, the most that a definition may have. The chain is loaded, evaluated, run, and stepped through to its end and back. This
//! takes seconds if `rt ci` builds the test. It takes minutes with `rt try --test --seconds 900`, which checks each call.

use llb_asm::assemble;
use llb_board::Board;
use llb_cache::Caches;
use llb_loader::{Graph, Locals, load};
use llb_ops::write_definition;
use llb_plain::evaluate;
use llb_stepper::{Stepper, Stop};
use llb_tree::Tree;
use llb_treetext::print_tree;
use llb_wire::Over;
use llb_work::{RunEnd, run_alone};
use std::alloc::Global;
use std::process::Abort;

// The number of vertices of the chain. Each vertex has three events: a claim, one micro-step and a settle.
const COUNT: u32 = 65_535;

const EVENTS: usize = 196_605;

// Appends an op that makes `/d` on the output of the entry with this number, or on the empty tree.
fn push_op(rt: &impl Abort, text: &mut String, below: Option<u32>) {
    match below {
        None => text.push_str("op {\nfile {\nactions {\ninput -1\n"),
        Some(below) => write!(
            text,
            "op {{\ninputs {{\ndigest %{below}\n}}\nfile {{\nactions {{\n"
        ),
    }
    .expect(rt, "memory");
    text.push_str("mkdir {\npath \"/d\"\nmode 493\n}\n}\n}\n}\n")
        .expect(rt, "memory");
}

fn chain(rt: &impl Abort, alloc: Global) -> Graph {
    let mut text = String::new(alloc);
    push_op(rt, &mut text, None);
    for below in 0..COUNT - 1 {
        push_op(rt, &mut text, Some(below));
    }
    let last = COUNT - 1;
    write!(text, "op {{\ninputs {{\ndigest %{last}\n}}\n}}\n").expect(rt, "memory");
    let entries = assemble(alloc, text.as_bytes()).expect(rt, "entries");
    let definition = write_definition(alloc, &entries).expect(rt, "memory");
    load(alloc, definition.as_slice()).expect(rt, "a graph")
}

fn is_chain(graph: &Graph) -> bool {
    let result = graph.result();
    graph.vertices().len() == 65_535 && result.vertex == 65_534 && result.index == 0
}

// Returns whether a tree has the directory `/d`, and nothing else.
fn has_d(rt: &impl Abort, alloc: Global, tree: Option<&Tree>) -> bool {
    let Some(tree) = tree else {
        return false;
    };
    let mut text = Vec::new(alloc);
    print_tree(alloc, tree, &mut Over::new(&mut text)).expect(rt, "memory");
    text.as_slice() == b"d 0755 0 0 /\nd 0755 0 0 /d\n".as_slice()
}

fn is_evaluated(rt: &impl Abort, alloc: Global, graph: &Graph) -> bool {
    let outcomes = evaluate(alloc, graph, &Locals::new(alloc))
        .ok()
        .expect(rt, "outcomes");
    match outcomes.get(65_534) {
        Some(outcome) => outcomes.len() == 65_535 && has_d(rt, alloc, outcome.output(0)),
        None => false,
    }
}

fn is_run(rt: &impl Abort, alloc: Global, end: &RunEnd) -> bool {
    let whole = end.fault.is_none() && end.board.events().len() == EVENTS;
    whole && has_d(rt, alloc, end.board.output(65_534, 0))
}

fn board_on(rt: &impl Abort, alloc: Global, graph: Graph) -> Board {
    let board = Board::open(alloc, graph, Locals::new(alloc), Caches::new(alloc), 1);
    board.ok().expect(rt, "a board")
}

fn goes_back(stepper: &mut Stepper) -> bool {
    stepper.back().is_ok()
}

// Takes `EVENTS` events back. Returns whether this succeeds, the record is then empty, and no further event can be taken back.
fn is_taken_back(stepper: &mut Stepper) -> bool {
    for _event in 0..EVENTS {
        if !goes_back(stepper) {
            return false;
        }
    }
    stepper.board().events().is_empty() && !goes_back(stepper)
}

fn is_walked(rt: &impl Abort, alloc: Global, stepper: &mut Stepper) -> bool {
    let stop = Stop {
        events: EVENTS as u64,
        at_break: false,
    };
    let gone = stepper.go().ok() == Some(stop);
    let there = has_d(rt, alloc, stepper.board().output(65_534, 0));
    gone && there && is_taken_back(stepper)
}

#[test]
fn a_chain_of_65535_vertices_is_evaluated_run_and_walked(rt: HostRuntime) {
    let alloc = rt.alloc();
    let graph = chain(&rt, alloc);
    assert!(rt; is_chain(&graph) && is_evaluated(&rt, alloc, &graph));
    let end = run_alone(board_on(&rt, alloc, graph));
    assert!(rt; is_run(&rt, alloc, &end));
    let (graph, _, _) = end.board.into_parts();
    let mut stepper = Stepper::new(alloc, board_on(&rt, alloc, graph));
    assert!(rt; is_walked(&rt, alloc, &mut stepper));
}
