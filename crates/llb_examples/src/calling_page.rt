//! The callers that docs/CALLING.md shows, word for word, and a test of each.

use super::boards_from_texts::{board_of, graph_from};
use super::tree_rows::{is_same, is_so};
use llb_asm::assemble;
use llb_board::{Board, Gate, Settled, Stopped};
use llb_cache::Caches;
use llb_loader::{Graph, LoadFault, Locals, load};
use llb_ops::{kind_name, write_definition};
use llb_stepper::{Break, Stepper};
use llb_tree::Tree;
use llb_treetext::{print_tree, read_tree};
use llb_wire::{Bytes, Over, Text};
use llb_work::{RunFault, run_alone, run_workers};
use std::alloc::{AllocError, Global};
use std::sync::Wait;
use std::thread::Threads;

// Returns the kinds of a graph's vertices, by number, a line each.
fn kinds(alloc: Global, graph: &Graph) -> Result<String, AllocError> {
    let mut text = String::new(alloc);
    for vertex in graph.vertices() {
        text.push_str(kind_name(&vertex.op))?;
        text.push_str("\n")?;
    }
    Ok(text)
}

// Returns the kinds of the vertices of a definition's graph, or why it is refused.
fn kinds_in(alloc: Global, definition: &[u8]) -> Result<String, LoadFault> {
    let graph = load(alloc, definition)?;
    Ok(kinds(alloc, &graph)?)
}

// Returns the text of a graph's result, with a tree for one local source.
fn result_text(alloc: Global, graph: Graph, name: Text, tree: Tree) -> Option<Vec<u8>> {
    let mut locals = Locals::new(alloc);
    locals.add(name, tree).ok()?;
    let result = graph.result();
    let board = Board::open(alloc, graph, locals, Caches::new(alloc), 1).ok()?;
    let end = run_alone(board);
    let mut text = Vec::new(alloc);
    let tree = end.board.output(result.vertex, result.index)?;
    print_tree(alloc, tree, &mut Over::new(&mut text)).ok()?;
    Some(text)
}

// A gate that stops every worker at vertex 0, and nowhere else.
struct AllButTheFirst;

impl Gate for AllButTheFirst {
    ghost use Rattle.std.specs.Prelude.{◌==◌};

    ghost may_stop = { λ _ v. v == 0 };

    fn pass(&self, _w: u32, v: u32) -> Result<(), Stopped> {
        if v == 0 { Err(Stopped) } else { Ok(()) }
    }
}

// Returns whether a run in threads, one for each worker of the board, was stopped by the gate.
fn is_stopped<R: Threads + Wait + Sync>(rt: &R, alloc: Global, board: Board) -> bool {
    let end = run_workers(rt, alloc, board, &AllButTheFirst);
    matches!(&end.fault, Some(RunFault::Stopped))
}

// Runs a vertex of one micro-step by worker 0.
fn by_hand(board: &mut Board, vertex: u32) -> Option<Settled> {
    board.claim(0, vertex).ok()?;
    board.step(0).ok()?;
    board.settle(0).ok()
}

// Goes on to the first failure or to the end, takes the last event back, and returns how many events remain.
fn looked_at(stepper: &mut Stepper) -> Option<usize> {
    stepper.break_at(Break::Fails).ok()?;
    stepper.go().ok()?;
    stepper.back().ok()?;
    Some(stepper.board().events().len())
}

// Returns the definition that a text is read as.
fn assembled(alloc: Global, text: &[u8]) -> Option<Bytes> {
    let entries = assemble(alloc, text).ok()?;
    write_definition(alloc, &entries).ok()
}

const DEFINITION: &str = "SOURCE_P; RESULT_0";

const A_FILE: &str =
    "op {\nfile {\nactions {\ninput -1\nmkfile {\npath \"/a\"\n}\n}\n}\n}\nop {\ninputs {\ndigest %0\n}\n}\n";

const TREE: &str = "d 0755 0 0 /\nf 0644 0 0 6869 /a\n";

const LOCAL: &str = "== p\nd 0755 0 0 /\nf 0644 0 0 6869 /a\n";

#[test]
fn kinds_are_told_of_an_assembled_text(rt: HostRuntime) {
    let definition = assembled(rt.alloc(), A_FILE.as_bytes()).expect(&rt, "a definition");
    let kinds = kinds_in(rt.alloc(), definition.as_slice()).expect(&rt, "a graph");
    is_same(&rt, kinds.as_str(), "file\n");
}

#[test]
fn the_text_of_a_result_is_that_of_the_local_tree(rt: HostRuntime) {
    let tree = read_tree(rt.alloc(), TREE.as_bytes()).expect(&rt, "a tree");
    let name = Text::from_str(rt.alloc(), "p").expect(&rt, "memory");
    let graph = graph_from(&rt, rt.alloc(), DEFINITION);
    let text = result_text(rt.alloc(), graph, name, tree).expect(&rt, "a result");
    is_so(&rt, text.as_slice() == TREE.as_bytes());
}

#[test]
fn a_gate_stops_a_run_in_threads(rt: HostRuntime) {
    let board = board_of(&rt, rt.alloc(), DEFINITION, LOCAL, 4);
    is_so(&rt, is_stopped(&rt, rt.alloc(), board));
}

#[test]
fn a_board_is_driven_by_hand(rt: HostRuntime) {
    let mut board = board_of(&rt, rt.alloc(), DEFINITION, LOCAL, 1);
    is_so(&rt, by_hand(&mut board, 0) == Some(Settled::Done(0)));
}

#[test]
fn a_run_is_looked_at_and_taken_back(rt: HostRuntime) {
    let board = board_of(&rt, rt.alloc(), DEFINITION, LOCAL, 1);
    let mut stepper = Stepper::new(rt.alloc(), board);
    is_so(&rt, looked_at(&mut stepper) == Some(2));
}
