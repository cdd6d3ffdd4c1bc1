//! Tests of boards that go on from outputs of an earlier board. In the tests' text, a line that begins with `@ ` has the name of local trees, the name of a
//! source with the vertex and the number of the output that it replaces, and the entries of two definitions, as in `sharing`. The first definition is
//! run to its end, and the second goes on from the output. Below is the tree of the second result, or `none` if the second definition is not that. Also tests
//! of two runs of one definition.

use super::boards_from_texts::{board_of, definition_from, locals_of};
use super::runs_taken_back::finish;
use super::stories::{StoryKind, are_stories, wanted};
use super::worker_stories::say_tree;
use llb_board::Board;
use llb_events::Event;
use llb_laws::{KeptFault, open_on_kept, run_twice};
use llb_loader::{Edge, Locals};
use llb_samples::locals_named;
use llb_wire::Text;
use std::alloc::Global;
use std::process::Abort;

const KEPT: &str = "
    # A source stands in the place of an output, and what is on it is done as before.
    @ NONE p=0.0: MAKES_A; D_ON_0; RESULT_1 AND SOURCE_P; D_ON_0; RESULT_1
    d 0755 0 0 /
    f 0644 0 0 6869 /a
    d 0755 0 0 /d

    # The place of the source `q` counts, and not the local tree that is given for it; the source `p` has its local tree.
    @ OLD_AND_F q=1.0: SOURCE_P; MAKES_A; MERGES_0_1; RESULT_2 AND SOURCE_P; SOURCE_Q; MERGES_0_1; RESULT_2
    d 0755 0 0 /
    f 0644 0 0 6869 /a
    f 0644 0 0 6869 /old

    # There is no such output, or no tree for the source.
    @ NONE p=0.1: MAKES_A; D_ON_0; RESULT_1 AND SOURCE_P; D_ON_0; RESULT_1
    none
    @ NONE q=0.0: MAKES_A; D_ON_0; RESULT_1 AND SOURCE_P; D_ON_0; RESULT_1
    none

    # A vertex is no copy: its op is new, or it is on another output.
    @ NONE p=0.0: MAKES_A; D_ON_0; RESULT_1 AND SOURCE_P; MAKES_B; MERGES_0_1; RESULT_2
    none
    @ NONE p=1.0: MAKES_A; D_ON_0; RESULT_1 AND SOURCE_P; D_ON_0; RESULT_1
    none

    # A cache mount is at or before the output.
    @ NONE p=0.0: shared: true; D_ON_0; RESULT_1 AND SOURCE_P; D_ON_0; RESULT_1
    none
    @ NONE p=1.0: shared: true; D_ON_0; RESULT_1 AND SOURCE_P; RESULT_0
    none
    ";

fn number(rt: &impl Abort, digits: &str) -> u32 {
    digits.parse::<u32>().ok().expect(rt, "a number")
}

fn places_from(rt: &impl Abort, alloc: Global, written: &str) -> Vec<(Text, Edge)> {
    let (name, place) = written.split_once("=").expect(rt, "a place");
    let (vertex, index) = place.split_once(".").expect(rt, "an output");
    let edge = Edge {
        vertex: number(rt, vertex),
        index: number(rt, index),
    };
    let name = Text::from_str(alloc, name).expect(rt, "memory");
    let mut places = Vec::new(alloc);
    places.push((name, edge)).expect(rt, "memory");
    places
}

fn say_result(rt: &impl Abort, text: &mut String, board: &Board) {
    let result = board.graph().result();
    let tree = board
        .output(result.vertex, result.index)
        .expect(rt, "a result");
    say_tree(rt, text, tree);
}

fn kept(rt: &impl Abort, alloc: Global, head: &str) -> String {
    let (given, definitions) = head.split_once(": ").expect(rt, "definitions");
    let (trees, place) = given.split_once(" ").expect(rt, "a place");
    let (first, second) = definitions
        .split_once(" AND ")
        .expect(rt, "two definitions");
    let mut board = board_of(rt, alloc, first, locals_named(trees), 1);
    let _ = finish(&mut board);
    let locals = locals_of(rt, alloc, locals_named(trees));
    let second = definition_from(rt, alloc, second);
    let places = places_from(rt, alloc, place);
    let opened = open_on_kept(
        alloc,
        &board,
        &locals,
        second.as_slice(),
        places.as_slice(),
        1,
    );
    let mut text = String::new(alloc);
    match opened.expect(rt, "a graph") {
        Some(mut continued) => {
            let _ = finish(&mut continued);
            say_result(rt, &mut text, &continued);
        }
        None => text.push_str("none\n").expect(rt, "memory"),
    }
    text
}

/// Returns whether the result of the second definition is the tree that the story has, or whether the second definition does not go on from the output.
pub(crate) fn is_kept(rt: &impl Abort, alloc: Global, head: &str, lines: &str) -> bool {
    kept(rt, alloc, head).as_str() == wanted(rt, alloc, lines).as_str()
}

#[test]
fn a_board_goes_on_from_kept_outputs(rt: HostRuntime) {
    are_stories(&rt, rt.alloc(), StoryKind::Kept, KEPT);
}

// Returns the fault with which no board goes on from kept outputs, for a definition without entries, which can't be loaded.
fn refusal(rt: &impl Abort, alloc: Global, workers: u32) -> String {
    let board = board_of(rt, alloc, "MAKES_A; RESULT_0", locals_named("NONE"), 1);
    let locals = locals_of(rt, alloc, locals_named("NONE"));
    let places = places_from(rt, alloc, "p=0.0");
    let opened = open_on_kept(
        alloc,
        &board,
        &locals,
        "".as_bytes(),
        places.as_slice(),
        workers,
    );
    let mut text = String::new(alloc);
    match opened {
        Ok(_) => text.push_str("opened").expect(rt, "memory"),
        Err(fault) => write!(text, "{fault}").expect(rt, "memory"),
    }
    text
}

#[test]
fn a_board_that_goes_on_has_1_to_64_workers(rt: HostRuntime) {
    assert!(&rt; refusal(&rt, rt.alloc(), 0).as_str() == "122");
    assert!(&rt; refusal(&rt, rt.alloc(), 65).as_str() == "122");
    assert!(&rt; refusal(&rt, rt.alloc(), 1).as_str() == "83");
    assert!(&rt; refusal(&rt, rt.alloc(), 64).as_str() == "83");
}

// Returns the events of a whole run by one worker, after `first`.
fn events_after(rt: &impl Abort, alloc: Global, first: Event, written: &str) -> Vec<Event> {
    let mut board = board_of(rt, alloc, written, locals_named("OLD_AND_F"), 1);
    let _ = finish(&mut board);
    let mut events = Vec::new(alloc);
    events.push(first).expect(rt, "memory");
    events
        .extend_from_slice(board.events().as_slice())
        .expect(rt, "memory");
    events
}

// Calls `run_twice`. This function has no clauses, so that the proof of its caller does not carry those of `run_twice`.
fn ran(
    alloc: Global,
    definition: &[u8],
    locals: &Locals,
    workers: u32,
    events: &[Event],
    others: &[Event],
) -> Result<Option<(Board, Board)>, KeptFault> {
    run_twice(alloc, definition, locals, workers, events, others)
}

// Runs a definition twice: with the events of a whole run, and with the same events after a step that is refused. Returns the results of both runs, `none` if a
// source has no tree, or the fault.
fn twice(rt: &impl Abort, alloc: Global, trees: &str, written: &str, workers: u32) -> String {
    let others = events_after(rt, alloc, Event::Step(0), written);
    let locals = locals_of(rt, alloc, locals_named(trees));
    let definition = definition_from(rt, alloc, written);
    let (_, events) = others.split_first().expect(rt, "an event");
    let definition = definition.as_slice();
    let mut text = String::new(alloc);
    match ran(alloc, definition, &locals, workers, events, &others) {
        Ok(Some((board, other))) => {
            say_result(rt, &mut text, &board);
            say_result(rt, &mut text, &other);
        }
        Ok(None) => text.push_str("none").expect(rt, "memory"),
        Err(fault) => write!(text, "{fault}").expect(rt, "memory"),
    }
    text
}

const P_WITH_D_TWICE: &str = "d 0755 0 0 /
d 0755 0 0 /d
f 0644 0 0 6869 /old
d 0755 0 0 /
d 0755 0 0 /d
f 0644 0 0 6869 /old
";

#[test]
fn two_runs_of_a_definition_end_alike(rt: HostRuntime) {
    let written = "SOURCE_P; D_ON_0; RESULT_1";
    assert!(&rt; twice(&rt, rt.alloc(), "OLD_AND_F", written, 64).as_str() == P_WITH_D_TWICE);
    assert!(&rt; twice(&rt, rt.alloc(), "NONE", written, 1).as_str() == "none");
    assert!(&rt; twice(&rt, rt.alloc(), "OLD_AND_F", written, 0).as_str() == "122");
    assert!(&rt; twice(&rt, rt.alloc(), "OLD_AND_F", written, 65).as_str() == "122");
}
