//! Runs of boards on which workers already run vertices. Each worker first ends the vertex that it runs.

use super::board_calls::is_event_done;
use super::boards_from_texts::board_of;
use super::gates::Open;
use super::many_threads::{counts, have_one_tree};
use super::tree_rows::{is_so, row_holds};
use llb_board::{Board, Event};
use llb_work::{RunEnd, run_alone, run_workers};
use std::alloc::Global;
use std::process::Abort;

// The second vertex has two micro-steps.
const DEFINITION: &str = "MAKES_A; sh: true && write /k v; MERGES_0_1; RESULT_2";

// The record of a run by one worker, which takes the second vertex first.
const BY_ONE: [Event; 11] = [
    Event::Claim(0, 1),
    Event::Step(0),
    Event::Step(0),
    Event::Settle(0),
    Event::Claim(0, 0),
    Event::Step(0),
    Event::Settle(0),
    Event::Claim(0, 2),
    Event::Step(0),
    Event::Step(0),
    Event::Settle(0),
];

// Returns a board for `workers` workers on which these events were done.
fn board_after(rt: &impl Abort, alloc: Global, workers: u32, events: &[Event]) -> Board {
    let mut board = board_of(rt, alloc, DEFINITION, "", workers);
    for event in events {
        assert!(rt; is_event_done(&mut board, *event));
    }
    board
}

// Returns whether the run had no fault, the record is `BY_ONE`, and worker 0 did all events of the record but the first `before`, which were done before the
// run.
fn is_by_one(end: &RunEnd, before: usize) -> bool {
    let [made, ..] = end.made;
    let events = end.board.events().as_slice();
    end.fault.is_none()
        && events == BY_ONE.as_slice()
        && made == 11u64.saturating_sub(before as u64)
}

// The run begins in four states. In the first state the worker has claimed vertex 1; in the second and in the third state it has also done one or both of the
// vertex's micro-steps; in the fourth state it has settled the vertex.
#[test]
fn a_worker_first_ends_what_it_runs(rt: HostRuntime) {
    for before in 1..=4 {
        let (events, _) = BY_ONE.as_slice().split_at(before);
        let board = board_after(&rt, rt.alloc(), 1, events);
        let end = run_workers(&rt, rt.alloc(), board, &Open);
        row_holds(&rt, before, is_by_one(&end, before));
    }
}

// Each of two workers runs a vertex with two events to go. One of them then does the merge, which has four events.
#[test]
fn two_workers_first_end_what_they_run(rt: HostRuntime) {
    let alloc = rt.alloc();
    let before = [Event::Claim(0, 0), Event::Claim(1, 1), Event::Step(1)];
    let board = board_after(&rt, alloc, 2, &before);
    let end = run_workers(&rt, alloc, board, &Open);
    is_so(&rt, counts(&end, 2) == Some((8, 2)));
    is_so(&rt, end.board.events().as_slice().starts_with(&before));
    let alone = run_alone(board_of(&rt, alloc, DEFINITION, "", 1));
    is_so(&rt, have_one_tree(&end.board, &alone.board, 2));
}
