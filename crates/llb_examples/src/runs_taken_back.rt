//! Runs that go to their ends and are then taken back event by event, until the board is as before the run.

ghost use Rattle.std.specs.Prelude.{◌≡◌};

use super::board_calls::{are_done, are_same, copy_of, is_event_done};
use super::board_definitions::{FAILS_FIRST, IN_A_ROW, WRITES_AND_FAILS};
use super::boards_from_texts::board_of;
use super::tree_rows::{is_so, row_holds};
use super::worker_stories::is_answered;
use llb_board::{Board, Event};
use std::alloc::Global;
use std::process::Abort;

// Does the events that a run on one thread does (`Board::chosen`), at most `most` of them, and takes all of them back. Returns whether the board was complete
// before the events were taken back.
fn there_and_back(board: &mut Board, most: u32) -> bool
    ensures { board.new ≡ board.old }
{
    let Some(event) = board.chosen() else {
        return board.is_complete();
    };
    if most == 0 {
        return false;
    }
    match board.walk(event) {
        Ok(walked) => {
            let complete = there_and_back(board, most - 1);
            board.undo(walked.undo);
            complete
        }
        Err(_) => false,
    }
}

pub(crate) fn finish(board: &mut Board) -> bool {
    for _i in 0..50 {
        if let Some(event) = board.chosen() {
            let _ = is_event_done(board, event);
        }
    }
    board.is_complete()
}

// Definitions; and for each of them calls on the complete board, with their results.
const WALKED: &[(&str, &str)] = &[
    (FAILS_FIRST, "> leases\n0"),
    (IN_A_ROW, "> worker 0\nidle"),
    (
        WRITES_AND_FAILS,
        "
        > instance locked 0
        d 0755 0 0 /
        f 0644 0 0 780a /a
        > instance locked 1
        none
        > leases
        0
        ",
    ),
];

// Runs a board to its end and takes the run back. Returns four answers: whether the run completes the board; whether the board is then, with the run taken
// back, equal to a copy that was made before the run; whether the board and the copy are equal after both are run to their ends; and whether calls on the
// complete board have the results in `ended`.
fn is_walked(rt: &impl Abort, alloc: Global, definition: &str, ended: &str) -> [bool; 4] {
    let mut board = board_of(rt, alloc, definition, "", 2);
    let mut fresh = copy_of(&board).expect(rt, "memory");
    let complete = there_and_back(&mut board, 50);
    let back = are_same(&board, &fresh);
    let both = finish(&mut board) && finish(&mut fresh) && are_same(&board, &fresh);
    [
        complete,
        back,
        both,
        is_answered(rt, alloc, &mut board, ended),
    ]
}

#[test]
fn a_run_that_is_walked_is_taken_back(rt: HostRuntime) {
    for (at, (definition, ended)) in WALKED.iter().enumerate() {
        let walked = is_walked(&rt, rt.alloc(), definition, ended);
        row_holds(&rt, at, walked == [true; 4]);
    }
}

// Returns whether an event is refused and its refusal prints the text `wanted`.
fn is_refused(alloc: Global, board: &mut Board, event: Event, wanted: &str) -> bool {
    match board.walk(event) {
        Ok(_) => false,
        Err(fault) => match fault.to_string(alloc) {
            Ok(text) => text.as_str() == wanted,
            Err(_) => false,
        },
    }
}

#[test]
fn a_walk_is_refused_as_the_event_is(rt: HostRuntime) {
    let mut board = board_of(&rt, rt.alloc(), IN_A_ROW, "", 2);
    is_so(&rt, are_done(&mut board, "claim 0 0\nstep 0"));
    is_so(
        &rt,
        is_refused(rt.alloc(), &mut board, Event::Claim(0, 1), "132"),
    );
}
