//! Tests which boards are equal by value. Boards with the same events are compared, boards that differ in one thing, and boards with their copies.

use super::board_calls::{are_done, are_same, copy_of};
use super::board_definitions::{IN_A_ROW, TWO_FILES};
use super::boards_from_texts::board_of;
use super::tree_rows::row_holds;
use llb_board::Board;
use std::alloc::Global;
use std::process::Abort;

// A board: its definition, the number of its workers, and the events that were done on it, a line each.
type Side = (&'static str, u32, &'static str);

const OPENED: Side = (TWO_FILES, 2, "");

const CLAIMED: Side = (TWO_FILES, 2, "claim 0 0");

const IN_A_ROW_OPENED: Side = (IN_A_ROW, 2, "");

const ON_A_CACHE: Side = ("locked: write /c/a x && false; RESULT_0", 2, "claim 0 0");

// A board; the events that are done on it after it was copied; and another board. Then: whether the copy equals the other board, and whether the copy equals
// the first board after these events.
type Copied = (Side, &'static str, Side, [bool; 2]);

const COPIES: &[Copied] = &[
    // Boards with the same events are equal.
    (OPENED, "", OPENED, [true, true]),
    (CLAIMED, "", OPENED, [false, true]),
    (CLAIMED, "", CLAIMED, [true, true]),
    // Two orders of the same two claims lead to one state, but to different records.
    (
        (TWO_FILES, 2, "claim 0 0\nclaim 1 1"),
        "",
        (TWO_FILES, 2, "claim 1 1\nclaim 0 0"),
        [false, true],
    ),
    // Boards with different numbers of workers, or over different files, differ.
    (OPENED, "", (TWO_FILES, 3, ""), [false, true]),
    (
        OPENED,
        "",
        ("MAKES_Z; MAKES_B; MERGES_0_1; RESULT_2", 2, ""),
        [false, true],
    ),
    // A copy does not change when the board changes.
    (OPENED, "claim 0 0", OPENED, [true, false]),
    (CLAIMED, "step 0", CLAIMED, [true, false]),
    (
        IN_A_ROW_OPENED,
        "claim 0 0\nstep 0",
        IN_A_ROW_OPENED,
        [true, false],
    ),
    (ON_A_CACHE, "step 0", ON_A_CACHE, [true, false]),
];

fn board_at(rt: &impl Abort, alloc: Global, side: &Side) -> Board {
    let mut board = board_of(rt, alloc, side.0, "", side.1);
    assert!(rt; are_done(&mut board, side.2));
    board
}

fn compared(rt: &impl Abort, alloc: Global, row: &Copied) -> [bool; 2] {
    let mut board = board_at(rt, alloc, &row.0);
    let copy = copy_of(&board).expect(rt, "memory");
    assert!(rt; are_done(&mut board, row.1));
    let other = board_at(rt, alloc, &row.2);
    [are_same(&copy, &other), are_same(&copy, &board)]
}

#[test]
fn a_copy_is_the_board_that_it_was_made_of(rt: HostRuntime) {
    for (at, row) in COPIES.iter().enumerate() {
        row_holds(&rt, at, compared(&rt, rt.alloc(), row) == row.3);
    }
}
