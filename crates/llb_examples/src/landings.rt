//! Work on jobs away from the board: the outcome of the work, gates that stop the work, and the boards on which the outcome lands.

use super::board_calls::{are_done, are_same, copy_of, landed, worked};
use super::board_definitions::TWO_FILES;
use super::boards_from_texts::board_of;
use super::gates::Open;
use super::tree_rows::{is_so, row_holds};
use llb_board::{Board, Event, Gate, Outcome, Status, Stopped};
use std::alloc::Global;
use std::process::Abort;

// A gate that stops every worker but worker 1.
struct Stops;

impl Gate for Stops {
    ghost use Rattle.std.specs.Prelude.{true};

    ghost may_stop = { λ w v. true };

    fn pass(&self, w: u32, _: u32) -> Result<(), Stopped> {
        if w == 1 { Ok(()) } else { Err(Stopped) }
    }
}

const OTHER_FILES: &str = "MAKES_Z; MAKES_B; MERGES_0_1; RESULT_2";

const FIRST_FAILS: &str = "MAKES_XA; MAKES_B; MERGES_0_1; RESULT_2";

const ON_A_SHARED_CACHE: &str =
    "shared: append /c/l a && append /c/l b; shared: append /c/l c && append /c/l d; MERGES_0_1; RESULT_2";

const SECOND_COMMAND_FAILS: &str =
    "locked: write /c/a x && false && true; locked: true; MERGES_0_1; RESULT_2";

const APPENDS: &str = "locked: append /c/l a && append /c/l b; RESULT_0";

// Claims vertex 0 of a new board for worker `w`, and works on the job with a gate. Returns the outcome, or the number of the fault.
fn outcome_from<G: Gate>(
    rt: &impl Abort,
    alloc: Global,
    definition: &str,
    w: u32,
    gate: &G,
) -> Result<Outcome, u32> {
    let mut board = board_of(rt, alloc, definition, "", 2);
    worked(alloc, &mut board, w, 0, gate)
}

// Works on a vertex as `outcome_from` does. Returns how many micro-steps were done, and whether the last one failed; or the number of the fault of the work.
fn counted<G: Gate>(
    rt: &impl Abort,
    alloc: Global,
    definition: &str,
    w: u32,
    gate: &G,
) -> Result<(u32, bool), u32> {
    match outcome_from(rt, alloc, definition, w, gate) {
        Ok(outcome) => Ok((outcome.count(), outcome.fault().is_some())),
        Err(fault) => Err(fault),
    }
}

// Definitions, and what `counted` returns for worker 0 if no gate stops the work on vertex 0.
const COUNTS: &[(&str, (u32, bool))] = &[
    (TWO_FILES, (1, false)),
    (FIRST_FAILS, (1, true)),
    (SECOND_COMMAND_FAILS, (2, true)),
];

#[test]
fn an_outcome_counts_what_was_left_up_to_a_fault(rt: HostRuntime) {
    for (at, (definition, wanted)) in COUNTS.iter().enumerate() {
        let counted = counted(&rt, rt.alloc(), definition, 0, &Open);
        row_holds(&rt, at, counted == Ok(*wanted));
    }
}

#[test]
fn a_gate_stops_whom_it_does_not_let_work(rt: HostRuntime) {
    let alloc = rt.alloc();
    is_so(&rt, counted(&rt, alloc, TWO_FILES, 0, &Stops) == Err(143));
    is_so(
        &rt,
        counted(&rt, alloc, TWO_FILES, 1, &Stops) == Ok((1, false)),
    );
}

// Which outcome lands on which board. A row has the definition that worker 0 works on, at vertex 0, to make the outcome; the definition of the board; the
// events that were done on the board; the worker for which the outcome is to land; and the number of the fault, or 0 if the outcome lands.
type Landing = (&'static str, &'static str, &'static str, u32, u32);

const CLAIMED: &str = "claim 0 0";

const LANDINGS: &[Landing] = &[
    // An outcome lands only if the worker that brings it runs a vertex on that board.
    (TWO_FILES, TWO_FILES, CLAIMED, 0, 0),
    (TWO_FILES, TWO_FILES, CLAIMED, 1, 136),
    (TWO_FILES, TWO_FILES, CLAIMED, 5, 131),
    (TWO_FILES, TWO_FILES, "", 0, 136),
    // An outcome does not land on a board over another graph, nor on a board on which the worker has done a step since the claim.
    (OTHER_FILES, TWO_FILES, CLAIMED, 0, 139),
    (TWO_FILES, TWO_FILES, "claim 0 0\nstep 0", 0, 139),
    // The outcome of a cancelled claim lands if the same worker claims the vertex again. It does not land for another worker, nor after a micro-step has
    // written to the vertex's cache.
    (TWO_FILES, TWO_FILES, "claim 0 0\ncancel 0\nclaim 0 0", 0, 0),
    (APPENDS, APPENDS, "claim 0 0\ncancel 0\nclaim 1 0", 1, 139),
    (
        APPENDS,
        APPENDS,
        "claim 0 0\nstep 0\ncancel 0\nclaim 0 0",
        0,
        139,
    ),
    (
        APPENDS,
        APPENDS,
        "claim 0 0\nstep 0\ncancel 0\nclaim 1 0",
        1,
        139,
    ),
    // The outcome of a vertex with a shared cache can't land.
    (ON_A_SHARED_CACHE, ON_A_SHARED_CACHE, CLAIMED, 0, 140),
];

// Lands the outcome of a row. Returns the number of the fault, or 0. Ends the test if the board has changed although the outcome does not land.
fn brought(rt: &impl Abort, alloc: Global, row: &Landing) -> u32 {
    let outcome = outcome_from(rt, alloc, row.0, 0, &Open);
    let mut board = board_of(rt, alloc, row.1, "", 2);
    assert!(rt; are_done(&mut board, row.2));
    assert!(rt; board.has_shared(row.3) == (row.4 == 140));
    let before = copy_of(&board).expect(rt, "memory");
    let fault = landed(&mut board, row.3, outcome.ok().expect(rt, "an outcome"));
    assert!(rt; fault == 0 || are_same(&board, &before));
    fault
}

#[test]
fn an_outcome_lands_where_its_worker_has_just_that_to_do(rt: HostRuntime) {
    for (at, row) in LANDINGS.iter().enumerate() {
        row_holds(&rt, at, brought(&rt, rt.alloc(), row) == row.4);
    }
}

// Returns whether landing an outcome does the vertex's remaining step and its settle on the board.
fn is_a_block(board: &mut Board, outcome: Outcome) -> [bool; 3] {
    let record = [Event::Claim(0, 0), Event::Step(0), Event::Settle(0)];
    let lands = landed(board, 0, outcome) == 0;
    [
        lands && board.status(0) == Some(Status::Done),
        board.events().as_slice() == record.as_slice(),
        board.output(0, 0).is_some(),
    ]
}

#[test]
fn a_landing_is_the_steps_that_are_left_and_the_settle(rt: HostRuntime) {
    let mut board = board_of(&rt, rt.alloc(), TWO_FILES, "", 2);
    let outcome = worked(rt.alloc(), &mut board, 0, 0, &Open);
    let outcome = outcome.ok().expect(&rt, "an outcome");
    is_so(&rt, is_a_block(&mut board, outcome) == [true; 3]);
}
