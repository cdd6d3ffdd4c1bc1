//! Calls on boards and steppers. Each is in a function without clauses, since a story only compares the values that a call returns.

use llb_board::{Board, Event, Gate, Job, LandFault, OpenFault, Outcome, WorkFault, work};
use llb_cache::Caches;
use llb_loader::{Graph, Locals};
use llb_session::{Looks, Request, request_in};
use llb_stepper::{Break, Stepper, Stop};
use llb_wire::Same;
use std::alloc::Global;
use std::process::Abort;

// Opens a board. Ends the test if a lease of the caches is current.
pub(crate) fn opened(
    rt: &impl Abort,
    alloc: Global,
    graph: Graph,
    locals: Locals,
    caches: Caches,
    workers: u32,
) -> Result<Board, OpenFault> {
    assert!(rt; caches.leases() == 0);
    Board::open(alloc, graph, locals, caches, workers)
}

// Returns the event that a line of a session asks for; `None` if the line asks for no event.
pub(crate) fn event_in(line: &str) -> Option<Event> {
    match request_in(Looks::Refused, line.as_bytes()) {
        Some(Request::Event(event)) => Some(event),
        _ => None,
    }
}

fn is_claimed(board: &mut Board, w: u32, v: u32) -> bool {
    board.claim(w, v).is_ok()
}

fn is_stepped(board: &mut Board, w: u32) -> bool {
    board.step(w).is_ok()
}

fn is_settled(board: &mut Board, w: u32) -> bool {
    board.settle(w).is_ok()
}

fn is_cancelled(board: &mut Board, w: u32) -> bool {
    board.cancel(w).is_ok()
}

pub(crate) fn is_event_done(board: &mut Board, event: Event) -> bool {
    match event {
        Event::Claim(w, v) => is_claimed(board, w, v),
        Event::Step(w) => is_stepped(board, w),
        Event::Settle(w) => is_settled(board, w),
        Event::Cancel(w) => is_cancelled(board, w),
    }
}

fn is_done(board: &mut Board, line: &str) -> bool {
    match event_in(line) {
        Some(event) => is_event_done(board, event),
        None => false,
    }
}

// Does the events of a text, which are written as in a session, up to the first that is refused. Returns whether all events were granted.
pub(crate) fn are_done(board: &mut Board, events: &str) -> bool {
    for line in events.lines() {
        if !is_done(board, line) {
            return false;
        }
    }
    true
}

pub(crate) fn are_same(one: &Board, other: &Board) -> bool {
    one.same(other)
}

pub(crate) fn copy_of(board: &Board) -> Option<Board> {
    board.copy().ok()
}

fn claimed(board: &mut Board, w: u32, v: u32) -> Option<Job> {
    board.claim(w, v).ok()
}

// Claims vertex `v` for worker `w`, and works on the job, with a gate that may stop the work. Returns the outcome, or the number of the fault: 0 if the claim
// is refused, 143 if the gate stopped the work, 142 if memory was refused.
pub(crate) fn worked<G: Gate>(
    alloc: Global,
    board: &mut Board,
    w: u32,
    v: u32,
    gate: &G,
) -> Result<Outcome, u32> {
    let Some(job) = claimed(board, w, v) else {
        return Err(0);
    };
    match work(alloc, job, gate) {
        Ok(outcome) => Ok(outcome),
        Err(WorkFault::Stopped) => Err(143),
        Err(WorkFault::Memory) => Err(142),
    }
}

// Lands an outcome for worker `w`. Returns 0, or the number of the fault with which the outcome does not land.
pub(crate) fn landed(board: &mut Board, w: u32, outcome: Outcome) -> u32 {
    match board.land(w, outcome) {
        Ok(_) => 0,
        Err(LandFault::NoWorker(_)) => 131,
        Err(LandFault::NotRunning(_)) => 136,
        Err(LandFault::Stranger(_)) => 139,
        Err(LandFault::HasShared(_)) => 140,
    }
}

pub(crate) fn breaks_at(stepper: &mut Stepper, stop: Break) -> bool {
    stepper.break_at(stop).is_ok()
}

pub(crate) fn replayed(stepper: &mut Stepper, events: &[Event]) -> Option<Stop> {
    stepper.replay(events).ok()
}

pub(crate) fn goes_back(stepper: &mut Stepper) -> bool {
    stepper.back().is_ok()
}
