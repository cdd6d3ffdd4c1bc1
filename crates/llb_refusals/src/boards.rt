//! Calls on boards while memory is refused: opening a board, claims, steps, copies, and the work on a job. A row describes a board by the number of its
//! workers, `: ` and the entries of its definition. If the board has local trees, ` on ` and the local trees follow; if events are to be done on the board,
//! ` after ` and the events follow.

use super::board_rows::ROWS;
use super::refused_growths::{Row, Trial, are_refused};
use super::value_texts::{printed_fault, printed_text};
use super::values_from_texts::{graph_of, locals_of};
use llb_board::{
    Board, ClaimFault, Event, Events, Gate, Job, Memory, OpenFault, Outcome, Status, StepFault,
    Stepped, Stopped, WorkFault, work,
};
use llb_cache::Caches;
use llb_loader::{Graph, Locals};
use llb_session::{Looks, Request, request_in};
use llb_wire::Same;
use std::alloc::Global;
use std::mem;
use std::process::Abort;

/// A gate that stops no worker.
pub(crate) struct Open;

impl Gate for Open {
    ghost use Rattle.std.specs.Prelude.{false};

    ghost may_stop = { λ _ _. false };

    fn pass(&self, _w: u32, _v: u32) -> Result<(), Stopped> {
        Ok(())
    }
}

// What a board is opened on.
#[derive(Drop)]
struct Parts {
    graph: Graph,
    locals: Locals,
    caches: Caches,
}

#[derive(Drop)]
enum Answer {
    None,
    Opened(Result<Board, OpenFault>),
    Claimed(Result<Job, ClaimFault>),
    Stepped(Result<Stepped, StepFault>),
    Copied(Result<Board, Memory>),
    Events(Result<Events, Memory>),
    Worked(Result<Outcome, WorkFault>),
    Looked(bool),
}

/// What the text in a test's row says of a board: how it is opened, and the events that are then done on it.
#[derive(Clone, Copy)]
pub(crate) struct Written {
    pub workers: u32,
    pub definition: &'static str,
    pub locals: &'static str,
    pub events: &'static str,
}

pub(crate) fn board_in(rt: &impl Abort, text: &'static str) -> Written {
    let (opened, events) = text.split_once(" after ").unwrap_or((text, ""));
    let (head, locals) = opened.split_once(" on ").unwrap_or((opened, ""));
    let (workers, definition) = head.split_once(": ").expect(rt, "a definition");
    Written {
        workers: workers.parse::<u32>().ok().expect(rt, "a number"),
        definition,
        locals,
        events,
    }
}

fn opened(parts: Parts, workers: u32, alloc: Global) -> Answer {
    let Parts {
        graph,
        locals,
        caches,
    } = parts;
    if caches.leases() != 0 {
        return Answer::None;
    }
    Answer::Opened(Board::open(alloc, graph, locals, caches, workers))
}

fn parts_of(rt: &impl Abort, alloc: Global, written: &Written) -> Parts {
    Parts {
        graph: graph_of(rt, alloc, written.definition),
        locals: locals_of(rt, alloc, written.locals),
        caches: Caches::new(alloc),
    }
}

/// Returns the board that a row describes, but without the board's events.
pub(crate) fn board_on(rt: &impl Abort, alloc: Global, written: &Written) -> Board {
    match opened(parts_of(rt, alloc, written), written.workers, alloc) {
        Answer::Opened(Ok(board)) => board,
        _ => panic!(rt; "no board"),
    }
}

pub(crate) fn event_in(line: &str) -> Option<Event> {
    match request_in(Looks::Refused, line.as_bytes()) {
        Some(Request::Event(event)) => Some(event),
        _ => None,
    }
}

fn claimed(board: &mut Board, w: u32, v: u32) -> Answer {
    Answer::Claimed(board.claim(w, v))
}

fn stepped(board: &mut Board, w: u32) -> Answer {
    Answer::Stepped(board.step(w))
}

fn is_claimed(board: &mut Board, w: u32, v: u32) -> bool {
    board.claim(w, v).is_ok()
}

fn is_stepped(board: &mut Board, w: u32) -> bool {
    board.step(w).is_ok()
}

fn is_settled(board: &mut Board, w: u32) -> bool {
    board.settle(w).is_ok()
}

fn is_cancelled(board: &mut Board, w: u32) -> bool {
    board.cancel(w).is_ok()
}

fn is_done(board: &mut Board, event: Event) -> bool {
    match event {
        Event::Claim(w, v) => is_claimed(board, w, v),
        Event::Step(w) => is_stepped(board, w),
        Event::Settle(w) => is_settled(board, w),
        Event::Cancel(w) => is_cancelled(board, w),
    }
}

/// Returns the board that a row describes, with the board's events done. Ends the test if one of the events is refused.
pub(crate) fn board_of(rt: &impl Abort, alloc: Global, written: &Written) -> Board {
    let mut board = board_on(rt, alloc, written);
    for line in written.events.split("; ") {
        if let Some(event) = event_in(line) {
            assert!(rt; is_done(&mut board, event), "{line}");
        }
    }
    board
}

pub(crate) fn copy_of(rt: &impl Abort, board: &Board) -> Board {
    board.copy().ok().expect(rt, "memory")
}

pub(crate) fn are_same(board: &Board, other: &Board) -> bool {
    board.same(other)
}

// What a board is opened on; equal parts to compare with; and the result of the latest opening.
#[derive(Drop)]
struct OnParts {
    workers: u32,
    parts: Option<Parts>,
    twin: Parts,
    answer: Answer,
}

impl OnParts {
    // Returns the parts (graph, local trees and caches) for the next opening: those that `ready` made or, if the latest opening was refused memory, those that
    // its fault holds.
    fn taken(&mut self) -> Option<Parts> {
        let answer = mem::replace(&mut self.answer, Answer::None);
        match answer {
            Answer::Opened(Err(OpenFault::Memory(graph, locals, caches))) => {
                Some(Parts {
                    graph,
                    locals,
                    caches,
                })
            }
            _ => self.parts.take(),
        }
    }

    fn is_like(&self, graph: &Graph, locals: &Locals, caches: &Caches) -> bool {
        graph.same(&self.twin.graph)
            && locals.same(&self.twin.locals)
            && caches.same(&self.twin.caches)
    }
}

impl Trial for OnParts {
    fn ready(rt: &impl Abort, alloc: Global, row: &Row) -> OnParts {
        let written = board_in(rt, row.1);
        OnParts {
            workers: written.workers,
            parts: Some(parts_of(rt, alloc, &written)),
            twin: parts_of(rt, alloc, &written),
            answer: Answer::None,
        }
    }

    fn call(&mut self, alloc: Global) {
        if let Some(parts) = self.taken() {
            self.answer = opened(parts, self.workers, alloc);
        }
    }

    fn printed(&self, rt: &impl Abort, alloc: Global) -> String {
        match &self.answer {
            Answer::Opened(Ok(board)) => printed_fault(rt, alloc, &board.graph().vertices().len()),
            Answer::Opened(Err(fault)) => printed_fault(rt, alloc, fault),
            _ => printed_text(rt, alloc, "nothing"),
        }
    }

    fn is_as_before(&mut self, _rt: &impl Abort, _alloc: Global) -> bool {
        match &self.answer {
            Answer::Opened(Err(OpenFault::Memory(graph, locals, caches))) => {
                self.is_like(graph, locals, caches)
            }
            _ => false,
        }
    }
}

pub(crate) const TWO_FILES: &str = "2: MAKES_A; MAKES_B; MERGES_0_1; RESULT 2";

const OPENINGS: &[Row] = &[
    ("open", TWO_FILES, "123", "3"),
    (
        "open",
        "64: MAKES_A; MAKES_B; MERGES_0_1; RESULT 2",
        "123",
        "3",
    ),
    (
        "open",
        "2: SOURCE_P; SOURCE_Q; CHANGES_0_BY_1; RESULT 2 on p=OLD q=F",
        "123",
        "3",
    ),
    (
        "open",
        "2: SOURCE_P; SOURCE_Q; CHANGES_0_BY_1; RESULT 2 on p=OLD",
        "123",
        "121 q",
    ),
];

#[test]
fn openings(rt: HostRuntime) {
    are_refused::<OnParts>(&rt, rt.alloc(), OPENINGS);
}

// The board on which the call is made; an equal board, `twin`; an equal board on which the event of the call was then done, `goal`; and jobs, for a call that
// takes a job.
#[derive(Drop)]
struct OnBoard {
    call: &'static str,
    board: Board,
    twin: Board,
    goal: Board,
    jobs: Vec<Job>,
    answer: Answer,
}

fn job_of(board: &mut Board, v: u32) -> Option<Job> {
    board.claim(0, v).ok()
}

// Claims vertex `v` for worker 0, and appends the job.
fn push_job(rt: &impl Abort, jobs: &mut Vec<Job>, board: &mut Board, v: u32) {
    let job = job_of(board, v).expect(rt, "a job");
    jobs.push(job).expect(rt, "memory");
}

fn worked(alloc: Global, jobs: &mut Vec<Job>) -> Answer {
    match jobs.pop() {
        Some(job) => Answer::Worked(work(alloc, job, &Open)),
        None => Answer::None,
    }
}

fn has_view(board: &Board) -> Answer {
    Answer::Looked(board.worked_on(0, 1).is_some())
}

fn has_cache(board: &Board) -> Answer {
    Answer::Looked(board.cached(0, 0).is_some())
}

fn copied(board: &Board) -> Answer {
    Answer::Copied(board.copy())
}

fn events_copied(board: &Board) -> Answer {
    Answer::Events(board.events().copy())
}

fn event_done(board: &mut Board, event: Event) -> Answer {
    match event {
        Event::Claim(w, v) => claimed(board, w, v),
        Event::Step(w) => stepped(board, w),
        _ => Answer::None,
    }
}

fn board_called(board: &mut Board, call: &str) -> Answer {
    match event_in(call) {
        Some(event) => event_done(board, event),
        None => Answer::None,
    }
}

// Returns the words `W at V, NAME`: worker `w` works on vertex `v`; NAME is `the board` if the board is the expected one, and `another` if it is not.
fn printed_work(rt: &impl Abort, alloc: Global, w: u32, v: u32, name: &str) -> String {
    format!(in alloc; "{w} at {v}, {name}").expect(rt, "memory")
}

// Returns in words what a micro-step did, and then `name`: `the board` if the board is the expected one, and `another` if it is not.
fn printed_stepped(rt: &impl Abort, alloc: Global, stepped: Stepped, name: &str) -> String {
    format!(in alloc; "{stepped:?}, {name}").expect(rt, "memory")
}

fn name_of(is_same: bool) -> &'static str {
    if is_same { "the board" } else { "another" }
}

impl OnBoard {
    // Returns `the board` if the board equals `goal`, on which the event of the call was done; otherwise returns `another`.
    fn behind(&self) -> &'static str {
        name_of(self.board.same(&self.goal))
    }

    fn printed_claim(&self, rt: &impl Abort, alloc: Global, job: &Job) -> String {
        printed_work(rt, alloc, job.worker(), job.vertex(), self.behind())
    }

    fn printed_step(&self, rt: &impl Abort, alloc: Global, stepped: Stepped) -> String {
        printed_stepped(rt, alloc, stepped, self.behind())
    }

    fn printed_events(&self, events: &Events) -> &'static str {
        let are_same = events.as_slice() == self.twin.events().as_slice();
        if are_same { "the events" } else { "others" }
    }

    // Returns, for a call that is a claim, whether the vertex of the claim is Ready. Returns true for any other call.
    fn is_ready(&self) -> bool {
        match event_in(self.call) {
            Some(Event::Claim(_, v)) => self.board.status(v) == Some(Status::Ready),
            _ => true,
        }
    }
}

fn printed_outcome(rt: &impl Abort, alloc: Global, outcome: &Outcome) -> String {
    let (count, is_failed) = (outcome.count(), outcome.fault().is_some());
    format!(in alloc; "{count} done, {is_failed}").expect(rt, "memory")
}

impl OnBoard {
    // Makes the call, and returns its result.
    fn answered(&mut self, alloc: Global) -> Answer {
        match self.call {
            "Board::copy" => copied(&self.board),
            "Events::copy" => events_copied(&self.board),
            "Board::worked_on" => has_view(&self.board),
            "Board::cached" => has_cache(&self.board),
            call if call.starts_with("work ") => worked(alloc, &mut self.jobs),
            call => board_called(&mut self.board, call),
        }
    }
}

impl Trial for OnBoard {
    fn ready(rt: &impl Abort, alloc: Global, row: &Row) -> OnBoard {
        let (call, on, _, _) = *row;
        let is_copy = on.starts_with("copy of ");
        let written = board_in(rt, on.strip_prefix("copy of ").unwrap_or(on));
        let mut board = board_of(rt, alloc, &written);
        let mut twin = board_of(rt, alloc, &written);
        let mut goal = board_of(rt, alloc, &written);
        let mut jobs = Vec::new(alloc);
        if let Some(vertex) = call.strip_prefix("work ") {
            let v = vertex.parse::<u32>().ok().expect(rt, "a number");
            push_job(rt, &mut jobs, &mut board, v);
            push_job(rt, &mut jobs, &mut goal, v);
            push_job(rt, &mut jobs, &mut twin, v);
        } else {
            let _ = board_called(&mut goal, call);
        }
        if is_copy {
            twin = copy_of(rt, &board);
        }
        OnBoard {
            call,
            board,
            twin,
            goal,
            jobs,
            answer: Answer::None,
        }
    }

    fn call(&mut self, alloc: Global) {
        self.answer = self.answered(alloc);
    }

    fn printed(&self, rt: &impl Abort, alloc: Global) -> String {
        match &self.answer {
            Answer::Claimed(Ok(job)) => self.printed_claim(rt, alloc, job),
            Answer::Stepped(Ok(stepped)) => self.printed_step(rt, alloc, *stepped),
            Answer::Copied(Ok(copy)) => printed_text(rt, alloc, name_of(copy.same(&self.twin))),
            Answer::Events(Ok(events)) => printed_text(rt, alloc, self.printed_events(events)),
            Answer::Worked(Ok(outcome)) => printed_outcome(rt, alloc, outcome),
            Answer::Looked(true) => printed_text(rt, alloc, "a tree"),
            Answer::Claimed(Err(fault)) => printed_fault(rt, alloc, fault),
            Answer::Stepped(Err(fault)) => printed_fault(rt, alloc, fault),
            Answer::Worked(Err(fault)) => printed_fault(rt, alloc, fault),
            Answer::Copied(Err(fault)) | Answer::Events(Err(fault)) => printed_fault(
                rt, alloc, fault,
            ),
            _ => printed_text(rt, alloc, "nothing"),
        }
    }

    fn is_as_before(&mut self, _rt: &impl Abort, _alloc: Global) -> bool {
        self.board.same(&self.twin)
            && self.board.caches().leases() == self.twin.caches().leases()
            && self.is_ready()
    }
}

#[test]
fn boards(rt: HostRuntime) {
    are_refused::<OnBoard>(&rt, rt.alloc(), ROWS);
}
