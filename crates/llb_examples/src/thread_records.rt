//! Records of workers in threads, on caches that are not shared. A stepper replays such a record line by line. One worker that takes the vertices in the
//! order of the record's claims leaves the same trees.

use super::board_calls::{are_same, is_event_done, replayed};
use super::gates::Open;
use super::many_threads::{have_one_tree, merge_on};
use super::tree_rows::row_holds;
use llb_board::{Board, Event, WorkerStatus};
use llb_stepper::{Stepper, Stop};
use llb_work::run_workers;
use std::alloc::Global;
use std::fmt::Write;
use std::process::Abort;

const DEFINITION: &str = "MAKES_A; MAKES_B; locked: write /c/a x && listing /c /seen; \
    locked: write /c/b y && listing /c /seen; sh: write /k v";

fn board_by(rt: &impl Abort, alloc: Global, workers: u32) -> Board {
    merge_on(rt, alloc, DEFINITION, 5, workers)
}

// The replies to the events of each vertex, in order; the last vertex is the merge of the others.
const ANSWERS: &[&[&str]] = &[
    &["file 1", "acted 0", "0 done"],
    &["file 1", "acted 0", "1 done"],
    &["exec 2", "ran 0 0", "ran 1 0", "2 done"],
    &["exec 2", "ran 0 0", "ran 1 0", "3 done"],
    &["exec 1", "ran 0 0", "4 done"],
    &[
        "merge 5", "merged 0", "merged 1", "merged 2", "merged 3", "merged 4", "5 done",
    ],
];

fn worker_of(event: Event) -> u32 {
    match event {
        Event::Claim(w, _) | Event::Step(w) | Event::Settle(w) | Event::Cancel(w) => w,
    }
}

// Returns the expected reply to the last of these events. It is in the row of `ANSWERS` for the vertex that the event's worker claimed last. Its position in
// this row, from 0, is how many events the worker has done since that claim.
fn answer_to(events: &[Event]) -> &'static str {
    let mut place = 0usize;
    let worker = events.last().map(|event| worker_of(*event));
    for event in events.iter().rev() {
        if Some(worker_of(*event)) == worker {
            if let Event::Claim(_, v) = event {
                let answers = ANSWERS.get(*v as usize).copied().unwrap_or(&[]);
                return answers.get(place).copied().unwrap_or("none");
            }
            place = place.saturating_add(1);
        }
    }
    "none"
}

// Returns the line that a session prints for the last of `events`, which are the beginning of a record.
fn line_of(rt: &impl Abort, alloc: Global, events: &[Event]) -> String {
    let (number, answer) = (events.len(), answer_to(events));
    let mut text = String::new(alloc);
    match events.last() {
        Some(Event::Claim(w, v)) => write!(text, "{number} claim {w} {v} -> {answer}"),
        Some(Event::Step(w)) => write!(text, "{number} step {w} -> {answer}"),
        Some(Event::Settle(w)) => write!(text, "{number} settle {w} -> {answer}"),
        Some(Event::Cancel(w)) => write!(text, "{number} cancel {w} -> {answer}"),
        None => Ok(()),
    }
    .expect(rt, "memory");
    text
}

fn is_line(rt: &impl Abort, alloc: Global, stepper: &Stepper, events: &[Event]) -> bool {
    match stepper.record_line(events.len() as u64) {
        Ok(Some(line)) => line.as_str() == line_of(rt, alloc, events).as_str(),
        _ => false,
    }
}

fn are_lines(rt: &impl Abort, alloc: Global, stepper: &Stepper, events: &[Event]) -> bool {
    for number in 1..=events.len() {
        let (first, _) = events.split_at(number);
        if !is_line(rt, alloc, stepper, first) {
            return false;
        }
    }
    true
}

// Claims vertex `v` for worker 0, and does the events that `Board::chosen` returns, up to the settle of the vertex. Returns whether all these events were
// granted.
fn is_run(board: &mut Board, v: u32) -> bool {
    let mut done = is_event_done(board, Event::Claim(0, v));
    for _ in 0..9 {
        if board.worker(0) == Some(WorkerStatus::Idle) {
            return done;
        }
        if let Some(event) = board.chosen() {
            done = done && is_event_done(board, event);
        }
    }
    false
}

// Runs to its end each vertex that these events claim, in the order of the claims. Returns whether all events of these runs are granted, and the board is
// complete afterwards.
fn are_run(board: &mut Board, events: &[Event]) -> bool {
    for event in events {
        if let Event::Claim(_, v) = event {
            if !is_run(board, *v) {
                return false;
            }
        }
    }
    board.is_complete()
}

// Returns whether two boards have the same trees in the vertices' first outputs and in the caches.
fn have_same_trees(one: &Board, other: &Board) -> bool {
    for v in 0..6 {
        if !have_one_tree(one, other, v) {
            return false;
        }
    }
    one.caches().has_same_trees(other.caches())
}

const WHOLE: Stop = Stop {
    events: 24,
    at_break: false,
};

// Replays the record of the board `ended` on a stepper, and runs the vertices by one worker in the order of the record's claims. Returns whether the replay
// does 24 events, leads to an equal board, and has for each event the line that `line_of` returns; and whether the run by one worker completes, and leaves the
// same trees.
fn is_record(rt: &impl Abort, alloc: Global, ended: &Board, workers: u32) -> [bool; 5] {
    let events = ended.events().as_slice();
    let mut stepper = Stepper::new(alloc, board_by(rt, alloc, workers));
    let stop = replayed(&mut stepper, events);
    let mut alone = board_by(rt, alloc, 1);
    [
        stop == Some(WHOLE),
        are_same(stepper.board(), ended),
        are_lines(rt, alloc, &stepper, events),
        are_run(&mut alone, events),
        have_same_trees(&alone, ended),
    ]
}

#[test]
fn a_record_of_threads_is_replayed_and_is_that_of_its_claims(rt: HostRuntime) {
    let alloc = rt.alloc();
    for workers in [2, 3, 64] {
        let end = run_workers(&rt, alloc, board_by(&rt, alloc, workers), &Open);
        let holds = is_record(&rt, alloc, &end.board, workers);
        row_holds(
            &rt,
            workers as usize,
            end.fault.is_none() && holds == [true; 5],
        );
    }
}
