//! Runs of two workers, each in a thread of its own, with a gate that holds a worker until the other worker has arrived.

use super::board_calls::{breaks_at, goes_back, replayed};
use super::board_definitions::TWO_FILES;
use super::boards_from_texts::board_of;
use super::tree_rows::{is_so, row_holds};
use llb_board::{Board, Event, Gate, Status, Stopped, WorkerStatus};
use llb_stepper::{Break, Stepper, Stop};
use llb_work::{RunEnd, RunFault, run_workers};
use std::sync::atomic::{AtomicU64, Ordering};
use std::thread;

// A gate that holds a worker at vertex 0 or 1 until two workers have arrived. The gate stops a worker that has yielded to other threads 100,000 times while
// it waited. For each vertex the gate keeps the number of the worker that passed.
#[derive(Drop)]
struct Meet {
    arrived: AtomicU64,
    first: AtomicU64,
    second: AtomicU64,
    third: AtomicU64,
}

impl Meet {
    fn new() -> Meet {
        Meet {
            arrived: AtomicU64::new(0),
            first: AtomicU64::new(64),
            second: AtomicU64::new(64),
            third: AtomicU64::new(64),
        }
    }

    fn seat(&self, v: u32) -> &AtomicU64 {
        match v {
            0 => &self.first,
            1 => &self.second,
            _ => &self.third,
        }
    }

    // Returns whether worker `w` has passed the gate at vertex `v`.
    fn let_pass(&self, w: u32, v: u32) -> bool {
        self.seat(v).load(Ordering::SeqCst) == u64::from(w)
    }
}

impl Gate for Meet {
    ghost use Rattle.std.specs.Prelude.{true};

    ghost may_stop = { λ _ _. true };

    fn pass(&self, w: u32, v: u32) -> Result<(), Stopped> {
        if v >= 2 {
            self.seat(v).store(u64::from(w), Ordering::SeqCst);
            return Ok(());
        }
        self.arrived.fetch_add(1, Ordering::SeqCst);
        for _turn in 0..100_000u32 {
            if self.arrived.load(Ordering::SeqCst) >= 2 {
                self.seat(v).store(u64::from(w), Ordering::SeqCst);
                return Ok(());
            }
            thread::yield_now();
        }
        Err(Stopped)
    }
}

// Returns how many of the events are claims; `None` if some claim's worker did not pass the gate at the claim's vertex.
fn claims_let_pass(events: &[Event], gate: &Meet) -> Option<u32> {
    let mut count = 0u32;
    for event in events {
        if let Event::Claim(w, v) = event {
            if !gate.let_pass(*w, *v) {
                return None;
            }
            count = count.wrapping_add(1);
        }
    }
    Some(count)
}

// Returns how many events one worker did and how many the other did, the smaller number first, and how many claims there are. Returns `None` if there is a
// fault, if the board is not complete, or if `claims_let_pass` returns `None`.
fn figures(end: &RunEnd, gate: &Meet) -> Option<(u64, u64, u32)> {
    let [first, second, ..] = end.made;
    let claims = claims_let_pass(end.board.events().as_slice(), gate)?;
    if end.fault.is_some() || !end.board.is_complete() {
        return None;
    }
    Some((first.min(second), first.max(second), claims))
}

// Returns whether one of the two files is made, and the worker of the other file has done its micro-step but has not settled.
fn is_half_made(board: &Board) -> bool {
    match (board.status(0), board.status(1)) {
        (Some(Status::Done), Some(Status::Running(w))) => {
            board.worker(w) == Some(WorkerStatus::Runs(1, 1, true))
        }
        (Some(Status::Running(w)), Some(Status::Done)) => {
            board.worker(w) == Some(WorkerStatus::Runs(0, 1, true))
        }
        _ => false,
    }
}

const AT_THE_MERGE: Stop = Stop {
    events: 7,
    at_break: true,
};

// Replays the record up to a breakpoint at the claim of the merge, and takes two events back. Returns whether the replay stops after seven events; whether
// five events are left; and whether one file is then made, and the vertex of the other file is finished but not settled.
fn is_walked(stepper: &mut Stepper, events: &[Event]) -> [bool; 3] {
    let broken = breaks_at(stepper, Break::Claims(2));
    let stopped = replayed(stepper, events) == Some(AT_THE_MERGE);
    let back = goes_back(stepper) && goes_back(stepper);
    let left = stepper.board().events().len() == 5;
    [
        broken && stopped,
        back && left,
        is_half_made(stepper.board()),
    ]
}

// The gate lets neither worker work before both files' vertices are claimed. So two claims, two steps and two settles come first, and the claim of the merge
// is the seventh event.
#[test]
fn two_workers_are_at_work_together_and_their_record_is_walked(rt: HostRuntime) {
    let alloc = rt.alloc();
    let gate = Meet::new();
    let board = board_of(&rt, alloc, TWO_FILES, "", 2);
    let end = run_workers(&rt, alloc, board, &gate);
    is_so(&rt, figures(&end, &gate) == Some((3, 7, 3)));
    let board = board_of(&rt, alloc, TWO_FILES, "", 2);
    let events = end.board.events().as_slice();
    is_so(
        &rt,
        is_walked(&mut Stepper::new(alloc, board), events) == [true; 3],
    );
}

// Returns whether the run was stopped at vertex 0: the record has a claim of vertex 0 and then its cancel, the vertex is Ready again, no lease of a cache is
// current, and the worker's count of events is 2.
fn is_stopped(end: &RunEnd) -> bool {
    let [first, ..] = end.made;
    matches!(end.fault, Some(RunFault::Stopped))
        && end.board.status(0) == Some(Status::Ready)
        && end.board.events().as_slice() == [Event::Claim(0, 0), Event::Cancel(0)].as_slice()
        && end.board.caches().leases() == 0
        && first == 2
}

#[test]
fn a_worker_alone_waits_for_nobody_and_is_stopped(rt: HostRuntime) {
    let board = board_of(&rt, rt.alloc(), TWO_FILES, "", 1);
    let end = run_workers(&rt, rt.alloc(), board, &Meet::new());
    is_so(&rt, is_stopped(&end));
}

// A definition with one vertex on a locked cache, and a definition with one vertex on a shared cache. On the shared cache, the micro-steps are done under the
// lock.
const ON_CACHES: &[&str] = &[
    "locked: write /c/a x; RESULT_0",
    "shared: write /c/a x; RESULT_0",
];

#[test]
fn a_worker_that_is_stopped_leaves_its_caches_free(rt: HostRuntime) {
    for (at, definition) in ON_CACHES.iter().enumerate() {
        let board = board_of(&rt, rt.alloc(), definition, "", 1);
        let end = run_workers(&rt, rt.alloc(), board, &Meet::new());
        row_holds(&rt, at, is_stopped(&end));
    }
}
