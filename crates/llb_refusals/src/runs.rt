//! Runs to the end while memory is refused, on one thread and in several; and the queue that these threads share.

use super::boards::{Open, TWO_FILES, are_same, board_in, board_of, board_on};
use super::refused_growths::{
    MOST, Row, Trial, are_refused, is_lack, print_count, refuse, refuse_thread, was_refused,
};
use super::value_texts::{is_same, printed_fault, printed_text, printed_tree};
use llb_board::{Board, Status, WorkerStatus};
use llb_ready::{ReadyFault, ReadyQueue};
use llb_samples::tree_text;
use llb_stepper::Stepper;
use llb_work::{RunEnd, run_alone, run_workers};
use std::alloc::Global;
use std::process::Abort;
use std::sync::Wait;
use std::thread::Threads;

fn alone(board: Board) -> RunEnd {
    run_alone(board)
}

fn replayed(stepper: &mut Stepper, board: &Board) -> bool {
    stepper.replay(board.events().as_slice()).is_ok()
}

// Replays the record of a run on `opened`, a board that was opened in the same way. Returns whether this leads to the board at the end of the run, and
// whether the length of the record is `before` (the length before the run) plus the workers' counts of events.
fn is_replayed(alloc: Global, end: &RunEnd, opened: Board, before: usize) -> bool {
    let mut stepper = Stepper::new(alloc, opened);
    let mut made = before as u64;
    for count in &end.made {
        made = made.wrapping_add(*count);
    }
    replayed(&mut stepper, &end.board)
        && are_same(stepper.board(), &end.board)
        && made == end.board.events().len() as u64
}

// Returns the tree of the result of a run, or the fault of the run.
fn printed_end(rt: &impl Abort, alloc: Global, end: &RunEnd) -> String {
    let edge = end.board.graph().result();
    match (&end.fault, end.board.output(edge.vertex, edge.index)) {
        (Some(fault), _) => printed_fault(rt, alloc, fault),
        (None, Some(tree)) if end.board.is_complete() => printed_tree(rt, alloc, tree),
        _ => printed_text(rt, alloc, "no result"),
    }
}

// The text by which a row describes a board; the board; and the end of the latest run.
#[derive(Drop)]
struct OnRun {
    on: &'static str,
    board: Option<Board>,
    end: Option<RunEnd>,
}

impl OnRun {
    // Returns the board for the next run: first the board that `ready` made, and later the board with which the latest run ended.
    fn taken(&mut self) -> Option<Board> {
        match self.end.take() {
            Some(
                RunEnd {
                    board,
                    made: _,
                    fault: _,
                },
            ) => Some(board),
            None => self.board.take(),
        }
    }
}

impl Trial for OnRun {
    fn ready(rt: &impl Abort, alloc: Global, row: &Row) -> OnRun {
        OnRun {
            on: row.1,
            board: Some(board_on(rt, alloc, &board_in(rt, row.1))),
            end: None,
        }
    }

    fn call(&mut self, _alloc: Global) {
        if let Some(board) = self.taken() {
            self.end = Some(alone(board));
        }
    }

    fn printed(&self, rt: &impl Abort, alloc: Global) -> String {
        match &self.end {
            Some(end) => printed_end(rt, alloc, end),
            None => printed_text(rt, alloc, "nothing"),
        }
    }

    // Returns whether a replay of the run's record, on a board that was opened in the same way, leads to the board at the end of the run. The board itself
    // may have changed: the events that were done before the refusal stay in the record.
    fn is_as_before(&mut self, rt: &impl Abort, alloc: Global) -> bool {
        let opened = board_on(rt, alloc, &board_in(rt, self.on));
        match &self.end {
            Some(end) => is_replayed(alloc, end, opened, 0),
            None => false,
        }
    }
}

const RUNS: &[Row] = &[
    (
        "run_alone",
        "1: MAKES_A; RESULT 0",
        "151",
        "d 0755 0 0 /\nf 0644 0 0 6869 /a\n",
    ),
    ("run_alone", TWO_FILES, "151", BOTH),
    ("run_alone", ON_A_CACHE, "151", "EMPTY"),
    (
        "run_alone",
        "1: sh: false || write /x a && true; RESULT 0",
        "151",
        "d 0755 0 0 /\nf 0644 0 0 610a /x\n",
    ),
];

const ON_A_CACHE: &str = "2: locked: write /c/a x; locked: write /c/b y; MERGES_0_1; RESULT 2";

const BOTH: &str = "d 0755 0 0 /\nf 0644 0 0 6869 /a\nf 0644 0 0 686f /b\n";

#[test]
fn runs_alone(rt: HostRuntime) {
    are_refused::<OnRun>(&rt, rt.alloc(), RUNS);
}

fn crew<R: Threads + Wait + Sync>(rt: &R, alloc: Global, board: Board) -> RunEnd {
    run_workers(rt, alloc, board, &Open)
}

// Returns whether no worker runs anything, and no lease of a cache is current.
fn are_idle(board: &Board) -> bool {
    for w in 0..64 {
        if matches!(board.worker(w), Some(WorkerStatus::Runs(..))) {
            return false;
        }
    }
    board.caches().leases() == 0
}

pub(crate) fn printed_alone(rt: &impl Abort, alloc: Global, board: Board) -> String {
    printed_end(rt, alloc, &alone(board))
}

// Runs a board in threads while the `k`-th request for memory is refused. Checks that the run ends with a fault that the row has, or completes without that
// memory; that the record is right (`is_replayed`); and that `run_alone` completes the run's board. Returns whether this request was made and refused.
fn is_growth<R: Abort + Threads + Wait + Sync>(rt: &R, alloc: Global, row: &Row, k: usize) -> bool {
    let (_, on, lacks, wanted) = *row;
    let board = board_on(rt, alloc, &board_in(rt, on));
    let opened = board_on(rt, alloc, &board_in(rt, on));
    refuse(alloc, k);
    let end = crew(rt, alloc, board);
    let is_refused = was_refused(alloc);
    let printed = printed_end(rt, alloc, &end);
    let is_done = printed.as_str() == tree_text(wanted);
    assert!(rt;
        is_done || is_refused && is_lack(printed.as_str(), lacks),
        "growth {k}: {printed}"
    );
    assert!(rt; is_replayed(alloc, &end, opened, 0), "growth {k}");
    assert!(rt; are_idle(&end.board), "growth {k}");
    let RunEnd {
        board,
        made: _,
        fault: _,
    } = end;
    is_same(
        rt,
        printed_alone(rt, alloc, board).as_str(),
        tree_text(wanted),
    );
    is_refused
}

fn growths<R: Abort + Threads + Wait + Sync>(rt: &R, alloc: Global, row: &Row) -> usize {
    for k in 1..MOST {
        if !is_growth(rt, alloc, row, k) {
            return k.saturating_sub(1);
        }
    }
    panic!(rt; "no end of growths");
}

const CREWS: &[Row] = &[
    (
        "run_workers",
        "1: MAKES_A; MAKES_B; MERGES_0_1; RESULT 2",
        "151 or 153 or done",
        BOTH,
    ),
    ("run_workers", TWO_FILES, "151 or 153 or done", BOTH),
    ("run_workers", ON_A_CACHE, "151 or 153 or done", "EMPTY"),
    (
        "run_workers",
        "2: shared: append /c/l a && append /c/l b; RESULT 0",
        "151 or 153 or done",
        "EMPTY",
    ),
    (
        "run_workers",
        "3: MAKES_A; MAKES_B; MERGES_0_1; RESULT 2",
        "151 or 153 or done",
        BOTH,
    ),
    (
        "run_workers",
        "64: MAKES_A; MAKES_B; MERGES_0_1; RESULT 2",
        "151 or 153 or done",
        BOTH,
    ),
];

#[test]
fn runs_by_threads(rt: HostRuntime) {
    for row in CREWS {
        let count = growths(&rt, rt.alloc(), row);
        print_count(&rt, count, row);
    }
}

// Returns whether vertex `v` is done; true if `v` is `None`.
fn is_done(board: &Board, v: Option<u32>) -> bool {
    match v {
        Some(v) => board.status(v) == Some(Status::Done),
        None => true,
    }
}

// Returns the vertex that the worker of thread `k` runs. Threads are counted from 1, so this is worker `k - 1`.
fn run_by(board: &Board, k: usize) -> Option<u32> {
    let worker = u32::try_from(k.checked_sub(1)?).ok()?;
    match board.worker(worker) {
        Some(WorkerStatus::Runs(v, _, _)) => Some(v),
        _ => None,
    }
}

// Runs a board while the start of thread `k` is refused. Checks that the run then has the row's fault; that the record is right (`is_replayed`); that no worker
// runs anything in the end; and that `run_alone` completes the run's board. If the thread's worker already runs a vertex when the run begins, checks that this
// vertex is done in the end. Returns whether the start was refused.
fn is_thread<R: Abort + Threads + Wait + Sync>(rt: &R, alloc: Global, row: &Row, k: usize) -> bool {
    let (_, on, fault, wanted) = *row;
    let written = board_in(rt, on);
    let board = board_of(rt, alloc, &written);
    let before = board.events().len();
    let part = run_by(&board, k);
    refuse_thread(alloc, k);
    let end = crew(rt, alloc, board);
    let is_refused = was_refused(alloc);
    let printed = printed_end(rt, alloc, &end);
    is_same(
        rt,
        printed.as_str(),
        if is_refused { fault } else { wanted },
    );
    let opened = board_on(rt, alloc, &written);
    assert!(rt; is_replayed(alloc, &end, opened, before), "thread {k}");
    assert!(rt; is_done(&end.board, part), "thread {k}");
    assert!(rt; are_idle(&end.board), "thread {k}");
    let RunEnd {
        board,
        made: _,
        fault: _,
    } = end;
    is_same(rt, printed_alone(rt, alloc, board).as_str(), wanted);
    is_refused
}

fn threads<R: Abort + Threads + Wait + Sync>(rt: &R, alloc: Global, row: &Row) -> usize {
    for k in 1..MOST {
        if !is_thread(rt, alloc, row, k) {
            return k.saturating_sub(1);
        }
    }
    panic!(rt; "no end of threads");
}

// Boards. Each board is run once for each thread, and in that run the thread can't be started. In the first two rows every worker but the first already runs a
// vertex; in the last row only the second worker and the last worker do.
const THREADS: &[Row] = &[
    (
        "run_workers",
        "4: MAKES_A; MAKES_B; MAKES_P; MERGES_0_1_2; RESULT 3 after claim 1 0; claim 2 1; claim 3 2",
        "153",
        "d 0755 0 0 /\nf 0644 0 0 6869 /a\nf 0644 0 0 686f /b\nf 0644 0 0 32 /p\n",
    ),
    (
        "run_workers",
        "3: locked: write /c/a x; MAKES_B; MERGES_0_1; RESULT 2 after claim 1 0; claim 2 1",
        "153",
        "d 0755 0 0 /\nf 0644 0 0 686f /b\n",
    ),
    (
        "run_workers",
        "64: MAKES_A; MAKES_B; MERGES_0_1; RESULT 2 after claim 1 0; claim 63 1",
        "153",
        BOTH,
    ),
];

#[test]
fn runs_without_a_thread(rt: HostRuntime) {
    for row in THREADS {
        let count = threads(&rt, rt.alloc(), row);
        print_count(&rt, count, row);
    }
}

// The result of the latest call, which makes a queue and closes it.
#[derive(Drop)]
struct OnQueue {
    answer: Option<Result<(), ReadyFault>>,
}

impl Trial for OnQueue {
    fn ready(_rt: &impl Abort, _alloc: Global, _row: &Row) -> OnQueue {
        OnQueue { answer: None }
    }

    fn call(&mut self, alloc: Global) {
        self.answer = Some(match ReadyQueue::new(alloc, 2) {
            Ok((queue, pass)) => {
                queue.close(pass);
                Ok(())
            }
            Err(fault) => Err(fault),
        });
    }

    fn printed(&self, rt: &impl Abort, alloc: Global) -> String {
        match &self.answer {
            Some(Ok(())) => printed_text(rt, alloc, "a queue"),
            Some(Err(fault)) => printed_fault(rt, alloc, fault),
            None => printed_text(rt, alloc, "nothing"),
        }
    }

    fn is_as_before(&mut self, _rt: &impl Abort, _alloc: Global) -> bool {
        true
    }
}

#[test]
fn queues(rt: HostRuntime) {
    are_refused::<OnQueue>(
        &rt,
        rt.alloc(),
        &[("ReadyQueue::new", "2", "145", "a queue")],
    );
}
