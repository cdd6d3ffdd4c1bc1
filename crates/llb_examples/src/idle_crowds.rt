//! Runs of at most 31 vertices by 1 to 64 workers. Of 64 workers, most have nothing to do and sleep. Some runs go to the end, some are stopped by a gate, and
//! some begin on a board that already has events.

use super::board_calls::{are_same, is_event_done, replayed};
use super::boards_from_texts::board_from;
use super::many_threads::{counts, have_one_tree, push_merge};
use super::tree_rows::row_holds;
use llb_board::{Board, Event, Gate, Status, Stopped, WorkerStatus};
use llb_stepper::Stepper;
use llb_work::{RunEnd, RunFault, run_alone, run_workers};
use std::alloc::Global;
use std::fmt::Write;
use std::process::Abort;
use std::sync::Wait;
use std::sync::atomic::{AtomicU64, Ordering};
use std::thread;
use std::thread::Threads;

// A gate that lets every worker pass. At every third vertex the worker first yields to other threads 20 times.
struct Slow;

impl Gate for Slow {
    ghost use Rattle.std.specs.Prelude.{false};

    ghost may_stop = { λ _ _. false };

    fn pass(&self, _w: u32, v: u32) -> Result<(), Stopped> {
        if v.is_multiple_of(3) {
            for _turn in 0..20u32 {
                thread::yield_now();
            }
        }
        Ok(())
    }
}

// A gate that stops every worker at the vertex with this number, and lets workers pass at all other vertices.
struct Shut(u32);

impl Gate for Shut {
    ghost use Rattle.std.specs.Prelude.{true};

    ghost may_stop = { λ _ _. true };

    fn pass(&self, _w: u32, v: u32) -> Result<(), Stopped> {
        if v == self.0 { Err(Stopped) } else { Ok(()) }
    }
}

// A gate that lets workers pass ten times, and then stops every worker.
#[derive(Drop)]
struct Ten {
    passed: AtomicU64,
}

impl Ten {
    fn new() -> Ten {
        Ten {
            passed: AtomicU64::new(0),
        }
    }
}

impl Gate for Ten {
    ghost use Rattle.std.specs.Prelude.{true};

    ghost may_stop = { λ _ _. true };

    fn pass(&self, _w: u32, _v: u32) -> Result<(), Stopped> {
        if self.passed.fetch_add(1, Ordering::SeqCst) < 10 {
            return Ok(());
        }
        Err(Stopped)
    }
}

// What the vertices of a graph do. In a `Chain` each vertex makes a file on the output of the vertex before it; in a `Fan` each makes a file on the empty
// tree. In the last three shapes each vertex runs a command on one or two caches.
#[derive(Clone, Copy)]
enum Shape {
    Chain,
    Fan,
    // Every third vertex runs a command that fails; the others are as in a `Chain`.
    Failing,
    // All vertices use one locked cache.
    Locked,
    // Each vertex uses two of three locked caches, a different two from one vertex to the next.
    TwoOfThree,
    // The vertices use a shared, a private and a locked cache in turn.
    Mixed,
}

fn push_file(rt: &impl Abort, text: &mut String, before: Option<u32>, v: u32) {
    match before {
        Some(before) => write!(
            text,
            "op {{\ninputs {{\ndigest %{before}\n}}\nfile {{\nactions {{\n"
        ),
        None => write!(text, "op {{\nfile {{\nactions {{\ninput -1\n"),
    }
    .expect(rt, "memory");
    write!(
        text,
        "mkfile {{\npath \"/f{v}\"\nmode 420\n}}\n}}\n}}\n}}\n"
    )
    .expect(rt, "memory");
}

// Appends an exec. Its command is `script` with the number `v` after it. Its mounts are the empty tree at `/`, and a cache for each pair of an ID and a mode.
fn push_command(rt: &impl Abort, text: &mut String, script: &str, v: u32, caches: &[(u32, u32)]) {
    write!(
        text,
        "op {{\nexec {{\nmeta {{\nargs \"/bin/sh\"\nargs \"-c\"\nargs \"{script}{v}\"\ncwd \"/\"\n}}\nmounts {{\ninput -1\ndest \"/\"\n}}\n"
    )
    .expect(rt, "memory");
    for (id, sharing) in caches {
        write!(
            text,
            "mounts {{\ninput -1\ndest \"/c{id}\"\noutput -1\nmountType 3\ncacheOpt {{\nID \"{id}\"\nsharing {sharing}\n}}\n}}\n"
        )
        .expect(rt, "memory");
    }
    text.push_str("}\n}\n").expect(rt, "memory");
}

fn push_vertex(rt: &impl Abort, text: &mut String, shape: Shape, v: u32) {
    match shape {
        Shape::Chain => push_file(rt, text, v.checked_sub(1), v),
        Shape::Fan => push_file(rt, text, None, v),
        Shape::Failing if v.is_multiple_of(3) => push_command(rt, text, "cp /none /f", v, &[]),
        Shape::Failing => push_file(rt, text, v.checked_sub(1), v),
        Shape::Locked => push_command(rt, text, "append /c0/l ", v, &[(0, 2)]),
        Shape::TwoOfThree => {
            let caches = [(v % 3, 2), (v.wrapping_add(1) % 3, 2)];
            push_command(rt, text, "mkdir /d", v, &caches);
        }
        Shape::Mixed => push_command(rt, text, "append /c0/l ", v, &[(0, v % 3)]),
    }
}

// Returns the assembler's text of `count` vertices, a merge of their outputs, and the terminal.
fn definition(rt: &impl Abort, alloc: Global, shape: Shape, count: u32) -> String {
    let mut text = String::new(alloc);
    for v in 0..count {
        push_vertex(rt, &mut text, shape, v);
    }
    push_merge(rt, &mut text, count);
    text
}

// Returns whether a run completed its board without a fault, and its workers did `events` events.
fn is_whole(end: &RunEnd, events: u64) -> bool {
    matches!(counts(end, 64), Some((all, _)) if all == events)
}

// Runs a graph `runs` times. Returns whether each run completes its board without a fault, with `events` events.
fn all_end<R: Abort + Threads + Wait + Sync>(
    rt: &R,
    alloc: Global,
    text: &str,
    workers: u32,
    runs: u32,
    events: u64,
) -> bool {
    for _run in 0..runs {
        let board = board_from(rt, alloc, text, workers);
        if !is_whole(&run_workers(rt, alloc, board, &Slow), events) {
            return false;
        }
    }
    true
}

// Returns the number that a failure shows for a case: the shape at index `at`, run by this number of workers. The number of workers is below 100, so different
// cases have different numbers.
fn row(at: usize, workers: u32) -> usize {
    at.wrapping_mul(100).wrapping_add(workers as usize)
}

#[test]
fn runs_by_any_number_of_workers_end(rt: HostRuntime) {
    let rows = [
        (Shape::Chain, 122),
        (Shape::Fan, 122),
        (Shape::Failing, 30),
        (Shape::Locked, 122),
        (Shape::TwoOfThree, 122),
        (Shape::Mixed, 122),
    ];
    for (at, (shape, events)) in rows.iter().enumerate() {
        let text = definition(&rt, rt.alloc(), *shape, 30);
        for workers in [1, 2, 3, 64] {
            let whole = all_end(&rt, rt.alloc(), text.as_str(), workers, 4, *events);
            row_holds(&rt, row(at, workers), whole);
        }
    }
}

// Returns whether no worker runs anything, and no lease is current.
fn are_idle(board: &Board, workers: u32) -> bool {
    for w in 0..workers {
        if board.worker(w) != Some(WorkerStatus::Idle) {
            return false;
        }
    }
    board.caches().leases() == 0
}

// Returns whether a run was stopped before its board was complete, no worker runs anything, and no lease is current.
fn is_stopped(end: &RunEnd, workers: u32) -> bool {
    matches!(end.fault, Some(RunFault::Stopped))
        && !end.board.is_complete()
        && are_idle(&end.board, workers)
}

#[test]
fn a_stop_ends_the_run_of_those_that_sleep_and_leaves_nobody_at_work(rt: HostRuntime) {
    let shapes = [
        Shape::Chain,
        Shape::Fan,
        Shape::Locked,
        Shape::TwoOfThree,
        Shape::Mixed,
    ];
    for (at, shape) in shapes.iter().enumerate() {
        let text = definition(&rt, rt.alloc(), *shape, 30);
        for workers in [1, 3, 64] {
            let board = board_from(&rt, rt.alloc(), text.as_str(), workers);
            let end = run_workers(&rt, rt.alloc(), board, &Shut(29));
            row_holds(&rt, row(at, workers), is_stopped(&end, workers));
        }
    }
}

// Replays the record of the board `end` on the board `opened`. Returns whether this leads to a board equal to `end`.
fn is_replayed(alloc: Global, opened: Board, end: &Board) -> bool {
    let mut stepper = Stepper::new(alloc, opened);
    let stop = replayed(&mut stepper, end.events().as_slice());
    stop.is_some() && are_same(stepper.board(), end)
}

// Completes a board by `run_alone`. Returns whether this succeeds, and the first output of vertex `v` is then the same tree as on the board `wanted`.
fn is_completed(board: Board, wanted: &Board, v: u32) -> bool {
    let end = run_alone(board);
    end.fault.is_none() && end.board.is_complete() && have_one_tree(&end.board, wanted, v)
}

// A graph has 31 vertices, and the gate lets workers pass only ten times.
#[test]
fn workers_that_are_stopped_in_the_middle_leave_what_one_driver_completes(rt: HostRuntime) {
    let shapes = [
        Shape::Chain,
        Shape::Fan,
        Shape::Locked,
        Shape::TwoOfThree,
        Shape::Mixed,
    ];
    for (at, shape) in shapes.iter().enumerate() {
        let text = definition(&rt, rt.alloc(), *shape, 30);
        let whole = run_alone(board_from(&rt, rt.alloc(), text.as_str(), 1));
        for workers in [3, 64] {
            let board = board_from(&rt, rt.alloc(), text.as_str(), workers);
            let end = run_workers(&rt, rt.alloc(), board, &Ten::new());
            row_holds(&rt, row(at, workers), is_stopped(&end, workers));
            let opened = board_from(&rt, rt.alloc(), text.as_str(), workers);
            let replayed = is_replayed(rt.alloc(), opened, &end.board);
            let completed = is_completed(end.board, &whole.board, 30);
            row_holds(&rt, row(at, workers), replayed && completed);
        }
    }
}

fn is_cancel(event: &Event) -> bool {
    matches!(event, Event::Cancel(_))
}

// Returns whether vertex 0, which worker 1 already ran before the run, is done, and whether the only cancel is that of vertex 1.
fn is_ended(end: &RunEnd) -> bool {
    let cancels = end
        .board
        .events()
        .as_slice()
        .iter()
        .copied()
        .filter(is_cancel);
    cancels.count() == 1
        && end.board.status(0) == Some(Status::Done)
        && end.board.status(1) == Some(Status::Ready)
        && are_idle(&end.board, 2)
}

// Worker 1 already runs vertex 0 when the run begins. The gate stops any worker at vertex 1.
#[test]
fn what_a_worker_ran_before_is_ended_though_another_is_stopped(rt: HostRuntime) {
    for (at, shape) in [Shape::Fan, Shape::Mixed].iter().enumerate() {
        let text = definition(&rt, rt.alloc(), *shape, 2);
        let mut board = board_from(&rt, rt.alloc(), text.as_str(), 2);
        let claimed = is_event_done(&mut board, Event::Claim(1, 0));
        let end = run_workers(&rt, rt.alloc(), board, &Shut(1));
        row_holds(&rt, at, claimed && is_ended(&end));
    }
}

#[test]
fn a_board_is_run_on_from_the_middle(rt: HostRuntime) {
    for (at, shape) in [Shape::Chain, Shape::Fan, Shape::Locked].iter().enumerate() {
        let text = definition(&rt, rt.alloc(), *shape, 30);
        for workers in [2, 64] {
            let mut board = board_from(&rt, rt.alloc(), text.as_str(), workers);
            let claimed = is_event_done(&mut board, Event::Claim(1, 0));
            let end = run_workers(&rt, rt.alloc(), board, &Slow);
            row_holds(&rt, row(at, workers), claimed && is_whole(&end, 121));
        }
    }
}
