//! Runs of many workers, each in a thread of its own. The workers take their vertices from one queue.

use super::board_calls::{are_same, replayed};
use super::board_definitions::TWO_FILES;
use super::boards_from_texts::{board_from, board_of, push_entries};
use super::gates::{Counting, Open};
use super::tree_rows::is_so;
use super::worker_stories::is_answered;
use llb_board::{Board, Gate, Stopped};
use llb_stepper::Stepper;
use llb_wire::Same;
use llb_work::{RunEnd, run_workers};
use std::alloc::Global;
use std::fmt::Write;
use std::process::Abort;
use std::sync::atomic::{AtomicU64, Ordering};
use std::thread;

// A gate that holds a worker at a vertex whose number is below `count` until `count` workers have arrived. The gate stops a worker that has yielded to other
// threads 1,000,000 times while it waited.
#[derive(Drop)]
struct Gather {
    count: u64,
    arrived: AtomicU64,
}

impl Gate for Gather {
    ghost use Rattle.std.specs.Prelude.{true};

    ghost may_stop = { λ _ _. true };

    fn pass(&self, _w: u32, v: u32) -> Result<(), Stopped> {
        if u64::from(v) >= self.count {
            return Ok(());
        }
        self.arrived.fetch_add(1, Ordering::SeqCst);
        for _turn in 0..1_000_000u32 {
            if self.arrived.load(Ordering::SeqCst) >= self.count {
                return Ok(());
            }
            thread::yield_now();
        }
        Err(Stopped)
    }
}

// Appends `count` entries that make the files `/00`, `/01` and so on.
fn push_files(rt: &impl Abort, text: &mut String, count: u32) {
    for i in 0..count {
        let entry = write!(
            text,
            "op {{\nfile {{\nactions {{\ninput -1\nmkfile {{\npath \"/{i:02}\"\nmode 420\n}}\n}}\n}}\n}}\n"
        );
        entry.expect(rt, "memory");
    }
}

fn push_digests(rt: &impl Abort, text: &mut String, count: u32) {
    for i in 0..count {
        write!(text, "inputs {{\ndigest %{i}\n}}\n").expect(rt, "memory");
    }
}

fn push_layers(rt: &impl Abort, text: &mut String, count: u32) {
    for i in 0..count {
        write!(text, "inputs {{\ninput {i}\n}}\n").expect(rt, "memory");
    }
}

// Appends a merge of the outputs of the first `count` entries, and the terminal that names the merge.
pub(crate) fn push_merge(rt: &impl Abort, text: &mut String, count: u32) {
    text.push_str("op {\n").expect(rt, "memory");
    push_digests(rt, text, count);
    text.push_str("merge {\n").expect(rt, "memory");
    push_layers(rt, text, count);
    write!(text, "}}\n}}\nop {{\ninputs {{\ndigest %{count}\n}}\n}}\n").expect(rt, "memory");
}

// Returns how many events the first `workers` workers did in all, and the smallest number that one of them did. Returns `None` if there is a fault, or if the
// board is not complete.
pub(crate) fn counts(end: &RunEnd, workers: usize) -> Option<(u64, u64)> {
    if end.fault.is_some() || !end.board.is_complete() {
        return None;
    }
    let mut all = 0u64;
    let mut least = u64::MAX;
    for made in end.made.iter().take(workers) {
        all = all.wrapping_add(*made);
        least = least.min(*made);
    }
    Some((all, least))
}

#[test]
fn sixty_four_workers_are_at_work_together(rt: HostRuntime) {
    let gate = Gather {
        count: 64,
        arrived: AtomicU64::new(0),
    };
    let mut text = String::new(rt.alloc());
    push_files(&rt, &mut text, 64);
    push_merge(&rt, &mut text, 64);
    let board = board_from(&rt, rt.alloc(), text.as_str(), 64);
    let end = run_workers(&rt, rt.alloc(), board, &gate);
    is_so(&rt, matches!(counts(&end, 64), Some((258, 3..))));
}

// Returns whether the merge is the only user of each file's vertex, and has no users itself.
fn have_users(board: &Board) -> bool {
    board.users(0) == [2].as_slice()
        && board.users(1) == [2].as_slice()
        && board.users(2).is_empty()
        && board.users(9).is_empty()
}

#[test]
fn users_are_those_that_have_an_edge_to_a_vertex(rt: HostRuntime) {
    let board = board_of(&rt, rt.alloc(), TWO_FILES, "", 2);
    is_so(&rt, have_users(&board));
}

// Returns whether the first output of a vertex is the same tree on both boards.
pub(crate) fn have_one_tree(one: &Board, other: &Board, v: u32) -> bool {
    match (one.output(v, 0), other.output(v, 0)) {
        (Some(tree), Some(wanted)) => tree.same(wanted),
        _ => false,
    }
}

const ON_CACHES: &str =
    "locked: write /c/a x; locked: write /c/b y; private: write /c/a x; private: write /c/b y; \
    shared: append /c/l a && append /c/l b; shared: append /c/l c && append /c/l d";

// Returns a board over a definition with `count` entries and then a merge of their outputs. The entries are in the text `entries`, with `; ` between them.
pub(crate) fn merge_on(
    rt: &impl Abort,
    alloc: Global,
    entries: &str,
    count: u32,
    workers: u32,
) -> Board {
    let mut text = String::new(alloc);
    push_entries(rt, &mut text, entries);
    push_merge(rt, &mut text, count);
    board_from(rt, alloc, text.as_str(), workers)
}

// Returns a board of six execs and a merge of their outputs. Two execs mount a locked cache, two a private one and two a shared one.
fn on_caches(rt: &impl Abort, alloc: Global) -> Board {
    merge_on(rt, alloc, ON_CACHES, 6, 64)
}

#[test]
fn a_record_of_threads_on_caches_is_replayed(rt: HostRuntime) {
    let alloc = rt.alloc();
    let end = run_workers(&rt, alloc, on_caches(&rt, alloc), &Open);
    is_so(&rt, end.fault.is_none());
    let mut stepper = Stepper::new(alloc, on_caches(&rt, alloc));
    let stop = replayed(&mut stepper, end.board.events().as_slice());
    is_so(&rt, stop.is_some() && are_same(stepper.board(), &end.board));
}

// The gate counts how often it lets a worker begin with one of the vertices 0 to 3, and how often with one of the others: 4 and 5, which mount the shared
// cache, and 6, the merge.
#[test]
fn each_vertex_passes_the_gate_once(rt: HostRuntime) {
    let gate = Counting::new(4);
    let end = run_workers(&rt, rt.alloc(), on_caches(&rt, rt.alloc()), &gate);
    is_so(&rt, matches!(counts(&end, 64), Some((28, _))));
    is_so(&rt, gate.passed() == (4, 3));
}

const ON_ONE_CACHE: &str = "locked: write /c/a x; locked: write /c/b y; locked: write /c/d z";

const WRITTEN: &str = "
    > instance locked 0
    d 0755 0 0 /
    f 0644 0 0 780a /a
    f 0644 0 0 790a /b
    f 0644 0 0 7a0a /d
    > leases
    0
    ";

// Three vertices mount one locked cache. While one worker holds the cache, a claim by the other worker is refused; the refused vertex waits until the cache
// is free.
#[test]
fn a_vertex_whose_cache_is_held_is_taken_later(rt: HostRuntime) {
    let alloc = rt.alloc();
    let gate = Counting::new(3);
    let board = merge_on(&rt, alloc, ON_ONE_CACHE, 3, 2);
    let mut end = run_workers(&rt, alloc, board, &gate);
    is_so(&rt, matches!(counts(&end, 2), Some((14, _))));
    is_so(&rt, gate.passed() == (3, 1));
    is_so(&rt, is_answered(&rt, alloc, &mut end.board, WRITTEN));
}
