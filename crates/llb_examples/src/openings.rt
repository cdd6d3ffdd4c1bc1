//! Tests what a board takes when it is opened, what a refused opening returns, and which caches a board leaves for the next
//! board. That a local tree is missing is tested where the program prints the tree's name (`tests/sources`).

use super::board_calls::{are_done, opened};
use super::board_definitions::D_ON_SECOND;
use super::boards_from_texts::{CacheRow, board_of, graph_from, needs_of};
use super::cache_instances::{K_LOCKED, K_SHARED};
use super::tree_rows::{is_so, row_holds};
use super::worker_stories::is_answered;
use llb_board::{Board, OpenFault};
use llb_cache::{Caches, Many};
use llb_laws::trees_with_names::caches_have_names;
use llb_loader::Locals;
use llb_samples::OLD_AND_F;
use std::alloc::Global;
use std::process::Abort;

// Numbers of workers, and, if the number is refused, how many vertices the returned graph has.
const WORKERS: &[(u32, Option<usize>)] = &[
    (0, Some(3)),
    (65, Some(3)),
    (u32::MAX, Some(3)),
    (1, None),
    (2, None),
    (64, None),
];

// Returns how many vertices the graph has that a refused opening returns, if the opening is refused because of the number of workers; else `None`.
fn vertices_back(fault: &OpenFault) -> Option<usize> {
    match fault {
        OpenFault::Workers(back, _, _) => Some(back.vertices().len()),
        _ => None,
    }
}

fn given_back(rt: &impl Abort, alloc: Global, workers: u32) -> Option<usize> {
    let graph = graph_from(rt, alloc, D_ON_SECOND);
    match opened(
        rt,
        alloc,
        graph,
        Locals::new(alloc),
        Caches::new(alloc),
        workers,
    ) {
        Ok(_) => None,
        Err(fault) => vertices_back(&fault),
    }
}

#[test]
fn a_number_of_workers_other_than_1_to_64_gives_the_graph_back(rt: HostRuntime) {
    for (workers, wanted) in WORKERS {
        let back = given_back(&rt, rt.alloc(), *workers);
        row_holds(&rt, *workers as usize, back == *wanted);
    }
}

const MERGES: &str = "SOURCE_P; SOURCE_Q; MERGES_0_1_EMPTY; RESULT_2";

#[test]
fn a_board_gives_back_what_it_was_opened_with(rt: HostRuntime) {
    let board = board_of(&rt, rt.alloc(), MERGES, OLD_AND_F, 1);
    let (graph, locals, _) = board.into_parts();
    is_so(
        &rt,
        graph.vertices().len() == 3 && locals.get("q").is_some(),
    );
}

#[test]
fn a_record_is_copied(rt: HostRuntime) {
    let mut board = board_of(&rt, rt.alloc(), D_ON_SECOND, "", 1);
    is_so(&rt, are_done(&mut board, "claim 0 0"));
    let record = board.events().copy().ok().expect(&rt, "memory");
    is_so(&rt, record.len() == 1);
}

// Returns the caches that a board has after these events.
fn left(rt: &impl Abort, alloc: Global, definition: &str, events: &str) -> Caches {
    let mut board = board_of(rt, alloc, definition, "", 2);
    assert!(rt; are_done(&mut board, events));
    let (_, _, caches) = board.into_parts();
    caches_have_names(&caches);
    caches
}

// Returns caches with an empty instance of each key, in the order of the rows.
fn in_order(rt: &impl Abort, alloc: Global, rows: &[CacheRow<'_>]) -> Caches {
    let needs = needs_of(rt, alloc, rows);
    let mut caches = Caches::new(alloc);
    if caches.can_lease(&needs) {
        let lease = caches.lease(Many::new(needs)).ok().expect(rt, "a lease");
        if caches.is_out(lease) {
            caches.give_back(lease);
        }
    }
    caches
}

#[test]
fn keys_stand_in_the_order_of_the_first_claims(rt: HostRuntime) {
    let definition = "locked: true; shared: true; MERGES_0_1; RESULT_2";
    let caches = left(&rt, rt.alloc(), definition, "claim 0 1\nclaim 1 0");
    is_so(
        &rt,
        caches.same(&in_order(&rt, rt.alloc(), &[K_SHARED, K_LOCKED])),
    );
    is_so(
        &rt,
        !caches.same(&in_order(&rt, rt.alloc(), &[K_LOCKED, K_SHARED])),
    );
}

// Calls on a board, with their results. The board was opened with the caches of another board, which was left in the middle of
// its run.
const BEHIND: &str = "
    > worker 0
    idle
    > leases
    0
    > instance locked 0
    d 0755 0 0 /
    f 0644 0 0 780a /a
    > job 1 1
    1 at 1, 0 done
    instance 0
    d 0755 0 0 /
    f 0644 0 0 780a /a
    > job 0 0
    135 k
    ";

fn opened_with(
    rt: &impl Abort,
    alloc: Global,
    definition: &str,
    caches: Caches,
    workers: u32,
) -> Result<Board, OpenFault> {
    let graph = graph_from(rt, alloc, definition);
    opened(rt, alloc, graph, Locals::new(alloc), caches, workers)
}

#[test]
fn a_board_that_is_left_in_the_middle_gives_its_caches_to_the_next(rt: HostRuntime) {
    let alloc = rt.alloc();
    let definition = "locked: write /c/a x && true; locked: write /c/b y; MERGES_0_1; RESULT_2";
    let caches = left(&rt, alloc, definition, "claim 0 0\nstep 0");
    let board = opened_with(&rt, alloc, definition, caches, 2);
    let mut board = board.ok().expect(&rt, "a board");
    is_so(&rt, is_answered(&rt, alloc, &mut board, BEHIND));
}

// Returns whether the fault refuses the number of workers, and holds caches equal to `caches`.
fn has_caches(fault: &OpenFault, caches: &Caches) -> bool {
    match fault {
        OpenFault::Workers(_, _, back) => back.same(caches),
        _ => false,
    }
}

#[test]
fn a_board_without_workers_gives_the_caches_back(rt: HostRuntime) {
    let alloc = rt.alloc();
    let definition = "private: write /c/a x; private: write /c/b y; MERGES_0_1; RESULT_2";
    let caches = left(&rt, alloc, definition, "claim 0 0\nstep 0");
    let copy = caches.copy().ok().expect(&rt, "memory");
    let fault = opened_with(&rt, alloc, definition, copy, 0).err();
    is_so(&rt, has_caches(&fault.expect(&rt, "a fault"), &caches));
}
