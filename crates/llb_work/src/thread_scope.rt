//! Runs one thread for each worker, in a thread scope of their own; the workers share one lock.

ghost use Rattle.std.specs.Prelude.{◌≡◌, ◌≤◌, sum, IfOk, IfErr};
ghost use Rattle.llb_work.specs.WorkerShares.{IsHandedOut, IsGivenBack};
ghost use Rattle.llb_work.specs.RunEnds.{AllowsStops, AreLeft};

use crate::early_end::{Gated, Noted};
use crate::event_counts::count_record;
use crate::idle_workers::Idle;
use crate::locked_value::Watch;
use crate::shared_board::{SharedBoard, make_shared_board};
use crate::starting_supplies::{Supply, make_supply, put_ready};
use crate::worker_shares::{GivenBack, HandOut};
use llb_board::{Board, Gate};
use llb_ready::ReadyQueue;
use std::alloc::Global;
use std::sync::ledger::{Blank, Share};
use std::sync::{Mutex, Wait};
use std::thread;
use std::thread::Threads;

/// What all workers of a run share: the runtime, the allocator, the board under its lock, the queue, what idle workers look at to wait, and the gate.
#[derive_where(Clone, Copy)]
pub(crate) struct Crew<'x, S: Gated, G, R> {
    pub rt: &'x R,
    pub alloc: Global,
    pub board: &'x Mutex<Watch<S>>,
    pub queue: &'x ReadyQueue,
    pub idle: &'x Idle,
    pub gate: &'x G,
}

impl<'x, S: Gated + Send + Sync, G: Gate + Sync, R: Threads + Wait + Sync> Crew<'x, S, G, R> {
    // Runs all workers in a thread scope of their own.
    fn run(self, out: HandOut<S>) -> GivenBack<S>
        requires stop { AllowsStops G.may_stop S.may_stop }
        requires out { IsHandedOut self.queue.now out }
        ensures back { IsGivenBack self.entry.queue.now out.workers result }
    {
        thread::scope(
            thread::scope_env(),
            self.rt,
            move |scope| -> GivenBack<S>
                requires stop { AllowsStops G.may_stop S.may_stop }
                requires out { IsHandedOut self.queue.now out }
                ensures back { IsGivenBack self.entry.queue.now out.workers result }
            { self.all_serve(scope, out) },
        )
    }
}

/// What a run in threads begins with: the board, a copy of it, a ledger that has counted no events yet, and how many workers there are.
#[derive(Drop)]
pub(crate) struct CrewStart {
    pub board: Board,
    pub start: Board,
    pub blank: Blank,
    pub workers: u32,
}

/// What is left when the threads have ended: the board; the board that the run began from, which was kept under the lock; how many events each worker made; and
/// the fault that was noted first.
#[derive(Drop)]
pub(crate) struct CrewEnd {
    pub board: Board,
    pub start: Board,
    pub made: [u64; 64],
    pub noted: Option<Noted>,
}

/// Runs a board in one thread for each of its workers. The copy of the board in `begin` is kept unchanged under the lock. If memory is refused for
/// what the workers need, nothing is done, and the board is returned as it was given.
pub(crate) fn run_crew<S: Gated + Send + Sync, G: Gate + Sync, R: Threads + Wait + Sync>(
    rt: &R,
    alloc: Global,
    begin: CrewStart,
    gate: &G,
) -> Result<CrewEnd, Board>
    requires name { begin.blank.name ≡ S.name }
    requires parts { (begin.blank.parts ≡ S.parts) × (begin.blank.parts ≡ begin.workers) }
    requires few { begin.workers ≤ 64 }
    requires same { begin.start ≡ begin.board }
    requires start { begin.board ≡ S.start }
    requires stop { AllowsStops G.may_stop S.may_stop }
    ensures refused { IfErr result (λ board. board ≡ begin.board) }
    ensures left { IfOk result (AreLeft S.may_stop begin.board) }
{
    let CrewStart {
        board,
        start,
        blank,
        workers,
    } = begin;
    let Some(supply) = make_supply::<S>(alloc, &board, workers) else {
        return Err(board);
    };
    let Supply {
        queue,
        pass,
        lists,
        threads,
        waiters,
        waits,
        plain,
    } = supply;
    let pass = put_ready(rt, &queue, &board, pass);
    let (calls, share) = blank.open::<S>();
    let shared = make_shared_board(board, start, plain, waiters, calls);
    let board = Mutex::new(Watch::new(shared, waits));
    let idle = Idle::new();
    let crew = Crew {
        rt,
        alloc,
        board: &board,
        queue: &queue,
        idle: &idle,
        gate,
    };
    let back = crew.run(HandOut {
        workers,
        share,
        pass,
        lists,
        threads,
    });
    let GivenBack { share, made, pass } = back;
    queue.close(pass);
    Ok(closed(board.into_inner().into_shared(), share, made))
}

// Closes the ledger in which the workers of a run count their events. The run's threads must have ended and given back all shares of the ledger. Also
// counts the events of the record that no worker has counted.
fn closed<S: Gated>(shared: SharedBoard<S>, share: Share<S>, made: [u64; 64]) -> CrewEnd
    requires whole { share.parts ≡ S.parts }
    requires made { share.amount ≡ sum made }
    ensures { AreLeft S.may_stop S.start result }
{
    let SharedBoard {
        board,
        start,
        calls,
        counted,
        noted,
        ..
    } = shared;
    let mut calls = calls;
    let mut share = share;
    let mut made = made;
    calls.audit(&mut share);
    count_record(&board, counted, &mut made);
    CrewEnd {
        board,
        start,
        made,
        noted,
    }
}
