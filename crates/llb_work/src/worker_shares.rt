//! Hands out to each of at most 64 workers, and takes back: a part of the pass of the queue (the right to use the queue), a share of the ledger that counts
//! events, and a list for the numbers of vertices.

ghost use Rattle.std.specs.Prelude.{◌≡◌, ◌≤◌, ◌^◌, vec_len};
ghost use Rattle.llb_ready.specs.QueuePasses.{hand_of, IsReadyPassOf};
ghost use Rattle.llb_work.specs.WorkerShares.{IsHandedOut, IsGivenBack};
ghost use Rattle.llb_work.specs.WorkerPasses.{IsPassFor};
ghost use Rattle.llb_work.specs.RunEnds.{AllowsStops};
ghost use Rattle.llb_work.specs.Threads.{ThreadKeeps, AllKeep};

use crate::early_end::{Gated, Noted};
use crate::event_counts::{Tally, make_tally};
use crate::thread_scope::Crew;
use crate::worker::WorkerKit;
use crate::worker_thread::{Owed, WorkerThread};
use llb_board::Gate;
use llb_ready::ReadyPass;
use std::snapshot::Snapshot;
use std::sync::Wait;
use std::sync::ledger::{Ledger, Share};
use std::thread::{Scope, Threads};

/// What is handed out to n workers: all shares of the ledger (which counts events), the whole pass of the queue, for each worker a list for vertex numbers, and
/// room for the threads.
#[derive(Drop)]
pub(crate) struct HandOut<S: Ledger> {
    pub workers: u32,
    pub share: Share<S>,
    pub pass: ReadyPass,
    pub lists: Vec<Vec<u32>>,
    pub threads: Vec<WorkerThread<S>>,
}

/// What all workers have given back: their shares of the ledger (which counts events), how many events each has made, and the whole pass of the queue.
#[derive(Drop)]
pub(crate) struct GivenBack<S: Ledger> {
    pub share: Share<S>,
    pub made: [u64; 64],
    pub pass: ReadyPass,
}

impl<'x, S: Gated + Send + Sync, G: Gate + Sync, R: Threads + Wait + Sync> Crew<'x, S, G, R> {
    /// Starts a thread for each worker, with a part of the queue's pass, a share of the ledger (which counts events) and a list for numbers of vertices. Joins
    /// all threads, and returns what the workers give back.
    pub(crate) fn all_serve<E>(self, scope: &Scope<'x, E>, out: HandOut<S>) -> GivenBack<S>
        requires stop { AllowsStops G.may_stop S.may_stop }
        requires out { IsHandedOut self.queue.now out }
        ensures back { IsGivenBack self.entry.queue.now out.workers result }
    {
        let HandOut {
            workers,
            share,
            pass,
            lists,
            threads,
        } = out;
        let mut all = share;
        let mut rest = pass;
        let mut threads = threads;
        let mut w = 0;
        for news in lists {
            let tally = make_tally(all.split_off(1, 0));
            let (kept, pass) = self.queue.split(rest);
            rest = kept;
            let kit = WorkerKit { tally, pass, news };
            threads.push_reserved(self.start(scope, w, kit));
            w += 1;
        }
        self.gathered(workers, all, rest, threads)
    }

    // Starts a thread for a worker. If that fails, notes the failure and does the worker's work on this thread.
    fn start<E>(self, scope: &Scope<'x, E>, w: u32, kit: WorkerKit<S>) -> WorkerThread<S>
        requires stop { AllowsStops G.may_stop S.may_stop }
        requires pass { IsPassFor self.queue.now w kit.pass }
        ensures { ThreadKeeps self.entry.queue.now w result }
    {
        let owed = Owed {
            queue: Snapshot::of(self.queue),
            worker: w,
        };
        let part = move || -> WorkerKit<S>
            requires stop { AllowsStops G.may_stop S.may_stop }
            requires pass { IsPassFor self.queue.now w kit.pass }
            ensures { IsPassFor self.entry.queue.now w result.pass }
        { self.serve(w, kit) };
        match scope.spawn_with(owed, part) {
            Ok(handle) => WorkerThread::Thread(handle),
            Err(refused) => {
                self.board.lock(self.rt).note(Noted::Thread);
                self.idle.end();
                WorkerThread::Here((refused.value)())
            }
        }
    }

    // Joins the workers' threads, in the order of the workers, and gathers what they give back.
    fn gathered(
        self,
        n: u32,
        all: Share<S>,
        rest: ReadyPass,
        threads: Vec<WorkerThread<S>>,
    ) -> GivenBack<S>
        requires empty { (all.parts ≡ 0) × (all.amount ≡ 0) }
        requires few { (vec_len threads ≡ n) × (n ≤ 64) }
        requires rest { IsReadyPassOf self.queue.now rest × ((hand_of rest).num ≡ 1) × ((hand_of rest).den ≡ 2 ^ n) }
        requires threads { AllKeep self.queue.now 0 threads.items }
        ensures { IsGivenBack self.entry.queue.now n result }
    {
        let mut all = all;
        let mut rest = rest;
        let mut made = [0u64; 64];
        let mut at = 0usize;
        for thread in threads {
            let WorkerKit { tally, pass, .. } = thread.join(self.rt, self.queue, at as u32);
            let Tally { made: some, share } = tally;
            all.merge(share);
            rest = self.queue.join(rest, pass);
            made[at] = some;
            at += 1;
        }
        GivenBack {
            share: all,
            made,
            pass: rest,
        }
    }
}
