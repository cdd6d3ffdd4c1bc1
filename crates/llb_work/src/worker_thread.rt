//! A worker's thread: one of its own, or the caller's thread if none could be started.

use crate::worker::WorkerKit;
use llb_ready::ReadyQueue;
use std::snapshot::Snapshot;
use std::sync::ledger::Ledger;
use std::thread::{Promise, PromisedHandle, Threads};

/// What a worker has promised to give back: its part of the queue's pass. Only clauses read this promise.
#[derive(Drop)]
pub(crate) struct Owed {
    pub queue: Snapshot<ReadyQueue>,
    pub worker: u32,
}

impl<S: Ledger> Promise<WorkerKit<S>> for Owed {
    ghost use Rattle.llb_work.specs.WorkerPasses.{IsPassFor};

    ghost kept_by = { λ p r. IsPassFor p.queue.value p.worker r.pass };
}

/// The thread in which a worker works; or, if no thread could be started for it, the worker's kit, after its work was done on the caller's thread.
#[derive(Drop)]
pub(crate) enum WorkerThread<S: Ledger> {
    Thread(PromisedHandle<WorkerKit<S>, Owed>),
    Here(WorkerKit<S>),
}

impl<S: Ledger> WorkerThread<S> {
    ghost use Rattle.llb_work.specs.WorkerPasses.{IsPassFor};
    ghost use Rattle.llb_work.specs.Threads.{ThreadKeeps};

    /// Waits until the worker has ended, and returns what the worker held in its thread.
    pub(crate) fn join<R: Threads>(self, rt: &R, queue: &ReadyQueue, w: u32) -> WorkerKit<S>
        requires { ThreadKeeps queue.now w self }
        ensures { IsPassFor queue.now w result.pass }
    {
        match self {
            WorkerThread::Thread(handle) => handle.join(rt),
            WorkerThread::Here(kit) => kit,
        }
    }
}
