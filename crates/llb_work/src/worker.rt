//! One worker: it takes the lock for a moment, then works away from the lock, and so on. Away from the lock it puts the vertices' numbers that it
//! has noted into the queue, takes a number from the queue, passes the gate, or works on a job.

ghost use Rattle.std.specs.Prelude.{◌≡◌, true, IfSome};
ghost use Rattle.llb_work.specs.WorkerPasses.{IsPassFor};
ghost use Rattle.llb_work.specs.RunEnds.{is_of, AllowsStops};
ghost use Rattle.llb_work.specs.Tasks.{IsReport, IsClaimed, IsHere};

use crate::early_end::{Gated, Noted};
use crate::event_counts::Tally;
use crate::shared_board::{Report, Task};
use crate::thread_scope::Crew;
use crossbeam_utils::Backoff;
use llb_board::{Gate, Job, WorkFault, work};
use llb_ready::ReadyPass;
use std::sync::Wait;
use std::sync::ledger::Ledger;

/// What a worker holds in its thread and gives back: its count of events, its part of the queue's pass, and the vertex numbers that it still has to put into
/// the queue (the last one is put first).
#[derive(Drop)]
pub(crate) struct WorkerKit<S: Ledger> {
    pub tally: Tally<S>,
    pub pass: ReadyPass,
    pub news: Vec<u32>,
}

impl<'x, S: Gated, G: Gate, R: Wait> Crew<'x, S, G, R> {
    /// Ends what worker `w` runs, then takes one number after another from the queue and works on the vertex of that number, until the board is complete or a
    /// fault is noted. A worker that meets a fault itself reports the fault at the lock, cancels there what it runs, and ends at once.
    pub(crate) fn serve(self, w: u32, kit: WorkerKit<S>) -> WorkerKit<S>
        requires stop { AllowsStops G.may_stop S.may_stop }
        requires pass { IsPassFor self.queue.now w kit.pass }
        ensures { IsPassFor self.entry.queue.now w result.pass }
    {
        let mut kit = kit;
        let mut report = Report::Nothing;
        for _i in self.rt.forever() {
            let (task, owners) = self
                .board
                .lock(self.rt)
                .next_task(w, report, &mut kit.tally, &mut kit.news);
            let put = self.put_all(w, &mut kit);
            let own = usize::from(matches!(task, Task::Next));
            self.idle.wake(put.saturating_sub(own));
            drop(owners);
            match self.away(w, task, &mut kit) {
                Some(more) => report = more,
                None => break,
            }
        }
        self.idle.end();
        kit
    }

    // Does a worker's task away from the lock. Returns what the worker then reports at the lock; `None` if the worker ends.
    fn away(self, w: u32, task: Task, kit: &mut WorkerKit<S>) -> Option<Report>
        requires stop { AllowsStops G.may_stop S.may_stop }
        requires here { IsHere S.start w task }
        requires pass { IsPassFor self.queue.now w kit.old.pass }
        ensures pass { IsPassFor self.entry.queue.now w kit.new.pass }
        ensures report { IfSome result (IsReport S.may_stop S.start w) }
    {
        match task {
            Task::End => None,
            Task::Again => Some(Report::Nothing),
            Task::Next => self.taken(w, kit),
            Task::Wait(seen) => {
                self.idle.wait(self.rt, seen);
                self.taken(w, kit)
            }
            Task::Pass(v) => Some(self.passed(w, v)),
            Task::Work(job) => Some(self.worked(w, job)),
        }
    }

    // Takes a number from the queue, and returns it as the worker's report; after some tries at an empty queue, returns the report that it was empty. Returns
    // `None` if the run is over. After each try, also puts into the queue those of the worker's numbers for which the queue had no room before.
    fn taken(self, w: u32, kit: &mut WorkerKit<S>) -> Option<Report>
        requires { IsPassFor self.queue.now w kit.old.pass }
        ensures pass { IsPassFor self.entry.queue.now w kit.new.pass }
        ensures report { IfSome result (IsReport S.may_stop S.start w) }
    {
        let backoff = Backoff::new();
        for _i in self.rt.forever() {
            let seen = self.idle.wakes();
            if self.idle.is_over() {
                return None;
            }
            let next = self.queue.take(self.rt, &mut kit.pass);
            self.idle.wake(self.put_all(w, kit));
            if let Some(v) = next {
                return Some(Report::Number(v));
            }
            if backoff.is_completed() && kit.news.is_empty() {
                return Some(Report::Empty(seen));
            }
            backoff.snooze();
        }
        unreachable!()
    }

    // Puts the worker's numbers into the queue, the last one first, until the queue is full; keeps the others. Returns how many were
    // put.
    fn put_all(self, w: u32, kit: &mut WorkerKit<S>) -> usize
        requires { IsPassFor self.queue.now w kit.old.pass }
        ensures { IsPassFor self.entry.queue.now w kit.new.pass }
    {
        let before = kit.news.len();
        for _i in 0..before {
            let Some(v) = kit.news.last() else {
                break;
            };
            if self.queue.put(self.rt, &mut kit.pass, *v).is_err() {
                break;
            }
            let _ = kit.news.pop();
        }
        before.saturating_sub(kit.news.len())
    }

    // Passes the gate, and returns what the worker then reports at the lock: the stop if the gate stops the worker, else nothing.
    fn passed(self, w: u32, v: u32) -> Report
        requires stop { AllowsStops G.may_stop S.may_stop }
        requires here { is_of S.start w v ≡ true }
        ensures { IsReport S.may_stop S.start w result }
    {
        match self.gate.pass(w, v) {
            Ok(()) => Report::Nothing,
            Err(_) => Report::Fault(Noted::Stopped(w, v)),
        }
    }

    // Works on a job, and returns what the worker then reports at the lock: the outcome, or why there is no outcome.
    fn worked(self, w: u32, job: Job) -> Report
        requires stop { AllowsStops G.may_stop S.may_stop }
        requires here { IsClaimed S.start w job.vertex job }
        ensures { IsReport S.may_stop S.start w result }
    {
        let (worker, vertex) = (job.worker(), job.vertex());
        match work(self.alloc, job, self.gate) {
            Ok(outcome) => Report::Outcome(outcome),
            Err(WorkFault::Stopped) => Report::Fault(Noted::Stopped(worker, vertex)),
            Err(WorkFault::Memory) => Report::Fault(Noted::Memory),
        }
    }
}
