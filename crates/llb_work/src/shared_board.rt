//! What is under the lock: the board, the board that the run began from, the ledger of the events that the workers have counted, and the fault
//! that was noted first; which vertices have no cache mount at or before them; and the vertex numbers that wait for a key. By an invariant of
//! the type, granted events lead from the board that the run began from to the board under the lock; if no fault is noted, none of them is a cancel.

ghost use Rattle.std.specs.Prelude.{◌≡◌, ◌≤◌, ◌+◌, ◌||◌, ℕ, length, true, Some, None, IfOk, IsSome, is_some};
ghost use Rattle.llb_model.specs.Run.{is_complete};
ghost use Rattle.std.specs.Bool.{OnTrue};
ghost use Rattle.std.specs.Coded.{codes};
ghost use Rattle.llb_tree.specs.CodedTrees.{coded_tree};
ghost use Rattle.llb_board.specs.PlainVertexJobs.{IsKnown};
ghost use Rattle.llb_model.specs.CodedStores.{coded_store};
ghost use Rattle.llb_work.specs.LockSharingWorkers.{CancelsNothing, IsAfter};
ghost use Rattle.llb_work.specs.RunEnds.{may_be};
ghost use Rattle.llb_work.specs.StartingSupplies.{ArePlain};
ghost use Rattle.llb_work.specs.Tasks.{IsReport, IsClaimed, IsHere};

use crate::dropped_trees::Owners;
use crate::early_end::{Gated, Noted};
use crate::event_counts::{Tally, count};
use crate::key_waiters::KeyWaiters;
use crate::plain_vertices::is_marked;
use llb_board::laws::begun_are_plain;
use llb_board::{
    Board, ClaimFault, Job, LandFault, Outcome, SettleFault, Settled, Status, StepFault, Stepped,
    WorkerStatus,
};
use llb_cache::Key;
use std::sync::ledger::Book;

/// The value under the lock: the board, and what the workers keep with it. `start` is the board that the run began from.
#[derive(Drop)]
pub(crate) struct SharedBoard<S: Gated> {
    pub board: Board,
    pub start: Board,
    pub plain: Vec<bool>,
    pub waiters: KeyWaiters,
    pub calls: Book<S>,
    /// How many events the record had when a worker last counted its events (`count`).
    pub counted: usize,
    pub noted: Option<Noted>,
    pub ghost kept: { start ≡ S.start } by { Prim.hlevel (codes, coded_tree, coded_store) },
    pub ghost after: { IsAfter S.start board } by { Prim.hlevel (codes, coded_tree, coded_store) },
    pub ghost marks: { ArePlain S.start.build plain.items },
    pub ghost booked: { calls.total + length S.start.events ≡ counted },
    pub ghost within: { counted ≤ length board.events },
    pub ghost stops: { may_be S.may_stop S.start noted ≡ true },
    pub ghost uncancelled: { noted ≡ None → CancelsNothing S.start board },
}

/// What a worker reports when it takes the lock.
#[derive(Drop)]
pub(crate) enum Report {
    Nothing,
    /// The number of a vertex, from the queue.
    Number(u32),
    /// The queue was empty after this number of wakes (`Idle::wakes`) was read, and the worker has no numbers for the queue. `Watch` sees to it.
    Empty(u32),
    /// The outcome of a job.
    Outcome(Outcome),
    /// Why the worker has to give up what it runs.
    Fault(Noted),
}

/// What a worker is to do next.
#[derive(Drop)]
pub(crate) enum Task {
    /// Work on this job away from the board.
    Work(Job),
    /// Pass the gate for this vertex, which is then worked on under the lock.
    Pass(u32),
    /// Come back to the lock.
    Again,
    /// Wait for a number from the queue, and come back to the lock with it; the worker runs nothing.
    Next,
    /// Wait for a wake after the one with this number, and then as `Next`. The worker runs nothing, and has no numbers for the queue.
    Wait(u32),
    /// End: the run is over, so no vertex is claimed any more.
    End,
}

/// Makes the value that the lock guards, for a run of which no event is done yet.
pub(crate) fn make_shared_board<S: Gated>(
    board: Board,
    start: Board,
    plain: Vec<bool>,
    waiters: KeyWaiters,
    calls: Book<S>,
) -> SharedBoard<S>
    requires plain { ArePlain board.build plain.items }
    requires kept { start ≡ S.start }
    requires start { board ≡ S.start }
    requires empty { calls.total ≡ 0 }
{
    let counted = board.events().len();
    SharedBoard {
        board,
        start,
        plain,
        waiters,
        calls,
        counted,
        noted: None,
    }
}

impl<S: Gated> SharedBoard<S> {
    /// Notes why the run ends, unless something is noted already.
    pub(crate) fn note(&mut self, noted: Noted)
        requires { may_be S.may_stop S.start (Some noted) ≡ true }
        ensures { IsSome self.new.noted }
    {
        if self.noted.is_none() {
            self.noted = Some(noted);
        }
    }

    // Claims a vertex for a worker. Fails with 131 to 135 or 141.
    fn claim(&mut self, w: u32, v: u32) -> Result<Job, ClaimFault>
        ensures { IfOk result (IsClaimed S.start w v) }
    {
        begun_are_plain(&self.board);
        self.board.claim(w, v)
    }

    // Lands the outcome of a job on the board. The job is compared with what the worker runs, unless the two are known to agree
    // (`is_known`). Fails with 131, 136, 139 or 140.
    fn land(&mut self, w: u32, outcome: Outcome) -> Result<Settled, LandFault>
        requires { IsClaimed S.start w outcome.job.vertex outcome.job }
    {
        let known = self.is_known(w, outcome.job());
        if known {
            return Ok(self.board.land_known(w, outcome));
        }
        self.board.land(w, outcome)
    }

    // Returns whether a job is known to agree with what its worker runs: no cache mount is at or before the vertex of the job, and the
    // worker runs that vertex on the board and has done no micro-step of it there.
    fn is_known(&self, w: u32, job: &Job) -> bool
        requires { IsClaimed S.start w job.now.vertex job.now }
        ensures { OnTrue result (IsKnown self.now.board w job.now) }
    {
        match self.board.worker(w) {
            Some(WorkerStatus::Runs(v, 0, _)) => v == job.vertex() && is_marked(&self.plain, v),
            _ => false,
        }
    }

    // Does the next micro-step of what a worker runs. Fails with 131, 136, 137 or 141.
    fn step(&mut self, w: u32) -> Result<Stepped, StepFault> {
        self.board.step(w)
    }

    // Settles what a worker runs. Fails with 131, 136 or 138.
    fn settle(&mut self, w: u32) -> Result<Settled, SettleFault> {
        self.board.settle(w)
    }

    // Cancels what a worker runs, if it runs anything.
    fn cancel(&mut self, w: u32)
        requires { IsSome self.old.noted }
    {
        let _ = self.board.cancel(w);
    }

    // Notes why the run ends and cancels what a worker runs, if it runs anything, both in one hold of the lock. If the fault were noted in a
    // later hold, the cancelled vertex would meanwhile be ready without having its number in the queue. Returns `Task::End`.
    fn give_up(&mut self, w: u32, noted: Noted) -> Task
        requires { may_be S.may_stop S.start (Some noted) ≡ true }
        ensures { IsHere S.start w result }
    {
        self.note(noted);
        self.cancel(w);
        Task::End
    }

    // Counts for a worker the events that were added to the record since the last count.
    fn count(&mut self, mine: &mut Tally<S>) {
        let now = self.board.events().len();
        count(&mut self.calls, mine, self.counted, now);
        self.counted = now;
    }

    /// Does what a worker has to do in one hold of the lock, by its report, and adds the events done to the worker's count. Returns what the worker is to do
    /// next, and shared copies of the trees that this hold may have dropped. Adds to `news` the numbers that the worker then has to put into the queue: those
    /// of the vertices that became ready when the worker's vertex ended, the greatest first, and those that had waited for a key.
    pub(crate) fn next_task(
        &mut self,
        w: u32,
        report: Report,
        mine: &mut Tally<S>,
        news: &mut Vec<u32>,
    ) -> (Task, Option<Owners>)
        requires { IsReport S.may_stop S.start w report }
        ensures { IsHere S.start w result.0 }
    {
        let owners = Owners::of(*news.allocator(), &self.board, w, &report);
        let task = self.act(w, report, news);
        self.count(mine);
        (task, owners)
    }

    // Does, under the lock, what a worker's report asks for: goes on with the worker's vertex, claims a vertex, lands an outcome, or gives up what the worker
    // runs. Returns the worker's next task.
    fn act(&mut self, w: u32, report: Report, news: &mut Vec<u32>) -> Task
        requires { IsReport S.may_stop S.start w report }
        ensures { IsHere S.start w result }
    {
        match report {
            Report::Nothing | Report::Empty(_) => self.go_on(w, news),
            Report::Number(v) => self.take(w, v, news),
            Report::Outcome(outcome) => {
                self.release(w, news);
                let landed = self.land(w, outcome);
                self.left(landed.ok(), news)
            }
            Report::Fault(noted) => self.give_up(w, noted),
        }
    }

    // Does the next event of the vertex that a worker runs: the settle if the vertex is finished, else a step. A worker that runs nothing is to end if the run
    // is over, and otherwise is to take a number from the queue.
    fn go_on(&mut self, w: u32, news: &mut Vec<u32>) -> Task
        ensures { IsHere S.start w result }
    {
        match self.board.worker(w) {
            None => Task::End,
            Some(WorkerStatus::Runs(_, _, true)) => {
                self.release(w, news);
                let settled = self.settle(w);
                self.left(settled.ok(), news)
            }
            Some(WorkerStatus::Runs(_, _, false)) => match self.step(w) {
                Err(StepFault::Memory) => self.give_up(w, Noted::Memory),
                _ => Task::Again,
            },
            Some(WorkerStatus::Idle) if self.is_over() => Task::End,
            Some(WorkerStatus::Idle) => Task::Next,
        }
    }

    // Claims a vertex, unless the run is over. If the vertex is not ready, its number is dropped: another worker has already claimed the vertex.
    fn take(&mut self, w: u32, v: u32, news: &mut Vec<u32>) -> Task
        ensures { IsHere S.start w result }
    {
        if self.is_over() {
            return Task::End;
        }
        match self.claim(w, v) {
            Ok(job) => {
                let _ = self.waiters.answered(v, None);
                self.begun(w, job)
            }
            Err(ClaimFault::Held(key)) => self.wait_for(key, v, news),
            Err(ClaimFault::NotReady | ClaimFault::NoVertex) => Task::Next,
            Err(ClaimFault::Memory) => self.give_up(w, Noted::Memory),
            Err(_) => Task::Again,
        }
    }

    // Returns what a worker is to do after its vertex has ended, or after its landing or settle was refused. If the vertex has ended, adds to
    // `news` the numbers of those users of the vertex that are ready.
    fn left(&mut self, settled: Option<Settled>, news: &mut Vec<u32>) -> Task
        ensures { (w : ℕ) → IsHere S.start w result }
    {
        match settled {
            None => Task::Again,
            Some(Settled::Done(v) | Settled::Failed(v)) => {
                note_ready(&self.board, v, news);
                if self.is_over() {
                    return Task::End;
                }
                Task::Next
            }
        }
    }

    // For each cache instance that a worker holds: adds to the list `news` one of the vertices' numbers that wait for the instance's key. The worker's vertex
    // must be about to end.
    fn release(&mut self, w: u32, news: &mut Vec<u32>) {
        let SharedBoard { board, waiters, .. } = self;
        for place in board.places(w) {
            if let Some(v) = waiters.next_of(&place.key) {
                add(news, v);
            }
        }
    }

    // Lets the vertex number `v` wait for a key whose instance another worker holds. If `v` had waited for a different key before, adds to `news` the next
    // number that waits for that different key.
    fn wait_for(&mut self, key: Key, v: u32, news: &mut Vec<u32>) -> Task
        ensures { (w : ℕ) → IsHere S.start w result }
    {
        let next = self.waiters.answered(v, Some(&key));
        if !self.waiters.push(key, v) {
            add(news, v);
        }
        if let Some(u) = next {
            add(news, u);
        }
        Task::Next
    }

    /// Returns whether the run is over: a fault is noted, or the board is complete.
    pub(crate) fn is_over(&self) -> bool
        ensures { result ≡ (is_some self.now.noted || is_complete self.now.board.build self.now.board.state) }
    {
        self.noted.is_some() || self.board.is_complete()
    }

    // Returns the task for a claimed vertex: to work on it under the lock if the vertex mounts a shared cache, otherwise away from the lock.
    fn begun(&self, w: u32, job: Job) -> Task
        requires { IsClaimed S.start w job.vertex job }
        ensures { IsHere S.start w result }
    {
        if self.board.has_shared(w) {
            return Task::Pass(job.vertex());
        }
        Task::Work(job)
    }
}

// Adds to `news` the numbers of those users of vertex `v` that are ready, the greatest first.
fn note_ready(board: &Board, v: u32, news: &mut Vec<u32>) {
    for u in board.users(v).iter().rev() {
        if matches!(board.status(*u), Some(Status::Ready)) {
            add(news, *u);
        }
    }
}

// Adds a number to a worker's list, which has room for as many numbers as there are vertices. No number is there twice, so a full list has
// every number already. Does not allocate.
fn add(news: &mut Vec<u32>, v: u32) {
    if news.len() < news.capacity() {
        news.push_reserved(v);
    }
}
