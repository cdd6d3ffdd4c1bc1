//! The board: the vertices, the workers, and the record of events since the board was opened. By the board's invariant the table replays the record to the
//! board's state. The record has room for all events to come, except those of a vertex that waits after a cancel: the next claim of that vertex reserves room
//! for its events. Each running worker has what its vertex needs until the settle: the micro-steps, an empty tree for each output, and the cache instances. The
//! invariants of vertices and workers are in their own modules.

ghost use Rattle.std.specs.Prelude.{◌≡◌, ◌<◌, ◌≤◌, ◌+◌, [], length, replicate, true, is_some, option_map, Some, OnErr, IfErr, IfOk, if◌then◌else◌};
ghost use Rattle.llb_events.specs.declared.event.Settled.TheVariants as ended;
ghost use Rattle.llb_model.specs.Table.{Claimed, HasStepped, HasSettled, HasCancelled};
ghost use Rattle.llb_model.specs.Outcome.{output_in};
ghost use Rattle.llb_model.specs.State.{ending_at, is_failed, ending_of};
ghost use Rattle.llb_loader.specs.FirstMissingTree.{missing_local};
ghost use Rattle.llb_model.specs.EventBounds.{most_events, owed, still_to_come};
ghost use Rattle.llb_model.specs.Run.{chosen, is_complete};
ghost use Rattle.llb_model.specs.WholeRunLaws.{IsReached};
ghost use Rattle.llb_loader.specs.Graph.{IsGraph};
ghost use Rattle.llb_board.specs.UsersAndOpenInputs.{users_of};
ghost use Rattle.llb_wire.specs.CallResults.{MemoryLast};
ghost use Rattle.llb_cache.specs.Caches.{leases};
ghost use Rattle.llb_model.specs.Caches.{content, place};
ghost use Rattle.llb_model.specs.TwoCacheModels.{store_of, HoldsAs};
ghost use Rattle.llb_events.specs.Faults.{step_memory, GivesStep, GivesSettle, GivesCancel};
ghost use Rattle.llb_events.specs.Faults.{GivesClaim, claim_memory, claim_may_want};
ghost use Rattle.llb_board.specs.Statuses.{look_at, worker_look};
ghost use Rattle.llb_board.specs.WorkedOnAndCachedTrees.{worked_on, cached_at};
ghost use Rattle.llb_board.specs.Vertices.{all_waiting, status_of};
ghost use Rattle.llb_board.specs.BoardValue.{BoardValue, Replays, opened, replies_in};
ghost use Rattle.llb_board.specs.declared.fault.OpenFault.TheVariants as opening;
ghost use Rattle.llb_board.specs.Opening.{may_work, open_memory, GivesOpen, open_of, open_with, returned, may_want_memory};
ghost use Rattle.llb_board.specs.EventResults.{claim_of, step_of, settle_of, cancel_of};

mod chosen_event;
mod copying;
mod landing;
mod same;
mod undo;
mod undoable_event;

use crate::fault::OpenFault;
use crate::history::{Events, History};
use crate::status::{Status, WorkerStatus};
use crate::vertices::{Stage, Vertices};
use crate::workers::Workers;
use chosen_event::next_event;
use llb_cache::{Caches, Key};
use llb_events::{
    CancelFault, Cancelled, ClaimFault, Event, SettleFault, Settled, StepFault, Stepped,
};
use llb_execution::Job;
use llb_loader::{Graph, Locals, missing_local};
use llb_tree::Tree;
use llb_wire::{Memory, Text};
use std::alloc::Global;
use std::marker::Model;
pub use undoable_event::{Reply, Walked};

/// The state of a run: the vertices of a graph with its local trees, the workers, the caches, and the record of the events so far.
pub struct Board {
    alloc: Global,
    vertices: Vertices,
    workers: Workers,
    /// The caches as they were handed to `open`.
    start: Caches,
    history: History,
}

impl Drop for Board {
    fn drop(self) {
        let Board {
            alloc: _,
            vertices: _,
            workers: _,
            start: _,
            history: _,
        } = self;
    }
}

impl Model for Board {
    ghost use Rattle.std.specs.Coded.{codes};
    ghost use Rattle.llb_tree.specs.CodedTrees.{coded_tree};
    ghost use Rattle.llb_model.specs.CodedStores.{coded_store};
    ghost use Rattle.llb_board.specs.BoardValue.{BoardValue, seen};
    ghost use Rattle.llb_board.specs.BoardInvariant.{IsBoard};

    ghost Value = { BoardValue };

    ghost coded = { Prim.hlevel (codes, coded_tree, coded_store) };

    ghost view = { λ b. seen b.vertices b.start.rows b.workers b.history.list };

    ghost invariant = { λ b. IsBoard (seen b.vertices b.start.rows b.workers b.history.list) b.workers b.history.space };
}

impl Board {
    /// Opens a board on which nothing has happened. Fails with the first of these that applies: 121 `MissingLocal`, with the name of the first local source, by
    /// vertex, that has no tree; 122 `Workers`, if the number of workers is 0 or more than 64; 123 `Memory`. The fault holds the graph, the local trees and the
    /// caches. The caches must have no current lease.
    pub fn open(
        alloc: Global,
        graph: Graph,
        locals: Locals,
        caches: Caches,
        workers: u32,
    ) -> Result<Board, OpenFault>
        requires { leases caches.out ≡ 0 }
        ensures gives { GivesOpen (λ b. b) result (open_of (record { graph = graph; locals = locals }) caches workers) }
        ensures last { IfErr result (λ e. open_memory e ≡ true → may_want_memory (open_of (record { graph = graph; locals = locals }) caches workers) ≡ true) }
        ensures back { IfErr result (λ e. returned e ≡ (record { graph = graph; locals = locals }, caches)) }
    {
        match missing(alloc, &graph, &locals) {
            Ok(None) => Board::open_with(alloc, graph, locals, caches, workers),
            Ok(Some(name)) => Err(OpenFault::MissingLocal(name, graph, locals, caches)),
            Err(_) => Err(OpenFault::Memory(graph, locals, caches)),
        }
    }

    // Opens a board, without a check that every local source has a tree. Fails with 122 `Workers` or 123 `Memory`.
    fn open_with(
        alloc: Global,
        graph: Graph,
        locals: Locals,
        caches: Caches,
        workers: u32,
    ) -> Result<Board, OpenFault>
        requires { leases caches.out ≡ 0 }
        ensures gives { GivesOpen (λ b. b) result (open_with (record { graph = graph; locals = locals }) caches workers) }
        ensures last { MemoryLast open_memory result (open_with (record { graph = graph; locals = locals }) caches workers) }
        ensures back { IfErr result (λ e. returned e ≡ (record { graph = graph; locals = locals }, caches)) }
    {
        if !may_work(workers) {
            return Err(OpenFault::Workers(graph, locals, caches));
        }
        match Vertices::open(alloc, graph, locals) {
            Ok(vertices) => Board::open_on(alloc, vertices, caches, workers),
            Err((graph, locals)) => Err(OpenFault::Memory(graph, locals, caches)),
        }
    }

    // Opens a board on these vertices, all of which must wait. Fails with 123 `Memory` alone.
    fn open_on(
        alloc: Global,
        vertices: Vertices,
        caches: Caches,
        workers: u32,
    ) -> Result<Board, OpenFault>
        requires free { leases caches.out ≡ 0 }
        requires waits { vertices ≡ all_waiting vertices.build }
        requires some { 0 < workers }
        requires few { workers ≤ 64 }
        ensures ok { IfOk result (λ b. b ≡ opened vertices.build workers caches.rows) }
        ensures back { IfErr result (λ e. e ≡ opening.Memory vertices.build.graph vertices.build.locals caches) }
    {
        match fresh(alloc, &vertices, &caches) {
            Ok((start, history)) => match Workers::open(alloc, caches, workers) {
                Ok(workers) => Ok(Board {
                    alloc,
                    vertices,
                    workers,
                    start,
                    history,
                }),
                Err(caches) => Err(refused(vertices, caches)),
            },
            Err(_) => Err(refused(vertices, caches)),
        }
    }

    /// Makes an idle worker claim a Ready vertex, with an instance of each cache that the vertex mounts. Fails with 131 `NoWorker`, 132 `Busy`, 133 `NoVertex`,
    /// 134 `NotReady`, 135 `Held` (with the first of the vertex's locked keys whose instance a running worker holds), or 141 `Memory`. If memory for a copy of
    /// that key is refused, the call fails with 141 in place of 135; 141 for other memory is reported only if no other fault applies. If the vertex was
    /// cancelled before, the claim reserves room in the record for the vertex's events once more.
    pub fn claim(&mut self, w: u32, v: u32) -> Result<Job, ClaimFault>
        ensures gives { GivesClaim (λ job. (self.new, Claimed job)) result (claim_of self.old w v) }
        ensures last { IfErr result (λ e. claim_memory e ≡ true → claim_may_want (claim_of self.old w v) ≡ true) }
        ensures err { OnErr result (self.new ≡ self.old) }
    {
        let begun = self.workers.begin(self.alloc, &self.vertices, w, v)?;
        let events = self.vertices.steps(v) as usize + 2;
        self.history.reserve(v, events)?;
        let Ok(job) = self.workers.start(&self.vertices, begun) else {
            self.history.release(v, events);
            return Err(ClaimFault::Memory);
        };
        self.vertices.set(v, Stage::Running(w));
        self.history.record(Event::Claim(w, v));
        Ok(job)
    }

    /// Does the next micro-step of what a worker runs. A command runs or is skipped, as the last status and the `;`, `&&` or `||` before the command
    /// require. The micro-step reads the caches as they are now and writes its changes to them at once. Fails with 131 `NoWorker`, 136 `NotRunning`,
    /// 137 `NothingLeft` or 141 `Memory`; a skipped command does not allocate.
    pub fn step(&mut self, w: u32) -> Result<Stepped, StepFault>
        ensures gives { GivesStep (λ r. (self.new, HasStepped r)) result (step_of self.old w) }
        ensures last { MemoryLast step_memory result (step_of self.old w) }
        ensures err { OnErr result (self.new ≡ self.old) }
    {
        let stepped = self.workers.step(self.alloc, &self.vertices, w)?;
        self.history.record(Event::Step(w));
        Ok(stepped)
    }

    /// Settles the vertex that a worker runs, if the vertex is finished (all micro-steps are done, or one has faulted). The worker's cache instances are free
    /// again. Fails with 131 `NoWorker`, 136 `NotRunning` or 138 `NotFinished`. Does not allocate.
    pub fn settle(&mut self, w: u32) -> Result<Settled, SettleFault>
        ensures gives { GivesSettle (λ r. (self.new, HasSettled r)) result (settle_of self.old w) }
        ensures err { OnErr result (self.new ≡ self.old) }
    {
        let (v, stage) = self.workers.leave(&self.vertices, w)?;
        let failed = has_failed(&stage);
        self.vertices.set(v, stage);
        self.history.record(Event::Settle(w));
        Ok(settled(v, failed))
    }

    /// Cancels what a worker runs, finished or not. The vertex waits again. The worker's cache instances are free again, and keep what the micro-steps have
    /// written. Fails with 131 `NoWorker` or 136 `NotRunning`. Does not allocate.
    pub fn cancel(&mut self, w: u32) -> Result<Cancelled, CancelFault>
        ensures gives { GivesCancel (λ r. (self.new, HasCancelled r)) result (cancel_of self.old w) }
        ensures err { OnErr result (self.new ≡ self.old) }
    {
        let cancelled = self.workers.give_up(w)?;
        self.vertices.set(cancelled.vertex, Stage::Waiting);
        self.history.record_cancel(w, cancelled.vertex);
        Ok(cancelled)
    }

    /// Returns the board's graph. Does not allocate.
    pub fn graph(&self) -> &Graph
        ensures { result.now ≡ self.now.build.graph }
    {
        self.vertices.graph()
    }

    /// Returns the status of a vertex; `None` past the last vertex. Does not allocate.
    pub fn status(&self, v: u32) -> Option<Status>
        ensures { result ≡ look_at self.now.build self.now.state v }
    {
        self.vertices.status(v)
    }

    /// Returns the status of a worker; `None` past the last worker. Does not allocate.
    pub fn worker(&self, w: u32) -> Option<WorkerStatus>
        ensures { result ≡ worker_look self.now.build self.now.state w }
    {
        self.workers.look(&self.vertices, w)
    }

    /// Returns tree `i` of the trees that a worker works on now. A source has one such tree, its local tree; a file op has its inputs and then its results so
    /// far; a merge has its inputs and then the tree laid so far; an exec has the trees of its mounts (for a cache mount, the tree of its instance as it is
    /// now). Returns `None` if the worker is idle, or there is no such worker or tree. Does not allocate.
    pub fn worked_on(&self, w: u32, i: u32) -> Option<&Tree>
        ensures { option_map (λ t. t.now) result ≡ worked_on self.now.state w i }
    {
        self.workers.worked_on(w, i)
    }

    /// Returns output `i` of a vertex that is done; `None` if there is no such vertex or output. Does not allocate.
    pub fn output(&self, v: u32, i: u32) -> Option<&Tree>
        ensures { option_map (λ t. t.now) result ≡ output_in (ending_at self.now.state.statuses v) i }
    {
        self.vertices.output(v, i)
    }

    /// Returns the users of a vertex (the vertices that have an edge to it), ascending and each once; none past the last vertex. Does not allocate.
    pub fn users(&self, v: u32) -> &[u32]
        ensures { result.now ≡ users_of self.now.build.graph.vertices v }
    {
        self.vertices.users(v)
    }

    /// Returns the record of events since the board was opened. For each vertex the record has at most one claim, one settle and its micro-steps, and as many
    /// again for each time that the vertex was cancelled. The record has room for all events still to come, except those of vertices that wait after a cancel:
    /// the next claim of such a vertex reserves the room. Does not allocate.
    pub fn events(&self) -> &Events
        ensures all { result.now.list ≡ self.now.events }
        ensures bound { still_to_come self.now.build self.now.state + length result.now.list ≤ most_events self.now.build (replies_in self.now) }
        ensures room { result.now.room + owed self.now.build self.now.state.statuses (replies_in self.now) ≡ most_events self.now.build (replies_in self.now) }
    {
        self.history.events()
    }

    /// Returns the *chosen* event, which a run on one thread does next: the next step or settle of the running worker with the lowest number or, if no worker
    /// runs, the claim of the first Ready vertex by worker 0. `None` if the board is complete. Does not allocate.
    pub fn chosen(&self) -> Option<Event>
        ensures { result ≡ chosen self.now.build self.now.state }
    {
        match next_event(&self.vertices, &self.workers) {
            Some(event) => Some(event),
            None => match self.vertices.next_ready() {
                Some(v) => Some(Event::Claim(0, v)),
                None => None,
            },
        }
    }

    /// Returns whether the board is complete: every vertex is done, failed or blocked, so no worker runs a vertex. Does not allocate.
    pub fn is_complete(&self) -> bool
        ensures { result ≡ is_complete self.now.build self.now.state }
    {
        self.vertices.are_settled()
    }

    /// Returns the caches as they are now: each key with its instances, first the keys with which the board was opened, then the others in the order of
    /// their first claims. The current leases hold the instances of the running workers. Does not allocate.
    pub fn caches(&self) -> &Caches
        ensures rows { result.now.rows ≡ self.now.rows }
        ensures contents { store_of result.now.rows ≡ self.now.state.store }
        ensures leased { HoldsAs result.now.out self.now.state.workers }
    {
        self.workers.caches()
    }

    /// Returns the tree of instance `i` of key `k` as it is now; keys are numbered in the order of the rows of `caches`. Returns `None` if there is no
    /// such key or instance. Does not allocate.
    pub fn cached(&self, k: u32, i: u32) -> Option<&Tree>
        ensures { option_map (λ t. t.now) result ≡ cached_at self.now.rows self.now.state.store k i }
    {
        let caches = self.workers.caches();
        match caches.key(k as usize) {
            Some(key) => cached_in(caches, key, i),
            None => None,
        }
    }

    /// Gives back all leases, and returns the graph, the local trees and the caches as they are now. Does not allocate.
    pub fn into_parts(self) -> (Graph, Locals, Caches)
        ensures graph { result.0 ≡ self.build.graph }
        ensures locals { result.1 ≡ self.build.locals }
        ensures rows { result.2.rows ≡ self.rows }
        ensures contents { store_of result.2.rows ≡ self.state.store }
        ensures free { result.2.out ≡ [] }
    {
        let Board {
            alloc: _,
            vertices,
            workers,
            start: _,
            history: _,
        } = self;
        let (graph, locals) = vertices.into_parts();
        (graph, locals, workers.into_caches())
    }

    /// Proves that the board's graph meets `IsGraph`, the invariant of graphs.
    pub fn is_graph(&self)
        ensures { IsGraph self.now.build.graph }
    {
        let _ = self.vertices.graph().vertices();
    }

    /// Proves that the board has 1 to 64 workers.
    pub fn has_workers(&self)
        ensures some { 0 < length self.now.state.workers }
        ensures few { length self.now.state.workers ≤ 64 }
    {
        let _ = self.workers.look(&self.vertices, 0);
    }

    /// Proves that the table replays the record from the opening state to the board's state, and that this replay leads from the lists of instances with which
    /// the board was opened to the lists that the board has now. So two boards are the same if they were opened with the same graph, local trees, caches and
    /// number of workers, and have the same record.
    pub fn replays(&self)
        ensures run { Replays self.now }
        ensures reached { IsReached self.now.build self.now.state }
    {
        let _ = &self.history;
    }
}

// Returns the tree of instance `i` of a key; `None` if there is no such instance.
fn cached_in<'a>(caches: &'a Caches, key: &Key, i: u32) -> Option<&'a Tree>
    ensures { option_map (λ t. t.now) result ≡ content (store_of caches.now.rows) (place key.now i) }
{
    caches.instance(key, i)
}

// Returns whether a board may have this number of workers: 1 to 64.
fn may_work(workers: u32) -> bool
    ensures { result ≡ may_work workers }
{
    1 <= workers && workers <= 64
}

// Returns a copy of the name of the first local source, by vertex, that has no tree; `None` if each has one. Fails with 141 `Memory` alone.
fn missing(alloc: Global, graph: &Graph, locals: &Locals) -> Result<Option<Text>, Memory>
    ensures first { IfOk result (λ o. o ≡ missing_local locals.now graph.now.vertices) }
    ensures some { IfErr result (λ _. is_some (missing_local locals.now graph.now.vertices) ≡ true) }
{
    match missing_local(graph, locals) {
        Some(name) => Ok(Some(Text::from_str(alloc, name)?)),
        None => Ok(None),
    }
}

// Returns a copy of the caches, and an empty record with room for every event of a run without cancels. Fails with 141 `Memory` alone.
fn fresh(alloc: Global, vertices: &Vertices, caches: &Caches) -> Result<(Caches, History), Memory>
    ensures start { IfOk result (λ r. r.0 ≡ caches.now) }
    ensures events { IfOk result (λ r. r.1.list ≡ []) }
    ensures room { IfOk result (λ r. r.1.space.room ≡ most_events vertices.now.build []) }
    ensures cancels { IfOk result (λ r. r.1.space.cancels ≡ replicate (length vertices.now.build.graph.vertices) 0) }
{
    let count = vertices.graph().vertices().len();
    let start = caches.copy()?;
    let history = History::new(alloc, room(vertices), count)?;
    Ok((start, history))
}

// Returns how many events there can be if no vertex is cancelled.
fn room(vertices: &Vertices) -> usize
    ensures { result ≡ most_events vertices.now.build [] }
{
    let mut all: usize = 0;
    let count = vertices.graph().vertices().len() as u32;
    for v in 0..count {
        all += vertices.steps(v) as usize + 2;
    }
    all
}

// Returns the fault 123 `Memory`, with the graph, the local trees and the caches with which the board was to be opened.
fn refused(vertices: Vertices, caches: Caches) -> OpenFault
    ensures { result ≡ opening.Memory vertices.build.graph vertices.build.locals caches }
{
    let (graph, locals) = vertices.into_parts();
    OpenFault::Memory(graph, locals, caches)
}

// Returns whether a vertex has failed.
fn has_failed(stage: &Stage) -> bool
    ensures { result ≡ is_failed (ending_of (Some (status_of stage.now))) }
{
    match stage {
        Stage::Failed(_) => true,
        _ => false,
    }
}

// Returns the reply to the settle of a vertex.
fn settled(v: u32, failed: bool) -> Settled
    ensures { result ≡ if failed then ended.Failed v else ended.Done v }
{
    if failed {
        Settled::Failed(v)
    } else {
        Settled::Done(v)
    }
}
