//! Before an event, keeps what the event will change in the workers and the caches; puts this back when the event is taken back. One item is
//! kept for each cache that the vertex of the event mounts, and none for any other cache.

ghost use Rattle.std.specs.Prelude.{◌≡◌, ◌<◌, ◌||◌, false, true, is_some, nat_le, length, map, option_map, slice_get, IfOk, IfErr, Err};
ghost use Rattle.llb_events.specs.declared.event.Event.TheVariants.{Claim, Step};
ghost use Rattle.llb_model.specs.TwoCacheModels.{growth_for};
ghost use Rattle.llb_board.specs.RunningWorkerSupplies.{needs_at, ready_made};
ghost use Rattle.llb_board.specs.WorkersKeptForUndo.{MarksIn, MarksClaim, MarksStep, MarksEnd, CanPutBack};
ghost use Rattle.llb_board.specs.WorkersKeptForUndo.{walk_in, walk_memory, walk_may_want, end_of, may_end, no_worker, not_running};
ghost use Rattle.llb_board.specs.WorkersKeptForUndo.{back_in, workers_before, rows_before, supplies_before, change_in, change_of};
ghost use Rattle.llb_board.specs.WorkerModelValues.{at_of, leased_by};
ghost use Rattle.llb_board.specs.Workers.{Fits, IsCrew};

use crate::fault::WalkFault;
use crate::vertices::{Stage, Vertices};
use crate::workers::Workers;
use crate::workers::cache_needs::growths_of;
use crate::workers::copying::copied;
use crate::workers::leased_instances::{contents, lend_again, lent_for, take_back, write_back};
use crate::workers::running_workers::{
    Execution, Seat, is_finished, make_idle, seat_at, step_back,
};
use llb_cache::{Caches, Growth, Lent};
use llb_events::{CancelFault, Event, SettleFault, StepFault};
use llb_execution::Saved;
use llb_tree::Tree;
use llb_wire::Memory;
use std::alloc::Global;
use std::marker::Model;

/// What is needed to take an event back. Contracts see it as `Displaced`.
pub struct Undo {
    back: Back,
}

impl Drop for Undo {
    fn drop(self) {
        let Undo { back: _ } = self;
    }
}

/// What is put back when an event is taken back, by the kind of the event.
#[derive(Drop)]
pub(crate) enum Back {
    /// For a claim: the worker, the vertex, and what the claim's lease added to the caches.
    Unclaim(u32, u32, Vec<Growth>),
    /// For a step: the worker, what the micro-step could change in the workspace, and the trees of the worker's cache instances.
    Unstep(u32, Saved, Vec<Tree>),
    /// For a settle or a cancel: which of the two it was, the worker, what the worker ran, and a prepared lease of the worker's cache instances, if any.
    Resume(End, u32, Execution, Option<Lent>),
}

/// Which of two kinds of events ended the execution.
#[derive(Clone, Copy)]
pub(crate) enum End {
    /// A settle: the execution was finished.
    Settle,
    /// A cancel: the worker gave the vertex up.
    Cancel,
}

/// A vertex, and the status that it has again after an event is taken back.
#[derive(Drop)]
pub(crate) struct Change {
    pub vertex: u32,
    pub stage: Stage,
}

impl Model for Undo {
    ghost use Rattle.std.specs.Coded.{codes};
    ghost use Rattle.llb_tree.specs.CodedTrees.{coded_tree};
    ghost use Rattle.llb_board.specs.WorkersKeptForUndo.{Displaced, back_in};

    ghost Value = { Displaced };

    ghost coded = { Prim.hlevel (codes, coded_tree) };

    ghost view = { λ u. record { back = back_in u.back } };
}

impl Undo {
    // Returns what the event changed in the workers and the caches, to be put back.
    fn into_back(self) -> Back
        ensures { back_in result ≡ self.back }
    {
        let Undo { back } = self;
        back
    }
}

impl Workers {
    /// Returns what is needed to take back an event, before the event is done. Fails only with a fault with which the event itself would fail, or with 141
    /// `Memory`, which is reported only if the event would be granted, or refused with 135 `Held` for a key that has to be copied.
    pub(crate) fn before(
        &self,
        alloc: Global,
        vertices: &Vertices,
        event: Event,
    ) -> Result<Undo, WalkFault>
        requires { Fits vertices.now.build self.now }
        ensures marks { IfOk result (λ u. MarksIn vertices.now self.now event u) }
        ensures refused { IfErr result (λ e. walk_memory e ≡ false → walk_in vertices.now self.now event ≡ Err e) }
        ensures last { IfErr result (λ e. walk_memory e ≡ true → walk_may_want (walk_in vertices.now self.now event) ≡ true) }
    {
        match event {
            Event::Claim(w, v) => match self.before_claim(alloc, vertices, w, v) {
                Ok(undo) => Ok(undo),
                Err(_) => Err(self.claim_refusal(alloc, vertices, w, v)),
            },
            Event::Step(w) => self.before_step(alloc, vertices, w),
            Event::Settle(w) => self.before_end(alloc, vertices, End::Settle, w),
            Event::Cancel(w) => self.before_end(alloc, vertices, End::Cancel, w),
        }
    }

    // Returns the fault with which a claim would fail; 141 `Memory` if the claim would be granted, or if memory for a copy of the held key is refused.
    fn claim_refusal(&self, alloc: Global, vertices: &Vertices, w: u32, v: u32) -> WalkFault
        ensures refused { walk_memory result ≡ false → walk_in vertices.now self.now (Claim w v) ≡ Err result }
        ensures last { walk_memory result ≡ true → walk_may_want (walk_in vertices.now self.now (Claim w v)) ≡ true }
    {
        match self.begin(alloc, vertices, w, v) {
            Ok(_) => WalkFault::Memory,
            Err(fault) => WalkFault::from(fault),
        }
    }

    fn before_claim(
        &self,
        alloc: Global,
        vertices: &Vertices,
        w: u32,
        v: u32,
    ) -> Result<Undo, Memory>
        ensures { IfOk result (λ u. MarksClaim vertices.now self.now w v u) }
    {
        self.caches.is_exclusive();
        let growths = growths_at(alloc, vertices, &self.caches, v)?;
        Ok(Undo {
            back: Back::Unclaim(w, v, growths),
        })
    }

    fn before_step(&self, alloc: Global, vertices: &Vertices, w: u32) -> Result<Undo, WalkFault>
        requires { Fits vertices.now.build self.now }
        ensures marks { IfOk result (λ u. MarksStep vertices.now self.now w u) }
        ensures refused { IfErr result (λ e. walk_memory e ≡ false → walk_in vertices.now self.now (Step w) ≡ Err e) }
        ensures last { IfErr result (λ e. walk_memory e ≡ true → walk_may_want (walk_in vertices.now self.now (Step w)) ≡ true) }
    {
        match seat_at(&self.seats, w) {
            None => Err(WalkFault::Step(StepFault::NoWorker)),
            Some(Seat::Idle) => Err(WalkFault::Step(StepFault::NotRunning)),
            Some(Seat::Runs(_, execution)) => {
                if is_finished(execution, vertices.steps(execution.vertex)) {
                    return Err(WalkFault::Step(StepFault::NothingLeft));
                }
                let saved = execution.view.save()?;
                let trees = contents(alloc, &self.caches, &execution.places)?;
                Ok(Undo {
                    back: Back::Unstep(w, saved, trees),
                })
            }
        }
    }

    fn before_end(
        &self,
        alloc: Global,
        vertices: &Vertices,
        end: End,
        w: u32,
    ) -> Result<Undo, WalkFault>
        requires { Fits vertices.now.build self.now }
        ensures marks { IfOk result (λ u. MarksEnd vertices.now self.now end w u) }
        ensures refused { IfErr result (λ e. walk_memory e ≡ false → walk_in vertices.now self.now (end_of end w) ≡ Err e) }
        ensures last { IfErr result (λ e. walk_memory e ≡ true → walk_may_want (walk_in vertices.now self.now (end_of end w)) ≡ true) }
    {
        match seat_at(&self.seats, w) {
            None => Err(no_worker(end)),
            Some(Seat::Idle) => Err(not_running(end)),
            Some(Seat::Runs(_, execution)) => {
                if !may_end(end, execution, vertices.steps(execution.vertex)) {
                    return Err(WalkFault::Settle(SettleFault::NotFinished));
                }
                let left = copied(alloc, execution)?;
                let lent = lent_for(alloc, &execution.places, self.seats.len() + 1)?;
                Ok(Undo {
                    back: Back::Resume(end, w, left, lent),
                })
            }
        }
    }

    /// Puts back into the workers and the caches what they had before an event, as `undo` has it. Returns the vertex whose status changes, with its status
    /// before the event; `None` for a step. Does not allocate.
    pub(crate) fn put_back(&mut self, undo: Undo) -> Option<Change>
        requires { CanPutBack undo self.old }
        ensures workers { self.new.workers ≡ workers_before undo.back self.old.workers }
        ensures rows { self.new.rows ≡ rows_before undo.back self.old.workers self.old.rows }
        ensures supplies { self.new.supplies ≡ supplies_before undo.back self.old.supplies }
        ensures change { option_map change_of result ≡ change_in undo.back }
    {
        displace(&mut self.seats, &mut self.caches, undo.into_back())
    }
}

// Puts back into the workers and the caches what they had before an event. Returns the vertex whose status changes, with its status before the event; `None`
// for a step.
fn displace(seats: &mut Vec<Seat>, caches: &mut Caches, back: Back) -> Option<Change>
    requires can { CanPutBack (record { back = back_in back })
        (record { workers = map at_of seats.old.items; rows = caches.old.rows; supplies = map ready_made seats.old.items }) }
    requires crew { IsCrew (map at_of seats.old.items) caches.old.out (map leased_by seats.old.items) }
    ensures workers { map at_of seats.new.items ≡ workers_before (back_in back) (map at_of seats.old.items) }
    ensures made { map ready_made seats.new.items ≡ supplies_before (back_in back) (map ready_made seats.old.items) }
    ensures rows { caches.new.rows ≡ rows_before (back_in back) (map at_of seats.old.items) caches.old.rows }
    ensures crew { IsCrew (map at_of seats.new.items) caches.new.out (map leased_by seats.new.items) }
    ensures change { option_map change_of result ≡ change_in (back_in back) }
{
    match back {
        Back::Unclaim(w, vertex, growths) => {
            let lease = make_idle(seats, w);
            take_back(caches, lease, &growths);
            let stage = Stage::Waiting;
            Some(Change { vertex, stage })
        }
        Back::Unstep(w, saved, trees) => {
            let lease = step_back(seats, w, saved);
            write_back(caches, lease, trees);
            None
        }
        Back::Resume(_, w, execution, lent) => {
            let vertex = execution.vertex;
            let lease = lend_again(caches, lent);
            seats[w as usize] = Seat::Runs(lease, execution);
            let stage = Stage::Running(w);
            Some(Change { vertex, stage })
        }
    }
}

// Returns whether an execution may end so: a settle needs a finished execution, whose vertex has this number of micro-steps; a cancel may come at any time.
fn may_end(end: End, execution: &Execution, steps: u32) -> bool
    ensures { result ≡ may_end end (is_some execution.now.fault || nat_le steps execution.now.done) }
{
    match end {
        End::Settle => is_finished(execution, steps),
        End::Cancel => true,
    }
}

// Returns the fault 131 `NoWorker` of a settle or a cancel whose worker does not exist.
fn no_worker(end: End) -> WalkFault
    ensures { result ≡ no_worker end }
{
    match end {
        End::Settle => WalkFault::Settle(SettleFault::NoWorker),
        End::Cancel => WalkFault::Cancel(CancelFault::NoWorker),
    }
}

// Returns the fault 136 `NotRunning` of a settle or a cancel whose worker is idle.
fn not_running(end: End) -> WalkFault
    ensures { result ≡ not_running end }
{
    match end {
        End::Settle => WalkFault::Settle(SettleFault::NotRunning),
        End::Cancel => WalkFault::Cancel(CancelFault::NotRunning),
    }
}

// Returns what a claim of vertex `v` would add to the caches; nothing past the last vertex.
fn growths_at(
    alloc: Global,
    vertices: &Vertices,
    caches: &Caches,
    v: u32,
) -> Result<Vec<Growth>, Memory>
    ensures { IfOk result (λ gs. gs.items ≡ map (growth_for caches.now) (needs_at (slice_get vertices.now.build.graph.vertices v))) }
{
    match vertices.vertex(v) {
        Some(vertex) => growths_of(alloc, caches, vertex),
        None => Ok(Vec::new(alloc)),
    }
}
