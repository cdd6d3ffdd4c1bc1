//! Checks that a job equals, by value, what a worker still has to do by the board's state: program, workspace, cache trees. Puts what the micro-steps of a
//! landed outcome left into the worker's state, and the outcome's trees into the caches.

ghost use Rattle.std.specs.Prelude.{◌≡◌, ◌↔◌, ◌<◌, length, true, Some, slice_get, slice_set, is_some, IsTrue};
ghost use Rattle.std.specs.Bool.{OnTrue, OnFalse};
ghost use Rattle.llb_cache.specs.Caches.{trees_of};
ghost use Rattle.llb_model.specs.Caches as model;
ghost use Rattle.llb_model.specs.Caches.{Has};
ghost use Rattle.llb_model.specs.TwoCacheModels.{store_of, put_each};
ghost use Rattle.llb_model.specs.Program.{program_at};
ghost use Rattle.llb_model.specs.State as machine;
ghost use Rattle.llb_model.specs.State.{Runs, places_at};
ghost use Rattle.llb_board.specs.Jobs.{IsRunOf};
ghost use Rattle.llb_board.specs.RunningWorkerSupplies.{supplies_of, supplies_for};
ghost use Rattle.llb_board.specs.WorkerModelValues.{execution_of};
ghost use Rattle.llb_board.specs.Workers.{Fits, RunsJob, steps_left};

use crate::vertices::Vertices;
use crate::workers::Workers;
use crate::workers::comparing::{has_numbers, has_trees, is_begun};
use crate::workers::leased_instances::write_back;
use crate::workers::running_workers::{Execution, Seat, put_left, seat_at};
use llb_cache::Caches;
use llb_execution::{Job, Outcome, Program};
use llb_wire::Same;

impl Workers {
    /// Returns whether `job` equals what worker `w` still has to do, with the trees that the caches have now. Does not allocate.
    pub(crate) fn is_run_of(&self, vertices: &Vertices, w: u32, job: &Job) -> bool
        requires there { (x : machine.Execution) → slice_get self.now.workers w ≡ Some (Runs x)
            → is_some (slice_get vertices.now.build.graph.vertices x.vertex) ≡ true }
        requires fits { Fits vertices.now.build self.now }
        ensures yes { OnTrue result (RunsJob vertices.now self.now w job.now) }
        ensures no { OnFalse result (RunsJob vertices.now self.now w job.now → ⊥) }
    {
        self.caches.is_exclusive();
        match seat_at(&self.seats, w) {
            Some(Seat::Runs(_, execution)) => { is_left(vertices, &self.caches, w, execution, job) }
            _ => false,
        }
    }

    /// Puts the result of the outcome's micro-steps in place of the worker's count, fault and workspace, and writes the outcome's trees to the worker's
    /// instances. Does not allocate.
    pub(crate) fn land(&mut self, vertices: &Vertices, w: u32, outcome: Outcome)
        requires runs { RunsJob vertices.now self.old w outcome.job }
        requires fits { Fits vertices.now.build self.old }
        ensures workers { self.new.workers ≡ slice_set self.old.workers w (steps_left outcome (slice_get self.old.workers w)) }
        ensures rows { self.new.rows ≡ put_each self.old.rows (places_at (slice_get self.old.workers w)) outcome.left.work.trees }
        ensures fits { Fits vertices.now.build self.new }
    {
        outcome.is_whole();
        let (count, view, trees, fault) = outcome.into_left();
        let _ = vertices.vertex(0);
        let lease = put_left(&mut self.seats, w, (count, fault), view);
        write_back(&mut self.caches, lease, trees);
    }
}

// Returns whether `job` is the job that remains for worker `w`, which runs this execution, with the caches as they are now.
fn is_left(vertices: &Vertices, caches: &Caches, w: u32, execution: &Execution, job: &Job) -> bool
    requires vertex { is_some (slice_get vertices.now.build.graph.vertices execution.now.vertex) ≡ true }
    requires supplies { supplies_of execution.now ≡ supplies_for (slice_get vertices.now.build.graph.vertices execution.now.vertex) }
    requires within { (p : model.Instance) → Has execution.now.places.items p → p.number < length (trees_of caches.now.rows p.key) }
    ensures { IsTrue result ↔ IsRunOf vertices.now.build (store_of caches.now.rows) w (execution_of execution.now) job.now }
{
    is_begun(w, execution, job)
        && has_program(vertices, execution, job.program())
        && job.workspace().same(&execution.view)
        && has_trees(caches, &execution.places, job.trees())
        && has_numbers(&execution.places, job.instances())
}

// Returns whether a program is the program of the vertex that an execution runs.
fn has_program(vertices: &Vertices, execution: &Execution, program: &Program) -> bool
    requires vertex { is_some (slice_get vertices.now.build.graph.vertices execution.now.vertex) ≡ true }
    requires supplies { supplies_of execution.now ≡ supplies_for (slice_get vertices.now.build.graph.vertices execution.now.vertex) }
    ensures { IsTrue result ↔ (program.now ≡ program_at (slice_get vertices.now.build.graph.vertices execution.now.vertex)) }
{
    match vertices.vertex(execution.vertex) {
        Some(vertex) => program.is_of(vertex, &execution.steps),
        None => false,
    }
}
