//! Lands an outcome: after the work was done away from the board, puts the effect of all remaining micro-steps of a worker and of its settle on the board at
//! once. No micro-step is done again. `land` compares the outcome's job, trees included, with the job that remains for the worker on the board; `land_known`
//! compares nothing.

ghost use Rattle.std.specs.Prelude.{◌≡◌, option_map, slice_get, IfOk, IfErr, OnOk, OnErr};
ghost use Rattle.std.specs.List.{list_any};
ghost use Rattle.llb_model.specs.Table.{HasSettled};
ghost use Rattle.llb_model.specs.Caches as model;
ghost use Rattle.llb_model.specs.State.{Execution, runs, places_at};
ghost use Rattle.llb_board.specs.Jobs.{is_shared};
ghost use Rattle.llb_board.specs.PlainVertexJobs.{IsKnown};
ghost use Rattle.llb_board.specs.Landing.{CanLand, StandsInWay, IsRefused, land_fault, runs_shared, IsThrough, Lands};

use crate::board::Board;
use crate::fault::LandFault;
use crate::laws::begun_are_plain;
use crate::status::WorkerStatus;
use llb_cache::{Instance, Mode};
use llb_events::Settled;
use llb_execution::{Job, Outcome, Workspace};

/// Why an outcome does not land.
#[derive(Clone, Copy)]
pub(crate) enum LandCause {
    NoWorker,
    NotRunning,
    HasShared,
    Stranger,
}

impl Board {
    /// Lands the outcome of a worker's job: the effect is that of all remaining micro-steps of the worker and of its settle, and the record grows by exactly
    /// these events. Fails with 131 `NoWorker`, 136 `NotRunning`, 140 `HasShared` if a cache of the worker's vertex is in shared mode, or 139 `Stranger` if the
    /// outcome's job differs from the job that remains for the worker now, with the present trees of the worker's cache instances. On failure the fault holds
    /// the outcome, and the board is unchanged. Does not allocate.
    pub fn land(&mut self, w: u32, outcome: Outcome) -> Result<Settled, LandFault>
        ensures gives { IfOk result (λ r. Lands self.old w outcome self.new (HasSettled r)) }
        ensures refused { IfErr result (λ e. IsRefused self.old w outcome e) }
        ensures err { OnErr result (self.new ≡ self.old) }
    {
        if let Err(cause) = self.can_land(w, outcome.job()) {
            return Err(refused(cause, outcome));
        }
        self.go_through(w, outcome);
        Ok(self.settle(w).unwrap())
    }

    /// Lands an outcome as `land` does, but does not compare the outcome's job with what the worker runs. The job must be the one that the worker's claim
    /// handed out, no cache mount may be at or before the vertex, and the worker must have done no micro-step of the vertex on the board. Does not allocate.
    pub fn land_known(&mut self, w: u32, outcome: Outcome) -> Settled
        requires known { IsKnown self.old w outcome.job }
        ensures gives { Lands self.old w outcome self.new (HasSettled result) }
    {
        begun_are_plain(self);
        self.go_through(w, outcome);
        self.settle(w).unwrap()
    }

    /// Returns whether a worker holds an instance of a shared cache; if so, no outcome of the worker's vertex can be landed. Returns false if the worker runs
    /// nothing or there is no such worker. Does not allocate.
    pub fn has_shared(&self, w: u32) -> bool
        ensures { result ≡ runs_shared (slice_get self.now.state.workers w) }
    {
        has_shared(self.workers.places(w))
    }

    /// Returns the cache instances that a worker holds; none if the worker runs nothing, or there is no such worker. Does not allocate.
    pub fn places(&self, w: u32) -> &[Instance]
        ensures { result.now ≡ places_at (slice_get self.now.state.workers w) }
    {
        self.workers.places(w)
    }

    /// Returns the workspace of what a worker runs; `None` if the worker runs nothing, or there is no such worker. Does not allocate.
    pub fn workspace(&self, w: u32) -> Option<&Workspace>
        ensures { option_map (λ v. v.now) result ≡ option_map (λ (x : Execution). x.own) (runs (slice_get self.now.state.workers w)) }
    {
        self.workers.workspace(w)
    }

    // Checks that the outcome of a job can be landed; otherwise returns the first cause that prevents the landing.
    fn can_land(&self, w: u32, job: &Job) -> Result<(), LandCause>
        ensures ok { OnOk result (CanLand self.now w job.now) }
        ensures err { IfErr result (λ cause. StandsInWay self.now w job.now cause) }
    {
        match self.workers.look(&self.vertices, w) {
            None => Err(LandCause::NoWorker),
            Some(WorkerStatus::Idle) => Err(LandCause::NotRunning),
            Some(WorkerStatus::Runs(_, _, _)) => {
                if has_shared(self.workers.places(w)) {
                    return Err(LandCause::HasShared);
                }
                if !self.workers.is_run_of(&self.vertices, w, job) {
                    return Err(LandCause::Stranger);
                }
                Ok(())
            }
        }
    }

    // Puts the result of an outcome's micro-steps into the state of the worker and into the caches, and records these micro-steps.
    fn go_through(&mut self, w: u32, outcome: Outcome)
        requires { CanLand self.old w outcome.job }
        ensures { IsThrough self.old w outcome.count self.new }
    {
        outcome.is_whole();
        let _ = self.vertices.graph().vertices();
        let count = outcome.count();
        self.workers.land(&self.vertices, w, outcome);
        self.history.record_steps(w, count);
    }
}

// Returns the fault for a cause; the fault holds the outcome.
fn refused(cause: LandCause, outcome: Outcome) -> LandFault
    ensures { result ≡ land_fault cause outcome }
{
    match cause {
        LandCause::NoWorker => LandFault::NoWorker(outcome),
        LandCause::NotRunning => LandFault::NotRunning(outcome),
        LandCause::HasShared => LandFault::HasShared(outcome),
        LandCause::Stranger => LandFault::Stranger(outcome),
    }
}

// Returns whether one of the instances belongs to a shared cache.
fn has_shared(places: &[Instance]) -> bool
    ensures { result ≡ list_any (λ (p : model.Instance). is_shared p.key.mode) places.now }
{
    for place in places {
        if let Mode::Shared = place.key.mode {
            return true;
        }
    }
    false
}
