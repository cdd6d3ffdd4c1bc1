//! Does a micro-step of what a worker runs.

ghost use Rattle.std.specs.Prelude.{◌≡◌, length, false, Some, OnErr, OnOk, slice_get};
ghost use Rattle.llb_execution.specs.ModelValues as parts;
ghost use Rattle.llb_execution.specs.ModelValues.{is_skipped};
ghost use Rattle.llb_model.specs.Table.{HasStepped, unless_failed};
ghost use Rattle.llb_model.specs.TwoCacheModels.{HasLease, rows_after};
ghost use Rattle.llb_model.specs.Program as model;
ghost use Rattle.llb_model.specs.Program.{Left, last_of};
ghost use Rattle.llb_model.specs.Table as table;
ghost use Rattle.llb_board.specs.RunningWorkerSupplies.{supplies_of, supplies_for};
ghost use Rattle.llb_events.specs.Faults.{step_memory, GivesStep};
ghost use Rattle.llb_board.specs.WorkerRules.{worked_in};
ghost use Rattle.llb_board.specs.WorkerModelValues.{execution_of};
ghost use Rattle.llb_board.specs.Workers.{Fits, state_in, step_in};
ghost use Rattle.llb_wire.specs.CallResults.{MemoryLast};

use crate::vertices::Vertices;
use crate::workers::Workers;
use crate::workers::leased_instances::{contents, write_back};
use crate::workers::running_workers::{Execution, Seat};
use llb_cache::{Caches, Lease};
use llb_events::{StepFault, Stepped, VertexFault};
use llb_execution::MicroStep;
use std::alloc::Global;

impl Workers {
    /// Does the next micro-step of what a worker runs, on the worker's cache instances as they are now, and writes the new trees of these instances at once.
    /// Fails with 131 `NoWorker`, 136 `NotRunning`, 137 `NothingLeft` or 141 `Memory`; then nothing has changed.
    pub(crate) fn step(
        &mut self,
        alloc: Global,
        vertices: &Vertices,
        w: u32,
    ) -> Result<Stepped, StepFault>
        requires { Fits vertices.now.build self.old }
        ensures gives { GivesStep (λ r. (state_in vertices.now self.new, HasStepped r)) result (step_in vertices.now self.old w) }
        ensures last { MemoryLast step_memory result (step_in vertices.now self.old w) }
        ensures rows { OnOk result (self.new.rows ≡ rows_after self.old.rows (state_in vertices.now self.new) w) }
        ensures count { length self.new.workers ≡ length self.old.workers }
        ensures fits { OnOk result (Fits vertices.now.build self.new) }
        ensures err { OnErr result (self.new ≡ self.old) }
    {
        if w as usize >= self.seats.len() {
            return Err(StepFault::NoWorker);
        }
        self.caches.is_exclusive();
        match &mut self.seats[w as usize] {
            Seat::Idle => Err(StepFault::NotRunning),
            Seat::Runs(lease, execution) => {
                micro_step(alloc, vertices, execution, &mut self.caches, *lease)
            }
        }
    }
}

// Does the next micro-step of an execution on the instances of its lease as they are now, and writes the new trees to these instances.
fn micro_step(
    alloc: Global,
    vertices: &Vertices,
    execution: &mut Execution,
    caches: &mut Caches,
    lease: Option<Lease>,
) -> Result<Stepped, StepFault>
    requires supplies { supplies_of execution.old ≡ supplies_for (slice_get vertices.now.build.graph.vertices execution.old.vertex) }
    requires leased { HasLease caches.old.out (Some lease) execution.old.places.items }
    ensures gives { GivesStep (λ r. (execution_of execution.new, caches.new.rows, HasStepped r)) result
        (worked_in vertices.now.build caches.old.rows (execution_of execution.old)) }
    ensures last { MemoryLast step_memory result (worked_in vertices.now.build caches.old.rows (execution_of execution.old)) }
    ensures supplies { supplies_of execution.new ≡ supplies_of execution.old }
    ensures places { execution.new.places ≡ execution.old.places }
    ensures out { caches.new.out ≡ caches.old.out }
    ensures err { OnErr result ((execution.new ≡ execution.old) × (caches.new ≡ caches.old)) }
{
    if execution.fault.is_some() {
        return Err(StepFault::NothingLeft);
    }
    let _ = vertices.vertex(execution.vertex);
    let done = execution.done;
    let Some(next) = execution.steps.get(done) else {
        return Err(StepFault::NothingLeft);
    };
    if execution.view.skips(next) {
        caches.is_exclusive();
        execution.done = done + 1;
        return Ok(Stepped::Skipped(done));
    }
    let mut trees = contents(alloc, caches, &execution.places)?;
    let fault = execution.view.step(alloc, done, next, &mut trees)?;
    execution.done = done + 1;
    execution.fault = fault;
    write_back(caches, lease, trees);
    Ok(told(next, done, execution.view.last(), fault))
}

// Returns the reply to micro-step number `done`, which was not skipped, given the last status and the fault after this micro-step.
fn told(step: MicroStep<'_>, done: u32, last: u32, fault: Option<VertexFault>) -> Stepped
    ensures { (before : model.Workspace) (left : Left) → is_skipped (parts.step_in step.entry) before ≡ false → last_of left.work.own ≡ last
        → left.fault ≡ fault → HasStepped result ≡ table.step_reply done (parts.step_in step.entry) before left }
{
    match step {
        MicroStep::ReadLocal => unless_faulted(fault, Stepped::Read),
        MicroStep::Act(_) => unless_faulted(fault, Stepped::Acted(done)),
        MicroStep::LayInput(_) => unless_faulted(fault, Stepped::Merged(done)),
        MicroStep::Run(_, _, _) => Stepped::Ran(done, last),
    }
}

// Returns the fault as a reply, or `done` if there is no fault.
fn unless_faulted(fault: Option<VertexFault>, done: Stepped) -> Stepped
    ensures { result ≡ unless_failed fault done }
{
    match fault {
        Some(fault) => Stepped::Fault(fault),
        None => done,
    }
}
