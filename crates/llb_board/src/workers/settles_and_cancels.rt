//! Settles or cancels what a worker runs; the worker's cache instances are then free again.

ghost use Rattle.std.specs.Prelude.{◌≡◌, OnErr, OnOk, IfOk, option_map, replicate, slice_get, slice_set};
ghost use Rattle.llb_tree.specs.Tree.{empty_tree};
ghost use Rattle.llb_model.specs.Outcome.{ended};
ghost use Rattle.llb_model.specs.Program.{Build, program_at};
ghost use Rattle.llb_model.specs.State.{Idle, Settled};
ghost use Rattle.llb_events.specs.Faults.{GivesSettle, GivesCancel};
ghost use Rattle.llb_board.specs.WorkerRules.{left_at, given_up_at};
ghost use Rattle.llb_board.specs.Vertices.{status_of, IsWhole};
ghost use Rattle.llb_board.specs.Workers.{Fits};

use crate::vertices::{Stage, Vertices};
use crate::workers::Workers;
use crate::workers::leased_instances::give_back;
use crate::workers::running_workers::{Execution, Seat, is_finished, vacate};
use crate::workers::taken_outputs::outputs;
use llb_events::{CancelFault, Cancelled, SettleFault};
use llb_loader::Vertex;
use llb_wire::Many;

impl Workers {
    /// Settles the finished vertex that a worker runs; the worker's instances are free again. Returns the vertex and its status after the
    /// settle. Fails with 131 `NoWorker`, 136 `NotRunning` or 138 `NotFinished`; then nothing has changed. Does not allocate.
    pub(crate) fn leave(&mut self, vertices: &Vertices, w: u32) -> Result<(u32, Stage), SettleFault>
        requires { Fits vertices.now.build self.old }
        ensures gives { GivesSettle (λ p. (p.0, status_of p.1)) result (left_at vertices.now.build (slice_get self.old.workers w)) }
        ensures whole { IfOk result (λ p. IsWhole (slice_get vertices.now.build.graph.vertices p.0) (status_of p.1)) }
        ensures idle { OnOk result (self.new.workers ≡ slice_set self.old.workers w Idle) }
        ensures rows { self.new.rows ≡ self.old.rows }
        ensures fits { OnOk result (Fits vertices.now.build self.new) }
        ensures err { OnErr result (self.new ≡ self.old) }
    {
        if w as usize >= self.seats.len() {
            return Err(SettleFault::NoWorker);
        }
        match &self.seats[w as usize] {
            Seat::Idle => return Err(SettleFault::NotRunning),
            Seat::Runs(_, execution) => {
                if !is_finished(execution, vertices.steps(execution.vertex)) {
                    return Err(SettleFault::NotFinished);
                }
            }
        }
        let (lease, execution) = vacate(&mut self.seats, w);
        give_back(&mut self.caches, lease);
        let v = execution.vertex;
        Ok((v, end(execution, vertices.vertex(v))))
    }

    /// Cancels what a worker runs, finished or not; the worker's instances are free again. Returns the vertex and how many of its micro-steps
    /// were done. Fails with 131 `NoWorker` or 136 `NotRunning`; then nothing has changed. Does not allocate.
    pub(crate) fn give_up(&mut self, w: u32) -> Result<Cancelled, CancelFault>
        ensures gives { GivesCancel (λ c. (c.vertex, c.done)) result (given_up_at (slice_get self.old.workers w)) }
        ensures idle { OnOk result (self.new.workers ≡ slice_set self.old.workers w Idle) }
        ensures rows { self.new.rows ≡ self.old.rows }
        ensures fits { OnOk result ((b : Build) → Fits b self.old → Fits b self.new) }
        ensures err { OnErr result (self.new ≡ self.old) }
    {
        if w as usize >= self.seats.len() {
            return Err(CancelFault::NoWorker);
        }
        match &self.seats[w as usize] {
            Seat::Idle => return Err(CancelFault::NotRunning),
            Seat::Runs(_, _) => {}
        }
        let (lease, execution) = vacate(&mut self.seats, w);
        give_back(&mut self.caches, lease);
        Ok(Cancelled {
            vertex: execution.vertex,
            done: execution.done,
        })
    }
}

// Returns what a vertex is after its execution: failed if the execution has a fault, else done with its outputs.
fn end(execution: Execution, vertex: Option<&Vertex>) -> Stage
    requires { execution.outputs.items ≡ replicate (program_at (option_map (λ v. v.now) vertex)).outputs empty_tree }
    ensures { status_of result ≡ Settled (ended (program_at (option_map (λ v. v.now) vertex.entry)) execution.view execution.fault) }
{
    match execution.fault {
        Some(fault) => Stage::Failed(fault),
        None => {
            let outputs = outputs(execution.view, execution.outputs, vertex);
            Stage::Done(Many::new(outputs))
        }
    }
}
