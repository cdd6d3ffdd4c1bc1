//! Does the work on a job away from any board: the remaining micro-steps, up to and with the first that has a fault. The result depends on the job alone.

ghost use Rattle.std.specs.Prelude.{◌≡◌, IfOk, IsTrue, Err};
ghost use Rattle.llb_execution.specs.ModelValues.{left_with};
ghost use Rattle.llb_execution.specs.Jobs.{IsOutcome};
ghost use Rattle.llb_execution.specs.declared.fault.WorkFault.TheVariants as work;

use crate::fault::WorkFault;
use crate::job::Job;
use crate::remaining_micro_steps::{Further, do_further};
use crate::worker_gate::Gate;
use crate::workspace::{Workspace, tree_copies};
use llb_events::VertexFault;
use llb_tree::Tree;
use llb_wire::Memory;
use std::alloc::Global;
use std::marker::Model;

/// The outcome of a job: how many micro-steps the work did, and what there is after the last one: the workspace, the trees of the cache instances, and the
/// fault, if there is one. By the type's invariant (`IsOutcome`), these are the results of the job's remaining micro-steps, so no board has to check them.
#[derive(Drop)]
pub struct Outcome {
    job: Job,
    count: u32,
    workspace: Workspace,
    trees: Vec<Tree>,
    fault: Option<VertexFault>,
}

impl Model for Outcome {
    ghost use Rattle.std.specs.Coded.{codes};
    ghost use Rattle.llb_tree.specs.CodedTrees.{coded_tree};
    ghost use Rattle.llb_execution.specs.ModelValues.{left_with};
    ghost use Rattle.llb_execution.specs.Jobs.{OutcomeValue, IsOutcome};

    ghost Value = { OutcomeValue };

    ghost coded = { Prim.hlevel (codes, coded_tree) };

    ghost view = { λ o. record { job = o.job; count = o.count; left = left_with o.workspace o.trees.items o.fault } };

    ghost invariant = { λ o. IsOutcome o.job o.count (left_with o.workspace o.trees.items o.fault) };
}

impl Outcome {
    /// Returns the job as it was handed out.
    pub fn job(&self) -> &Job
        ensures { result.now ≡ self.now.job }
    {
        &self.job
    }

    /// Proves that the outcome has the results of the remaining micro-steps of its job.
    pub fn is_whole(&self)
        ensures { IsOutcome self.now.job self.now.count self.now.left }
    {
        let _ = &self.fault;
    }

    /// Returns how many micro-steps the work on the job did: all that were left, or those up to and with the first that had a fault.
    pub fn count(&self) -> u32
        ensures { result ≡ self.now.count }
    {
        self.count
    }

    /// Returns the workspace after the last micro-step.
    pub fn workspace(&self) -> &Workspace
        ensures { result.now ≡ self.now.left.work.own }
    {
        &self.workspace
    }

    /// Returns the fault of the last micro-step; `None` if no micro-step had a fault.
    pub fn fault(&self) -> Option<VertexFault>
        ensures { result ≡ self.now.left.fault }
    {
        self.fault
    }

    /// Returns how many micro-steps the work on the job did, and what there is after the last one: the workspace, the trees of
    /// the cache instances, and the fault of the last micro-step, if there is one.
    pub fn into_left(self) -> (u32, Workspace, Vec<Tree>, Option<VertexFault>)
        ensures count { result.0 ≡ self.count }
        ensures left { left_with result.1 result.2.items result.3 ≡ self.left }
    {
        let Outcome {
            job: _job,
            count,
            workspace,
            trees,
            fault,
        } = self;
        (count, workspace, trees, fault)
    }
}

/// Passes the gate, does the remaining micro-steps of a job, up to and with the first that has a fault, and returns the outcome. Fails with 143 `Stopped` if
/// the gate stops the worker, or with 142 `Memory`; then the job is dropped. The gate can stop the worker only if the gate's `may_stop` is true for the worker
/// and the vertex of the job. The micro-steps are done on copies of the job's workspace and trees.
pub fn work<G: Gate>(alloc: Global, job: Job, gate: &G) -> Result<Outcome, WorkFault>
    ensures job { IfOk result (λ o. o.job ≡ job) }
    ensures stopped { result ≡ Err work.Stopped → IsTrue (G.may_stop job.worker job.vertex) }
{
    gate.pass(job.worker, job.vertex)?;
    Ok(worked(alloc, job)?)
}

// Does the remaining micro-steps of a job, up to and with the first that has a fault.
fn worked(alloc: Global, job: Job) -> Result<Outcome, Memory>
    ensures { IfOk result (λ o. o.job ≡ job) }
{
    let mut workspace = job.workspace.copy()?;
    let mut trees = tree_copies(alloc, job.trees.as_slice())?;
    let further = do_further(
        alloc,
        job.program.steps(),
        job.done,
        &mut workspace,
        &mut trees,
    )?;
    let Further { count, fault } = further;
    Ok(Outcome {
        job,
        count,
        workspace,
        trees,
        fault,
    })
}
