//! Does a claim in two parts. The first part does all tests that can refuse the claim, and prepares what the worker will run. The second part leases the cache
//! instances and makes the worker run the vertex; it fails only for want of memory.

ghost use Rattle.std.specs.Prelude.{◌≡◌, ◌<◌, ◌^◌, length, map, true, Ok, Some, OnErr, OnOk, IfErr, IfOk};
ghost use Rattle.std.specs.List.{All};
ghost use Rattle.llb_model.specs.Table.{Claimed};
ghost use Rattle.llb_events.specs.Faults.{GivesClaim, claim_memory, claim_may_want};
ghost use Rattle.llb_events.specs.declared.refusal.ClaimFault.TheVariants as claim;
ghost use Rattle.llb_loader.specs.Graph.{IsVertexOf};
ghost use Rattle.llb_model.specs.Outcome.{inputs_from};
ghost use Rattle.llb_model.specs.Program.{needs_of, program_of};
ghost use Rattle.llb_model.specs.State.{ending_at, Running};
ghost use Rattle.llb_model.specs.Table.{claim_grant};
ghost use Rattle.llb_cache.specs.Caches.{CachesValue};
ghost use Rattle.llb_board.specs.CacheNeeds.{IsFound, need_of};
ghost use Rattle.llb_model.specs.TwoCacheModels.{rows_after};
ghost use Rattle.llb_board.specs.RunningWorkerSupplies.{supplies_for, supplies_of};
ghost use Rattle.llb_board.specs.WorkerRules as rules;
ghost use Rattle.llb_board.specs.Vertices.{with_status};
ghost use Rattle.llb_board.specs.WorkerModelValues.{execution_of};
ghost use Rattle.llb_board.specs.Workers.{IsBegunOn, Fits, claim_in, reply_of, state_in, rule_of};

use crate::vertices::Vertices;
use crate::workers::Workers;
use crate::workers::cache_needs::{
    Wanted, asked, first_trees, instance_numbers, mount_numbers, places_found, rows_found,
    wanted_by,
};
use crate::workers::claim_preparation::outfit_for;
use crate::workers::leased_instances::lease_for;
use crate::workers::running_workers::{Execution, Seat, seat_at};
use llb_cache::Need;
use llb_events::ClaimFault;
use llb_execution::{Job, Workspace};
use llb_loader::Vertex;
use llb_wire::Many;
use std::alloc::Global;
use std::marker::Model;

/// A prepared claim: the job, what the worker will run, the needs for the lease (a key, and the tree with which a new instance begins), and the rows in which
/// these keys were found.
pub(crate) struct Begun {
    job: Job,
    execution: Execution,
    needs: Vec<Need>,
    rows: Vec<Option<usize>>,
}

impl Drop for Begun {
    fn drop(self) {
        let Begun {
            job: _,
            execution: _,
            needs: _,
            rows: _,
        } = self;
    }
}

impl Model for Begun {
    ghost use Rattle.std.specs.Coded.{codes};
    ghost use Rattle.llb_tree.specs.CodedTrees.{coded_tree};
    ghost use Rattle.llb_board.specs.RunningWorkerSupplies.{supplies_of};
    ghost use Rattle.llb_board.specs.WorkerModelValues.{execution_of};
    ghost use Rattle.llb_board.specs.Workers.{BegunValue};

    ghost Value = { BegunValue };

    ghost coded = { Prim.hlevel (codes, coded_tree) };

    ghost view = { λ b. record {
      job = b.job;
      execution = execution_of b.execution;
      supplies = supplies_of b.execution;
      needs = b.needs.items;
    } };
}

impl Begun {
    // Takes a prepared claim apart, and returns its fields, which the call `start` needs.
    fn into_parts(self) -> (Job, Execution, Vec<Need>, Vec<Option<usize>>)
        ensures job { result.0 ≡ self.job }
        ensures execution { execution_of result.1 ≡ self.execution }
        ensures supplies { supplies_of result.1 ≡ self.supplies }
        ensures needs { result.2.items ≡ self.needs }
    {
        let Begun {
            job,
            execution,
            needs,
            rows,
        } = self;
        (job, execution, needs, rows)
    }
}

impl Workers {
    /// Prepares a worker's claim of a vertex, and changes nothing yet. Fails with the first of 131 `NoWorker`, 132 `Busy`, 133 `NoVertex`, 134 `NotReady` and
    /// 135 `Held` that applies. Fails with 141 `Memory` in place of 135 if memory for a copy of the held key is refused, and for other memory only if none of
    /// these faults applies.
    pub(crate) fn begin(
        &self,
        alloc: Global,
        vertices: &Vertices,
        w: u32,
        v: u32,
    ) -> Result<Begun, ClaimFault>
        ensures gives { GivesClaim (λ b. Claimed b.job) result (reply_of (claim_in vertices.now self.now w v)) }
        ensures last { IfErr result (λ e. claim_memory e ≡ true → claim_may_want (claim_in vertices.now self.now w v) ≡ true) }
        ensures begun { IfOk result (λ b. IsBegunOn vertices.now self.now b) }
        ensures at { IfOk result (λ b. (b.job.worker ≡ w) × (b.job.vertex ≡ v)) }
    {
        match seat_at(&self.seats, w) {
            None => return Err(ClaimFault::NoWorker),
            Some(Seat::Runs(_, _)) => return Err(ClaimFault::Busy),
            Some(Seat::Idle) => {}
        }
        let vertex = vertices.ready(v)?;
        self.caches.is_exclusive();
        let wanted = wanted_by(alloc, &self.caches, vertex)?;
        begun_with(alloc, vertices, (w, v), vertex, &wanted)
    }

    /// Does a claim that was prepared on this state: leases the cache instances, and makes the worker run the vertex. Returns the job. Fails with 141 `Memory`
    /// alone; then nothing has changed.
    pub(crate) fn start(&mut self, vertices: &Vertices, begun: Begun) -> Result<Job, ClaimFault>
        requires { IsBegunOn vertices.now self.old begun }
        ensures job { IfOk result (λ job. job ≡ begun.job) }
        ensures grants { OnOk result (claim_grant vertices.now.build (state_in vertices.now self.old) begun.job.worker begun.job.vertex
            ≡ Ok (state_in (with_status begun.job.vertex (Running begun.job.worker) vertices.now) self.new, Claimed begun.job)) }
        ensures rows { OnOk result (self.new.rows
            ≡ rows_after self.old.rows (state_in (with_status begun.job.vertex (Running begun.job.worker) vertices.now) self.new) begun.job.worker) }
        ensures count { length self.new.workers ≡ length self.old.workers }
        ensures fits { OnOk result (Fits vertices.now.build self.old → Fits vertices.now.build self.new) }
        ensures memory { IfErr result (λ e. e ≡ claim.Memory) }
        ensures err { OnErr result (self.new ≡ self.old) }
    {
        let (job, execution, needs, rows) = begun.into_parts();
        let w = job.worker();
        let _ = vertices.vertex(0);
        self.caches.is_exclusive();
        match lease_for(&mut self.caches, needs, &rows) {
            Ok(lease) => {
                self.seats[w as usize] = Seat::Runs(lease, execution);
                Ok(job)
            }
            Err(_) => Err(ClaimFault::Memory),
        }
    }
}

// Prepares the claim of a vertex, given what was looked up for each cache that the vertex mounts. The job and the execution both have the trees of the inputs
// and the cache instances that the lease will take; the execution also has an empty tree for each output, and the micro-steps. Fails with 134 `NotReady` if an
// input is not done, or with 141 `Memory`.
fn begun_with(
    alloc: Global,
    vertices: &Vertices,
    at: (u32, u32),
    vertex: &Vertex,
    wanted: &[Wanted<'_>],
) -> Result<Begun, ClaimFault>
    requires kind { IsVertexOf vertex.now vertex.now.op.kind }
    requires few { length (program_of vertex.now).steps < 2 ^ 32 }
    requires wanted { map need_of wanted.now ≡ needs_of vertex.now }
    ensures gives { (caches : CachesValue) → All (IsFound caches) wanted.now → GivesClaim rule_of result
        (rules.begun vertices.now.build caches at.0 at.1 vertex.now (inputs_from (ending_at vertices.now.statuses) vertex.now.inputs)) }
    ensures supplies { IfOk result (λ b. b.supplies ≡ supplies_for (Some vertex.now)) }
{
    let (w, v) = at;
    let inputs = vertices.inputs(alloc, vertex)?;
    let numbers = mount_numbers(alloc, wanted)?;
    let places = places_found(alloc, wanted)?;
    let instances = instance_numbers(alloc, &places)?;
    let trees = first_trees(alloc, &inputs, wanted)?;
    let needs = asked(alloc, &inputs, wanted)?;
    let rows = rows_found(alloc, wanted)?;
    let outfit = outfit_for(alloc, vertex)?;
    let view = Workspace::on(alloc, vertices.locals(), vertex, inputs, numbers)?;
    let own = view.copy()?;
    let trees = Many::new(trees);
    let instances = Many::new(instances);
    let job = Job::new(w, v, outfit.program, view, trees, instances);
    let execution = Execution {
        vertex: v,
        done: 0,
        fault: None,
        view: own,
        places,
        outputs: outfit.outputs,
        steps: outfit.steps,
    };
    Ok(Begun {
        job,
        execution,
        needs,
        rows,
    })
}
