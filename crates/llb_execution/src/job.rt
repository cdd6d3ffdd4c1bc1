//! A job is what a worker has to do: a vertex's program, and what the program works on. A job borrows nothing. By an invariant of the type
//! (`IsWorkable`), the micro-steps of the program can be done on what the job has.

ghost use Rattle.std.specs.Prelude.{◌≡◌};
ghost use Rattle.llb_execution.specs.Jobs.{IsWorkable};
ghost use Rattle.llb_execution.specs.ModelValues.{work_with};

use crate::program::Program;
use crate::workspace::Workspace;
use llb_tree::Tree;
use llb_wire::Many;
use std::marker::Model;

/// A job: which worker does it, and everything that the work needs. Contracts see a job as the model's `Job`.
pub struct Job {
    pub(crate) worker: u32,
    pub(crate) vertex: u32,
    pub(crate) program: Program,
    pub(crate) done: u32,
    pub(crate) workspace: Workspace,
    pub(crate) trees: Many<Tree>,
    instances: Many<u32>,
}

impl Drop for Job {
    fn drop(self) {
        let Job {
            worker: _,
            vertex: _,
            program: _,
            done: _,
            workspace: _,
            trees: _,
            instances: _,
        } = self;
    }
}

impl Model for Job {
    ghost use Rattle.std.specs.Coded.{codes};
    ghost use Rattle.llb_tree.specs.CodedTrees.{coded_tree};
    ghost use Rattle.llb_execution.specs.ModelValues.{work_with};
    ghost use Rattle.llb_model.specs.Table as table;
    ghost use Rattle.llb_execution.specs.Jobs.{IsWorkable};

    ghost Value = { table.Job };

    ghost coded = { Prim.hlevel (codes, coded_tree) };

    ghost view = { λ j. record {
      worker = j.worker;
      vertex = j.vertex;
      program = j.program;
      done = j.done;
      work = work_with j.workspace j.trees;
      instances = j.instances;
    } };

    ghost invariant = { λ j. IsWorkable j.program (work_with j.workspace j.trees) };
}

impl Job {
    /// Makes a job of which no micro-step is done. `trees` and `instances` are the trees and the numbers of the cache instances, in the order of
    /// the mounts that show these instances. Does not allocate.
    pub fn new(
        worker: u32,
        vertex: u32,
        program: Program,
        workspace: Workspace,
        trees: Many<Tree>,
        instances: Many<u32>,
    ) -> Job
        requires { IsWorkable program (work_with workspace trees) }
        ensures { result ≡ record {
          worker = worker;
          vertex = vertex;
          program = program;
          done = 0;
          work = work_with workspace trees;
          instances = instances;
        } }
    {
        Job {
            worker,
            vertex,
            program,
            done: 0,
            workspace,
            trees,
            instances,
        }
    }

    /// Returns the number of the worker that does the job.
    pub fn worker(&self) -> u32
        ensures { result ≡ self.now.worker }
    {
        self.worker
    }

    /// Returns the number of the vertex.
    pub fn vertex(&self) -> u32
        ensures { result ≡ self.now.vertex }
    {
        self.vertex
    }

    /// Returns the vertex's program: its micro-steps and outputs.
    pub fn program(&self) -> &Program
        ensures { result.now ≡ self.now.program }
    {
        &self.program
    }

    /// Returns how many micro-steps were done before the job was handed out; 0 for a job that `new` made.
    pub fn done(&self) -> u32
        ensures { result ≡ self.now.done }
    {
        self.done
    }

    /// Returns the workspace with which the work on the job begins. In this workspace each mount that shows a cache has the empty tree.
    pub fn workspace(&self) -> &Workspace
        ensures { result.now ≡ self.now.work.own }
    {
        &self.workspace
    }

    /// Returns the trees that the cache instances have at the claim, in the order of the mounts that show these instances.
    pub fn trees(&self) -> &[Tree]
        ensures { result.now ≡ self.now.work.trees }
    {
        self.trees.as_slice()
    }

    /// Returns the numbers of the cache instances, in the order of the mounts that show these instances.
    pub fn instances(&self) -> &[u32]
        ensures { result.now ≡ self.now.instances }
    {
        self.instances.as_slice()
    }
}
