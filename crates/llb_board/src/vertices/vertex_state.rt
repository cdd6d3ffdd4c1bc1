//! The state of a vertex.

ghost use Rattle.std.specs.Prelude.{◌≡◌, Some, IfOk};
ghost use Rattle.llb_model.specs.State.{ending_of, is_done, is_failed};
ghost use Rattle.llb_board.specs.Vertices.{status_of};

use crate::tree_list_copies::copied_trees;
use llb_events::VertexFault;
use llb_tree::Tree;
use llb_wire::{Many, Memory, Same};
use std::alloc::Global;

/// The state of a vertex: the vertex waits, a worker runs it, or it ended with its outputs or a fault.
#[derive(Drop)]
pub(crate) enum Stage {
    /// No worker runs the vertex, and it has not ended.
    Waiting,
    /// The worker of this number runs the vertex.
    Running(u32),
    /// The vertex ended with these outputs.
    Done(Many<Tree>),
    /// The vertex ended with this fault.
    Failed(VertexFault),
}

impl Stage {
    /// Returns whether the vertex has failed.
    pub(crate) fn has_failed(&self) -> bool
        ensures { result ≡ is_failed (ending_of (Some (status_of self.now))) }
    {
        match self {
            Stage::Failed(_) => true,
            _ => false,
        }
    }

    /// Returns whether the vertex is done.
    pub(crate) fn is_done(&self) -> bool
        ensures { result ≡ is_done (ending_of (Some (status_of self.now))) }
    {
        match self {
            Stage::Done(_) => true,
            _ => false,
        }
    }

    /// Returns a copy of the state; the copy shares the trees. Fails with 5 `Memory` alone.
    pub(crate) fn copy(&self, alloc: Global) -> Result<Stage, Memory>
        ensures { IfOk result (λ s. s ≡ self.now) }
    {
        match self {
            Stage::Waiting => Ok(Stage::Waiting),
            Stage::Running(w) => Ok(Stage::Running(*w)),
            Stage::Done(trees) => {
                let trees = copied_trees(alloc, trees.as_slice())?;
                Ok(Stage::Done(Many::new(trees)))
            }
            Stage::Failed(fault) => Ok(Stage::Failed(*fault)),
        }
    }
}

impl Same for Stage {
    fn same(&self, other: &Stage) -> bool {
        match (self, other) {
            (Stage::Waiting, Stage::Waiting) => true,
            (Stage::Running(w), Stage::Running(u)) => w == u,
            (Stage::Done(trees), Stage::Done(others)) => trees.same(others),
            (Stage::Failed(fault), Stage::Failed(other)) => fault.same(other),
            _ => false,
        }
    }
}
