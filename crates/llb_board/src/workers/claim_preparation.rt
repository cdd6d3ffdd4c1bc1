//! What a claim prepares from the vertex alone.

ghost use Rattle.std.specs.Prelude.{◌≡◌, IfOk};
ghost use Rattle.llb_board.specs.ClaimPreparation.{outfit_as, outfit_of};

use llb_execution::{Program, Steps, empty_trees};
use llb_loader::Vertex;
use llb_tree::Tree;
use llb_wire::Memory;
use std::alloc::Global;

/// What a claim prepares from the vertex alone: the program (for the job), and for the worker an empty tree for each output and the micro-steps.
#[derive(Drop)]
pub(crate) struct Outfit {
    pub program: Program,
    pub outputs: Vec<Tree>,
    pub steps: Steps,
}

/// Makes the `Outfit` for a vertex: what a claim prepares from the vertex alone. Fails with 5 `Memory` alone.
pub(crate) fn outfit_for(alloc: Global, vertex: &Vertex) -> Result<Outfit, Memory>
    ensures { IfOk result (λ o. outfit_as o ≡ outfit_of vertex.now) }
{
    let program = Program::of(alloc, vertex)?;
    let outputs = empty_trees(alloc, vertex.outputs)?;
    let steps = program.steps().copy()?;
    Ok(Outfit {
        program,
        outputs,
        steps,
    })
}
