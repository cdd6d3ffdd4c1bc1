//! Runs the whole program of a vertex on the trees of its inputs, and returns how the vertex ends.

ghost use Rattle.std.specs.Prelude.{◌≡◌, false, Ok, Some};
ghost use Rattle.llb_loader.specs.Graph.{IsVertexOf, Numbered};
ghost use Rattle.llb_model.specs.Outcome.{outcome_on};
ghost use Rattle.llb_model.specs.Program.{has_cache};
ghost use Rattle.llb_plain.specs.OutcomeModelValues.{outcome_of};
ghost use Rattle.llb_plain.specs.CallResults.{Gives};

use crate::fault::PlainFault;
use crate::outcome::Outcome;
use llb_execution::{Steps, Workspace, do_further, empty_trees};
use llb_loader::{Locals, Vertex};
use llb_tree::Tree;
use llb_wire::Many;
use std::alloc::Global;

// Runs the program of a vertex, given the trees of the vertex's inputs, and returns the outcome of the vertex. The vertex must mount no cache.
pub(crate) fn run(
    alloc: Global,
    vertex: &Vertex,
    locals: &Locals,
    inputs: Vec<Tree>,
) -> Result<Outcome, PlainFault>
    requires kind { IsVertexOf vertex.now vertex.now.op.kind }
    requires cacheless { has_cache vertex.now ≡ false }
    ensures { (graph : Numbered) → Gives outcome_of result
        (Ok (outcome_on (record { graph = graph; locals = locals.now }) vertex.now (Some inputs.items))) }
{
    let steps = Steps::of(alloc, vertex)?;
    let mut workspace = Workspace::on(alloc, locals, vertex, inputs, Vec::new(alloc))?;
    let mut trees = Vec::new(alloc);
    let further = do_further(alloc, &steps, 0, &mut workspace, &mut trees)?;
    if let Some(fault) = further.fault {
        return Ok(Outcome::Failed(fault));
    }
    let outputs = empty_trees(alloc, vertex.outputs)?;
    let outputs = workspace.into_outputs(outputs, vertex);
    Ok(Outcome::Done(Many::new(outputs)))
}
