//! Computes the plain outcome of every vertex of a graph, in ascending order of vertex numbers.

ghost use Rattle.std.specs.Prelude.{◌≡◌, false, Ok};
ghost use Rattle.llb_loader.specs.Graph.{IsVertexOf, Numbered};
ghost use Rattle.llb_model.specs.Outcome.{next_outcome, outcomes};
ghost use Rattle.llb_model.specs.Program.{has_cache};
ghost use Rattle.llb_model.specs.WholeRunLaws.{HasNoCaches};
ghost use Rattle.llb_plain.specs.OutcomeModelValues.{outcome_of};
ghost use Rattle.llb_plain.specs.CallResults.{Gives, MemoryLast};
ghost use Rattle.llb_plain.specs.Evaluation.{evaluate_of};

use crate::fault::PlainFault;
use crate::first_cache_vertex::first_with_cache;
use crate::outcome::{Outcome, Outcomes};
use crate::program_run::run;
use llb_execution::gathered;
use llb_loader::{Graph, Locals, Vertex, missing_local};
use llb_wire::Text;
use std::alloc::Global;

/// Returns the plain outcome of every vertex: `Blocked` if an input of the vertex is not done; else the outputs or the first fault of the vertex's program, run
/// on the trees of the inputs. Fails with 101 `MissingLocal` and the name of the first local source, in the order of the vertices, for which no tree is given;
/// else with 102 `HasCache` and the number of the first vertex that mounts a cache; else with 103 `Memory`. If memory for the name is refused, the call fails
/// with 103 instead of 101.
pub fn evaluate(alloc: Global, graph: &Graph, locals: &Locals) -> Result<Outcomes, PlainFault>
    ensures gives { Gives (λ o. o) result (evaluate_of (record { graph = graph.now; locals = locals.now })) }
    ensures last { MemoryLast result (evaluate_of (record { graph = graph.now; locals = locals.now })) }
{
    if let Some(name) = missing_local(graph, locals) {
        let name = Text::from_str(alloc, name)?;
        return Err(PlainFault::MissingLocal(name));
    }
    if let Some(vertex) = first_with_cache(graph) {
        return Err(PlainFault::HasCache(vertex));
    }
    evaluate_all(alloc, graph, locals)
}

// Returns the plain outcome of every vertex of a graph in which no vertex mounts a cache.
fn evaluate_all(alloc: Global, graph: &Graph, locals: &Locals) -> Result<Outcomes, PlainFault>
    requires { HasNoCaches (record { graph = graph.now; locals = locals.now }) }
    ensures { Gives (λ o. o) result (Ok (outcomes (record { graph = graph.now; locals = locals.now }))) }
{
    graph.is_graph();
    let mut outcomes = Outcomes::new(alloc);
    for vertex in graph.vertices() {
        let next = next(alloc, vertex, locals, &outcomes)?;
        outcomes.push(next)?;
    }
    Ok(outcomes)
}

// Returns the plain outcome of a vertex, from the plain outcomes of the vertices with lower numbers.
fn next(
    alloc: Global,
    vertex: &Vertex,
    locals: &Locals,
    before: &Outcomes,
) -> Result<Outcome, PlainFault>
    requires kind { IsVertexOf vertex.now vertex.now.op.kind }
    requires cacheless { has_cache vertex.now ≡ false }
    ensures { (graph : Numbered)
        → Gives outcome_of result (Ok (next_outcome (record { graph = graph; locals = locals.now }) before.now vertex.now)) }
{
    match gathered(alloc, before, vertex.inputs.as_slice())? {
        Some(inputs) => run(alloc, vertex, locals, inputs),
        None => Ok(Outcome::Blocked),
    }
}
