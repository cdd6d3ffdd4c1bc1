//! Copies the trees of a vertex's inputs from the vertices that are done. A copy shares the memory of its tree.

ghost use Rattle.std.specs.Prelude.{◌≡◌, ℕ, Option, IfOk, OnErr, is_some, true, option_map};
ghost use Rattle.llb_model.specs.Outcome.{Ending, inputs_from, output_in};

use llb_loader::Edge;
use llb_tree::Tree;
use llb_wire::Memory;
use std::alloc::Global;

/// The outputs of vertices, by vertex number; only vertices that are done have outputs.
pub trait Outputs {
    /// How each vertex ended; `None` for a vertex that has not ended.
    ghost ending: { Self → ℕ → Option Ending };

    /// Returns the output that an edge leads to, if the vertex of the edge is done and has that output.
    fn tree(&self, edge: Edge) -> Option<&Tree>
        ensures { option_map (λ t. t.now) result ≡ output_in (ending self.now edge.vertex) edge.index };
}

/// Returns copies of the trees that edges lead to, in the order of the edges; `None` if an edge leads to a vertex that is not done or that lacks the edge's
/// output. Fails with 5 `Memory`, and only if there are all these trees.
pub fn gathered<O: Outputs>(
    alloc: Global,
    outputs: &O,
    edges: &[Edge],
) -> Result<Option<Vec<Tree>>, Memory>
    ensures trees { IfOk result (λ trees. option_map (λ v. v.items) trees ≡ inputs_from (O.ending outputs.now) edges.now) }
    ensures last { OnErr result (is_some (inputs_from (O.ending outputs.now) edges.now) ≡ true) }
{
    if !are_there(outputs, edges) {
        return Ok(None);
    }
    Ok(all_at(alloc, outputs, edges)?)
}

// Returns whether each edge leads to an output of a vertex that is done. Does not allocate.
fn are_there<O: Outputs>(outputs: &O, edges: &[Edge]) -> bool
    ensures { result ≡ is_some (inputs_from (O.ending outputs.now) edges.now) }
{
    for edge in edges {
        match outputs.tree(*edge) {
            Some(_tree) => {}
            None => return false,
        }
    }
    true
}

// Returns copies of the trees that edges lead to; `None` if an edge leads to a vertex that is not done or that lacks the edge's output.
fn all_at<O: Outputs>(
    alloc: Global,
    outputs: &O,
    edges: &[Edge],
) -> Result<Option<Vec<Tree>>, Memory>
    ensures { IfOk result (λ trees. option_map (λ v. v.items) trees ≡ inputs_from (O.ending outputs.now) edges.now) }
{
    let mut trees = Vec::with_capacity(alloc, edges.len())?;
    for edge in edges {
        match outputs.tree(*edge) {
            Some(tree) => trees.push_reserved(tree.copy()?),
            None => return Ok(None),
        }
    }
    Ok(Some(trees))
}
