//! Finds out of which vertices of a graph no cache mount is at or before.

ghost use Rattle.std.specs.Prelude.{◌≡◌, [], IfOk, false, slice_get, unwrap_or};
ghost use Rattle.std.specs.List.{list_all};
ghost use Rattle.llb_model.specs.ListsFromEarlierItems.{by_number};
ghost use Rattle.llb_model.specs.Outcome.{next_plain};
ghost use Rattle.llb_laws.specs.KeptOutputs.{plain_in};

use llb_execution::mounts_cache;
use llb_loader::{Edge, Graph, Vertex};
use llb_wire::Memory;
use std::alloc::Global;

/// Returns whether no cache mount is at or before a vertex, by a list that has this for each vertex; `false` past the end of the list.
pub(crate) fn plain_in(plains: &[bool], v: u32) -> bool
    ensures { result ≡ plain_in plains.now v }
{
    match plains.get(v as usize) {
        Some(plain) => *plain,
        None => false,
    }
}

// Returns whether no cache mount is at or before the vertices to which these edges lead.
fn are_plain(plains: &[bool], edges: &[Edge]) -> bool
    ensures { result ≡ list_all (λ e. unwrap_or (slice_get plains.now e.vertex) false) edges.now }
{
    for edge in edges {
        if !plain_in(plains, edge.vertex) {
            return false;
        }
    }
    true
}

// Returns whether no cache mount is at or before a vertex, by the list for the vertices with lower numbers.
fn next_plain(plains: &[bool], vertex: &Vertex) -> bool
    ensures { result ≡ next_plain plains.now vertex.now }
{
    if mounts_cache(vertex) {
        return false;
    }
    are_plain(plains, vertex.inputs.as_slice())
}

/// Returns for each vertex whether no cache mount is at or before it.
pub(crate) fn plains_of(alloc: Global, graph: &Graph) -> Result<Vec<bool>, Memory>
    ensures { IfOk result (λ plains. plains.items ≡ by_number next_plain [] graph.now.vertices) }
{
    let vertices = graph.vertices();
    let mut plains = Vec::new(alloc);
    for v in 0..vertices.len() {
        let plain = next_plain(plains.as_slice(), &vertices[v]);
        plains.push(plain)?;
    }
    Ok(plains)
}
