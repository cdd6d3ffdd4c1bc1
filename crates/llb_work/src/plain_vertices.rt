//! Finds the vertices that have no cache mount at or before them. This is done once, before the threads start.

ghost use Rattle.std.specs.Prelude.{◌≡◌, false, unwrap_or, slice_get, IfSome};
ghost use Rattle.std.specs.List.{list_all};
ghost use Rattle.llb_loader.specs.declared.graph.Edge as edge;
ghost use Rattle.llb_model.specs.Outcome.{next_plain};
ghost use Rattle.llb_work.specs.StartingSupplies.{ArePlain};

use llb_board::Board;
use llb_execution::mounts_cache;
use llb_loader::{Edge, Vertex};
use std::alloc::Global;

/// Returns for each vertex, by number, whether no cache mount is at or before it; `None` if memory is refused.
pub(crate) fn plain_marks(alloc: Global, board: &Board) -> Option<Vec<bool>>
    ensures { IfSome result (λ marks. ArePlain board.now.build marks.items) }
{
    let count = board.graph().vertices().len();
    let mut marks = Vec::with_capacity(alloc, count).ok()?;
    for vertex in board.graph().vertices() {
        let plain = is_plain(vertex, &marks);
        marks.push_reserved(plain);
    }
    Some(marks)
}

// Returns whether a vertex mounts no cache and all its inputs lead to marked vertices.
fn is_plain(vertex: &Vertex, marks: &[bool]) -> bool
    ensures { result ≡ next_plain marks.now vertex.now }
{
    !mounts_cache(vertex) && all_marked(marks, vertex.inputs.as_slice())
}

fn all_marked(marks: &[bool], inputs: &[Edge]) -> bool
    ensures { result ≡ list_all (λ (e : edge.Edge). unwrap_or (slice_get marks.now e.vertex) false) inputs.now }
{
    for edge in inputs {
        if !is_marked(marks, edge.vertex) {
            return false;
        }
    }
    true
}

/// Returns whether a vertex is marked as one with no cache mount at or before it; false past the last mark.
pub(crate) fn is_marked(marks: &[bool], v: u32) -> bool
    ensures { result ≡ unwrap_or (slice_get marks.now v) false }
{
    marks.get(v as usize).copied().unwrap_or(false)
}
