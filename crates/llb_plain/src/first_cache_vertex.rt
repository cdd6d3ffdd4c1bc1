//! Finds the first vertex that mounts a cache. The outcome of such a vertex, and of each vertex downstream of it, may depend on the order in which vertices
//! run; so a graph with such a vertex is not evaluated.

ghost use Rattle.std.specs.Prelude.{◌≡◌};
ghost use Rattle.llb_plain.specs.Evaluation.{cache_from};

use llb_execution::mounts_cache;
use llb_loader::Graph;

// Returns the number of the first vertex that mounts a cache; `None` if no vertex mounts one.
pub(crate) fn first_with_cache(graph: &Graph) -> Option<u32>
    ensures { result ≡ cache_from 0 graph.now.vertices }
{
    graph.is_graph();
    for (k, vertex) in graph.vertices().iter().enumerate() {
        if mounts_cache(vertex) {
            return Some(k as u32);
        }
    }
    None
}
