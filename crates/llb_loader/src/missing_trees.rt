//! Finds the first local source of a graph for which no tree is given.

ghost use Rattle.std.specs.Prelude.{◌≡◌, option_map};
ghost use Rattle.llb_loader.specs.FirstMissingTree.{missing_local};

use crate::graph::Graph;
use crate::local_trees::Locals;

/// Returns the name of the first local source, in the order of the vertices, for which no tree is given; `None` if every local source has a tree. Does not
/// allocate.
pub fn missing_local<'a>(graph: &'a Graph, locals: &Locals) -> Option<&'a str>
    ensures { option_map (λ t. t.now) result ≡ missing_local locals.now graph.now.vertices }
{
    for vertex in graph.vertices() {
        if let Some(name) = vertex.local_name() {
            if locals.get(name).is_none() {
                return Some(name);
            }
        }
    }
    None
}
