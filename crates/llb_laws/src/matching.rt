//! Loads two definitions, and finds for each vertex of the second a vertex of the first that does the same on inputs that match.

ghost use Rattle.std.specs.Prelude.{◌≡◌, ◌≤◌, ◌↔◌, IfErr, IfOk, IsTrue, false, length, option_map, slice_get};
ghost use Rattle.llb_loader.specs.Faults.{is_memory};
ghost use Rattle.llb_loader.specs.LocalSources.{local_name};
ghost use Rattle.llb_laws.specs.Definitions.{IsKindRewritten};
ghost use Rattle.llb_laws.specs.MatchingMarks.{AreMarks, ArePartnersBy, HaveOneMark, IsFirstLike, IsLike, LoadMatched};
ghost use Rattle.llb_laws.specs.Refusals.{IsRefusalOfTwo};

use crate::two_graphs::{matched_vertices_end_alike, outcome_by_sources};
use llb_loader::{Edge, Graph, LoadFault, Vertex, load};
use llb_wire::{Memory, Same};
use std::alloc::Global;

// Returns whether both vertices are local sources with one name, or neither is one and their ops have the same kind.
fn is_kind_same(vertex: &Vertex, other: &Vertex) -> bool
    ensures { IsTrue result ↔ IsKindRewritten (λ n. n) vertex.now.op other.now.op }
{
    match (vertex.local_name(), other.local_name()) {
        (None, _) => vertex.op.kind.same(&other.op.kind),
        (Some(name), Some(same)) => name == same,
        (Some(_), None) => false,
    }
}

// Returns whether the lists have the same mark at these places; two places past the ends count as the same.
fn is_mark_same(marks: &[usize], place: u32, others: &[usize], other: u32) -> bool
    ensures { IsTrue result ↔ (slice_get marks.now place ≡ slice_get others.now other) }
{
    match (marks.get(place as usize), others.get(other as usize)) {
        (Some(mark), Some(same)) => *mark == *same,
        (None, None) => true,
        _ => false,
    }
}

// Returns whether the edges lead to vertices with one mark, and to the same index there.
fn have_one_mark(marks: &[usize], others: &[usize], edge: Edge, other: Edge) -> bool
    ensures { IsTrue result ↔ HaveOneMark marks.now others.now edge other }
{
    if edge.index != other.index {
        return false;
    }
    is_mark_same(marks, edge.vertex, others, other.vertex)
}

// Returns whether the second vertex is like the first by marks: the same kind, and edges to vertices with the same marks.
fn is_like(marks: &[usize], others: &[usize], vertex: &Vertex, other: &Vertex) -> bool
    ensures { IsTrue result ↔ IsLike (HaveOneMark marks.now others.now) vertex.now other.now }
{
    let edges = vertex.inputs.as_slice();
    let same = other.inputs.as_slice();
    if edges.len() != same.len() || !is_kind_same(vertex, other) {
        return false;
    }
    for i in 0..edges.len() {
        if !have_one_mark(marks, others, edges[i], same[i]) {
            return false;
        }
    }
    true
}

// Returns the lowest number, below `count`, of a vertex that this one is like by marks; `count` if there is none.
fn first_like(
    vertices: &[Vertex],
    count: usize,
    marks: &[usize],
    others: &[usize],
    vertex: &Vertex,
) -> usize
    requires { count ≤ length vertices.now }
    ensures { IsFirstLike vertices.now count marks.now others.now vertex.now result }
{
    for k in 0..count {
        if is_like(marks, others, &vertices[k], vertex) {
            return k;
        }
    }
    count
}

// Returns the mark of each vertex: the lowest number of a vertex like it.
fn marks_of(alloc: Global, graph: &Graph) -> Result<Vec<usize>, Memory>
    ensures { IfOk result (λ marks. AreMarks graph.now.vertices marks.items) }
{
    let vertices = graph.vertices();
    let mut marks = Vec::new(alloc);
    for v in 0..vertices.len() {
        let mark = first_like(
            vertices,
            v,
            marks.as_slice(),
            marks.as_slice(),
            &vertices[v],
        );
        marks.push(mark)?;
    }
    Ok(marks)
}

// Returns the partner of each vertex of the second graph: the lowest number of a vertex of the first that is like it, by the marks of the first.
fn partners_of(
    alloc: Global,
    graph: &Graph,
    marks: &[usize],
    other: &Graph,
) -> Result<Vec<usize>, Memory>
    ensures { IfOk result (λ partners. ArePartnersBy graph.now.vertices marks.now other.now.vertices partners.items) }
{
    let vertices = graph.vertices();
    let others = other.vertices();
    let mut partners = Vec::new(alloc);
    for w in 0..others.len() {
        let partner = first_like(
            vertices,
            vertices.len(),
            marks,
            partners.as_slice(),
            &others[w],
        );
        partners.push(partner)?;
    }
    Ok(partners)
}

/// Returns the graphs of two definitions, and for each vertex of the second the lowest number of a vertex of the first that does the same on inputs that
/// match, whatever their digests are; the number of the first graph's vertices if there is none. Two vertices do the same if the kinds of their ops are equal,
/// or if they are local sources with one name. Such vertices have the same plain outcome if the sources at or before them have the same trees, whatever trees
/// other sources have. Fails with the fault of `load` for the first definition, else for the second, or for want of memory. Takes time by the product of the
/// numbers of vertices, and by the square of the first.
pub fn load_matched(
    alloc: Global,
    first: &[u8],
    second: &[u8],
) -> Result<(Graph, Graph, Vec<usize>), LoadFault>
    ensures matched { IfOk result (λ made. LoadMatched first.now made.0 second.now made.1 made.2.items) }
    ensures refused { IfErr result (λ e. is_memory e ≡ false → IsRefusalOfTwo first.now second.now e) }
{
    let graph = load(alloc, first)?;
    let other = load(alloc, second)?;
    let marks = marks_of(alloc, &graph)?;
    let partners = partners_of(alloc, &graph, marks.as_slice(), &other)?;
    graph.is_graph();
    other.is_graph();
    matched_vertices_end_alike(&graph, &other);
    outcome_by_sources(&graph);
    outcome_by_sources(&other);
    Ok((graph, other, partners))
}
