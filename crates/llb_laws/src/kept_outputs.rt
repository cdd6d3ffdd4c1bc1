//! Opens a board over a definition in which local sources replace outputs of another board.

ghost use Rattle.std.specs.Prelude.{◌≡◌, ◌↔◌, ◌<◌, ◌≤◌, [], IfErr, IfOk, IfSome, IsTrue, Some, None, true, false, length, option_map};
ghost use Rattle.std.specs.Prelude.{slice_get, slice_index_or};
ghost use Rattle.llb_loader.specs.LocalSources.{local_name};
ghost use Rattle.llb_model.specs.ListsFromEarlierItems.{by_number};
ghost use Rattle.llb_model.specs.Outcome.{next_plain};
ghost use Rattle.llb_board.specs.Opening.{may_work};
ghost use Rattle.llb_laws.specs.RenamedAndKeptSources.{IsEdgeFrom};
ghost use Rattle.llb_laws.specs.KeptOutputs.{Adds, ArePlaced, CopiesNone, HasNoPlace, HaveNoPlace, HaveTrees, IsCopyIn, IsFirstCopy};
ghost use Rattle.llb_laws.specs.KeptOutputs.{IsPlaced, LacksTree, LackTree, AreKeptPlain, IsKeptPlain, IsMet, MeetsCache, StandsIn};
ghost use Rattle.llb_laws.specs.KeptOutputs.{StandsNotIn, origin_at, place_in, place_of, replaced_by, tree_for};
ghost use Rattle.llb_laws.specs.Refusals.{IsRefusalOfKept, is_memory};

use crate::fault::KeptFault;
use crate::plain_vertices::{plain_in, plains_of};
use crate::two_graphs::kept_outputs_stand_in;
use llb_board::Board;
use llb_cache::Caches;
use llb_loader::{Edge, Graph, Locals, Vertex, load};
use llb_tree::Tree;
use llb_wire::{Memory, Same, Text};
use std::alloc::Global;

// Returns the output that a source with this name replaces, by the first pair with its name.
fn place_of(kept: &[(Text, Edge)], name: &str) -> Option<Edge>
    ensures { result ≡ place_of kept.now (Some name.now) }
{
    for pair in kept {
        if pair.0.as_str() == name {
            return Some(pair.1);
        }
    }
    None
}

// Returns the output that a vertex replaces.
fn replaced_by(kept: &[(Text, Edge)], vertex: &Vertex) -> Option<Edge>
    ensures { result ≡ replaced_by kept.now vertex.now }
{
    match vertex.local_name() {
        Some(name) => place_of(kept, name),
        None => None,
    }
}

// Returns the tree of a source with this name: the output that it replaces, or else the local tree that is given for the name.
fn tree_for<'a>(
    board: &'a Board,
    locals: &'a Locals,
    kept: &[(Text, Edge)],
    name: &str,
) -> Option<&'a Tree>
    ensures { option_map (λ t. t.now) result ≡ tree_for board.now locals.now kept.now name.now }
{
    match place_of(kept, name) {
        Some(edge) => board.output(edge.vertex, edge.index),
        None => locals.get(name),
    }
}

// Returns the output that the vertex with this number replaces.
fn place_in(kept: &[(Text, Edge)], others: &[Vertex], w: u32) -> Option<Edge>
    ensures { result ≡ place_in kept.now (slice_get others.now w) }
{
    match others.get(w as usize) {
        Some(vertex) => replaced_by(kept, vertex),
        None => None,
    }
}

// Returns the number at a place of a list; 0 past the end.
fn copied_at(copies: &[u32], w: u32) -> u32
    ensures { result ≡ slice_index_or copies.now w 0 }
{
    match copies.get(w as usize) {
        Some(v) => *v,
        None => 0,
    }
}

// Returns whether the second edge is from the first, by the origin of the vertex that it leads to.
fn is_edge_from(
    kept: &[(Text, Edge)],
    others: &[Vertex],
    copies: &[u32],
    edge: Edge,
    other: Edge,
) -> bool
    ensures { IsTrue result ↔ IsEdgeFrom (origin_at kept.now others.now copies.now other.vertex) edge other }
{
    match place_in(kept, others, other.vertex) {
        Some(place) => other.index == 0 && edge.same(&place),
        None => edge.vertex == copied_at(copies, other.vertex) && edge.index == other.index,
    }
}

// Returns whether the second vertex is a copy of the first.
fn is_copy(
    kept: &[(Text, Edge)],
    others: &[Vertex],
    copies: &[u32],
    vertex: &Vertex,
    other: &Vertex,
) -> bool
    ensures { IsTrue result ↔ IsCopyIn kept.now others.now copies.now vertex.now other.now }
{
    let edges = vertex.inputs.as_slice();
    let same = other.inputs.as_slice();
    if edges.len() != same.len() || !vertex.op.kind.same(&other.op.kind) {
        return false;
    }
    for i in 0..edges.len() {
        if !is_edge_from(kept, others, copies, edges[i], same[i]) {
            return false;
        }
    }
    true
}

// Returns the number of the first vertex that this one copies.
fn first_copied(
    vertices: &[Vertex],
    kept: &[(Text, Edge)],
    others: &[Vertex],
    copies: &[u32],
    vertex: &Vertex,
) -> Option<u32>
    requires { length vertices.now ≤ 65_536 }
    ensures some { IfSome result (λ n. IsFirstCopy vertices.now kept.now others.now copies.now vertex.now n) }
    ensures none { result ≡ None → CopiesNone vertices.now kept.now others.now copies.now vertex.now (length vertices.now) }
{
    for k in 0..vertices.len() {
        if is_copy(kept, others, copies, &vertices[k], vertex) {
            return Some(k as u32);
        }
    }
    None
}

// Returns the number of the vertex that this one copies, or 0 if it replaces an output; `None` if it has no origin.
fn placed(
    vertices: &[Vertex],
    kept: &[(Text, Edge)],
    others: &[Vertex],
    copies: &[u32],
    vertex: &Vertex,
) -> Option<u32>
    requires { length vertices.now ≤ 65_536 }
    ensures some { IfSome result (λ n. IsPlaced vertices.now kept.now others.now copies.now vertex.now n) }
    ensures none { result ≡ None → HasNoPlace vertices.now kept.now others.now copies.now vertex.now }
{
    match replaced_by(kept, vertex) {
        Some(_) => {
            if !vertex.inputs.as_slice().is_empty() {
                return None;
            }
            Some(0)
        }
        None => first_copied(vertices, kept, others, copies, vertex),
    }
}

// Returns for each vertex of a graph the number of the vertex that it copies, or 0 if it replaces an output; `None` if some vertex has no origin.
fn copies_of(
    alloc: Global,
    graph: &Graph,
    kept: &[(Text, Edge)],
    other: &Graph,
) -> Result<Option<Vec<u32>>, Memory>
    ensures some { IfOk result (λ made. IfSome made (λ copies.
        ArePlaced graph.now.vertices kept.now other.now.vertices (length other.now.vertices) copies.items)) }
    ensures none { IfOk result (λ made. made ≡ None → HaveNoPlace graph.now.vertices kept.now other.now.vertices) }
{
    graph.is_graph();
    let vertices = graph.vertices();
    let others = other.vertices();
    let mut copies = Vec::new(alloc);
    for w in 0..others.len() {
        match placed(vertices, kept, others, copies.as_slice(), &others[w]) {
            Some(v) => copies.push(v)?,
            None => return Ok(None),
        }
    }
    Ok(Some(copies))
}

// Returns whether no cache mount is at or before the output that a vertex replaces, if it replaces one.
fn is_kept_plain(plains: &[bool], kept: &[(Text, Edge)], vertex: &Vertex) -> bool
    ensures yes { IsTrue result → IsKeptPlain plains.now kept.now vertex.now }
    ensures no { result ≡ false → IsMet plains.now kept.now vertex.now }
{
    match replaced_by(kept, vertex) {
        Some(place) => plain_in(plains, place.vertex),
        None => true,
    }
}

// Returns whether no cache mount is at or before the outputs that vertices replace.
fn are_kept_plain(
    alloc: Global,
    graph: &Graph,
    kept: &[(Text, Edge)],
    other: &Graph,
) -> Result<bool, Memory>
    ensures yes { IfOk result (λ is. IsTrue is
        → AreKeptPlain (by_number next_plain [] graph.now.vertices) kept.now other.now.vertices) }
    ensures no { IfOk result (λ is. is ≡ false → MeetsCache (by_number next_plain [] graph.now.vertices) kept.now other.now.vertices) }
{
    let plains = plains_of(alloc, graph)?;
    let others = other.vertices();
    for w in 0..others.len() {
        if !is_kept_plain(plains.as_slice(), kept, &others[w]) {
            return Ok(false);
        }
    }
    Ok(true)
}

// Adds the tree of a vertex, if it is a source; returns whether it is none, or there is such a tree.
fn add_tree(
    alloc: Global,
    made: &mut Locals,
    board: &Board,
    locals: &Locals,
    kept: &[(Text, Edge)],
    vertex: &Vertex,
) -> Result<bool, Memory>
    ensures yes { IfOk result (λ is. IsTrue is → Adds board.now locals.now kept.now vertex.now made.old made.new) }
    ensures no { IfOk result (λ is. is ≡ false → LacksTree board.now locals.now kept.now vertex.now) }
{
    let Some(name) = vertex.local_name() else {
        return Ok(true);
    };
    let Some(tree) = tree_for(board, locals, kept, name) else {
        return Ok(false);
    };
    made.add(Text::from_str(alloc, name)?, tree.copy()?)?;
    Ok(true)
}

// Returns the local trees for a graph in which sources replace outputs; `None` if some source has no tree.
fn locals_for(
    alloc: Global,
    board: &Board,
    locals: &Locals,
    kept: &[(Text, Edge)],
    graph: &Graph,
) -> Result<Option<Locals>, Memory>
    ensures some { IfOk result (λ made. IfSome made (λ trees.
        HaveTrees board.now locals.now kept.now graph.now.vertices (length graph.now.vertices) trees)) }
    ensures none { IfOk result (λ made. made ≡ None → LackTree board.now locals.now kept.now graph.now.vertices) }
{
    let vertices = graph.vertices();
    let mut made = Locals::new(alloc);
    for w in 0..vertices.len() {
        if !add_tree(alloc, &mut made, board, locals, kept, &vertices[w])? {
            return Ok(None);
        }
    }
    Ok(Some(made))
}

// Returns whether a board may have this number of workers.
pub(crate) fn may_work(workers: u32) -> bool
    ensures { result ≡ may_work workers }
{
    1 <= workers && workers <= 64
}

/// Opens a board over a definition in which local sources replace outputs of a board, by pairs of a source's name and the edge to the output;
/// of two pairs with one name the first counts. `locals` has the local trees with which the first board was opened; sources that replace none have these.
/// Each other vertex is a copy of a vertex of the first board, and ends like its original. Returns `None` if a source has no tree (the output is not there, or
/// no tree is given for its name), if a vertex is neither a copy nor a source in the place of an output, or if a cache mount is at or before one of these
/// outputs. Fails with the first of these that applies: 122 `Workers`, if the number of workers is 0 or more than 64; `Load`, with the fault of `load`. Fails
/// with 123 `Memory` for want of memory, if the number of workers is from 1 to 64. Takes time by the product of the numbers of vertices.
pub fn open_on_kept(
    alloc: Global,
    board: &Board,
    locals: &Locals,
    definition: &[u8],
    kept: &[(Text, Edge)],
    workers: u32,
) -> Result<Option<Board>, KeptFault>
    ensures some { IfOk result (λ made. IfSome made (λ continued.
        locals.now ≡ board.now.build.locals → StandsIn board.now kept.now definition.now workers continued)) }
    ensures none { IfOk result (λ made. made ≡ None → StandsNotIn board.now locals.now kept.now definition.now) }
    ensures allowed { IfOk result (λ made. may_work workers ≡ true) }
    ensures refused { IfErr result (λ e. is_memory e ≡ false → IsRefusalOfKept definition.now workers e) }
    ensures last { IfErr result (λ e. is_memory e ≡ true → may_work workers ≡ true) }
{
    if !may_work(workers) {
        return Err(KeptFault::Workers);
    }
    let graph = load(alloc, definition)?;
    let Some(trees) = locals_for(alloc, board, locals, kept, &graph)? else {
        return Ok(None);
    };
    let original = board.graph();
    let Some(_copies) = copies_of(alloc, original, kept, &graph)? else {
        return Ok(None);
    };
    if !are_kept_plain(alloc, original, kept, &graph)? {
        return Ok(None);
    }
    board.is_graph();
    match Board::open(alloc, graph, trees, Caches::new(alloc), workers) {
        Ok(continued) => {
            continued.is_graph();
            kept_outputs_stand_in(board, &continued);
            Ok(Some(continued))
        }
        Err(_) => Err(KeptFault::Memory),
    }
}
