//! What vertices read of local sources that have another tree: tests whether it is the same in both trees, which is the premise of the law `reads_end_alike`.

ghost use Rattle.std.specs.Prelude.{◌≡◌, ◌↔◌, ◌<◌, ℕ, true, false, length, IsTrue, IfOk, Some, option_map, pos, slice_get, slice_index_or};
ghost use Rattle.llb_loader.specs.declared.graph.Vertex.{Vertex as VertexValue};
ghost use Rattle.llb_laws.specs.AgreedSources.{source_tree, AgreedLeadAlike, AreAgreements, EdgeAgrees, InputAgrees, VertexAgrees};
ghost use Rattle.llb_laws.specs.CopiedPaths.{AllReadAlike, ReadsAlike};

use crate::copies::agree_for;
use llb_loader::{Edge, Graph, Locals, Vertex};
use llb_ops::{Action, ActionKind, Kind};
use llb_tree::Tree;
use llb_wire::{Memory, Same};
use std::alloc::Global;

/// Proves that the inputs of a file op that agree are among those of which the premise of `reads_end_alike` speaks.
pub fn agreed_lead_alike(graph: &Graph, matched: &Graph)
    ensures { AgreedLeadAlike graph.now matched.now }
{
    let _ = graph;
    let _ = matched;
}

// Returns whether an action's number of an input is this one.
fn is_number(input: i64, number: usize) -> bool
    ensures { IsTrue result ↔ (input ≡ pos number) }
{
    if input < 0 {
        return false;
    }
    input as usize == number
}

// Returns whether an action reads the same of an input, whether the input has the first tree or the second.
fn action_agrees(
    alloc: Global,
    action: &Action,
    number: usize,
    first: &Tree,
    second: &Tree,
) -> Result<bool, Memory>
    ensures { IfOk result (λ is. IsTrue is ↔ ReadsAlike number first.now second.now action.now) }
{
    if is_number(action.input, number) && !first.same(second) {
        return Ok(false);
    }
    if !is_number(action.secondary_input, number) {
        return Ok(true);
    }
    match &action.kind {
        Some(ActionKind::Copy(copy)) => agree_for(alloc, copy, first, second),
        _ => Ok(true),
    }
}

// Returns whether these actions read the same of an input, whether the input has the first tree or the second.
fn actions_agree(
    alloc: Global,
    actions: &[Action],
    number: usize,
    first: &Tree,
    second: &Tree,
) -> Result<bool, Memory>
    ensures { IfOk result (λ is. IsTrue is ↔ AllReadAlike actions.now number first.now second.now) }
{
    for action in actions {
        if !action_agrees(alloc, action, number, first, second)? {
            return Ok(false);
        }
    }
    Ok(true)
}

/// Returns whether an op of this kind reads the same of the input with this number, whether the input has the first tree or the second. Of an op that is no
/// file op it is `true` only if the trees are equal. Fails with 5 `Memory` alone.
pub fn input_agrees(
    alloc: Global,
    kind: &Option<Kind>,
    number: usize,
    first: &Tree,
    second: &Tree,
) -> Result<bool, Memory>
    ensures { IfOk result (λ is. IsTrue is ↔ InputAgrees kind.now number first.now second.now) }
{
    match kind {
        Some(Kind::File(file)) => {
            actions_agree(alloc, file.actions.as_slice(), number, first, second)
        }
        _ => Ok(first.same(second)),
    }
}

// Returns the tree that is given for the local source with this number; `None` for a vertex that is none, or has no tree.
fn source_tree<'a>(vertices: &[Vertex], locals: &'a Locals, number: u32) -> Option<&'a Tree>
    ensures { option_map (λ t. t.now) result ≡ source_tree vertices.now locals.now number }
{
    match vertices.get(number as usize) {
        None => None,
        Some(vertex) => match vertex.local_name() {
            None => None,
            Some(name) => locals.get(name),
        },
    }
}

// Returns whether an op of this kind reads the same of the input with this number and edge, whether the source to which the edge leads has its tree or the
// newer one.
fn edge_agrees(
    alloc: Global,
    vertices: &[Vertex],
    locals: &Locals,
    newer: &Tree,
    kind: &Option<Kind>,
    number: usize,
    edge: Edge,
) -> Result<bool, Memory>
    ensures { IfOk result (λ is. IsTrue is ↔ EdgeAgrees vertices.now locals.now newer.now kind.now number edge) }
{
    match source_tree(vertices, locals, edge.vertex) {
        None => Ok(true),
        Some(tree) => input_agrees(alloc, kind, number, tree, newer),
    }
}

/// Returns whether a vertex reads the same of each of its inputs that is a local source with a tree, whether the source has this tree or the newer one. Fails
/// with 5 `Memory` alone.
pub fn vertex_agrees(
    alloc: Global,
    vertices: &[Vertex],
    locals: &Locals,
    newer: &Tree,
    vertex: &Vertex,
) -> Result<bool, Memory>
    ensures { IfOk result (λ is. IsTrue is ↔ VertexAgrees vertices.now locals.now newer.now vertex.now) }
{
    for (number, edge) in vertex.inputs.as_slice().iter().enumerate() {
        if !edge_agrees(
            alloc,
            vertices,
            locals,
            newer,
            &vertex.op.kind,
            number,
            *edge,
        )? {
            return Ok(false);
        }
    }
    Ok(true)
}

/// Returns for each vertex whether it reads the same of each of its inputs that is a local source with a tree, whether the source has this tree or the newer
/// one. Fails with 5 `Memory` alone.
pub fn agreements(
    alloc: Global,
    vertices: &[Vertex],
    locals: &Locals,
    newer: &Tree,
) -> Result<Vec<bool>, Memory>
    ensures { IfOk result (λ marks. AreAgreements vertices.now locals.now newer.now marks.items) }
{
    let mut marks = Vec::new(alloc);
    for vertex in vertices {
        marks.push(vertex_agrees(alloc, vertices, locals, newer, vertex)?)?;
    }
    Ok(marks)
}
