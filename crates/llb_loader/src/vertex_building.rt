//! Makes the vertices of the numbered rows. Ops and digest texts are moved out of their lists, not copied.

ghost use Rattle.std.specs.Prelude.{◌≡◌, ◌≢◌, ◌<◌, ℕ, length, slice_index, IfOk};
ghost use Rattle.std.specs.List.{All};
ghost use Rattle.llb_loader.specs.ReachedRows.{lists, inputs, InRange};
ghost use Rattle.llb_loader.specs.Rules.{IsBelow};
ghost use Rattle.llb_loader.specs.Scripts.{script_in, commands_in};
ghost use Rattle.llb_loader.specs.GraphOfRows.{op_at, input_at};
ghost use Rattle.llb_loader.specs.VertexBuilding.{IsBuildable, IsBuilt, AreBuilt, edge_at, edge_to};

use crate::graph::{Edge, Vertex};
use crate::op_sizes::{count_of, steps_of};
use crate::row::Row;
use llb_applet::{Script, ScriptFault, read_script};
use llb_ops::{Input, Kind, Meta, Op};
use llb_wire::{Bytes, Many, Memory, Text};
use std::alloc::{AllocError, Global};
use std::mem;

/// Returns the vertices of the rows in `order`, which has the rows on which the result depends, in the order of their vertex numbers.
pub(crate) fn vertices_of(
    alloc: Global,
    mut rows: Vec<Row>,
    mut ops: Vec<Op>,
    links: &[Vec<usize>],
    order: &[usize],
    ranks: &[usize],
) -> Result<Vec<Vertex>, Memory>
    requires ops { length ops.items ≡ length rows.items }
    requires links { length links.now ≡ length rows.items }
    requires range { InRange (lists links.now) (length ranks.now) }
    requires below { All (λ k. k < length rows.items) order.now }
    requires once { (i j : ℕ) → i < length order.now → j < i → slice_index order.now j ≢ slice_index order.now i }
    requires small { All (λ r. r < 65_536) ranks.now }
    requires buildable { (i : ℕ) → i < length order.now → IsBuildable (op_at ops.items (slice_index order.now i))
        (inputs (lists links.now) (slice_index order.now i)) }
    ensures len { IfOk result (λ vertices. length vertices.items ≡ length order.now) }
    ensures built { IfOk result (λ vertices. AreBuilt rows.items ops.items (lists links.now) ranks.now order.now vertices.items (length order.now)) }
{
    let mut vertices = Vec::with_capacity(alloc, order.len())?;
    for row in order {
        let title = mem::replace(&mut rows[*row], no_row(alloc));
        let op = mem::replace(&mut ops[*row], no_op(alloc));
        let vertex = vertex_of(
            alloc,
            title.into_digest(),
            op,
            links[*row].as_slice(),
            ranks,
        )?;
        vertices.push(vertex)?;
    }
    Ok(vertices)
}

// Returns an empty op, which replaces an op that is moved out of a list.
fn no_op(alloc: Global) -> Op {
    Op {
        inputs: Many::new(Vec::new(alloc)),
        kind: None,
        extra: Bytes::new(Vec::new(alloc)),
    }
}

// Returns an empty row, which replaces a row that is moved out of a list.
fn no_row(alloc: Global) -> Row {
    Row::bare(alloc, Text::new(String::new(alloc)))
}

// Makes the vertex of an op. `named` has the row that each input of the op names, and `ranks` has the vertex number of each row.
fn vertex_of(
    alloc: Global,
    digest: Text,
    op: Op,
    named: &[usize],
    ranks: &[usize],
) -> Result<Vertex, Memory>
    requires buildable { IsBuildable op named.now }
    requires range { All (λ b. b < length ranks.now) named.now }
    requires small { All (λ r. r < 65_536) ranks.now }
    ensures { IfOk result (λ v. IsBuilt digest op named.now ranks.now v) }
{
    let inputs = edges_of(alloc, &op, named, ranks)?;
    let script = script_in(alloc, &op)?;
    let steps = steps_of(&op, &script) as u32;
    let outputs = count_of(&op) as u32;
    Ok(Vertex {
        digest,
        op,
        script,
        inputs: Many::new(inputs),
        steps,
        outputs,
    })
}

// Reads the script of an exec; returns `None` for other kinds.
fn script_in(alloc: Global, op: &Op) -> Result<Option<Script>, Memory>
    ensures { IfOk result (λ script. script ≡ script_in op.now) }
{
    match &op.kind {
        Some(Kind::Exec(exec)) => commands_in(alloc, &exec.get().meta),
        _ => Ok(None),
    }
}

// Reads the words of an exec as a script; returns `None` if there is no `meta`, or if its words are no script.
fn commands_in(alloc: Global, meta: &Option<Meta>) -> Result<Option<Script>, Memory>
    ensures { IfOk result (λ script. script ≡ commands_in meta.now) }
{
    let Some(meta) = meta else {
        return Ok(None);
    };
    if meta.args.is_empty() {
        return Ok(None);
    }
    match read_script(alloc, meta.args.as_slice()) {
        Ok(script) => Ok(Some(script)),
        Err(ScriptFault::Memory) => Err(Memory),
        // No op of a graph leads here: by the rules, the words of each exec are a script.
        Err(_) => Ok(None),
    }
}

// Returns the edge of each of the op's inputs, in the order of the inputs.
fn edges_of(
    alloc: Global,
    op: &Op,
    named: &[usize],
    ranks: &[usize],
) -> Result<Vec<Edge>, AllocError>
    requires buildable { IsBuildable op.now named.now }
    requires range { All (λ b. b < length ranks.now) named.now }
    requires small { All (λ r. r < 65_536) ranks.now }
    ensures len { IfOk result (λ edges. length edges.items ≡ length op.now.inputs) }
    ensures edges { IfOk result (λ edges. (i : ℕ) → i < length op.now.inputs
        → edge_at edges.items i ≡ edge_to (slice_index ranks.now (slice_index named.now i)) (input_at op.now i)) }
{
    let mut edges = Vec::with_capacity(alloc, op.inputs.len())?;
    for (i, input) in op.inputs.as_slice().iter().enumerate() {
        edges.push(edge(ranks[named[i]], input))?;
    }
    Ok(edges)
}

// Returns the edge to the vertex with this number, and to this vertex's output with the index that is in the input.
fn edge(vertex: usize, input: &Input) -> Edge
    requires vertex { vertex < 65_536 }
    requires index { IsBelow 1_025 input.now.index }
    ensures { result ≡ edge_to vertex input.now }
{
    Edge {
        vertex: vertex as u32,
        index: input.index as u32,
    }
}

/// Returns the edge to the vertex with this number, and to this vertex's output with the index that is in the op's first input.
pub(crate) fn first_edge(vertex: usize, op: &Op) -> Edge
    requires some { 0 < length op.now.inputs }
    requires vertex { vertex < 65_536 }
    requires index { IsBelow 1_025 (input_at op.now 0).index }
    ensures { result ≡ edge_to vertex (input_at op.now 0) }
{
    edge(vertex, &op.inputs.as_slice()[0])
}
