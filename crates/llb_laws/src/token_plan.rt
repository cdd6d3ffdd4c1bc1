//! Finds which vertices of a graph read what has to be given by value, without tokens: those at or before a vertex that makes a digest or, if any vertex of the
//! graph makes one, at or before a vertex that mounts a cache.

ghost use Rattle.std.specs.Prelude.{◌≡◌, ◌⊎◌, ◌<◌, ◌↔◌, ℕ, true, false, length, map, IsTrue, IfOk, slice_index_or};
ghost use Rattle.std.specs.List.{All, Contains, list_any};
ghost use Rattle.llb_applet.specs.declared.joined_commands.Joined.{Joined};
ghost use Rattle.llb_loader.specs.declared.graph.Edge.{Edge};
ghost use Rattle.llb_loader.specs.Graph.{links};
ghost use Rattle.llb_loader.specs.WaitingRows.{IsMarked};
ghost use Rattle.llb_loader.specs.ReachedRows.{Reached};
ghost use Rattle.llb_model.specs.Program.{steps_of};
ghost use Rattle.llb_laws.specs.ContentLaws.{digests, step_digests};
ghost use Rattle.llb_laws.specs.TokenRuns.{IsByValue, MakesDigest};
ghost use Rattle.llb_laws.specs.TokenPlans.{Passes, is_cause, mounts_cache};

use crate::token_byte_writers::commands_of;
use llb_applet::{Command, Joined, Script};
use llb_loader::{Edge, Graph, Vertex, cache_in, mounts_of};
use llb_ops::Kind;
use llb_wire::Memory;
use std::alloc::Global;

// Returns whether one of these commands makes a digest.
fn digest(commands: &[Joined]) -> bool
    ensures { result ≡ list_any (λ (c : Joined). digests c.command) commands.now }
{
    for joined in commands {
        if let Command::Sha256 { path: _, out: _ } = &joined.command {
            return true;
        }
    }
    false
}

/// Returns whether an op of this kind makes a digest; for an exec, `script` has the commands.
#[tactic(auto, using(crate::proofs::WritesAndDigests::runs_digest, crate::proofs::WritesAndDigests::acts_digest, crate::proofs::WritesAndDigests::lays_digest))]
pub fn makes_digest(kind: &Option<Kind>, script: &Option<Script>) -> bool
    ensures { result ≡ list_any step_digests (steps_of kind.now script.now) }
{
    match kind {
        Some(Kind::File(file)) => {
            let _ = file;
            false
        }
        Some(Kind::Merge(merge)) => {
            let _ = merge;
            false
        }
        Some(Kind::Exec(_)) => digest(commands_of(script)),
        _ => false,
    }
}

/// Returns whether some vertex of a graph makes a digest. Does not allocate.
pub fn some_makes_digest(graph: &Graph) -> bool
    ensures { IsTrue result ↔ MakesDigest graph.now }
{
    for vertex in graph.vertices() {
        if makes_digest(&vertex.op.kind, &vertex.script) {
            return true;
        }
    }
    false
}

/// Returns whether a vertex mounts a cache.
pub fn mounts_cache(vertex: &Vertex) -> bool
    ensures { result ≡ mounts_cache vertex.now }
{
    for mount in mounts_of(&vertex.op.kind) {
        if cache_in(mount).is_some() {
            return true;
        }
    }
    false
}

// Returns whether a vertex makes a digest or, if some vertex of its graph does, mounts a cache.
fn is_cause(some: bool, vertex: &Vertex) -> bool
    ensures { result ≡ is_cause some vertex.now }
{
    if makes_digest(&vertex.op.kind, &vertex.script) {
        return true;
    }
    some && mounts_cache(vertex)
}

// Returns for each vertex whether it makes a digest or, if some vertex of the graph does, mounts a cache.
fn causes_of(alloc: Global, some: bool, graph: &Graph) -> Result<Vec<bool>, Memory>
    ensures { IfOk result (λ marks. marks.items ≡ map (is_cause some) graph.now.vertices) }
{
    let mut marks = Vec::new(alloc);
    for vertex in graph.vertices() {
        marks.push(is_cause(some, vertex))?;
    }
    Ok(marks)
}

// Marks the vertices to which these edges lead.
fn mark_inputs(marks: &mut Vec<bool>, edges: &[Edge])
    requires { All (λ (e : Edge). e.vertex < length marks.old.items) edges.now }
    ensures count { length marks.new.items ≡ length marks.old.items }
    ensures marked { (k : ℕ) → IsMarked marks.new.items k ↔ (IsMarked marks.old.items k ⊎ Contains (map (λ (e : Edge). e.vertex) edges.now) k) }
{
    for edge in edges {
        marks[edge.vertex as usize] = true;
    }
}

// Marks the vertices to which the edges of vertex `v` lead, if that vertex is marked.
fn pass(marks: &mut Vec<bool>, v: usize, edges: &[Edge])
    requires low { v < length marks.old.items }
    requires edges { All (λ (e : Edge). e.vertex < length marks.old.items) edges.now }
    ensures { Passes marks.old.items v (map (λ (e : Edge). e.vertex) edges.now) marks.new.items }
{
    if !marks[v] {
        return;
    }
    mark_inputs(marks, edges);
}

// Marks each vertex that is before a marked one.
fn spread(graph: &Graph, marks: &mut Vec<bool>)
    requires { length marks.old.items ≡ length graph.now.vertices }
    ensures count { length marks.new.items ≡ length marks.old.items }
    ensures marked { (k : ℕ) → IsMarked marks.new.items k ↔ ((top : ℕ) × IsMarked marks.old.items top × Reached (links graph.now.vertices) top k) }
{
    let vertices = graph.vertices();
    let count = vertices.len();
    for i in 0..count {
        let v = count - 1 - i;
        pass(marks, v, vertices[v].inputs.as_slice());
    }
}

/// Returns for each vertex of a graph whether what it reads has to be given by value. Fails with 5 `Memory` alone.
pub fn by_value(alloc: Global, graph: &Graph) -> Result<Vec<bool>, Memory>
    ensures count { IfOk result (λ marks. length marks.items ≡ length graph.now.vertices) }
    ensures exact { IfOk result (λ marks. (k : ℕ) → (slice_index_or marks.items k false ≡ true) ↔ IsByValue graph.now k) }
{
    let mut marks = causes_of(alloc, some_makes_digest(graph), graph)?;
    spread(graph, &mut marks);
    Ok(marks)
}
