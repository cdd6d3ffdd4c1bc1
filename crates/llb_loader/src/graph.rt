//! The loaded graph: vertices whose edges lead to vertices with lower numbers, and the edge to the output that is the result.

ghost use Rattle.std.specs.Prelude.{◌≡◌, IfOk, option_map};
ghost use Rattle.llb_loader.specs.Graph.{IsGraph};
ghost use Rattle.llb_loader.specs.LocalSources.{local_name};

use crate::fault::Memory;
use llb_applet::Script;
use llb_ops::{Kind, Op};
use llb_wire::{Many, Same, Text, all_same};
use std::alloc::{AllocError, Global};
use std::marker::Model;
use std::sync::Arc;

/// An edge: it leads to the output with the number `index` of the vertex with the number `vertex`.
#[derive(Clone, Copy, PartialEq, Eq)]
pub struct Edge {
    pub vertex: u32,
    pub index: u32,
}

/// A vertex, made from a row on which the result depends. The number of a vertex is its index in the list of vertices.
pub struct Vertex {
    /// The digest text of the row: `sha256:` and 64 hexadecimal digits, if the graph was loaded from a definition.
    pub digest: Text,
    pub op: Op,
    /// The commands of an exec; `None` for an op of another kind.
    pub script: Option<Script>,
    /// The edges of the op's inputs, in their order.
    pub inputs: Many<Edge>,
    /// The number of micro-steps.
    pub steps: u32,
    /// The number of outputs.
    pub outputs: u32,
}

impl Drop for Vertex {
    fn drop(self) {
        let Vertex {
            digest: _,
            op: _,
            script: _,
            inputs: _,
            steps: _,
            outputs: _,
        } = self;
    }
}

impl Vertex {
    /// Returns the name of a local source: the part of its identifier after `local://`; `None` if the op is no local source.
    pub fn local_name(&self) -> Option<&str>
        ensures { option_map (λ t. t.now) result ≡ local_name self.now.op }
    {
        match &self.op.kind {
            Some(Kind::Source(source)) => source.get().identifier.as_str().strip_prefix("local://"),
            _ => None,
        }
    }
}

/// A loaded graph: the result, and the vertices on which the result depends. Each vertex has a higher number than the vertices to which its edges
/// lead. Copies share the vertices. Contracts see a graph as the list of its vertices, and the result.
pub struct Graph {
    shared: Arc<Vec<Vertex>>,
    result: Edge,
}

impl Drop for Graph {
    fn drop(self) {
        let Graph {
            shared: _,
            result: _,
        } = self;
    }
}

impl Model for Graph {
    ghost use Rattle.std.specs.Arc.{arc_value};
    ghost use Rattle.llb_loader.specs.Graph.{Numbered, IsGraph};

    ghost Value = { Numbered };

    ghost view = { λ g. record { vertices = (arc_value g.shared).items; result = g.result } };

    ghost invariant = { λ g. IsGraph (record { vertices = (arc_value g.shared).items; result = g.result }) };
}

impl Graph {
    // Makes the graph of these vertices, with this edge as its result.
    pub(crate) fn of_parts(
        alloc: Global,
        vertices: Vec<Vertex>,
        edge: Edge,
    ) -> Result<Graph, AllocError>
        requires { IsGraph (record { vertices = vertices.items; result = edge }) }
        ensures { IfOk result (λ g. g ≡ record { vertices = vertices.items; result = edge }) }
    {
        let shared = Arc::new(alloc, vertices)?;
        Ok(Graph {
            shared,
            result: edge,
        })
    }

    /// Returns the vertices by number.
    pub fn vertices(&self) -> &[Vertex]
        ensures all { result.now ≡ self.now.vertices }
        ensures graph { IsGraph self.now }
    {
        self.shared.as_slice()
    }

    /// Copies the graph; the copy shares the vertices. Fails with 92 `Memory` alone.
    pub fn copy(&self) -> Result<Graph, Memory>
        ensures { IfOk result (λ g. g ≡ self.now) }
    {
        let shared = Arc::try_clone(&self.shared)?;
        Ok(Graph {
            shared,
            result: self.result,
        })
    }

    /// Proves that every edge leads to an output of a vertex with a lower number; that the result is an output of one
    /// of the vertices, and depends on every vertex; that every vertex is of a supported kind, and is the only vertex
    /// with its digest; and that there are at most 65,536 vertices.
    pub fn is_graph(&self)
        ensures { IsGraph self.now }
    {
        let _ = &self.shared;
    }

    /// Returns the edge to the output that the definition names as its result.
    pub fn result(&self) -> Edge
        ensures { result ≡ self.now.result }
    {
        self.result
    }
}

impl Same for Edge {
    fn same(&self, other: &Edge) -> bool {
        self.vertex == other.vertex && self.index == other.index
    }
}

impl Same for Vertex {
    fn same(&self, other: &Vertex) -> bool {
        self.digest.same(&other.digest)
            && self.op.same(&other.op)
            && self.script.same(&other.script)
            && self.inputs.same(&other.inputs)
            && self.steps == other.steps
            && self.outputs == other.outputs
    }
}

impl Same for Graph {
    fn same(&self, other: &Graph) -> bool {
        self.result.same(&other.result) && all_same(self.vertices(), other.vertices())
    }
}
