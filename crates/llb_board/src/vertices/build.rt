//! The build that a board is opened with: the graph, and the trees of local sources by name.

ghost use Rattle.std.specs.Prelude.{◌≡◌, ◌<◌, ◌^◌, length, option_map, slice_get, IfOk};
ghost use Rattle.llb_loader.specs.Graph.{IsGraph};
ghost use Rattle.llb_model.specs.Program.{program_at};

use llb_loader::{Graph, Locals, Vertex};
use llb_wire::{Memory, Same};
use std::marker::Model;

/// A graph, and the trees of its local sources.
#[derive(Drop)]
pub(crate) struct Build {
    graph: Graph,
    locals: Locals,
}

impl Model for Build {
    ghost use Rattle.std.specs.Coded.{codes};
    ghost use Rattle.llb_tree.specs.CodedTrees.{coded_tree};
    ghost use Rattle.llb_model.specs.Program as model;

    ghost Value = { model.Build };

    ghost coded = { Prim.hlevel (codes, coded_tree) };

    ghost view = { λ b. record { graph = b.graph; locals = b.locals } };
}

impl Build {
    /// Makes a build of a graph and the trees of its local sources.
    pub(crate) fn new(graph: Graph, locals: Locals) -> Build
        ensures { result ≡ record { graph = graph; locals = locals } }
    {
        Build { graph, locals }
    }

    /// Copies the build; the copy shares the graph and the trees. Fails with 92 `Memory` alone.
    pub(crate) fn copy(&self) -> Result<Build, Memory>
        ensures { IfOk result (λ b. b ≡ self.now) }
    {
        Ok(Build {
            graph: self.graph.copy()?,
            locals: self.locals.copy()?,
        })
    }

    /// Returns the graph.
    pub(crate) fn graph(&self) -> &Graph
        ensures { result.now ≡ self.now.graph }
    {
        &self.graph
    }

    /// Returns the vertices, by number.
    pub(crate) fn vertices(&self) -> &[Vertex]
        ensures all { result.now ≡ self.now.graph.vertices }
        ensures graph { IsGraph self.now.graph }
    {
        self.graph.vertices()
    }

    /// Returns vertex `v`; `None` past the last vertex.
    pub(crate) fn vertex(&self, v: u32) -> Option<&Vertex>
        ensures there { option_map (λ x. x.now) result ≡ slice_get self.now.graph.vertices v }
        ensures few { length (program_at (slice_get self.now.graph.vertices v)).steps < 2 ^ 25 }
        ensures graph { IsGraph self.now.graph }
    {
        self.vertices().get(v as usize)
    }

    /// Returns how many micro-steps a vertex has: fewer than 2^25, and 0 past the last vertex.
    pub(crate) fn steps(&self, v: u32) -> u32
        ensures all { result ≡ length (program_at (slice_get self.now.graph.vertices v)).steps }
        ensures few { result < 2 ^ 25 }
    {
        match self.vertex(v) {
            Some(vertex) => vertex.steps,
            None => 0,
        }
    }

    /// Returns the trees of local sources by name.
    pub(crate) fn locals(&self) -> &Locals
        ensures { result.now ≡ self.now.locals }
    {
        &self.locals
    }

    /// Returns the graph and the trees.
    pub(crate) fn into_parts(self) -> (Graph, Locals)
        ensures graph { result.0 ≡ self.graph }
        ensures locals { result.1 ≡ self.locals }
    {
        (self.graph, self.locals)
    }
}

impl Same for Build {
    fn same(&self, other: &Build) -> bool {
        self.graph.same(&other.graph) && self.locals.same(&other.locals)
    }
}
