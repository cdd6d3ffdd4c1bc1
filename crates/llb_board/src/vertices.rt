//! The vertices: the graph with its local trees, and the state of each vertex. Some things that follow from these are kept too, so that they are not computed
//! at each call: which vertices have failed or are downstream of one that has; for each vertex, how many vertices that are not done it has an edge to; and
//! where the search for a Ready vertex begins.

ghost use Rattle.std.specs.Prelude.{◌≡◌, ◌<◌, ◌^◌, ◌||◌, IfOk, IfErr, length, option_map, replicate, slice_get, false, is_ok, true, Some, Err};
ghost use Rattle.std.specs.Prelude.{MatchResult, map, ℕ, ◌+◌, All, get_or};
ghost use Rattle.llb_events.specs.Faults.{GivesClaim};
ghost use Rattle.llb_loader.specs.Graph.{IsGraph, IsVertexOf};
ghost use Rattle.llb_board.specs.UsersAndOpenInputs.{IsLinked, users_at, users_of};
ghost use Rattle.llb_model.specs.Outcome.{inputs_from, output_in};
ghost use Rattle.llb_model.specs.Program.{program_at, program_of};
ghost use Rattle.llb_model.specs.Run.{least, each, is_settled};
ghost use Rattle.llb_model.specs.State.{Idle, ending_at, is_blocked, is_ready};
ghost use Rattle.llb_model.specs.Table.{claim_start, or_not_ready};
ghost use Rattle.llb_board.specs.Statuses.{look, look_in};
ghost use Rattle.llb_board.specs.Vertices.{all_waiting, with_status, status_of, AreCounted, IsWhole};
ghost use Rattle.llb_board.specs.declared.vertices.vertex_state.Stage.TheVariants as stage;

mod build;
mod claimable_vertices;
mod failed_and_downstream;
mod vertex_state;

use crate::status::Status;
use crate::users_and_open_inputs::Links;
use build::Build;
use claimable_vertices::{first_open, is_ended, is_ready};
use failed_and_downstream::{is_marked, mark};
use llb_events::ClaimFault;
use llb_execution::{Outputs, gathered};
use llb_loader::{Edge, Graph, Locals, Vertex};
use llb_tree::Tree;
use llb_wire::{Memory, Same, all_same};
use std::alloc::{AllocError, Global};
use std::marker::Model;
use std::mem;
pub(crate) use vertex_state::Stage;

/// A graph with its local trees, and the state of each vertex. Contracts see the build (graph and local trees) and the statuses.
pub(crate) struct Vertices {
    build: Build,
    stages: Vec<Stage>,
    /// Which vertices have failed, or are downstream of one that has.
    stop_marks: Vec<bool>,
    links: Links,
    /// Every vertex with a lower number is done, failed or blocked, so the search for a Ready vertex begins here.
    first_open: u32,
}

impl Drop for Vertices {
    fn drop(self) {
        let Vertices {
            build: _,
            stages: _,
            stop_marks: _,
            links: _,
            first_open: _,
        } = self;
    }
}

impl Model for Vertices {
    ghost use Rattle.std.specs.Prelude.{map};
    ghost use Rattle.std.specs.Coded.{codes};
    ghost use Rattle.llb_tree.specs.CodedTrees.{coded_tree};
    ghost use Rattle.llb_board.specs.Vertices.{VerticesValue, IsInStep, status_of};

    ghost Value = { VerticesValue };

    ghost coded = { Prim.hlevel (codes, coded_tree) };

    ghost view = { λ s. record { build = s.build; statuses = map status_of s.stages.items } };

    ghost invariant = { λ s. IsInStep s.build (map status_of s.stages.items) s.stop_marks.items s.links s.first_open };
}

impl Vertices {
    /// Makes the vertices of a graph; all of them wait. If memory is refused, fails with the graph and the local trees that the call was made with.
    pub(crate) fn open(
        alloc: Global,
        graph: Graph,
        locals: Locals,
    ) -> Result<Vertices, (Graph, Locals)>
        ensures ok { IfOk result (λ s. s ≡ all_waiting (record { graph = graph; locals = locals })) }
        ensures back { IfErr result (λ r. (r.0 ≡ graph) × (r.1 ≡ locals)) }
    {
        let build = Build::new(graph, locals);
        match at_first(alloc, &build) {
            Ok((stages, stop_marks, links)) => Ok(Vertices {
                build,
                stages,
                stop_marks,
                links,
                first_open: 0,
            }),
            Err(_) => Err(build.into_parts()),
        }
    }

    /// Returns the graph. Does not allocate.
    pub(crate) fn graph(&self) -> &Graph
        ensures { result.now ≡ self.now.build.graph }
    {
        self.build.graph()
    }

    /// Returns the graph and the local trees. Does not allocate.
    pub(crate) fn into_parts(self) -> (Graph, Locals)
        ensures graph { result.0 ≡ self.build.graph }
        ensures locals { result.1 ≡ self.build.locals }
    {
        let Vertices {
            build,
            stages: _,
            stop_marks: _,
            links: _,
            first_open: _,
        } = self;
        build.into_parts()
    }

    /// Returns how many micro-steps a vertex has: fewer than 2^25, and 0 past the last vertex. Does not allocate.
    pub(crate) fn steps(&self, v: u32) -> u32
        ensures all { result ≡ length (program_at (slice_get self.now.build.graph.vertices v)).steps }
        ensures few { result < 2 ^ 25 }
    {
        self.build.steps(v)
    }

    /// Returns the status of a vertex as callers see it; `None` past the last vertex. Does not allocate.
    pub(crate) fn status(&self, v: u32) -> Option<Status>
        ensures { result ≡ look_in self.now.build self.now.statuses v }
    {
        let stage = self.stages.get(v as usize)?;
        let ready = is_ready(&self.stages, &self.links, v);
        Some(look(stage, ready, is_marked(&self.stop_marks, v)))
    }

    /// Returns output `i` of a vertex that is done; `None` if there is no such vertex or output. Does not allocate.
    pub(crate) fn output(&self, v: u32, i: u32) -> Option<&Tree>
        ensures { option_map (λ t. t.now) result ≡ output_in (ending_at self.now.statuses v) i }
    {
        output_at(&self.stages, v, i)
    }

    /// Returns the users of a vertex (the vertices that have an edge to it), ascending and each once; none past the last vertex. Does not allocate.
    pub(crate) fn users(&self, v: u32) -> &[u32]
        ensures { result.now ≡ users_of self.now.build.graph.vertices v }
    {
        self.links.users(v)
    }

    /// Returns the Ready vertex with the least number; `None` if no vertex is Ready. Does not allocate.
    pub(crate) fn next_ready(&self) -> Option<u32>
        ensures { result ≡ least (is_ready self.now.build self.now.statuses) 0 (length self.now.build.graph.vertices) }
    {
        for v in self.first_open..self.build.vertices().len() as u32 {
            if is_ready(&self.stages, &self.links, v) {
                return Some(v);
            }
        }
        None
    }

    /// Returns whether every vertex is done, failed or blocked. Does not allocate.
    pub(crate) fn are_settled(&self) -> bool
        ensures { result ≡ each (λ v. is_settled (slice_get self.now.statuses v) || is_blocked self.now.build self.now.statuses v) 0
            (length self.now.build.graph.vertices) }
    {
        for v in self.first_open..self.build.vertices().len() as u32 {
            if !is_ended(&self.stages, &self.stop_marks, v) {
                return false;
            }
        }
        true
    }

    /// Sets the state of a vertex, whatever the state was before. A new state `Done` must have as many trees as the vertex has outputs. Does not allocate.
    pub(crate) fn set(&mut self, v: u32, stage: Stage)
        requires low { v < length self.old.statuses }
        requires whole { IsWhole (slice_get self.old.build.graph.vertices v) (status_of stage) }
        ensures { self.new ≡ with_status v (status_of stage) self.old }
    {
        let is_done = stage.is_done();
        let had = mem::replace(&mut self.stages[v as usize], stage);
        mark(
            &mut self.stop_marks,
            &mut self.links,
            &self.build,
            &self.stages,
            v,
            &had,
        );
        count(&mut self.links, v, had.is_done(), is_done);
        self.first_open = first_open(
            &self.build,
            &self.stages,
            &self.stop_marks,
            &self.links,
            self.first_open.min(v),
        );
    }

    /// Copies the vertices; the copy shares the graph and all trees. Fails with 5 `Memory` alone.
    pub(crate) fn copy(&self, alloc: Global) -> Result<Vertices, Memory>
        ensures { IfOk result (λ s. s ≡ self.now) }
    {
        Ok(Vertices {
            build: self.build.copy()?,
            stages: copied(alloc, &self.stages)?,
            stop_marks: Vec::from_slice(alloc, &self.stop_marks)?,
            links: self.links.copy(alloc)?,
            first_open: self.first_open,
        })
    }

    /// Returns vertex `v`; `None` past the last vertex.
    pub(crate) fn vertex(&self, v: u32) -> Option<&Vertex>
        ensures there { option_map (λ x. x.now) result ≡ slice_get self.now.build.graph.vertices v }
        ensures few { length (program_at (slice_get self.now.build.graph.vertices v)).steps < 2 ^ 25 }
        ensures graph { IsGraph self.now.build.graph }
    {
        self.build.vertex(v)
    }

    /// Returns the trees of local sources by name.
    pub(crate) fn locals(&self) -> &Locals
        ensures { result.now ≡ self.now.build.locals }
    {
        self.build.locals()
    }

    /// Returns vertex `v`, if the vertex is Ready. Fails with 133 `NoVertex` if there is no such vertex, else with 134 `NotReady`.
    /// Does not allocate.
    pub(crate) fn ready(&self, v: u32) -> Result<&Vertex, ClaimFault>
        ensures there { IfOk result (λ x. slice_get self.now.build.graph.vertices v ≡ Some x.now) }
        ensures kind { IfOk result (λ x. IsVertexOf x.now x.now.op.kind) }
        ensures few { IfOk result (λ x. length (program_of x.now).steps < 2 ^ 32) }
        ensures graph { IfOk result (λ _. IsGraph self.now.build.graph) }
        ensures first { MatchResult result
            (λ _. is_ok (claim_start self.now.statuses v (Some Idle) (slice_get self.now.build.graph.vertices v)) ≡ true)
            (λ e. claim_start self.now.statuses v (Some Idle) (slice_get self.now.build.graph.vertices v) ≡ Err e) }
    {
        let Some(vertex) = self.build.vertex(v) else {
            return Err(ClaimFault::NoVertex);
        };
        if !is_ready(&self.stages, &self.links, v) {
            return Err(ClaimFault::NotReady);
        }
        Ok(vertex)
    }

    // Copies the trees of a vertex's inputs. Fails with 134 `NotReady` if a tree is missing, or with 141 `Memory`.
    pub(crate) fn inputs(&self, alloc: Global, vertex: &Vertex) -> Result<Vec<Tree>, ClaimFault>
        ensures { GivesClaim (λ trees. trees.items) result (or_not_ready (inputs_from (ending_at self.now.statuses) vertex.now.inputs)) }
    {
        match gathered(alloc, self, vertex.inputs.as_slice())? {
            Some(trees) => Ok(trees),
            None => Err(ClaimFault::NotReady),
        }
    }
}

impl Outputs for Vertices {
    ghost use Rattle.llb_model.specs.State.{ending_at};

    ghost ending = { λ s. ending_at s.statuses };

    fn tree(&self, edge: Edge) -> Option<&Tree> {
        self.output(edge.vertex, edge.index)
    }
}

impl Same for Vertices {
    fn same(&self, other: &Vertices) -> bool {
        self.build.same(&other.build) && all_same(self.stages.as_slice(), other.stages.as_slice())
    }
}

// Makes what `Vertices` keeps besides the build when every vertex waits: the states, the marks, and the links (the users of each vertex, and counts). Fails for
// want of memory alone.
fn at_first(alloc: Global, build: &Build) -> Result<(Vec<Stage>, Vec<bool>, Links), AllocError>
    ensures stages { IfOk result (λ r. r.0.items ≡ replicate (length build.now.graph.vertices) stage.Waiting) }
    ensures marks { IfOk result (λ r. r.1.items ≡ replicate (length build.now.graph.vertices) false) }
    ensures links { IfOk result (λ r. IsLinked build.now.graph.vertices (λ u. false) r.2) }
    ensures graph { IfOk result (λ _. IsGraph build.now.graph) }
{
    let vertices = build.vertices();
    Ok((
        waiting(alloc, vertices.len())?,
        Vec::from_elem(alloc, false, vertices.len())?,
        Links::new(alloc, vertices)?,
    ))
}

fn waiting(alloc: Global, count: usize) -> Result<Vec<Stage>, AllocError>
    ensures { IfOk result (λ v. v.items ≡ replicate count stage.Waiting) }
{
    let mut stages = Vec::with_capacity(alloc, count)?;
    for _i in 0..count {
        stages.push_reserved(Stage::Waiting);
    }
    Ok(stages)
}

fn copied(alloc: Global, stages: &[Stage]) -> Result<Vec<Stage>, Memory>
    ensures { IfOk result (λ s. s.items ≡ stages.now) }
{
    let mut copies = Vec::new(alloc);
    for stage in stages {
        copies.push(stage.copy(alloc)?)?;
    }
    Ok(copies)
}

fn output_at(stages: &[Stage], v: u32, i: u32) -> Option<&Tree>
    ensures { option_map (λ t. t.now) result ≡ output_in (ending_at (map status_of stages.now) v) i }
{
    match stages.get(v as usize) {
        Some(Stage::Done(outputs)) => outputs.as_slice().get(i as usize),
        _ => None,
    }
}

// Updates a count of each user of vertex `v`: how many vertices that are not done the user has an edge to. `was_done` and `is_done` say whether vertex `v` was
// done before, and is done now.
fn count(links: &mut Links, v: u32, was_done: bool, is_done: bool)
    requires low { v < length links.old.users }
    requires below { All (λ x. x < length links.old.counts) (users_at links.old v) }
    requires few { (x : ℕ) → get_or links.old.counts x 0 + length (users_at links.old v) < 2 ^ 32 }
    ensures users { links.new.users ≡ links.old.users }
    ensures counts { AreCounted was_done is_done (users_at links.old v) links.old.counts links.new.counts }
{
    match (was_done, is_done) {
        (false, true) => links.count_down(v),
        (true, false) => links.count_up(v),
        _ => {}
    }
}

// Returns the status of a vertex as callers see it, given the vertex's state, whether the vertex is Ready, and whether it is marked (failed, or downstream of
// a failed vertex).
fn look(stage: &Stage, ready: bool, marked: bool) -> Status
    ensures { result ≡ look ready marked (status_of stage.now) }
{
    match stage {
        Stage::Waiting => {
            if ready {
                Status::Ready
            } else if marked {
                Status::Blocked
            } else {
                Status::Waiting
            }
        }
        Stage::Running(w) => Status::Running(*w),
        Stage::Done(_) => Status::Done,
        Stage::Failed(fault) => Status::Failed(*fault),
    }
}
