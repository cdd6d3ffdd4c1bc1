//! Keeps marks on the vertices that have failed and on all vertices downstream of them.

ghost use Rattle.std.specs.Prelude.{◌≡◌, ◌<◌, [], map, length, slice_get, slice_set, false, unwrap_or};
ghost use Rattle.std.specs.List.{list_any};
ghost use Rattle.llb_loader.specs.Graph.{IsGraph};
ghost use Rattle.llb_loader.specs.declared.graph.Edge as edge;
ghost use Rattle.llb_model.specs.ListsFromEarlierItems.{by_number};
ghost use Rattle.llb_model.specs.State.{ending_at, is_failed, next_stopped, stopped};
ghost use Rattle.llb_board.specs.UsersAndOpenInputs.{IsLinked};
ghost use Rattle.llb_board.specs.Vertices.{status_of, done_in};

use crate::users_and_open_inputs::Links;
use crate::vertices::build::Build;
use crate::vertices::vertex_state::Stage;
use llb_loader::{Edge, Vertex};

/// Returns whether a vertex is marked; false for a number past the last mark.
pub(crate) fn is_marked(stop_marks: &[bool], v: u32) -> bool
    ensures { result ≡ unwrap_or (slice_get stop_marks.now v) false }
{
    stop_marks.get(v as usize).copied().unwrap_or(false)
}

/// Updates the marks after a change of the state of vertex `v` alone; `had` is the state of `v` before the change.
pub(crate) fn mark(
    stop_marks: &mut [bool],
    links: &mut Links,
    build: &Build,
    stages: &[Stage],
    v: u32,
    had: &Stage,
)
    requires graph { IsGraph build.now.graph }
    requires count { length stages.now ≡ length build.now.graph.vertices }
    requires low { v < length stages.now }
    requires marks { stop_marks.old ≡ stopped build.now (slice_set (map status_of stages.now) v (status_of had.now)) }
    requires linked { IsLinked build.now.graph.vertices (done_in (slice_set (map status_of stages.now) v (status_of had.now))) links.old }
    ensures marks { stop_marks.new ≡ stopped build.now (map status_of stages.now) }
    ensures links { links.new ≡ links.old }
{
    if had.has_failed() {
        mark_stopped(stop_marks, stages, build.vertices());
    } else if has_failed(stages, v as usize) {
        links.spread(stop_marks, v);
    }
}

// Marks each vertex that has failed or is downstream of one that has, and no other.
fn mark_stopped(stop_marks: &mut [bool], stages: &[Stage], vertices: &[Vertex])
    requires { length stop_marks.old ≡ length vertices.now }
    ensures { stop_marks.new ≡ by_number (next_stopped (map status_of stages.now)) [] vertices.now }
{
    for v in 0..vertices.len() {
        stop_marks[v] = is_stopped(&stop_marks[..v], stages, v, &vertices[v]);
    }
}

// Returns whether vertex `v` has failed or an input of it is marked.
fn is_stopped(before: &[bool], stages: &[Stage], v: usize, vertex: &Vertex) -> bool
    requires { length before.now ≡ v }
    ensures { result ≡ next_stopped (map status_of stages.now) before.now vertex.now }
{
    has_failed(stages, v) || is_behind(before, vertex.inputs.as_slice())
}

fn is_behind(before: &[bool], inputs: &[Edge]) -> bool
    ensures { result ≡ list_any (λ (e : edge.Edge). unwrap_or (slice_get before.now e.vertex) false) inputs.now }
{
    for edge in inputs {
        if is_marked(before, edge.vertex) {
            return true;
        }
    }
    false
}

fn has_failed(stages: &[Stage], v: usize) -> bool
    ensures { result ≡ is_failed (ending_at (map status_of stages.now) v) }
{
    match stages.get(v) {
        Some(stage) => stage.has_failed(),
        None => false,
    }
}
