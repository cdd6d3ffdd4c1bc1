//! Finds which vertices are Ready, and which can't be claimed now or later because they are done, failed or blocked.

ghost use Rattle.std.specs.Prelude.{◌≡◌, map, slice_get, false, unwrap_or, ◌||◌, ◌&&◌};
ghost use Rattle.llb_model.specs.State.{stopped, is_waiting};
ghost use Rattle.llb_model.specs.Run.{is_settled};
ghost use Rattle.llb_board.specs.UsersAndOpenInputs.{has_inputs};
ghost use Rattle.llb_board.specs.Vertices.{status_of, AreOver, TellsInputs};

use crate::users_and_open_inputs::Links;
use crate::vertices::build::Build;
use crate::vertices::failed_and_downstream::is_marked;
use crate::vertices::vertex_state::Stage;

/// Returns whether a vertex waits and has no open input (an input is open if its vertex is not done).
pub(crate) fn is_ready(stages: &[Stage], links: &Links, v: u32) -> bool
    ensures { result ≡ (is_waiting (slice_get (map status_of stages.now) v) && has_inputs links.now v) }
{
    match stages.get(v as usize) {
        Some(Stage::Waiting) => links.has_inputs(v),
        _ => false,
    }
}

/// Returns whether a vertex is done or failed, or waits and is marked, which means that it is downstream of a failed vertex.
pub(crate) fn is_ended(stages: &[Stage], stop_marks: &[bool], v: u32) -> bool
    ensures { result ≡ (is_settled (slice_get (map status_of stages.now) v)
        || (is_waiting (slice_get (map status_of stages.now) v) && unwrap_or (slice_get stop_marks.now v) false)) }
{
    match stages.get(v as usize) {
        Some(Stage::Done(_)) => true,
        Some(Stage::Failed(_)) => true,
        Some(Stage::Waiting) => is_marked(stop_marks, v),
        Some(Stage::Running(_)) => false,
        None => false,
    }
}

/// Returns a number `n`, which is `from` or above, such that no vertex whose number is below `n` can be claimed now or later. The given number `from` must
/// already be such a number.
pub(crate) fn first_open(
    build: &Build,
    stages: &[Stage],
    stop_marks: &[bool],
    links: &Links,
    from: u32,
) -> u32
    requires marks { stop_marks.now ≡ stopped build.now (map status_of stages.now) }
    requires tells { TellsInputs build.now (map status_of stages.now) links.now }
    requires over { AreOver build.now (map status_of stages.now) from }
    ensures { AreOver build.now (map status_of stages.now) result }
{
    let count = build.vertices().len() as u32;
    for v in from..count {
        if !is_ended(stages, stop_marks, v) || is_ready(stages, links, v) {
            return v;
        }
    }
    count
}
