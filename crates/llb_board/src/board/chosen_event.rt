//! Chooses the next event: a step or a settle of a running worker.

ghost use Rattle.std.specs.Prelude.{◌≡◌};
ghost use Rattle.llb_model.specs.Run.{next_of};

use crate::status::WorkerStatus;
use crate::vertices::Vertices;
use crate::workers::Workers;
use llb_events::Event;

/// Returns the next event of the running worker with the lowest number: a settle if the worker's vertex is finished, else a step. `None` if no worker runs.
pub(crate) fn next_event(vertices: &Vertices, workers: &Workers) -> Option<Event>
    ensures { result ≡ next_of vertices.now.build 0 workers.now.workers }
{
    let _ = workers.look(vertices, 0);
    for w in 0..64 {
        match workers.look(vertices, w) {
            None => return None,
            Some(WorkerStatus::Idle) => {}
            Some(WorkerStatus::Runs(_, _, true)) => return Some(Event::Settle(w)),
            Some(WorkerStatus::Runs(_, _, false)) => return Some(Event::Step(w)),
        }
    }
    None
}
