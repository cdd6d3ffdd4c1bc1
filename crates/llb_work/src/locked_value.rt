//! The value under the lock: the shared board, and which workers wait. By an invariant of the type, the board is complete, or a fault is noted, if all workers
//! wait. So a run can't stop because a number was lost, whoever lost it: the last worker that would wait claims a ready vertex instead.

ghost use Rattle.std.specs.Prelude.{◌≡◌, ◌||◌, true, is_some};
ghost use Rattle.llb_model.specs.Run.{is_complete};
ghost use Rattle.llb_work.specs.RunEnds.{may_be};
ghost use Rattle.llb_work.specs.Tasks.{IsReport, IsHere};
ghost use Rattle.llb_work.specs.Waits.{all_wait};

use crate::dropped_trees::Owners;
use crate::early_end::{Gated, Noted};
use crate::event_counts::Tally;
use crate::shared_board::{Report, SharedBoard, Task};
use llb_board::Event;
use llb_board::laws::chosen_until_complete;

/// The shared board, and for each worker, by number, whether it waits: from the hold of the lock in which it reports that the queue was empty, and is told to
/// wait, to its next hold.
#[derive(Drop)]
pub(crate) struct Watch<S: Gated> {
    shared: SharedBoard<S>,
    waits: Vec<bool>,
    ghost end: { all_wait waits.items ≡ true → (is_some shared.noted || is_complete shared.board.build shared.board.state) ≡ true },
}

impl<S: Gated> Watch<S> {
    /// Makes the value that the lock guards. Ends the run at once if all workers wait, which never happens: there is a worker, and none waits yet.
    pub(crate) fn new(shared: SharedBoard<S>, waits: Vec<bool>) -> Watch<S> {
        let mut shared = shared;
        if all_wait(waits.as_slice()) {
            shared.note(Noted::Memory);
            return Watch { shared, waits };
        }
        Watch { shared, waits }
    }

    /// Returns the shared board.
    pub(crate) fn into_shared(self) -> SharedBoard<S> {
        let Watch { shared, .. } = self;
        shared
    }

    /// Notes why the run ends, unless something is noted already.
    pub(crate) fn note(&mut self, noted: Noted)
        requires { may_be S.may_stop S.start (Some noted) ≡ true }
    {
        self.shared.note(noted);
    }

    /// Does what a worker has to do in one hold of the lock (`SharedBoard::next_task`). If the worker reports that the queue was empty, it is to wait; but if
    /// all others wait, and the run is not over, the worker claims the vertex that a run on one thread would claim.
    #[tactic(auto, using(crate::proofs::Waits::one_awake))]
    pub(crate) fn next_task(
        &mut self,
        w: u32,
        report: Report,
        mine: &mut Tally<S>,
        news: &mut Vec<u32>,
    ) -> (Task, Option<Owners>)
        requires { IsReport S.may_stop S.start w report }
        ensures { IsHere S.start w result.0 }
    {
        if w as usize >= self.waits.len() {
            return (Task::End, None);
        }
        self.waits[w as usize] = false;
        match report {
            Report::Empty(seen) => self.rest(w, seen, mine, news),
            report => self.shared.next_task(w, report, mine, news),
        }
    }

    // Lets a worker wait, which found the queue empty after it had read this number of wakes.
    #[tactic(auto, using(crate::proofs::Waits::one_awake))]
    fn rest(
        &mut self,
        w: u32,
        seen: u32,
        mine: &mut Tally<S>,
        news: &mut Vec<u32>,
    ) -> (Task, Option<Owners>)
        ensures { IsHere S.start w result.0 }
    {
        if w as usize >= self.waits.len() || self.shared.is_over() {
            return (Task::End, None);
        }
        self.waits[w as usize] = true;
        if !all_wait(self.waits.as_slice()) {
            return (Task::Wait(seen), None);
        }
        chosen_until_complete(&self.shared.board);
        match self.shared.board.chosen() {
            None => (Task::End, None),
            Some(Event::Claim(_, v)) => {
                self.waits[w as usize] = false;
                self.shared.next_task(w, Report::Number(v), mine, news)
            }
            Some(_) => {
                self.waits[w as usize] = false;
                self.shared.next_task(w, Report::Nothing, mine, news)
            }
        }
    }
}

// Returns whether all workers wait.
fn all_wait(waits: &[bool]) -> bool
    ensures { result ≡ all_wait waits.now }
{
    waits.iter().all(|waits| *waits)
}
