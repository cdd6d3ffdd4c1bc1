//! Does an event and returns what is needed to undo it, for callers that step through a run forwards and back.

ghost use Rattle.std.specs.Prelude.{◌≡◌, true, OnErr, IfOk, IfErr};
ghost use Rattle.llb_board.specs.WorkersKeptForUndo.{walk_memory, walk_may_want};
ghost use Rattle.llb_board.specs.UndoableEvents.{GivesWalk, walk_of, undone, CanUndo};

use crate::board::Board;
use crate::fault::WalkFault;
use crate::workers::Undo;
use llb_events::{Cancelled, Event, Settled, Stepped};

/// The reply to an event. It is the table's reply, except that the reply to a claim has no job.
#[derive(Clone, Copy, Debug, PartialEq, Eq)]
pub enum Reply {
    Claimed,
    Stepped(Stepped),
    Settled(Settled),
    Cancelled(Cancelled),
}

/// The result of `walk`: the reply to the event, and what is needed to undo the event.
#[derive(Drop)]
pub struct Walked {
    pub reply: Reply,
    pub undo: Undo,
}

impl Board {
    /// Does an event, and returns its reply together with an `Undo` that takes the event back. The memory for the `Undo` grows with what the event changes.
    /// Fails with the fault of the claim, the step, the settle or the cancel, or with 141 `Memory`, which is reported only if no other fault applies, or in
    /// place of 135 `Held` if memory for a copy of the held key is refused.
    pub fn walk(&mut self, event: Event) -> Result<Walked, WalkFault>
        ensures gives { GivesWalk (λ r. (self.new, r.reply)) result (walk_of self.old event) }
        ensures last { IfErr result (λ e. walk_memory e ≡ true → walk_may_want (walk_of self.old event) ≡ true) }
        ensures undo { IfOk result (λ r. undone r.undo self.new ≡ self.old) }
        ensures can { IfOk result (λ r. CanUndo r.undo self.new) }
        ensures err { OnErr result (self.new ≡ self.old) }
    {
        self.is_graph();
        let undo = self.workers.before(self.alloc, &self.vertices, event)?;
        let reply = self.happen(event)?;
        Ok(Walked { reply, undo })
    }

    // Does an event and returns its reply.
    fn happen(&mut self, event: Event) -> Result<Reply, WalkFault>
        ensures gives { GivesWalk (λ r. (self.new, r)) result (walk_of self.old event) }
        ensures last { IfErr result (λ e. walk_memory e ≡ true → walk_may_want (walk_of self.old event) ≡ true) }
        ensures err { OnErr result (self.new ≡ self.old) }
    {
        match event {
            Event::Claim(w, v) => {
                self.claim(w, v)?;
                Ok(Reply::Claimed)
            }
            Event::Step(w) => {
                let stepped = self.step(w)?;
                Ok(Reply::Stepped(stepped))
            }
            Event::Settle(w) => {
                let settled = self.settle(w)?;
                Ok(Reply::Settled(settled))
            }
            Event::Cancel(w) => {
                let cancelled = self.cancel(w)?;
                Ok(Reply::Cancelled(cancelled))
            }
        }
    }
}
