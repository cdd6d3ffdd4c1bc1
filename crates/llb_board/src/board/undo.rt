//! Takes back the last event: puts back what the event changed.

ghost use Rattle.std.specs.Prelude.{◌≡◌};
ghost use Rattle.llb_board.specs.UndoableEvents.{undone, CanUndo};

use crate::board::Board;
use crate::workers::Undo;

impl Board {
    /// Takes back the last event of the record, given the `Undo` that `walk` returned for that event, or another `Undo` that meets `CanUndo`. Does not
    /// allocate.
    pub fn undo(&mut self, undo: Undo)
        requires { CanUndo undo self.old }
        ensures { self.new ≡ undone undo self.old }
    {
        self.is_graph();
        match self.workers.put_back(undo) {
            Some(change) => {
                let v = change.vertex;
                self.vertices.set(v, change.stage);
                let events = self.vertices.steps(v) as usize + 2;
                self.history.take_back(v, events);
            }
            None => self.history.take_back(0, 0),
        }
    }
}
