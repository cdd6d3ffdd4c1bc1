//! Does events on a board, on the caller's own thread: the chosen events (`chosen` of `llb_model`) one after another, or a cancel of everything that runs.

ghost use Rattle.std.specs.Prelude.{◌≡◌, None, []};
ghost use Rattle.std.specs.Bool.{OnTrue, OnFalse};
ghost use Rattle.llb_model.specs.Run.{chosen, claims_of, AreAscending};
ghost use Rattle.llb_work.specs.SingleThreadDriver.{Takes, Goes, IsLeft, TakesMemory};
ghost use Rattle.llb_work.specs.LockSharingWorkers.{GoesOn, CancelsNothing, AreIdle};

use llb_board::laws::{chosen_is_granted, is_consistent};
use llb_board::{Board, Event};

// Does one event and returns whether it was granted; if it was refused, the board is unchanged.
fn do_event(board: &mut Board, event: Event) -> bool
    ensures taken { OnTrue result (Takes board.old event board.new) }
    ensures kept { OnFalse result (board.new ≡ board.old) }
    ensures left { OnFalse result (IsLeft board.old event) }
{
    match event {
        Event::Claim(w, v) => board.claim(w, v).is_ok(),
        Event::Step(w) => board.step(w).is_ok(),
        Event::Settle(w) => board.settle(w).is_ok(),
        Event::Cancel(w) => board.cancel(w).is_ok(),
    }
}

/// Does the event that `Board::chosen` returns, again and again. Returns true when `Board::chosen` returns no event any more, false when an event is refused
/// for want of memory.
pub(crate) fn go_to_end(board: &mut Board) -> bool
    ensures goes { Goes board.old board.new }
    ensures ends { OnTrue result (chosen board.new.build board.new.state ≡ None) }
    ensures stops { OnFalse result (TakesMemory (chosen board.new.build board.new.state)) }
    ensures claims { board.old.events ≡ [] → AreAscending (claims_of board.new.events) }
    ensures uncancelled { CancelsNothing board.old board.new }
{
    while let Some(event) = board.chosen() {
        board.is_graph();
        is_consistent(board);
        chosen_is_granted(board);
        if !do_event(board, event) {
            return false;
        }
    }
    true
}

/// Cancels everything that workers still run. Does not allocate.
pub(crate) fn cancel_all(board: &mut Board)
    ensures goes { GoesOn board.old board.new }
    ensures idle { AreIdle board.new.state }
{
    board.has_workers();
    for w in 0..64 {
        let _ = board.cancel(w);
    }
}
