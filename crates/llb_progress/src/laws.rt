//! Laws of progress: a board is never stuck, every way of going on without cancels ends, and without cache mounts all end alike. They speak of the table's
//! events, in any order and by any workers, and not of threads.

ghost use Rattle.llb_model.specs.EventBounds.{still_to_come};
ghost use Rattle.llb_progress.specs.Progress.{RunningGoOn, SomeIsReady, IdleClaimReady, CompleteIsTheEnd, ReadyIsClaimedOrHeldUp};
ghost use Rattle.llb_progress.specs.Progress.{EachComesNearer, HasFewToCome, EndsWithin, LongestAreComplete, EndAsOne, all_events};

use llb_board::Board;
use llb_board::laws::complete_is_plain;

/// Proves that a board is never stuck. Each running worker can do its next step, or its settle if it is finished, whatever other workers do. While none runs,
/// some vertex is Ready, unless the board is complete, and each worker can claim each Ready vertex. The board is complete exactly if no event is granted.
pub fn never_stuck(board: &Board)
    ensures running { RunningGoOn board.now.build board.now.state }
    ensures ready { SomeIsReady board.now.build board.now.state }
    ensures claims { IdleClaimReady board.now.build board.now.state }
    ensures end { CompleteIsTheEnd board.now.build board.now.state }
{
    board.is_graph();
    board.replays();
    board.has_workers();
}

/// Proves that the claim of a Ready vertex by an idle worker is granted, or refused only for a locked key that another worker holds, which runs and can do its
/// next step or its settle at once.
pub fn ready_or_held_up(board: &Board)
    ensures { ReadyIsClaimedOrHeldUp board.now.build board.now.state }
{
    let _ = board;
}

/// Proves that every way of going on from a board without cancels ends, whichever worker is next. `nearer`: each granted event that is no cancel lowers the
/// number of events that can still come. `few`: no list of such events is longer than that number, which is at most the sum over all vertices of their
/// micro-steps and two. `ends`: after at most so many events the state is complete, and until then some event is granted. `longest`: a list of events that
/// can't be made longer ends in a complete state.
pub fn ends_whatever_comes(board: &Board)
    ensures nearer { EachComesNearer board.now.build board.now.state }
    ensures few { HasFewToCome board.now.build board.now.state }
    ensures ends { EndsWithin board.now.build (still_to_come board.now.build board.now.state) board.now.state }
    ensures within { EndsWithin board.now.build (all_events board.now.build) board.now.state }
    ensures longest { LongestAreComplete board.now.build board.now.state }
{
    board.is_graph();
    board.replays();
    board.has_workers();
}

/// Proves that two complete boards over one graph without cache mounts, and over the same local trees, have the same statuses: each vertex ended with the same
/// outputs or the same fault on both, or is blocked on both. This holds for any numbers of workers and any order of events.
pub fn complete_boards_agree(board: &Board, other: &Board)
    ensures { EndAsOne board.now.build board.now.state other.now.build other.now.state }
{
    board.replays();
    other.replays();
    complete_is_plain(board);
    complete_is_plain(other);
}
