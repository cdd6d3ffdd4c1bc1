//! A run on the caller's own thread, which does the events of all workers.

ghost use Rattle.std.specs.Prelude.{◌≡◌, ◌<◌, ◌↔◌, ◌⊎◌, ℕ, Some, None, [], length, slice_get, IfSome, true};
ghost use Rattle.llb_model.specs.Outcome.{outcome};
ghost use Rattle.llb_model.specs.Run.{chosen, is_complete, claims_of, AreAscending, StandsPlainly};
ghost use Rattle.llb_model.specs.WholeRunLaws.{HasNoCaches};
ghost use Rattle.llb_work.specs.SingleThreadDriver.{Goes, MadeBy, EndsInClaimOrder, TakesMemory};

use crate::event_counts::count_record;
use crate::run_end::{RunEnd, RunFault};
use crate::single_thread_driver::go_to_end;
use llb_board::Board;
use llb_board::laws::{
    alone_in_claim_order, chosen_until_complete, complete_is_plain, is_consistent,
};

/// Does one event after another until the board is complete (every vertex is done, failed or blocked): the next event of the running worker with the lowest
/// number or, if no worker runs, worker 0's claim of the ready vertex with the least number. Ends with fault 151 `Memory` if memory is refused to a claim or a
/// step. If the board was just opened and is complete at the end, its vertices and caches are as if the vertices had been run one after another in the order
/// of their claims; this holds for shared caches too. If the graph has no caches, every vertex of a complete board has its plain outcome.
pub fn run_alone(board: Board) -> RunEnd
    ensures goes { Goes board result.board }
    ensures fault { result.fault ≡ None ⊎ (result.fault ≡ Some RunFault.Memory) }
    ensures ends { (result.fault ≡ None) ↔ (is_complete result.board.build result.board.state ≡ true) }
    ensures stops { IfSome result.fault (λ _. TakesMemory (chosen result.board.build result.board.state)) }
    ensures claims { board.events ≡ [] → AreAscending (claims_of result.board.events) }
    ensures order { board.events ≡ [] → result.fault ≡ None
        → EndsInClaimOrder result.board.build result.board.opening result.board.events result.board.state }
    ensures plain { result.fault ≡ None → HasNoCaches result.board.build → (v : ℕ) → v < length result.board.build.graph.vertices
        → StandsPlainly (slice_get result.board.state.statuses v) (outcome result.board.build v) }
    ensures made { MadeBy board result.board result.made }
{
    board.replays();
    let mut board = board;
    let before = board.events().len();
    let whole = go_to_end(&mut board);
    let mut made = [0; 64];
    count_record(&board, before, &mut made);
    board.is_graph();
    is_consistent(&board);
    alone_in_claim_order(&board);
    chosen_until_complete(&board);
    complete_is_plain(&board);
    let fault = if whole { None } else { Some(RunFault::Memory) };
    RunEnd { board, made, fault }
}
