//! Laws that hold for a board after every list of granted events, since the table replays the board's record to the board's state. If you read only one
//! contract, read the contract of `headline`.

ghost use Rattle.std.specs.Prelude.{◌≡◌, ◌↔◌, ◌<◌, ℕ, None, true, length, slice_get};
ghost use Rattle.llb_model.specs.Outcome.{outcome};
ghost use Rattle.llb_model.specs.Run.{chosen, is_complete, StandsPlainly};
ghost use Rattle.llb_model.specs.ConsistentStates.{IsConsistent};
ghost use Rattle.llb_model.specs.Landing.{LandsAsBlock};
ghost use Rattle.llb_model.specs.WholeRunLaws as machine;
ghost use Rattle.llb_board.specs.Laws.{SettledArePlain, ChosenIsGranted, OthersKeep, OneWorkerEach, ReadyBehindDone, BlockedBehindAFailure, OutcomeByInputs};
ghost use Rattle.llb_board.specs.PlainVertexJobs.{BegunArePlain, ClaimsArePlain, KnownLand};
ghost use Rattle.llb_board.specs.MachinePromise.{Headline, StandsInClaimOrder};

use crate::board::Board;

/// Proves the promise of the whole machine. The table replays the record, with a reply for each event, from the opening state to the board's state. No two
/// workers hold the same locked cache at once, nor the same instance of a private cache. An instance of a locked or private cache that a worker holds is
/// neither changed nor read by an event of another worker. A settled vertex with no cache mount at or before it has its plain outcome. All this holds at every
/// moment, for any workers and any order of events.
pub fn headline(board: &Board)
    ensures { Headline board.now }
{
    board.is_graph();
    board.replays();
}

/// Proves that vertices and workers agree on which worker runs which vertex, that a vertex that is done has all its outputs, and that the inputs of a vertex
/// that does not wait all exist.
pub fn is_consistent(board: &Board)
    ensures { IsConsistent board.now.build board.now.state }
{
    board.replays();
}

/// Proves that a settled vertex with no cache mount at or before it has its plain outcome, whether it is done or has failed, and whatever other vertices mount.
pub fn settled_are_plain(board: &Board)
    ensures { SettledArePlain board.now }
{
    board.is_graph();
    board.replays();
}

/// Proves that on a complete board of a graph without cache mounts every vertex ended with its plain outcome, or is Blocked if its plain outcome is blocked.
pub fn complete_is_plain(board: &Board)
    ensures { machine.HasNoCaches board.now.build → is_complete board.now.build board.now.state ≡ true → (v : ℕ) → v < length board.now.build.graph.vertices
        → StandsPlainly (slice_get board.now.state.statuses v) (outcome board.now.build v) }
{
    board.is_graph();
    board.replays();
}

/// Proves that a run on one thread has a next event (`Board::chosen`) exactly if the board is not complete, that is, if some vertex is neither settled nor
/// blocked.
pub fn chosen_until_complete(board: &Board)
    ensures { (chosen board.now.build board.now.state ≡ None) ↔ (is_complete board.now.build board.now.state ≡ true) }
{
    board.is_graph();
    board.replays();
}

/// Proves that the table grants the chosen event (`Board::chosen`: the event that a run on one thread does next).
pub fn chosen_is_granted(board: &Board)
    ensures { ChosenIsGranted board.now }
{
    board.has_workers();
}

/// Proves that a granted event of one worker does not change the state of any other worker. From a worker's claim to its settle or cancel, other workers'
/// events do not change the instances of locked and private caches that the worker holds. Whatever trees these instances had, an event of another worker would
/// have the same reply, and the same effect on everything else.
pub fn others_keep(board: &Board)
    ensures workers { OthersKeep board.now }
    ensures instances { machine.OthersKeep board.now.build }
    ensures unseen { machine.OthersIgnore board.now.build }
{
    let _ = board;
}

/// Proves that no two workers hold the same instance of a private or a locked cache at once, nor instances of the same locked key.
pub fn held_once(board: &Board)
    ensures instances { machine.IsHeldOnce board.now.build }
    ensures locked { machine.IsLockedOnce board.now.build }
{
    let _ = board;
}

/// Proves that the instances that a running worker holds are distinct, and that each has a tree.
pub fn held_are_there(board: &Board)
    ensures { machine.HeldAreThere board.now.build }
{
    board.is_graph();
}

/// Proves that for a private key a claim takes the instance with the least free number; a number is free if no running worker holds the instance with it.
pub fn claims_least(board: &Board)
    ensures { machine.ClaimsLeast board.now.build }
{
    let _ = board;
}

/// Proves that the instances of a key are numbered from 0 without gaps: on this board, and after any list of granted events if there were no gaps at the
/// opening.
pub fn stays_dense(board: &Board)
    ensures here { machine.IsDense board.now.state.store }
    ensures after { machine.StaysDense board.now.build }
{
    let _ = board.caches();
}

/// Proves a law for graphs without shared caches. After any list of granted events, the settled vertices, and the cache instances that no worker holds, are as
/// if the claimed vertices had been run one after another, in the order of their claims: each vertex as a whole, or up to the micro-step at which it was
/// cancelled. The same holds for this board, in the order of the claims of its record.
pub fn runs_in_claim_order(board: &Board)
    ensures after { machine.NoShared board.now.build → machine.RunsInClaimOrder board.now.build }
    ensures here { machine.NoShared board.now.build → StandsInClaimOrder board.now }
{
    board.is_graph();
    board.replays();
}

/// Proves a law for a list of chosen events (each is the event that a run on one thread does next: `Board::chosen`) that begins at the opening. If no vertex
/// runs at the end of the list, the vertices and the cache instances, shared ones included, are then as if the claimed vertices had been run one after another,
/// in the order of their claims.
pub fn alone_in_claim_order(board: &Board)
    ensures { machine.AloneInClaimOrder board.now.build }
{
    board.is_graph();
}

/// Proves a law for work that was done off the board, on the worker's workspace and the trees of the worker's instances as they are now: landing the work has
/// the same effect as doing the same micro-steps and the settle on the board, with no other event between them.
pub fn lands_as_block(board: &Board)
    ensures { LandsAsBlock board.now.build }
{
    let _ = board;
}

/// Proves that an exec is finished after its last command, or as soon as the last status is not 0 and every later command is joined by `&&`. If the last status
/// is then not 0, the fault of the exec names the last command that ran and its status; else the exec has no fault. This holds for a script that runs alone,
/// and for every worker that runs an exec after any list of granted events, whatever other workers do to shared caches meanwhile.
pub fn execs_end_by_last_status(board: &Board)
    ensures alone { machine.FailsByLastStatus }
    ensures among_others { machine.ExecsEndByLastStatus board.now.build }
{
    let _ = board;
}

/// Proves that commands that are joined by `&&` alone run one after another, up to and with the first whose status is not 0, and that none of these is skipped.
pub fn ands_run_in_turn(board: &Board)
    ensures { machine.AndsRunInTurn }
{
    let _ = board;
}

/// Proves that no two workers run the same vertex.
pub fn one_worker_each(board: &Board)
    ensures { OneWorkerEach board.now }
{
    board.replays();
}

/// Proves that a vertex is Ready exactly if it waits and all its inputs are done.
pub fn ready_behind_done(board: &Board)
    ensures { ReadyBehindDone board.now }
{
    board.is_graph();
    board.replays();
}

/// Proves that a vertex is Blocked exactly if it waits and the vertex of one of its inputs has failed or is Blocked.
pub fn blocked_behind_a_failure(board: &Board)
    ensures { BlockedBehindAFailure board.now }
{
    board.is_graph();
    board.replays();
}

/// Proves that the plain outcome of a vertex is what its whole program makes of the plain outcomes of its inputs.
pub fn outcome_by_inputs(board: &Board)
    ensures { OutcomeByInputs board.now }
{
    board.is_graph();
}

/// Proves a law for a vertex with no cache mount at or before it: the graph, the local trees, the worker and the vertex determine the job that a claim hands
/// out. As long as the worker has done no micro-step of the vertex, this job is what remains for the worker, so the outcome of the job can be landed without
/// comparing trees.
pub fn begun_are_plain(board: &Board)
    ensures begun { BegunArePlain board.now }
    ensures claims { ClaimsArePlain board.now }
    ensures land { KnownLand board.now }
{
    board.is_graph();
    board.replays();
}
