//! Runs a board in as many threads as it has workers.

ghost use Rattle.std.specs.Prelude.{◌≡◌, ◌≤◌, ◌+◌, sum, length, true, false, Some, None};
ghost use Rattle.llb_model.specs.Run.{is_complete};
ghost use Rattle.llb_work.specs.LockSharingWorkers.{GoesOn, CancelsNothing, AreIdle};
ghost use Rattle.llb_work.specs.RunEnds.{is_foreign, StopsSomewhere, StopsAsNoted, Leads, EndsIdle};

use crate::early_end::Noted;
use crate::event_counts::count_record;
use crate::run_end::{RunEnd, RunFault};
use crate::single_thread_driver::{cancel_all, go_to_end};
use crate::thread_scope::{CrewEnd, CrewStart, run_crew};
use llb_board::laws::{chosen_until_complete, is_consistent};
use llb_board::{Board, Gate};
use std::alloc::Global;
use std::marker::Brand;
use std::sync::Wait;
use std::sync::ledger::Blank;
use std::thread::Threads;

/// Runs a board in as many threads as it has workers, 1 to 64. The threads share one lock and one queue of vertex numbers. First the number of every ready
/// vertex is put into the queue, the least first. Each worker ends the vertex that it already runs, if any. Then it takes one number after another, claims the
/// vertex of that number, passes the gate, and works on the vertex: away from the lock or, if the vertex mounts a shared cache, event by event under the lock.
/// When a vertex ends, its worker puts into the queue the numbers of the vertex's users that are now ready. If a claim is refused because another worker holds
/// a locked cache, the number of the vertex is put into the queue again later, when that cache may be free. A worker that finds the queue empty sleeps until
/// another worker puts more numbers into the queue than that other worker takes, or until the run is over.
///
/// The fault is the first that is met: 151 `Memory` if memory is refused, 152 `Stopped` if the gate stops a worker, 153 `Thread` if a thread can't be started.
/// If memory is refused for the copies of the board, or for what the workers need before they start (such as the queue and their lists), no thread starts, and
/// the board is returned as it was given. The worker that meets 151 or 152 notes the fault and cancels what it runs, both in one hold of the lock; every other
/// worker ends what it runs. If a worker has no thread (153), the caller's thread does the work of this worker. So if threads were started, no worker runs
/// anything on the returned board, and no cache is held. Granted events lead from the given board to the returned one, and the sum of `made` is their number;
/// none of them is a cancel unless there is a fault. 154 `Foreign` never occurs: it would say that the copy of the board under the lock differs from the given
/// board.
pub fn run_workers<G: Gate + Sync, R: Threads + Wait + Sync>(
    rt: &R,
    alloc: Global,
    board: Board,
    gate: &G,
) -> RunEnd
    ensures leads { Leads board result.made result.board }
    ensures own { is_foreign result.fault ≡ false }
    ensures complete { result.fault ≡ None → is_complete result.board.build result.board.state ≡ true }
    ensures stopped { result.fault ≡ Some RunFault.Stopped → StopsSomewhere G.may_stop board }
    ensures idle { EndsIdle board result.fault result.board }
    ensures uncancelled { result.fault ≡ None → CancelsNothing board result.board }
{
    let Ok(start) = board.copy() else {
        return refused(board);
    };
    let Ok(outside) = board.copy() else {
        return refused(board);
    };
    let n = workers(&board);
    let begin = CrewStart {
        board,
        start,
        blank: Blank::new(u64::from(n)),
        workers: n,
    };
    let left = match run_crew::<Brand, G, R>(rt, alloc, begin, gate) {
        Ok(left) => left,
        Err(board) => return refused(board),
    };
    let CrewEnd {
        board,
        start,
        made,
        noted,
    } = left;
    // Never happens: by an invariant of the value under the lock, `start` is the given board.
    if !start.same(&outside) {
        let fault = Some(RunFault::Foreign(start));
        return RunEnd { board, made, fault };
    }
    ended(board, made, noted)
}

// Returns how many workers there are.
fn workers(board: &Board) -> u32
    ensures few { result ≤ 64 }
    ensures all { result ≡ length board.now.state.workers }
{
    board.has_workers();
    for w in 0..64 {
        if board.worker(w).is_none() {
            return w;
        }
    }
    64
}

// Returns the end of a run that did not begin, because memory was refused.
fn refused(board: Board) -> RunEnd
    ensures leads { Leads board result.made result.board }
    ensures fault { result.fault ≡ Some RunFault.Memory }
    ensures kept { result.board ≡ board }
{
    RunEnd {
        board,
        made: [0; 64],
        fault: Some(RunFault::Memory),
    }
}

// Finishes a run after its threads have ended: they have left this board, and may have noted why the run ends early. Returns how the run ended.
fn ended(board: Board, made: [u64; 64], noted: Option<Noted>) -> RunEnd
    requires { sum made ≤ length board.events }
    ensures goes { GoesOn board result.board }
    ensures made { sum result.made + length board.events ≡ sum made + length result.board.events }
    ensures own { is_foreign result.fault ≡ false }
    ensures complete { result.fault ≡ None → is_complete result.board.build result.board.state ≡ true }
    ensures stopped { StopsAsNoted noted result.fault }
    ensures idle { AreIdle result.board.state }
    ensures uncancelled { result.fault ≡ None → (noted ≡ None) × CancelsNothing board result.board }
{
    let mut board = board;
    let mut made = made;
    let before = board.events().len();
    let fault = finish(&mut board, noted);
    count_record(&board, before, &mut made);
    RunEnd { board, made, fault }
}

// Finishes a run after its threads have ended, and returns the fault of the run. If no reason for an early end is noted, does the chosen events (see
// `Board::chosen`) until the board is complete; if a reason is noted, or memory is refused, cancels what workers still run.
fn finish(board: &mut Board, noted: Option<Noted>) -> Option<RunFault>
    ensures goes { GoesOn board.old board.new }
    ensures own { is_foreign result ≡ false }
    ensures complete { result ≡ None → is_complete board.new.build board.new.state ≡ true }
    ensures stopped { StopsAsNoted noted result }
    ensures idle { AreIdle board.new.state }
    ensures uncancelled { result ≡ None → (noted ≡ None) × CancelsNothing board.old board.new }
{
    if let Some(noted) = noted {
        cancel_all(board);
        return Some(fault_of(noted));
    }
    if !go_to_end(board) {
        cancel_all(board);
        return Some(RunFault::Memory);
    }
    board.is_graph();
    is_consistent(board);
    chosen_until_complete(board);
    None
}

// Returns the fault of a run that ends for this noted reason.
fn fault_of(noted: Noted) -> RunFault
    ensures own { is_foreign (Some result) ≡ false }
    ensures stopped { StopsAsNoted (Some noted) (Some result) }
{
    match noted {
        Noted::Memory => RunFault::Memory,
        Noted::Stopped(_, _) => RunFault::Stopped,
        Noted::Thread => RunFault::Thread,
    }
}
