//! Runs a board to its end by any schedule, with the laws of progress: no event that a law says is granted is refused, and every schedule ends, alike without
//! cache mounts. So each law is called where its premises hold.

ghost use Rattle.std.specs.Prelude.{◌≡◌, ◌+◌, ◌≤◌, IfOk, None, OnErr, OnOk, Some, false, if◌then◌else◌, length, slice_get, true};
ghost use Rattle.llb_board.specs.WorkersKeptForUndo.{walk_memory};
ghost use Rattle.llb_events.specs.declared.event.Event.TheVariants.{Claim, Settle, Step};
ghost use Rattle.llb_model.specs.Run.{is_complete};
ghost use Rattle.llb_model.specs.State.{Idle, is_ready, runs};
ghost use Rattle.llb_model.specs.Table.{table};
ghost use Rattle.llb_model.specs.WholeRunLaws.{HasNoCaches};
ghost use Rattle.llb_progress.specs.Progress.{IsHeldUp, all_events, is_cancel};
ghost use Rattle.llb_progress.specs.Schedules.{EndsBy, Follows, GoesBy, GoesByChosen, IsNextOf, after_schedule};

use crate::laws::{complete_boards_agree, ends_whatever_comes, never_stuck, ready_or_held_up};
use llb_board::laws::{chosen_is_granted, chosen_until_complete};
use llb_board::{Board, Event, Memory, WalkFault, WorkerStatus};

// Fails with 141 `Memory` if this is the fault.
fn unless_memory(fault: WalkFault) -> Result<(), Memory>
    ensures { OnOk result (walk_memory fault ≡ false) }
{
    match fault {
        WalkFault::Memory => Err(Memory),
        _ => Ok(()),
    }
}

// Does an event, and returns whether the table grants it; a refused event changes nothing. Fails with 141 `Memory` alone.
fn go(board: &mut Board, event: Event) -> Result<bool, Memory>
    ensures granted { IfOk result (λ done. done ≡ true → Follows board.old event board.new) }
    ensures refused { IfOk result (λ done. done ≡ false → table board.old.build board.old.state event ≡ None) }
    ensures kept { IfOk result (λ done. done ≡ false → board.new ≡ board.old) }
    ensures err { OnErr result (board.new ≡ board.old) }
{
    match board.walk(event) {
        Ok(_) => Ok(true),
        Err(fault) => {
            unless_memory(fault)?;
            Ok(false)
        }
    }
}

// Returns whether an event is a cancel.
fn is_cancel(event: Event) -> bool
    ensures { result ≡ is_cancel event }
{
    matches!(event, Event::Cancel(_))
}

// Returns the next event of a running worker: the settle if what it runs is finished, else the next micro-step.
fn next_by(w: u32, finished: bool) -> Event
    ensures { result ≡ (if finished then Settle w else Step w) }
{
    if finished {
        Event::Settle(w)
    } else {
        Event::Step(w)
    }
}

/// Does the next event of a worker: the settle if what it runs is finished, else the next micro-step. Returns false if the worker runs nothing. Whatever other
/// workers run, the event is granted. Fails with 141 `Memory` alone, and changes nothing then.
pub fn go_on(board: &mut Board, w: u32) -> Result<bool, Memory>
    ensures went { IfOk result (λ went. went ≡ true → IsNextOf board.old w board.new) }
    ensures rests { IfOk result (λ went. went ≡ false → runs (slice_get board.old.state.workers w) ≡ None) }
    ensures kept { IfOk result (λ went. went ≡ false → board.new ≡ board.old) }
    ensures err { OnErr result (board.new ≡ board.old) }
{
    never_stuck(board);
    match board.worker(w) {
        Some(WorkerStatus::Runs(_, _, finished)) => go(board, next_by(w, finished)),
        Some(WorkerStatus::Idle) | None => Ok(false),
    }
}

/// Makes an idle worker claim a Ready vertex, and returns whether it did. If it did not, another worker holds a locked key of the vertex, and can go on at
/// once. Fails with 141 `Memory` alone, and changes nothing then. If the worker is not idle, or the vertex not Ready, the claim is refused.
pub fn claim_ready(board: &mut Board, w: u32, v: u32) -> Result<bool, Memory>
    ensures claimed { IfOk result (λ done. done ≡ true → Follows board.old (Claim w v) board.new) }
    ensures kept { IfOk result (λ done. done ≡ false → board.new ≡ board.old) }
    ensures held { slice_get board.old.state.workers w ≡ Some Idle → is_ready board.old.build board.old.state.statuses v ≡ true
        → IfOk result (λ done. done ≡ false → IsHeldUp board.old.build board.old.state w v) }
    ensures err { OnErr result (board.new ≡ board.old) }
{
    ready_or_held_up(board);
    go(board, Event::Claim(w, v))
}

// Does the events of a schedule, one after another, without cancels and without those that are refused. Fails with 141 `Memory` alone, after some of them.
fn go_by(board: &mut Board, schedule: &[Event]) -> Result<(), Memory>
    ensures goes { GoesBy board.old board.new }
    ensures all { OnOk result (board.new ≡ after_schedule board.old schedule.now) }
{
    for event in schedule {
        if is_cancel(*event) {
            continue;
        }
        go(board, *event)?;
    }
    Ok(())
}

// Does the chosen events (`Board::chosen`) until the board is complete. Fails with 141 `Memory` alone, after some of them.
fn go_to_end(board: &mut Board) -> Result<(), Memory>
    ensures goes { GoesByChosen board.old board.new }
    ensures complete { OnOk result (is_complete board.new.build board.new.state ≡ true) }
{
    while let Some(event) = board.chosen() {
        chosen_is_granted(board);
        // Never happens: the table grants the chosen event.
        if !go(board, event)? {
            return Ok(());
        }
    }
    chosen_until_complete(board);
    Ok(())
}

/// Runs a board to its end: does the events of a schedule, one after another, without cancels and without those that are refused, and then the chosen events.
/// The record grows by at most the events of all vertices. Fails with 141 `Memory` alone, after some of the events.
pub fn run_by(board: &mut Board, schedule: &[Event]) -> Result<(), Memory>
    ensures goes { GoesBy board.old board.new }
    ensures schedule { OnOk result (GoesByChosen (after_schedule board.old schedule.now) board.new) }
    ensures few { length board.new.events ≤ length board.old.events + all_events board.old.build }
    ensures complete { OnOk result (is_complete board.new.build board.new.state ≡ true) }
{
    ends_whatever_comes(board);
    go_by(board, schedule)?;
    go_to_end(board)
}

/// Runs two copies of a board to their ends, each by a schedule of its own. Without cache mounts both end with the same statuses. Fails with 141 `Memory`
/// alone.
pub fn run_both(
    board: &Board,
    schedule: &[Event],
    other: &[Event],
) -> Result<(Board, Board), Memory>
    ensures first { IfOk result (λ ends. EndsBy (after_schedule board.now schedule.now) ends.0) }
    ensures second { IfOk result (λ ends. EndsBy (after_schedule board.now other.now) ends.1) }
    ensures agree { IfOk result (λ ends. HasNoCaches board.now.build → ends.0.state.statuses ≡ ends.1.state.statuses) }
{
    let mut one = board.copy()?;
    let mut two = board.copy()?;
    run_by(&mut one, schedule)?;
    run_by(&mut two, other)?;
    complete_boards_agree(&one, &two);
    Ok((one, two))
}
