//! Runs one definition twice, and calls the laws of two graphs and of two boards on the two runs, of which the premises of these laws hold.

ghost use Rattle.std.specs.Prelude.{◌≡◌, IfErr, IfOk, IfSome, None, OnOk, true, false};
ghost use Rattle.llb_board.specs.WorkersKeptForUndo.{walk_memory};
ghost use Rattle.llb_board.specs.Opening.{may_work};
ghost use Rattle.llb_loader.specs.LoadResult.{IsGraphIn};
ghost use Rattle.llb_laws.specs.EqualContents.{AgreeOnContents};
ghost use Rattle.llb_laws.specs.Refusals.{IsRefusalOfKept, is_memory};
ghost use Rattle.llb_laws.specs.TwoRuns.{AgreeByLaws, IsRunOf, LacksTree, after_each, board_after};

use crate::contents;
use crate::contents::contents_are_handed_on;
use crate::fault::KeptFault;
use crate::kept_outputs::may_work;
use crate::two_graphs::{
    boards_settle_alike, kept_outputs_serve, kept_outputs_stand_in, kept_results_stand_in,
    keys_share_outcomes, last_entry_decides, matched_vertices_settle_alike, one_digest_one_job,
    one_digest_one_outcome, order_does_not_matter, part_settles_alike, parts_are_not_refused,
    parts_do_not_collide, renamed_sources_end_alike, renamed_sources_settle_alike,
    rewritten_settles_alike, worked_elsewhere_lands,
};
use llb_board::laws::settled_are_plain;
use llb_board::{Board, WalkFault};
use llb_cache::Caches;
use llb_events::Event;
use llb_loader::{Locals, load, missing_local, one_answer_in};
use llb_wire::Memory;
use std::alloc::Global;

// Fails with 5 `Memory` if this is the fault.
fn unless_memory(fault: WalkFault) -> Result<(), Memory>
    ensures { OnOk result (walk_memory fault ≡ false) }
{
    match fault {
        WalkFault::Memory => Err(Memory),
        _ => Ok(()),
    }
}

// Does an event on a board; if the event is refused, the board stays as it was. Fails with 5 `Memory` alone.
fn go(board: &mut Board, event: &Event) -> Result<(), Memory>
    ensures { OnOk result (board.new ≡ board_after board.old event.now) }
{
    match board.walk(*event) {
        Ok(_) => Ok(()),
        Err(fault) => {
            unless_memory(fault)?;
            Ok(())
        }
    }
}

// Does events one after the other, without those that are refused. Fails with 5 `Memory` alone.
fn go_on(board: &mut Board, events: &[Event]) -> Result<(), Memory>
    ensures { OnOk result (board.new ≡ after_each board.old events.now) }
{
    for event in events {
        go(board, event)?;
    }
    Ok(())
}

// Opens a board over a definition on local trees, and does events on the board. Returns and fails as `run_twice` does.
fn run(
    alloc: Global,
    definition: &[u8],
    locals: &Locals,
    workers: u32,
    events: &[Event],
) -> Result<Option<Board>, KeptFault>
    ensures some { IfOk result (λ made. IfSome made (IsRunOf definition.now locals.now workers events.now)) }
    ensures none { IfOk result (λ made. made ≡ None → LacksTree definition.now locals.now) }
    ensures allowed { IfOk result (λ made. may_work workers ≡ true) }
    ensures refused { IfErr result (λ e. is_memory e ≡ false → IsRefusalOfKept definition.now workers e) }
    ensures last { IfErr result (λ e. is_memory e ≡ true → may_work workers ≡ true) }
{
    if !may_work(workers) {
        return Err(KeptFault::Workers);
    }
    let graph = load(alloc, definition)?;
    if let Some(_name) = missing_local(&graph, locals) {
        return Ok(None);
    }
    let Ok(trees) = locals.copy() else {
        return Err(KeptFault::Memory);
    };
    match Board::open(alloc, graph, trees, Caches::new(alloc), workers) {
        Ok(opened) => {
            let mut board = opened;
            go_on(&mut board, events)?;
            Ok(Some(board))
        }
        Err(_) => Err(KeptFault::Memory),
    }
}

// Calls the laws on two boards over one definition and the same local trees.
fn agree(definition: &[u8], board: &Board, other: &Board)
    ensures { IsGraphIn definition.now board.now.build.graph → board.now.build ≡ other.now.build → AgreeByLaws definition.now board.now other.now }
{
    let graph = board.graph();
    let same = other.graph();
    board.is_graph();
    settled_are_plain(board);
    parts_do_not_collide(definition, graph);
    parts_are_not_refused(definition, graph, definition);
    one_digest_one_outcome(definition, graph, definition, same);
    one_digest_one_job(definition, graph, definition, same);
    keys_share_outcomes(definition, graph, definition, same);
    last_entry_decides(definition, graph, definition, same);
    order_does_not_matter(definition, graph, definition, same);
    renamed_sources_end_alike(graph, same);
    kept_results_stand_in(graph, same);
    boards_settle_alike(definition, board, definition, other);
    worked_elsewhere_lands(definition, graph, definition, other);
    matched_vertices_settle_alike(board, other);
    renamed_sources_settle_alike(board, other);
    kept_outputs_stand_in(board, other);
    kept_outputs_serve(definition, board, definition, same, same);
    part_settles_alike(definition, board, definition, other);
    rewritten_settles_alike(definition, board, definition, other);
}

// Calls the laws of contents on two boards over one graph and the same local trees, for the relation that two contents are equal.
fn agree_on_contents(board: &Board, other: &Board)
    ensures { board.now.build ≡ other.now.build → AgreeOnContents board.now other.now }
{
    contents_are_handed_on(board.graph());
    contents::boards_settle_alike(board, other);
}

/// Runs a definition twice: opens two boards on the same local trees, without caches, and does the first events on one and the others on the other; an event
/// that is refused is left out. Whatever the events are, each vertex ends alike on both boards, if no cache mount is at or before it. The function also shows
/// that the premises of the laws of two graphs, of two boards and of contents can be met. Returns `None` if a local source has no tree. Fails with the first of
/// these that applies: 122 `Workers`, if the number of workers is 0 or more than 64; `Load`, with the fault of `load`. Fails with 123 `Memory` for want of
/// memory, if the number of workers is from 1 to 64.
pub fn run_twice(
    alloc: Global,
    definition: &[u8],
    locals: &Locals,
    workers: u32,
    events: &[Event],
    others: &[Event],
) -> Result<Option<(Board, Board)>, KeptFault>
    ensures first { IfOk result (λ made. IfSome made (λ boards. IsRunOf definition.now locals.now workers events.now boards.0)) }
    ensures second { IfOk result (λ made. IfSome made (λ boards. IsRunOf definition.now locals.now workers others.now boards.1)) }
    ensures agree { IfOk result (λ made. IfSome made (λ boards. AgreeByLaws definition.now boards.0 boards.1)) }
    ensures contents { IfOk result (λ made. IfSome made (λ boards. AgreeOnContents boards.0 boards.1)) }
    ensures none { IfOk result (λ made. made ≡ None → LacksTree definition.now locals.now) }
    ensures allowed { IfOk result (λ made. may_work workers ≡ true) }
    ensures refused { IfErr result (λ e. is_memory e ≡ false → IsRefusalOfKept definition.now workers e) }
    ensures last { IfErr result (λ e. is_memory e ≡ true → may_work workers ≡ true) }
{
    let Some(board) = run(alloc, definition, locals, workers, events)? else {
        return Ok(None);
    };
    let Some(other) = run(alloc, definition, locals, workers, others)? else {
        return Ok(None);
    };
    one_answer_in(definition);
    agree(definition, &board, &other);
    agree_on_contents(&board, &other);
    Ok(Some((board, other)))
}
