//! Laws that relate texts, definitions and runs.

ghost use Rattle.std.specs.Prelude.{◌⊎◌, IfErr, IfOk};
ghost use Rattle.llb_loader.specs.Graph.{Numbered};
ghost use Rattle.llb_commands.specs.Aim.{Aim, IsAccepted};
ghost use Rattle.llb_commands.specs.ProgramOutput.{IsNotRun};
ghost use Rattle.llb_commands.specs.Assembly.{RunsAlike};
ghost use Rattle.llb_commands.specs.Running.{IsRefusal};

use crate::board_opening::opened;
use crate::definition_loading::passed_on;
use crate::fault::ProgramFault;
use llb_asm::one_answer;
use llb_board::Board;
use llb_loader::{Graph, Locals, load, one_answer_in};
use llb_ops::{Entries, definition_is_read_again};
use llb_session::laws::go_prints_the_run;
use llb_stepper::{
    Stepper, past_is_the_records, record_is_the_run, replay_is_the_run, replies_are_recorded,
};
use llb_wire::Bytes;
use std::alloc::Global;

/// Proves that two definitions with the same entries, each run by one worker on the same local trees, yield the same text of their result if both yield a
/// text. The first is the definition that a text is assembled to; the second is any bytes whose entries are those of the text.
pub fn assembled_runs_alike(text: &[u8], entries: &Entries, bytes: &Bytes)
    ensures { RunsAlike text.now entries.now bytes.now }
{
    one_answer(text);
    one_answer_in(bytes.as_slice());
    definition_is_read_again(entries);
    bytes.is_bytes();
}

/// Proves the aim of the machine. Take a definition that is loaded as a graph, and a board and a stepper over this graph, on any local trees and with any
/// number of workers. After every interleaving of events the board's state and replies are those to which the table leads by the board's record. No two
/// executions hold one locked cache at once. Every settled vertex with no cache mount at or before it has the graph's plain outcome. A text that is read as the
/// definition's entries is assembled to bytes that load as this graph. The stepper's state and lines on this graph follow from the table in the same way.
pub fn aim(
    text: &[u8],
    definition: &Bytes,
    entries: &Entries,
    graph: &Graph,
    board: &Board,
    stepper: &Stepper,
)
    ensures { IsAccepted definition.now graph.now board.now stepper.now → Aim text.now definition.now entries.now graph.now board.now stepper.now }
{
    graph.is_graph();
    one_answer(text);
    one_answer_in(definition.as_slice());
    definition.is_bytes();
    definition_is_read_again(entries);
    board.replays();
    board.has_workers();
    replies_are_recorded(board);
    let stepped = stepper.board();
    stepped.replays();
    past_is_the_records(stepper);
    record_is_the_run(stepper);
    go_prints_the_run(stepper);
    replay_is_the_run(board);
}

/// What a board is opened with besides its graph.
#[derive(Drop)]
pub struct BoardOptions {
    pub locals: Locals,
    pub workers: u32,
}

/// Shows that the premises of `aim` can be met: loads a definition, opens boards over its graph, makes a stepper, and calls `aim` on them. Fails with the fault
/// of the definition (81 to 90), with 121 or 122 of the first board or, if the first board is opened, of the second, or if memory is refused (91, 123, 184).
pub fn aim_is_met(
    alloc: Global,
    text: &[u8],
    definition: &Bytes,
    entries: &Entries,
    board: BoardOptions,
    stepper: BoardOptions,
) -> Result<(Board, Stepper), ProgramFault>
    ensures met { IfOk result (λ made. (graph : Numbered) × IsAccepted definition.now graph made.0 made.1
        × Aim text.now definition.now entries.now graph made.0 made.1) }
    ensures refused { IfErr result (λ e. IsRefusal e → IsNotRun board.workers board.locals e definition.now
        ⊎ IsNotRun stepper.workers stepper.locals e definition.now) }
{
    let graph = match load(alloc, definition.as_slice()) {
        Ok(graph) => graph,
        Err(fault) => return Err(passed_on(fault)),
    };
    let Ok(first) = graph.copy() else {
        return Err(ProgramFault::Memory);
    };
    let Ok(second) = graph.copy() else {
        return Err(ProgramFault::Memory);
    };
    let BoardOptions { locals, workers } = board;
    let board = opened(alloc, first, locals, workers)?;
    let BoardOptions { locals, workers } = stepper;
    let other = opened(alloc, second, locals, workers)?;
    let stepper = Stepper::new(alloc, other);
    aim(text, definition, entries, &graph, &board, &stepper);
    Ok((board, stepper))
}
