//! The command `run`: reads a definition, loads it, opens a board, runs it with one worker or with several, and prints the text of its result.

ghost use Rattle.std.specs.Prelude.{ℕ, List, Option, length, OnOk};
ghost use Rattle.std.specs.Io.KnownBytes.{Appends};
ghost use Rattle.llb_loader.specs.LocalSources.{Local};
ghost use Rattle.llb_model.specs.Outcome.{output_in};
ghost use Rattle.llb_model.specs.State.{ending_at};
ghost use Rattle.llb_treetext.specs.TreeText.{tree_text};
ghost use Rattle.llb_commands.specs.ProgramOutput.{Runs, failed_line, failed_lines};
ghost use Rattle.llb_commands.specs.WrittenPrefix.{PrintsOut};
ghost use Rattle.llb_commands.specs.CallStreams.{Stream};
ghost use Rattle.llb_commands.specs.Running.{Answers, Ends, Finishes, IsWhole, Opens, Shows};

use crate::board_opening::open_over;
use crate::fault::{ProgramFault, refusal};
use llb_board::laws::{complete_is_plain, is_consistent};
use llb_board::{Board, Gate, Status, Stopped};
use llb_loader::{Edge, Locals};
use llb_tree::Tree;
use llb_treetext::{PrintFault, print_tree};
use llb_wire::Over;
use llb_work::{RunEnd, RunFault, run_alone, run_workers};
use std::alloc::Global;
use std::io;
use std::io::{Read, Write};
use std::sync::Wait;
use std::thread::Threads;

// A gate that stops no worker.
struct Open;

impl Gate for Open {
    ghost use Rattle.std.specs.Prelude.{false};

    ghost may_stop = { λ _ _. false };

    fn pass(&self, _w: u32, _v: u32) -> Result<(), Stopped> {
        Ok(())
    }
}

// How a run ended, if no fault cut it short.
#[derive(Drop)]
enum Ended {
    // The text of the run's result is written.
    Printed,
    // A vertex failed, so the result is no tree; the board says which vertices failed.
    Failed(Board),
}

// Returns the board of a run if no fault cut the run short; else fails with the program's fault for that fault.
fn whole(board: Board, fault: Option<RunFault>) -> Result<Board, ProgramFault>
    ensures { IsWhole board fault result }
{
    match fault {
        None => Ok(board),
        Some(fault) => Err(ProgramFault::Run(fault)),
    }
}

// Runs the board, if one was opened, with one worker, until the run ends; if no board was opened, returns the fault.
fn finished(opened: Result<Board, ProgramFault>) -> Result<Board, ProgramFault>
    ensures { (locals : List Local) (input : Option (List ℕ)) → Opens 1 locals input opened → Finishes 1 locals input result }
{
    let board = opened?;
    board.is_graph();
    let RunEnd { board, fault, .. } = run_alone(board);
    is_consistent(&board);
    whole(board, fault)
}

// Runs the board, if one was opened, with this number of workers, until the run ends; if there are several workers, each has a thread. If no board was opened,
// returns the fault.
fn finished_by<T: Threads + Wait + Sync>(
    rt: &T,
    alloc: Global,
    opened: Result<Board, ProgramFault>,
    workers: u32,
) -> Result<Board, ProgramFault>
    ensures { (locals : List Local) (input : Option (List ℕ)) → Opens workers locals input opened → Finishes workers locals input result }
{
    if workers == 1 {
        return finished(opened);
    }
    let board = opened?;
    let RunEnd { board, fault, .. } = run_workers(rt, alloc, board, &Open);
    is_consistent(&board);
    complete_is_plain(&board);
    whole(board, fault)
}

// Writes the text of a tree to a writer.
fn print_over<W: Write>(alloc: Global, tree: &Tree, out: &mut W) -> Result<(), PrintFault>
    ensures { PrintsOut (W.contents out.old) (W.contents out.new) (tree_text tree.now) result }
{
    let mut sink = Over::new(out);
    print_tree(alloc, tree, &mut sink)
}

// Writes the text of the tree to which an edge leads (an output of a vertex). If the vertex is not done, there is no such tree, and the board is returned.
fn print_output<W: Write>(
    alloc: Global,
    board: Board,
    edge: Edge,
    out: &mut W,
) -> Result<Ended, ProgramFault>
    ensures { Shows board (record { before = W.contents out.old; after = W.contents out.new })
        (output_in (ending_at board.state.statuses edge.vertex) edge.index) result }
{
    let Some(tree) = board.output(edge.vertex, edge.index) else {
        return Ok(Ended::Failed(board));
    };
    match print_over(alloc, tree, out) {
        Ok(()) => Ok(Ended::Printed),
        Err(fault) => Err(ProgramFault::Print(fault)),
    }
}

// Writes the text of the result of a run that has ended on a board; returns the fault if there is no board.
fn print_result<W: Write>(
    alloc: Global,
    board: Result<Board, ProgramFault>,
    out: &mut W,
) -> Result<Ended, ProgramFault>
    ensures { (workers : ℕ) (locals : List Local) (input : Option (List ℕ)) → Finishes workers locals input board
        → Answers workers locals input (record { before = W.contents out.old; after = W.contents out.new }) result }
{
    let board = board?;
    board.is_graph();
    let edge = board.graph().result();
    print_output(alloc, board, edge, out)
}

// Writes the line of a vertex if it has failed.
fn print_failure<E: Write>(v: u32, status: Option<Status>, err: &mut E) -> io::Result<()>
    ensures { OnOk result (Appends (E.contents err.old) (E.contents err.new) (failed_line v status)) }
{
    match status {
        Some(Status::Failed(fault)) => writeln!(err, "failed {v} {fault}"),
        _ => Ok(()),
    }
}

// Writes a line for each vertex that failed, by number.
fn print_failures<E: Write>(board: &Board, err: &mut E) -> io::Result<()>
    ensures { OnOk result (Appends (E.contents err.old) (E.contents err.new)
        (failed_lines board.now.build board.now.state (length board.now.build.graph.vertices))) }
{
    board.is_graph();
    for v in 0..board.graph().vertices().len() as u32 {
        print_failure(v, board.status(v), err)?;
    }
    Ok(())
}

// Writes the lines of the failures, or the line of the fault, with which a run ended, and returns the exit status.
fn exit_status<W: Write, E: Write>(
    ended: Result<Ended, ProgramFault>,
    out: &mut W,
    err: &mut E,
) -> u8
    ensures { Ends (record { before = W.contents out.old; after = W.contents out.new })
        (record { before = E.contents err.old; after = E.contents err.new }) ended result }
{
    match ended {
        Ok(Ended::Printed) => match out.flush() {
            Ok(()) => 0,
            Err(_) => refusal(&ProgramFault::Print(PrintFault::Write), err),
        },
        Ok(Ended::Failed(board)) => {
            if print_failures(&board, err).is_err() {
                return 3;
            }
            1
        }
        Err(fault) => refusal(&fault, err),
    }
}

// Writes what a run on a board prints, or the line of the fault if no board was opened, and returns the exit status.
fn print_end<W: Write, E: Write>(
    alloc: Global,
    board: Result<Board, ProgramFault>,
    out: &mut W,
    err: &mut E,
) -> u8
    ensures { (workers : ℕ) (locals : List Local) (input : Stream) → Finishes workers locals input.before board → Runs workers locals (record {
      input = input;
      output = record { before = W.contents out.old; after = W.contents out.new };
      errors = record { before = E.contents err.old; after = E.contents err.new };
    }) result }
{
    let ended = print_result(alloc, board, out);
    exit_status(ended, out, err)
}

/// Reads a definition from `input`, runs it on the local trees with one worker and caches without instances, and writes the text of its result to `out`;
/// refusals and failures go to `err`, a line each. Returns the exit status: 0 if the whole text is written; 1 if a vertex failed; 2 if the definition is
/// refused, or a local source has no tree (`fault 121` and its name); 3 if a read, a write or memory failed. With 1 and 2 nothing is written to `out`, with 3
/// nothing or a prefix of the text. Reading ends past 67,108,864 bytes (`fault 81 13`) or after 2^27 reads (`fault 181`).
pub fn run_over<R: Read, W: Write, E: Write>(
    alloc: Global,
    input: &mut R,
    out: &mut W,
    err: &mut E,
    locals: Locals,
) -> u8
    ensures { Runs 1 locals (record {
      input = record { before = R.remaining input.old; after = R.remaining input.new };
      output = record { before = W.contents out.old; after = W.contents out.new };
      errors = record { before = E.contents err.old; after = E.contents err.new };
    }) result }
{
    let opened = open_over(alloc, input, locals, 1);
    print_end(alloc, finished(opened), out, err)
}

/// Does what `run_over` does, but with this number of workers; if there are several, each has a thread, and the call waits for them. If no cache is mounted,
/// the printed tree is the tree that the result has by the plain outcomes, for any number of workers. Two statuses have a further cause: 2 if the number of
/// workers is 0 or more than 64 (`fault 122`), and 3 if a thread could not be started (`fault 153`).
pub fn run_many_over<T: Threads + Wait + Sync, R: Read, W: Write, E: Write>(
    rt: &T,
    alloc: Global,
    input: &mut R,
    out: &mut W,
    err: &mut E,
    locals: Locals,
    workers: u32,
) -> u8
    ensures { Runs workers locals (record {
      input = record { before = R.remaining input.old; after = R.remaining input.new };
      output = record { before = W.contents out.old; after = W.contents out.new };
      errors = record { before = E.contents err.old; after = E.contents err.new };
    }) result }
{
    let opened = open_over(alloc, input, locals, workers);
    print_end(alloc, finished_by(rt, alloc, opened, workers), out, err)
}
