//! The command `step`: reads a definition, loads it, opens a board, and replies to the commands of a session.

ghost use Rattle.std.specs.Prelude.{◌≡◌, ℕ, List, Option};
ghost use Rattle.llb_loader.specs.LocalSources.{Local};
ghost use Rattle.llb_commands.specs.Running.{Opens};
ghost use Rattle.llb_commands.specs.Stepping.{Steps, StepsIn, session_fault, no_looks, only_looks};

use crate::board_opening::open_over;
use crate::bounded_reading::{LIMIT, READS};
use crate::fault::{OutputFault, ProgramFault, refusal};
use llb_board::Board;
use llb_loader::Locals;
use llb_session::{Looks, Options, Session, SessionFault, converse};
use llb_stepper::Stepper;
use std::alloc::Global;
use std::io::{Read, Write};

// Returns the fault with which the program ends if a session fails with this fault.
fn session_fault(fault: SessionFault) -> ProgramFault
    ensures { result ≡ session_fault fault }
{
    match fault {
        SessionFault::Failed(_) | SessionFault::Unending(_) => ProgramFault::Read,
        SessionFault::Write => ProgramFault::Output(OutputFault::Write),
        SessionFault::Memory => ProgramFault::Memory,
        SessionFault::TooLong => ProgramFault::TooLong,
    }
}

// Runs a session on a board to its end; fails if no board was opened, or if the session ends with a fault.
fn stepped<C: Read, W: Write>(
    alloc: Global,
    board: Result<Board, ProgramFault>,
    options: Options,
    commands: &mut C,
    out: &mut W,
) -> Result<(), ProgramFault>
    ensures { (workers : ℕ) (locals : List Local) (file : Option (List ℕ)) → Opens workers locals file board → StepsIn options workers locals file
        (record { before = C.remaining commands.old; after = C.remaining commands.new })
        (record { before = W.contents out.old; after = W.contents out.new }) result }
{
    let board = board?;
    let stepper = Stepper::new(alloc, board);
    let mut session = Session { stepper, options };
    match converse(alloc, &mut session, commands, out, LIMIT, READS) {
        Ok(()) => Ok(()),
        Err(fault) => Err(session_fault(fault)),
    }
}

/// Runs a session on a board that was opened; if none was opened, writes the fault. Returns the exit status.
pub(crate) fn session_over<C: Read, W: Write, E: Write>(
    alloc: Global,
    board: Result<Board, ProgramFault>,
    options: Options,
    commands: &mut C,
    out: &mut W,
    err: &mut E,
) -> u8
    ensures { (workers : ℕ) (locals : List Local) (file : Option (List ℕ)) → Opens workers locals file board → Steps options workers locals file (record {
      input = record { before = C.remaining commands.old; after = C.remaining commands.new };
      output = record { before = W.contents out.old; after = W.contents out.new };
      errors = record { before = E.contents err.old; after = E.contents err.new };
    }) result }
{
    match stepped(alloc, board, options, commands, out) {
        Ok(()) => 0,
        Err(fault) => refusal(&fault, err),
    }
}

/// Reads a definition from `file`, and replies to the lines of `commands` on a board with this number of workers and caches without instances. A line that
/// looks at workers, caches or the graph is refused like any other line that is no command (173). The replies, also the refusals of commands, go to `out`, line
/// by line. If the call fails, the line of the fault goes to `err`.
///
/// Returns the exit status. It is 0 if the session ended, by a line `quit` or with the commands. It is 2 if the definition is refused (81 to 90),
/// a local source has no tree (121), or the number of workers is 0 or more than 64 (122); then nothing is written to `out`. It is also 2 if the
/// commands have more than 67,108,864 bytes (185); then the lines within this bound get their replies. It is 3 if a read (181), a write (182) or
/// memory (91, 123, 184) failed; then nothing, or a prefix of the replies, is written. It is also 3 if the line of a fault can't be written.
pub fn step_over<R: Read, C: Read, W: Write, E: Write>(
    alloc: Global,
    file: &mut R,
    commands: &mut C,
    out: &mut W,
    err: &mut E,
    locals: Locals,
    workers: u32,
) -> u8
    ensures { Steps no_looks workers locals (R.remaining file.old) (record {
      input = record { before = C.remaining commands.old; after = C.remaining commands.new };
      output = record { before = W.contents out.old; after = W.contents out.new };
      errors = record { before = E.contents err.old; after = E.contents err.new };
    }) result }
{
    let board = open_over(alloc, file, locals, workers);
    let options = Options {
        looks: Looks::Refused,
        ends: false,
    };
    session_over(alloc, board, options, commands, out, err)
}

/// Does what `step_over` does, but also answers the lines that look at workers, caches or the graph (`work ..`, `caches`, `cache ..`, `graph`, `digests`). The
/// arguments and the exit status are those of `step_over`.
pub fn look_over<R: Read, C: Read, W: Write, E: Write>(
    alloc: Global,
    file: &mut R,
    commands: &mut C,
    out: &mut W,
    err: &mut E,
    locals: Locals,
    workers: u32,
) -> u8
    ensures { Steps only_looks workers locals (R.remaining file.old) (record {
      input = record { before = C.remaining commands.old; after = C.remaining commands.new };
      output = record { before = W.contents out.old; after = W.contents out.new };
      errors = record { before = E.contents err.old; after = E.contents err.new };
    }) result }
{
    let board = open_over(alloc, file, locals, workers);
    let options = Options {
        looks: Looks::Allowed,
        ends: false,
    };
    session_over(alloc, board, options, commands, out, err)
}
