//! Does the command that a command line asks for, on the program's streams and the local trees. `program` also reads the words and the local sources.

ghost use Rattle.std.specs.Prelude.{◌≡◌, map, IfOk, IfErr, IfSome};
ghost use Rattle.llb_commands.specs.Commands.{AgreesWith, IsProgram, MatchesWith, Performs, ShowsAs};
ghost use Rattle.llb_commands.specs.MatchText.{IsOverLimit};
ghost use Rattle.llb_commands.specs.Running.{Opens, TellsRefusal};

use crate::agreement_text::agreements_over;
use crate::assembling::asm_over;
use crate::board_opening::open_over;
use crate::command_line::line_or_page;
use crate::command_line_words::{Command, Line, Shows, WordsFault, tell_refusal, words_refusal};
use crate::disassembling::{dis_over, ops_over};
use crate::fault::{ProgramFault, refusal};
use crate::finding_lines::findings_over;
use crate::match_text::{definition_in, matches_over};
use crate::plan_text::plan_over;
use crate::run::run_many_over;
use crate::show::show_over;
use crate::sources::{Sources, locals_of, source_refusal, tree_in};
use crate::stepping::session_over;
use llb_board::Board;
use llb_loader::Locals;
use llb_session::Options;
use std::alloc::Global;
use std::convert::AsStr;
use std::io::{Read, Write};
use std::sync::Wait;
use std::thread::Threads;

/// What the program reads from, what it writes its output to, and what it writes the lines of faults and failures to.
#[derive(Drop)]
pub struct Streams<R, W, E> {
    pub input: R,
    pub out: W,
    pub err: E,
}

// Reads the definition in a file to its end, closes the file, and opens a board on the definition's graph. Fails with 181 if the file can't be opened.
fn board_of<S: Sources>(
    alloc: Global,
    sources: &S,
    file: &str,
    locals: Locals,
    workers: u32,
) -> Result<Board, ProgramFault>
    ensures { Opens workers locals (S.bytes sources.now file.now) result }
{
    match sources.open(file) {
        Ok(mut definition) => open_over(alloc, &mut definition, locals, workers),
        Err(_) => Err(ProgramFault::Read),
    }
}

// Reads the definition in a file to its end, and closes the file. Fails with 181 if the file can't be opened.
fn old_in<S: Sources>(alloc: Global, sources: &S, file: &str) -> Result<Vec<u8>, ProgramFault>
    ensures read { IfOk result (λ b. IfSome (S.bytes sources.now file.now) (λ xs. b.items ≡ xs)) }
    ensures refused { IfErr result (TellsRefusal IsOverLimit (S.bytes sources.now file.now)) }
{
    match sources.open(file) {
        Ok(mut definition) => definition_in(alloc, &mut definition),
        Err(_) => Err(ProgramFault::Read),
    }
}

// Prints what the vertices of a definition match in the older definition in a file.
fn match_by<S: Sources, R: Read, W: Write, E: Write>(
    alloc: Global,
    file: &str,
    sources: &S,
    input: &mut R,
    out: &mut W,
    err: &mut E,
) -> u8
    ensures { MatchesWith (S.bytes sources.now file.now) (record {
      input = record { before = R.remaining input.old; after = R.remaining input.new };
      output = record { before = W.contents out.old; after = W.contents out.new };
      errors = record { before = E.contents err.old; after = E.contents err.new };
    }) result }
{
    match old_in(alloc, sources, file) {
        Ok(old) => matches_over(alloc, old.as_slice(), input, out, err),
        Err(fault) => refusal(&fault, err),
    }
}

// Prints which vertices of a definition read the same of these trees and of the tree in a file.
fn agree_by<S: Sources, R: Read, W: Write, E: Write>(
    alloc: Global,
    file: &str,
    locals: &Locals,
    sources: &S,
    input: &mut R,
    out: &mut W,
    err: &mut E,
) -> u8
    ensures { AgreesWith (S.bytes sources.now file.now) locals.now (record {
      input = record { before = R.remaining input.old; after = R.remaining input.new };
      output = record { before = W.contents out.old; after = W.contents out.new };
      errors = record { before = E.contents err.old; after = E.contents err.new };
    }) result }
{
    match tree_in(alloc, sources, file) {
        Ok(newer) => agreements_over(alloc, locals, &newer, input, out, err),
        Err(fault) => source_refusal(&fault, err),
    }
}

// Prints what the words of `show` ask for. If they ask for several things, the program writes `fault 183` and the status is 2.
fn show_by<S: Sources, R: Read, W: Write, E: Write>(
    alloc: Global,
    line: &Line<'_>,
    locals: &Locals,
    sources: &S,
    input: &mut R,
    out: &mut W,
    err: &mut E,
) -> u8
    ensures { ShowsAs (S.bytes sources.now) line.now.shows line.now.file locals.now (record {
      input = record { before = R.remaining input.old; after = R.remaining input.new };
      output = record { before = W.contents out.old; after = W.contents out.new };
      errors = record { before = E.contents err.old; after = E.contents err.new };
    }) result }
{
    match (line.shows, line.file) {
        (Shows::Graph, _) => show_over(alloc, input, out, err),
        (Shows::Findings, _) => findings_over(alloc, input, out, err),
        (Shows::Plan, _) => plan_over(alloc, input, out, err),
        (Shows::Ops, _) => ops_over(alloc, input, out, err),
        (Shows::Matches, Some(file)) => match_by(alloc, file, sources, input, out, err),
        (Shows::Agrees, Some(file)) => agree_by(alloc, file, locals, sources, input, out, err),
        _ => words_refusal(&WordsFault::Words(None), err),
    }
}

// Does the command that a command line (`line`) asks for, on the trees of its local sources, and returns the status of the command. For `step` the definition
// is first read, to its end, from the file that the command line names; then the commands of the session are read. If the command line names no file, the
// program writes `fault 183` and the status is 2; if the file can't be opened, it writes `fault 181` and the status is 3. The call may wait for threads if the
// command is `run` with more than one worker.
fn perform<T: Threads + Wait + Sync, S: Sources, R: Read, W: Write, E: Write>(
    rt: &T,
    alloc: Global,
    line: &Line<'_>,
    sources: &S,
    streams: &mut Streams<R, W, E>,
    locals: Locals,
) -> u8
    ensures { Performs (S.bytes sources.now) line.now locals (record {
      input = record { before = R.remaining streams.old.input; after = R.remaining streams.new.input };
      output = record { before = W.contents streams.old.out; after = W.contents streams.new.out };
      errors = record { before = E.contents streams.old.err; after = E.contents streams.new.err };
    }) result }
{
    let Streams { input, out, err } = streams;
    match line.command {
        Command::Run => run_many_over(rt, alloc, input, out, err, locals, line.workers),
        Command::Show => show_by(alloc, line, &locals, sources, input, out, err),
        Command::Step => {
            let Some(file) = line.file else {
                return words_refusal(&WordsFault::Words(None), err);
            };
            let board = board_of(alloc, sources, file, locals, line.workers);
            let options = Options {
                looks: line.looks,
                ends: line.ends,
            };
            session_over(alloc, board, options, input, out, err)
        }
        Command::Assemble => asm_over(alloc, input, out, err),
        Command::Disassemble => dis_over(alloc, input, out, err),
    }
}

/// Runs the program: does what the words after its name ask for, and returns the exit status. If the words are refused, the program writes a line (183, 184)
/// and ends; if they ask for help or for the version, it writes the page that they ask for below this line. If a local source has no tree, it writes a line for
/// the first such source (31 to 34, 92, 181, 184, 185) and ends. Otherwise it does the command on the trees of the local sources, and the status is the
/// command's. The call may wait for threads if the command is `run` with more than one worker.
pub fn program<T: Threads + Wait + Sync, A: AsStr, S: Sources, R: Read, W: Write, E: Write>(
    rt: &T,
    alloc: Global,
    words: &[A],
    sources: &S,
    streams: &mut Streams<R, W, E>,
) -> u8
    ensures { IsProgram (S.bytes sources.now) (map A.text words.now) (record {
      input = record { before = R.remaining streams.old.input; after = R.remaining streams.new.input };
      output = record { before = W.contents streams.old.out; after = W.contents streams.new.out };
      errors = record { before = E.contents streams.old.err; after = E.contents streams.new.err };
    }) result }
{
    let line = match line_or_page(alloc, words) {
        Ok(line) => line,
        Err(refusal) => return tell_refusal(&refusal, &mut streams.err),
    };
    match locals_of(alloc, sources, line.locals.as_slice()) {
        Ok(locals) => perform(rt, alloc, &line, sources, streams, locals),
        Err(fault) => source_refusal(&fault, &mut streams.err),
    }
}
