//! What the exported calls do to the value in the handle.

ghost use Rattle.std.specs.Prelude.{◌≡◌, ◌<◌, ◌+◌, ◌^◌, length, []};
ghost use Rattle.llb_embed.specs.BufferCopies.{copied};
ghost use Rattle.llb_embed.specs.HandleCalls.{Added, Opened, Replied, Refused, Ran, Shown, Listed, Planned, Matched};
ghost use Rattle.llb_embed.specs.HandleCalls.{Judged, Assembled, Described, Disassembled};

use crate::handle_value::Held;
use llb_commands::{
    ProgramFault, SourceFault, WordsFault, add_local, asm_over, dis_over, findings_over,
    matches_over, open_over, ops_over, plan_over, refusal, run_over, script_over, show_over,
    source_refusal, words_refusal,
};
use llb_session::{Looks, Options, Session, respond};
use llb_stepper::{Stepper, StepperFault};
use std::alloc::Global;
use std::io::Write;
use std::str::from_utf8;

const DONE: u8 = 0;

const ENDED: u8 = 1;

const NO_SESSION: u8 = 4;

/// Copies as many bytes as fit to the front of a buffer, and returns how many bytes there are in all.
pub(crate) fn copy_out(bytes: &[u8], out: &mut [u8]) -> usize
    ensures copied { out.new ≡ copied bytes.now out.old }
    ensures all { result ≡ length bytes.now }
{
    let whole = bytes.len();
    let n = whole.min(out.len());
    let (front, _) = bytes.split_at(n);
    let (place, _) = out.split_at_mut(n);
    place.copy_from_slice(front);
    whole
}

// Clears the output and the messages of the last call.
fn clear(held: &mut Held)
    ensures rest { held.new ≡ record held.old { output = held.new.output; messages = held.new.messages } }
    ensures output { held.new.output.items ≡ [] }
    ensures messages { held.new.messages.items ≡ [] }
{
    held.output.clear();
    held.messages.clear();
}

/// Adds a local tree, and returns the status; if no tree can be added, writes the reason to the messages.
pub(crate) fn local(alloc: Global, held: &mut Held, name: &[u8], text: &[u8]) -> u8
    ensures { Added name.now text.now held.old held.new result }
{
    clear(held);
    let Ok(name) = from_utf8(name) else {
        return words_refusal(&WordsFault::Words(None), &mut held.messages);
    };
    let mut input = text;
    match add_local(alloc, name, &mut input, &mut held.locals) {
        Ok(()) => DONE,
        Err(fault) => source_refusal(&fault, &mut held.messages),
    }
}

/// Opens a session with looks, in place of the open session if there is one, and returns the status; if no session can be opened,
/// writes the reason to the messages.
pub(crate) fn open(alloc: Global, held: &mut Held, definition: &[u8], workers: u32) -> u8
    ensures { Opened definition.now workers held.old held.new result }
{
    clear(held);
    let Ok(locals) = held.locals.copy() else {
        return source_refusal(&SourceFault::Adding, &mut held.messages);
    };
    let mut input = definition;
    match open_over(alloc, &mut input, locals, workers) {
        Ok(board) => {
            held.session = Some(Session {
                stepper: Stepper::new(alloc, board),
                options: Options {
                    looks: Looks::Allowed,
                    ends: false,
                },
            });
            held.lines = 0;
            DONE
        }
        Err(fault) => refusal(&fault, &mut held.messages),
    }
}

// Puts the line that reports a refusal into the output, counts the line of the session, and returns the status. If memory for the line is refused, writes the
// reason to the messages; then no line is counted.
fn refused(held: &mut Held, fault: &StepperFault) -> u8
    requires output { held.old.output.items ≡ [] }
    requires messages { held.old.messages.items ≡ [] }
    requires few { held.old.lines + 1 < 2 ^ 64 }
    ensures { Refused fault.now held.old held.new result }
{
    if writeln!(held.output, "fault {fault}").is_err() {
        held.output.clear();
        return refusal(&ProgramFault::Memory, &mut held.messages);
    }
    held.lines += 1;
    DONE
}

/// Replies to a line of the open session, and returns the status, which is 4 if no session is open. If memory for the line that reports a refusal is refused,
/// or the session has had 2^64 - 1 lines, writes the reason to the messages.
pub(crate) fn reply(alloc: Global, held: &mut Held, line: &[u8]) -> u8
    ensures { Replied line.now held.old held.new result }
{
    clear(held);
    let Some(session) = &mut held.session else {
        return NO_SESSION;
    };
    if held.lines == u64::MAX {
        return refusal(&ProgramFault::TooLong, &mut held.messages);
    }
    match respond(alloc, session, held.lines + 1, line) {
        Ok(Some(text)) => {
            held.lines += 1;
            held.output = text;
            DONE
        }
        Ok(None) => {
            held.session = None;
            ENDED
        }
        Err(fault) => refused(held, &fault),
    }
}

/// Runs a definition on the local trees with one worker, and writes the text of the result to the output; returns the
/// status of `llbm run`.
pub(crate) fn run(alloc: Global, held: &mut Held, definition: &[u8]) -> u8
    ensures { Ran definition.now held.old held.new result }
{
    clear(held);
    let Ok(locals) = held.locals.copy() else {
        return source_refusal(&SourceFault::Adding, &mut held.messages);
    };
    let mut input = definition;
    run_over(
        alloc,
        &mut input,
        &mut held.output,
        &mut held.messages,
        locals,
    )
}

/// Writes the text of a definition's graph to the output, and returns the status of `llbm show`.
pub(crate) fn show(alloc: Global, held: &mut Held, definition: &[u8]) -> u8
    ensures { Shown definition.now held.old held.new result }
{
    clear(held);
    let mut input = definition;
    show_over(alloc, &mut input, &mut held.output, &mut held.messages)
}

/// Writes a line for each fault of a definition to the output, and returns the status of `llbm show --findings`.
pub(crate) fn list(alloc: Global, held: &mut Held, definition: &[u8]) -> u8
    ensures { Listed definition.now held.old held.new result }
{
    clear(held);
    let mut input = definition;
    findings_over(alloc, &mut input, &mut held.output, &mut held.messages)
}

/// Writes for each vertex of a definition whether what it reads goes by value to the output, and returns the status of `llbm show --plan`.
pub(crate) fn plan(alloc: Global, held: &mut Held, definition: &[u8]) -> u8
    ensures { Planned definition.now held.old held.new result }
{
    clear(held);
    let mut input = definition;
    plan_over(alloc, &mut input, &mut held.output, &mut held.messages)
}

/// Writes for each vertex of a definition which vertex of an older definition it matches to the output, and returns the status of `llbm show --matches`.
pub(crate) fn match_old(alloc: Global, held: &mut Held, old: &[u8], definition: &[u8]) -> u8
    ensures { Matched old.now definition.now held.old held.new result }
{
    clear(held);
    let mut input = definition;
    matches_over(alloc, old, &mut input, &mut held.output, &mut held.messages)
}

/// Writes the line of the fault of a text as a script to the output, and returns the status: 0 if the text is a script, and 2 if it is not.
pub(crate) fn script(alloc: Global, held: &mut Held, text: &[u8]) -> u8
    ensures { Judged text.now held.old held.new result }
{
    clear(held);
    let Ok(text) = from_utf8(text) else {
        return words_refusal(&WordsFault::Words(None), &mut held.messages);
    };
    script_over(alloc, text, &mut held.output, &mut held.messages)
}

/// Assembles a text, and writes the definition to the output; returns the status of `llbm asm`.
pub(crate) fn assemble(alloc: Global, held: &mut Held, text: &[u8]) -> u8
    ensures { Assembled text.now held.old held.new result }
{
    clear(held);
    let mut input = text;
    asm_over(alloc, &mut input, &mut held.output, &mut held.messages)
}

/// Disassembles a definition, and writes the text to the output; returns the status of `llbm dis`.
pub(crate) fn disassemble(alloc: Global, held: &mut Held, definition: &[u8]) -> u8
    ensures { Disassembled definition.now held.old held.new result }
{
    clear(held);
    let mut input = definition;
    dis_over(alloc, &mut input, &mut held.output, &mut held.messages)
}

/// Writes the ops of a definition's entries to the output, and returns the status of `llbm show --ops`.
pub(crate) fn describe(alloc: Global, held: &mut Held, definition: &[u8]) -> u8
    ensures { Described definition.now held.old held.new result }
{
    clear(held);
    let mut input = definition;
    ops_over(alloc, &mut input, &mut held.output, &mut held.messages)
}
