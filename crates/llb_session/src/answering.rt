//! Replies to a line of a session: does on the stepper what the line asks for, and returns the reply as a text.

ghost use Rattle.std.specs.Prelude.{◌≡◌, ◌++◌, ◌-◌, length, IfOk, IfErr, string_bytes};
ghost use Rattle.llb_session.specs.declared.request.Request.TheVariants as ask;
ghost use Rattle.llb_session.specs.LineReplies.{IsPerformed, Responds, IsReplyWritten, IsTextWritten, Says, end_line, look_lines, stop_line};
ghost use Rattle.llb_session.specs.PrintedTexts.{fault_line, record_lines};
ghost use Rattle.llb_stepper.specs.declared.fault.StepperFault.TheVariants as refusal;

use crate::graph_text::{digests_text, graph_text};
use crate::printed_texts::{
    back_line, caches_text, line_text, record_text, status_text, tree_text, work_text,
};
use crate::reasons::why_text;
use crate::refusal::write_refusal;
use crate::request::{Look, Request, request_in};
use crate::session::Session;
use llb_board::Event;
use llb_stepper::{Break, Stepper, StepperFault, chosen_is_done};
use llb_wire::{Failed, Over, write_all};
use std::alloc::{AllocError, Global};
use std::io::Write;

// Adds a breakpoint.
fn break_at(alloc: Global, stepper: &mut Stepper, stop: Break) -> Result<Vec<u8>, StepperFault>
    ensures { IsPerformed (ask.Break stop) stepper.old stepper.new result }
{
    stepper.break_at(stop)?;
    Ok(Vec::new(alloc))
}

// Does one event, and returns its line; if memory for the line is refused, takes the event back.
fn do_event(alloc: Global, stepper: &mut Stepper, event: Event) -> Result<Vec<u8>, StepperFault>
    ensures { IsPerformed (ask.Event event) stepper.old stepper.new result }
{
    stepper.do_event(event)?;
    let number = stepper.board().events().len() as u64;
    match line_text(alloc, stepper, number) {
        Ok(text) => Ok(text.into_bytes()),
        Err(fault) => {
            let _ = stepper.back();
            Err(fault)
        }
    }
}

// Does the chosen event (`Stepper::next`) and returns its line; returns the line `end` if there is no chosen event.
fn do_next(alloc: Global, stepper: &mut Stepper) -> Result<Vec<u8>, StepperFault>
    ensures { IsPerformed ask.Next stepper.old stepper.new result }
{
    let Some(event) = stepper.next() else {
        return Ok(bytes_of(alloc, "end\n")?);
    };
    chosen_is_done(stepper);
    do_event(alloc, stepper, event)
}

// Returns the bytes of a text.
fn bytes_of(alloc: Global, text: &str) -> Result<Vec<u8>, AllocError>
    ensures { IfOk result (λ v. v.items ≡ text.now) }
{
    let mut bytes = Vec::new(alloc);
    bytes.extend_from_slice(text.as_bytes())?;
    Ok(bytes)
}

// Returns what a `go` prints: the lines of the record after its first `from` events, and then the line `stop` or `end`, which says how the `go` ended.
fn go_text(
    alloc: Global,
    stepper: &Stepper,
    from: u64,
    at_break: bool,
) -> Result<String, StepperFault>
    ensures lines { IfOk result (λ s. string_bytes s ≡ record_lines stepper.now from (length stepper.now.board.events - from) ++ stop_line at_break) }
    ensures memory { IfErr result (λ e. e ≡ refusal.Memory) }
{
    let to = stepper.board().events().len() as u64;
    let mut text = record_text(alloc, stepper, from, to)?;
    text.push_str(if at_break { "stop\n" } else { "end\n" })?;
    Ok(text)
}

// Does events up to a stop, each of which `Stepper::next` returns (`Stepper::go` does them), and returns their lines; if memory for the lines is refused, takes
// the events back.
fn go(alloc: Global, stepper: &mut Stepper) -> Result<Vec<u8>, StepperFault>
    ensures { IsPerformed ask.Go stepper.old stepper.new result }
{
    let from = stepper.board().events().len() as u64;
    let stop = stepper.go()?;
    match go_text(alloc, stepper, from, stop.at_break) {
        Ok(text) => Ok(text.into_bytes()),
        Err(fault) => {
            stepper.back_many(stop.events as usize);
            Err(fault)
        }
    }
}

// Takes the last event back, and returns the line `back N`, where N is how many events the record still has. If there is nothing to take back, no memory is
// asked for; if memory for the line is refused, the event is not taken back.
fn back(alloc: Global, stepper: &mut Stepper) -> Result<Vec<u8>, StepperFault>
    ensures { IsPerformed ask.Back stepper.old stepper.new result }
{
    if stepper.depth() == 0 {
        return Err(StepperFault::NothingBefore);
    }
    let left = stepper.board().events().len().saturating_sub(1);
    let text = back_line(alloc, left)?;
    stepper.back()?;
    Ok(text.into_bytes())
}

// Returns a line with the status of each vertex.
fn status(alloc: Global, stepper: &mut Stepper) -> Result<Vec<u8>, StepperFault>
    ensures { IsPerformed ask.Status stepper.old stepper.new result }
{
    Ok(status_text(alloc, stepper.board())?.into_bytes())
}

// Returns the text of output `i` of vertex `v`, or the line `none` if there is no such tree.
fn tree(alloc: Global, stepper: &mut Stepper, v: u32, i: u32) -> Result<Vec<u8>, StepperFault>
    ensures { IsPerformed (ask.Tree v i) stepper.old stepper.new result }
{
    tree_text(alloc, stepper.board().output(v, i))
}

// Returns what a look shows: a line for each tree that a worker works on, for each key of the caches or for each vertex, or the text of one tree (`none` if
// there is no such).
fn look_text(alloc: Global, stepper: &Stepper, look: Look) -> Result<Vec<u8>, StepperFault>
    ensures lines { IfOk result (λ v. v.items ≡ look_lines look stepper.now) }
    ensures memory { IfErr result (λ e. e ≡ refusal.Memory) }
{
    let board = stepper.board();
    match look {
        Look::Work(w) => Ok(work_text(alloc, board.workspace(w))?.into_bytes()),
        Look::WorkTree(w, i) => tree_text(alloc, board.worked_on(w, i)),
        Look::Caches => Ok(caches_text(alloc, board)?.into_bytes()),
        Look::Cache(k, i) => tree_text(alloc, board.cached(k, i)),
        Look::Why(w, k) => Ok(why_text(alloc, board, w, k)?.into_bytes()),
        Look::Graph => Ok(graph_text(alloc, board.graph())?.into_bytes()),
        Look::Digests => Ok(digests_text(alloc, board.graph())?.into_bytes()),
    }
}

// Does what a request asks for, and returns the text that the request prints; `clear` and `quit` never fail.
fn perform(alloc: Global, stepper: &mut Stepper, request: Request) -> Result<Vec<u8>, StepperFault>
    ensures { IsPerformed request stepper.old stepper.new result }
{
    match request {
        Request::Break(stop) => break_at(alloc, stepper, stop),
        Request::Clear => {
            stepper.clear();
            Ok(Vec::new(alloc))
        }
        Request::Event(event) => do_event(alloc, stepper, event),
        Request::Next => do_next(alloc, stepper),
        Request::Go => go(alloc, stepper),
        Request::Back => back(alloc, stepper),
        Request::Status => status(alloc, stepper),
        Request::Tree(v, i) => tree(alloc, stepper, v, i),
        Request::Look(look) => look_text(alloc, stepper, look),
        Request::Quit => Ok(Vec::new(alloc)),
    }
}

/// Does on the session's stepper what line `number` of the session (counted from 1) asks for, and returns the text that this prints, empty if it prints
/// nothing. Returns `None` if the line ends the session. Fails with 173 and the number if the line is no request, with 171 or 172 if the request is refused,
/// and with 174 or 171 141 if memory is refused; then nothing is changed. Want of memory is reported only if the line is granted, or in place of 171 135 if
/// memory for a copy of the held key is refused; neither `clear` nor a line that ends the session fails.
pub fn respond(
    alloc: Global,
    session: &mut Session,
    number: u64,
    line: &[u8],
) -> Result<Option<Vec<u8>>, StepperFault>
    ensures { Responds session.old number line.now session.new result }
{
    let Some(request) = request_in(session.options.looks, line) else {
        return Err(StepperFault::BadCommand(number));
    };
    if request == Request::Quit {
        return Ok(None);
    }
    match perform(alloc, &mut session.stepper, request) {
        Ok(text) => Ok(Some(text)),
        Err(fault) => Err(fault),
    }
}

// Writes the empty line that ends a reply, if replies are ended so, and returns true, which means that the session goes on.
fn end_reply<W: Write>(ends: bool, out: &mut W) -> Result<bool, Failed>
    ensures { IsReplyWritten (end_line ends) (record { before = W.contents out.old; after = W.contents out.new }) result }
{
    if ends {
        write_all(&mut Over::new(out), b"\n")?;
    }
    Ok(true)
}

// Writes a text.
fn write_text<W: Write>(text: &[u8], out: &mut W) -> Result<(), Failed>
    ensures { IsTextWritten text.now (record { before = W.contents out.old; after = W.contents out.new }) result }
{
    write_all(&mut Over::new(out), text)?;
    Ok(())
}

// Writes the line of a refusal. Does not allocate.
fn write_fault<W: Write>(fault: &StepperFault, out: &mut W) -> Result<(), Failed>
    ensures { IsTextWritten (fault_line fault.now) (record { before = W.contents out.old; after = W.contents out.new }) result }
{
    write_refusal(fault, &mut Over::new(out))?;
    Ok(())
}

// Writes a text and the line that ends it, and returns true, which means that the session goes on.
fn reply<W: Write>(text: &[u8], ends: bool, out: &mut W) -> Result<bool, Failed>
    ensures { IsReplyWritten (text.now ++ end_line ends) (record { before = W.contents out.old; after = W.contents out.new }) result }
{
    match write_text(text, out) {
        Ok(()) => end_reply(ends, out),
        Err(fault) => Err(fault),
    }
}

// Writes the line of a refusal and the line that ends it, and returns true, which means that the session goes on. Does not allocate.
fn refuse<W: Write>(fault: &StepperFault, ends: bool, out: &mut W) -> Result<bool, Failed>
    ensures { IsReplyWritten (fault_line fault.now ++ end_line ends) (record { before = W.contents out.old; after = W.contents out.new }) result }
{
    match write_fault(fault, out) {
        Ok(()) => end_reply(ends, out),
        Err(fault) => Err(fault),
    }
}

/// Does what a line asks for as `respond` does, and writes the text to `out`; if the line is refused, writes `fault` and the refusal, which does not allocate.
/// If the session's options say so, an empty line follows. Returns false if the line ends the session; nothing is written then. Fails with `Failed` if the
/// writer failed, and a prefix of the reply is written.
pub fn answer<W: Write>(
    alloc: Global,
    session: &mut Session,
    number: u64,
    line: &[u8],
    out: &mut W,
) -> Result<bool, Failed>
    ensures { Says session.old number line.now session.new (record { before = W.contents out.old; after = W.contents out.new }) result }
{
    let ends = session.options.ends;
    match respond(alloc, session, number, line) {
        Ok(Some(text)) => reply(text.as_slice(), ends, out),
        Ok(None) => Ok(false),
        Err(fault) => refuse(&fault, ends, out),
    }
}
