//! The library for C: a handle holds local trees, a session and what the last call wrote. The contracts of the calls use the definitions of the
//! program's commands. The crate is built on `llb_commands`, and is linked as a static library. bindings/llbm.h says what a caller has to promise.
//!
//! Types: `Llb`, a handle: a struct of zeroes until a call puts a value into it.
//! Promise: each exported call does what the program's command does, on the bytes that the caller passes and the value in the handle (clauses `ran`, `opened`,
//! `replied` and others). The calls that copy the output or the messages copy as many bytes as fit, and return the whole length (`copied`, `all`).
//!
//! A caller:
//!
//!     llb it = {0};
//!     uint8_t status = llb_run(&it, definition, length);
//!     size_t whole = llb_output(&it, room, size);
//!     llb_close(&it);
#![tactic(auto)]

ghost use Rattle.std.specs.Prelude.{◌≡◌, length, None};
ghost use Rattle.llb_embed.specs.BufferCopies.{copied};
ghost use Rattle.llb_embed.specs.Handle.{held_in, messages_in, output_in, Calls, IsSound};
ghost use Rattle.llb_embed.specs.HandleCalls.{Added, Opened, Replied, Ran, Shown, Listed, Planned, Matched, Judged, Assembled, Described, Disassembled};

mod handle;
mod handle_calls;
mod handle_value;
mod kept_pointer;

pub use handle::Llb;
use handle::{put, start, take};
use handle_calls::{
    assemble, copy_out, describe, disassemble, list, local, match_old, open, plan, reply, run,
    script, show,
};
use std::alloc::Global;

/// The status if memory for the value that a handle holds was refused.
const NO_MEMORY: u8 = 3;

/// Reads a text as a tree, and adds the tree as the local tree of a name; a tree that the name had before is replaced. Returns 0 if the tree is added; 2 if the
/// text is refused (31 to 33, 185) or the name is not UTF-8 (183); 3 if memory is refused (34, 92, 184). With 2 or 3 no tree is added, and the messages say why
/// (with 3 they may be cut short anywhere, or be empty).
#[unsafe(no_mangle)]
pub extern "C" fn llb_local(alloc: Global, it: &mut Llb, name: &[u8], text: &[u8]) -> u8
    requires { IsSound it.old }
    ensures sound { IsSound it.new }
    ensures added { Calls (Added name.now text.now) (held_in it.old) (held_in it.new) result }
{
    let Some(mut held) = start(it, alloc) else {
        return NO_MEMORY;
    };
    let status = local(alloc, held.as_mut(), name, text);
    put(it, held);
    status
}

/// Opens a session on a definition, with this number of workers, on the local trees. Returns 0 if the session is open; 2 if the definition is refused (81 to
/// 90), a local source has no tree (121), or the number of workers is not 1 to 64 (122); 3 if memory is refused (91, 92, 123, 184). With 2 or 3 a session that
/// was open before is unchanged, and the messages say why (with 3 they may be cut short anywhere, or be empty).
#[unsafe(no_mangle)]
pub extern "C" fn llb_open(alloc: Global, it: &mut Llb, definition: &[u8], workers: u32) -> u8
    requires { IsSound it.old }
    ensures sound { IsSound it.new }
    ensures opened { Calls (Opened definition.now workers) (held_in it.old) (held_in it.new) result }
{
    let Some(mut held) = start(it, alloc) else {
        return NO_MEMORY;
    };
    let status = open(alloc, held.as_mut(), definition, workers);
    put(it, held);
    status
}

/// Sends a line, without its line end, to the session; the output is the reply. Returns 0 if the session goes on; 1 if the line ends the session, and then no
/// session is open; 4 if no session was open; 3 if memory is refused for the reply that would report a refusal (184); 2 if the session has already got 2^64 - 1
/// lines (185). With 2 or 3 the session is unchanged, and the messages say why (with 3 they may be cut short anywhere, or be empty). If what the
/// line asks for is refused (171 to 174), the status is 0 and the reply reports the refusal.
#[unsafe(no_mangle)]
pub extern "C" fn llb_line(alloc: Global, it: &mut Llb, line: &[u8]) -> u8
    requires { IsSound it.old }
    ensures sound { IsSound it.new }
    ensures replied { Calls (Replied line.now) (held_in it.old) (held_in it.new) result }
{
    let Some(mut held) = start(it, alloc) else {
        return NO_MEMORY;
    };
    let status = reply(alloc, held.as_mut(), line);
    put(it, held);
    status
}

/// Runs a definition on the local trees with one worker; the output is the text of the result. Returns the status of `llbm run`: 0 if the output is the whole
/// text; 1 if a vertex failed, and then the messages have a line for each failed vertex; 2 if the definition is refused, or a local source has no tree; 3 if
/// memory is refused. With 2 or 3 the messages say why (with 3 output and messages may be cut short anywhere, or be empty).
#[unsafe(no_mangle)]
pub extern "C" fn llb_run(alloc: Global, it: &mut Llb, definition: &[u8]) -> u8
    requires { IsSound it.old }
    ensures sound { IsSound it.new }
    ensures ran { Calls (Ran definition.now) (held_in it.old) (held_in it.new) result }
{
    let Some(mut held) = start(it, alloc) else {
        return NO_MEMORY;
    };
    let status = run(alloc, held.as_mut(), definition);
    put(it, held);
    status
}

/// Writes the text of a definition's graph to the output. Returns the status of `llbm show`: 0, 2 or 3.
#[unsafe(no_mangle)]
pub extern "C" fn llb_show(alloc: Global, it: &mut Llb, definition: &[u8]) -> u8
    requires { IsSound it.old }
    ensures sound { IsSound it.new }
    ensures shown { Calls (Shown definition.now) (held_in it.old) (held_in it.new) result }
{
    let Some(mut held) = start(it, alloc) else {
        return NO_MEMORY;
    };
    let status = show(alloc, held.as_mut(), definition);
    put(it, held);
    status
}

/// Writes a line to the output for each fault of a definition, whatever other faults there are. Returns the status of `llbm show --findings`: 0 if there is
/// none; 2 if there is any, and then the messages are empty; 3 if memory is refused (91, 184).
#[unsafe(no_mangle)]
pub extern "C" fn llb_findings(alloc: Global, it: &mut Llb, definition: &[u8]) -> u8
    requires { IsSound it.old }
    ensures sound { IsSound it.new }
    ensures listed { Calls (Listed definition.now) (held_in it.old) (held_in it.new) result }
{
    let Some(mut held) = start(it, alloc) else {
        return NO_MEMORY;
    };
    let status = list(alloc, held.as_mut(), definition);
    put(it, held);
    status
}

/// Writes a line to the output for each vertex of a definition: whether what it reads goes by value. Returns the status of `llbm show --plan`: 0, 2 or 3.
#[unsafe(no_mangle)]
pub extern "C" fn llb_plan(alloc: Global, it: &mut Llb, definition: &[u8]) -> u8
    requires { IsSound it.old }
    ensures sound { IsSound it.new }
    ensures planned { Calls (Planned definition.now) (held_in it.old) (held_in it.new) result }
{
    let Some(mut held) = start(it, alloc) else {
        return NO_MEMORY;
    };
    let status = plan(alloc, held.as_mut(), definition);
    put(it, held);
    status
}

/// Writes a line to the output for each vertex of a definition: which vertex of an older definition it matches. Returns the status of `llbm show --matches`: 0,
/// 2 or 3.
#[unsafe(no_mangle)]
pub extern "C" fn llb_matches(alloc: Global, it: &mut Llb, old: &[u8], definition: &[u8]) -> u8
    requires { IsSound it.old }
    ensures sound { IsSound it.new }
    ensures matched { Calls (Matched old.now definition.now) (held_in it.old) (held_in it.new) result }
{
    let Some(mut held) = start(it, alloc) else {
        return NO_MEMORY;
    };
    let status = match_old(alloc, held.as_mut(), old, definition);
    put(it, held);
    status
}

/// Writes the line of the first fault of a text as a script, as `/bin/sh -c` gets it, to the output. Returns 0 if the text is a script; 2 if it has a fault
/// (71 to 73), or if it is not UTF-8, and then the messages say so (183); 3 if memory is refused (184).
#[unsafe(no_mangle)]
pub extern "C" fn llb_script(alloc: Global, it: &mut Llb, text: &[u8]) -> u8
    requires { IsSound it.old }
    ensures sound { IsSound it.new }
    ensures judged { Calls (Judged text.now) (held_in it.old) (held_in it.new) result }
{
    let Some(mut held) = start(it, alloc) else {
        return NO_MEMORY;
    };
    let status = script(alloc, held.as_mut(), text);
    put(it, held);
    status
}

/// Assembles a text: the output is the definition of its entries. Returns the status of `llbm asm`: 0, 2 or 3.
#[unsafe(no_mangle)]
pub extern "C" fn llb_asm(alloc: Global, it: &mut Llb, text: &[u8]) -> u8
    requires { IsSound it.old }
    ensures sound { IsSound it.new }
    ensures assembled { Calls (Assembled text.now) (held_in it.old) (held_in it.new) result }
{
    let Some(mut held) = start(it, alloc) else {
        return NO_MEMORY;
    };
    let status = assemble(alloc, held.as_mut(), text);
    put(it, held);
    status
}

/// Writes the ops of a definition's entries to the output: each that can be read, however it is encoded, in the words of `llb_dis`, and any other as raw bytes.
/// Returns the status of `llbm show --ops`: 0, 2 or 3.
#[unsafe(no_mangle)]
pub extern "C" fn llb_ops(alloc: Global, it: &mut Llb, definition: &[u8]) -> u8
    requires { IsSound it.old }
    ensures sound { IsSound it.new }
    ensures described { Calls (Described definition.now) (held_in it.old) (held_in it.new) result }
{
    let Some(mut held) = start(it, alloc) else {
        return NO_MEMORY;
    };
    let status = describe(alloc, held.as_mut(), definition);
    put(it, held);
    status
}

/// Disassembles a definition: the output is the text of its entries. Returns the status of `llbm dis`: 0, 2 or 3.
#[unsafe(no_mangle)]
pub extern "C" fn llb_dis(alloc: Global, it: &mut Llb, definition: &[u8]) -> u8
    requires { IsSound it.old }
    ensures sound { IsSound it.new }
    ensures disassembled { Calls (Disassembled definition.now) (held_in it.old) (held_in it.new) result }
{
    let Some(mut held) = start(it, alloc) else {
        return NO_MEMORY;
    };
    let status = disassemble(alloc, held.as_mut(), definition);
    put(it, held);
    status
}

/// Copies the last call's output to the front of a buffer, or as many of its first bytes as the buffer has room for. Returns the length of the whole output.
#[unsafe(no_mangle)]
pub extern "C" fn llb_output(alloc: Global, it: &mut Llb, out: &mut [u8]) -> usize
    requires { IsSound it.old }
    ensures sound { IsSound it.new }
    ensures same { held_in it.new ≡ held_in it.old }
    ensures copied { out.new ≡ copied (output_in (held_in it.old)) out.old }
    ensures all { result ≡ length (output_in (held_in it.old)) }
{
    match take(it, alloc) {
        None => 0,
        Some(held) => {
            let n = copy_out(held.as_ref().output.as_slice(), out);
            put(it, held);
            n
        }
    }
}

/// Copies as much of the last call's messages as fits to the front of a buffer, and returns the length of all messages.
#[unsafe(no_mangle)]
pub extern "C" fn llb_messages(alloc: Global, it: &mut Llb, out: &mut [u8]) -> usize
    requires { IsSound it.old }
    ensures sound { IsSound it.new }
    ensures same { held_in it.new ≡ held_in it.old }
    ensures copied { out.new ≡ copied (messages_in (held_in it.old)) out.old }
    ensures all { result ≡ length (messages_in (held_in it.old)) }
{
    match take(it, alloc) {
        None => 0,
        Some(held) => {
            let n = copy_out(held.as_ref().messages.as_slice(), out);
            put(it, held);
            n
        }
    }
}

/// Frees what the handle holds. The handle may be used again, and closed again.
#[unsafe(no_mangle)]
pub extern "C" fn llb_close(alloc: Global, it: &mut Llb)
    requires { IsSound it.old }
    ensures sound { IsSound it.new }
    ensures none { held_in it.new ≡ None }
{
    let _held = take(it, alloc);
}
