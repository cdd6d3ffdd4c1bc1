//! Makes calls of the program whose devices fail after a number of reads, writes or flushes.
//!
//! A call has the words of the command line, and after ` < ` its input in one of three forms: the names of entries in `definitions`, with `; ` between them;
//! `=` and bytes in hexadecimal; `$` and a text in which each `|` means the end of a line. In a call of `step`, the commands of the session follow after
//! ` | `, separated by `;`. The file `FILE` has the same bytes as the input; the other files are in `definitions`. All devices read and write one byte at a
//! time.

use super::definitions::{ENTRIES, FILES};
use super::devices::{Narrow, Ran, Rooms, Slow};
use llb_asm::assemble;
use llb_commands::{Sources, Streams, program};
use llb_ops::write_definition;
use llb_wire::{Bytes, read_hex};
use std::alloc::Global;
use std::io;
use std::io::ErrorKind;
use std::process::Abort;
use std::sync::Wait;
use std::thread::Threads;

// Returns the lines below the line `== NAME: DESCRIPTION`, where NAME is the wanted name; `None` if there is no such line.
fn block<'a>(text: &'a str, wanted: &str) -> Option<&'a str> {
    for block in text.split("== ") {
        if let Some((head, lines)) = block.split_once('\n') {
            let (name, _) = head.split_once(':').unwrap_or((head, ""));
            if name == wanted {
                return Some(lines);
            }
        }
    }
    None
}

// The files that a call can open: `FILE`, which has the call's definition, and the files of local sources.
#[derive(Clone, Copy)]
struct Shelf<'a> {
    definition: &'a [u8],
    rooms: Rooms,
}

impl<'a> Sources for Shelf<'a> {
    ghost use Rattle.std.specs.Prelude.{None};

    type Input = Slow<'a>;

    ghost bytes = { λ _ _. None };

    fn open(&self, file: &str) -> io::Result<Slow<'a>> {
        if file == "FILE" {
            let (bytes, room) = (self.definition, self.rooms.file);
            return Ok(Slow { bytes, room });
        }
        match block(FILES, file) {
            Some(text) => {
                let (bytes, room) = (text.as_bytes(), self.rooms.local);
                Ok(Slow { bytes, room })
            }
            None => Err(ErrorKind::NotFound.into()),
        }
    }
}

// A call, read from its line in a transcript.
#[derive(Clone, Copy)]
struct Call<'a> {
    words: &'a str,
    entries: &'a str,
    commands: &'a str,
}

fn call_in(line: &str) -> Call<'_> {
    let (words, rest) = line.split_once(" < ").unwrap_or((line, ""));
    let (entries, commands) = if words.starts_with("step ") {
        rest.rsplit_once(" | ").unwrap_or((rest, ""))
    } else {
        (rest, "")
    };
    Call {
        words,
        entries,
        commands,
    }
}

// Returns a text in which each `|` is replaced by a line end.
fn lines_ended(rt: &impl Abort, alloc: Global, text: &str) -> Bytes {
    let mut lines = Vec::new(alloc);
    for byte in text.as_bytes() {
        let byte = if *byte == b'|' { b'\n' } else { *byte };
        lines.push(byte).expect(rt, "memory");
    }
    Bytes::new(lines)
}

/// Returns the input of a call as bytes, from any of its three forms (see the head of this file).
pub(crate) fn definition_of(rt: &impl Abort, alloc: Global, entries: &str) -> Bytes {
    if let Some(digits) = entries.strip_prefix("=") {
        return read_hex(alloc, digits)
            .expect(rt, "memory")
            .expect(rt, "digits");
    }
    if let Some(text) = entries.strip_prefix("$") {
        return lines_ended(rt, alloc, text);
    }
    let mut text = String::new(alloc);
    for entry in entries.split("; ") {
        text.push_str(block(ENTRIES, entry).unwrap_or(""))
            .expect(rt, "memory");
    }
    let entries = assemble(alloc, text.as_bytes()).expect(rt, "entries");
    write_definition(alloc, &entries).expect(rt, "memory")
}

fn lines_of(rt: &impl Abort, alloc: Global, commands: &str) -> String {
    let mut text = String::new(alloc);
    for command in commands.split(';') {
        text.push_str(command.trim()).expect(rt, "memory");
        text.push_str("\n").expect(rt, "memory");
    }
    text
}

// Returns streams whose devices fail after the numbers of reads, writes and flushes in `rooms`. Standard input has the bytes `bytes`.
fn streams_of(alloc: Global, bytes: &[u8], rooms: Rooms) -> Streams<Slow<'_>, Narrow, Narrow> {
    let room = rooms.input;
    let mut out = Narrow::new(alloc, rooms.out);
    out.flushes = rooms.flushes;
    Streams {
        input: Slow { bytes, room },
        out,
        err: Narrow::new(alloc, rooms.err),
    }
}

fn ran<R: Abort + Threads + Wait + Sync>(
    rt: &R,
    alloc: Global,
    call: &Call<'_>,
    rooms: Rooms,
) -> Ran {
    let words: Vec<&str> = call.words.split(' ').collect(alloc).expect(rt, "memory");
    let definition = definition_of(rt, alloc, call.entries);
    let shelf = Shelf {
        definition: definition.as_slice(),
        rooms,
    };
    let commands = lines_of(rt, alloc, call.commands);
    let bytes = if call.commands.is_empty() {
        shelf.definition
    } else {
        commands.as_bytes()
    };
    let mut streams = streams_of(alloc, bytes, rooms);
    let status = program(rt, alloc, words.as_slice(), &shelf, &mut streams);
    let Streams { out, err, .. } = streams;
    Ran {
        status,
        out: out.into_held(),
        err: err.into_held(),
    }
}

/// Returns the result of a call whose devices fail after the numbers of reads, writes and flushes in `rooms`.
pub(crate) fn tried<R: Abort + Threads + Wait + Sync>(
    rt: &R,
    alloc: Global,
    call: &str,
    rooms: Rooms,
) -> Ran {
    ran(rt, alloc, &call_in(call), rooms)
}
