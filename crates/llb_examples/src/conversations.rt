//! Tests sessions: the bounds on a session's input, and that each line gets its reply before the next line is read. The stepper's board has one worker, and one
//! vertex, which makes a file.

use super::board_definitions::ONE_FILE;
use super::boards_from_texts::board_of;
use super::stories::{LIMIT, READS};
use super::tree_rows::{is_so, row_holds};
use llb_session::{Looks, Options, Session, SessionFault, converse};
use llb_stepper::Stepper;
use std::alloc::Global;
use std::cell::Cell;
use std::io;
use std::io::{ErrorKind, Read, Write};
use std::process::Abort;

// Returns a session without looks.
fn on_one_file(rt: &impl Abort, alloc: Global) -> Session {
    Session {
        stepper: Stepper::new(alloc, board_of(rt, alloc, ONE_FILE, "", 1)),
        options: Options {
            looks: Looks::Refused,
            ends: false,
        },
    }
}

// Runs a session with bounds on the bytes and on the reads of its input. Returns how the session ends, or `None` if the session does not print the text
// `wanted`.
fn ended(
    rt: &impl Abort,
    alloc: Global,
    commands: &str,
    bounds: (usize, u64),
    wanted: &str,
) -> Option<Result<(), SessionFault>> {
    let mut session = on_one_file(rt, alloc);
    let mut lines = commands.as_bytes();
    let mut out: Vec<u8> = Vec::new(alloc);
    let end = converse(
        alloc,
        &mut session,
        &mut lines,
        &mut out,
        bounds.0,
        bounds.1,
    );
    if out.as_slice() == wanted.as_bytes() {
        Some(end)
    } else {
        None
    }
}

const TWICE: &str = "next\nnext\n";

// A bound on the bytes and a bound on the reads of the input; what a session of two lines prints within these bounds; and the number of the fault with which
// the session ends, or 0.
const BOUNDS: &[(usize, u64, &str, u32)] = &[
    (9, 5, "1 claim 0 0 -> file 1\n", 185),
    (5, 5, "1 claim 0 0 -> file 1\n", 185),
    (10, 1, "1 claim 0 0 -> file 1\n2 step 0 -> acted 0\n", 181),
    (10, 2, "1 claim 0 0 -> file 1\n2 step 0 -> acted 0\n", 0),
];

fn number_of(end: Option<Result<(), SessionFault>>) -> Option<u32> {
    match end? {
        Ok(()) => Some(0),
        Err(SessionFault::Failed(_) | SessionFault::Unending(_)) => Some(181),
        Err(SessionFault::Write) => Some(182),
        Err(SessionFault::Memory) => Some(184),
        Err(SessionFault::TooLong) => Some(185),
    }
}

#[test]
fn lines_within_the_bounds_are_answered(rt: HostRuntime) {
    for (at, (limit, reads, wanted, number)) in BOUNDS.iter().enumerate() {
        let end = ended(&rt, rt.alloc(), TWICE, (*limit, *reads), wanted);
        row_holds(&rt, at, number_of(end) == Some(*number));
    }
}

// A reader that returns one byte in each read. A read fails if a line that was already read does not have its reply yet.
#[derive(Drop)]
struct Waits<'a> {
    bytes: &'a [u8],
    ended: u32,
    answered: &'a Cell<u32>,
}

impl Read for Waits<'_> {
    fn read(&mut self, piece: &mut [u8]) -> io::Result<usize> {
        if self.answered.get() < self.ended {
            return Err(ErrorKind::WouldBlock.into());
        }
        match self.bytes.split_first() {
            Some((first, rest)) if !piece.is_empty() => {
                piece[0] = *first;
                self.bytes = rest;
                if *first == b'\n' {
                    self.ended = self.ended.saturating_add(1);
                }
                Ok(1)
            }
            _ => Ok(0),
        }
    }
}

// A writer that counts its flushes. A session flushes once for each reply.
#[derive(Drop)]
struct Counts<'a> {
    text: Vec<u8>,
    answered: &'a Cell<u32>,
}

impl Write for Counts<'_> {
    fn write(&mut self, bytes: &[u8]) -> io::Result<usize> {
        self.text.write(bytes)
    }

    fn flush(&mut self) -> io::Result<()> {
        self.answered.set(self.answered.get().saturating_add(1));
        Ok(())
    }
}

// Returns whether a session prints the text `wanted`, and writes the reply to each line before it reads the next line.
fn is_conversation(alloc: Global, session: &mut Session, commands: &str, wanted: &str) -> bool {
    let answered = Cell::new(0);
    let mut lines = Waits {
        bytes: commands.as_bytes(),
        ended: 0,
        answered: &answered,
    };
    let mut out = Counts {
        text: Vec::new(alloc),
        answered: &answered,
    };
    let end = converse(alloc, session, &mut lines, &mut out, LIMIT, READS);
    end.is_ok() && out.text.as_slice() == wanted.as_bytes()
}

#[test]
fn each_line_is_answered_before_the_next_is_waited_for(rt: HostRuntime) {
    let wanted = "1 claim 0 0 -> file 1\n2 step 0 -> acted 0\nback 1\n";
    let mut session = on_one_file(&rt, rt.alloc());
    let commands = "next\nbreak fail\nnext\nback\n";
    is_so(
        &rt,
        is_conversation(rt.alloc(), &mut session, commands, wanted),
    );
}
