//! A session as a conversation: each line gets its reply, and the reply is flushed, before the next bytes are waited for.

ghost use Rattle.std.specs.Prelude.{◌≡◌, ◌≤◌, ◌<◌, ◌+◌, ◌∷◌, ◌^◌, [], length};
ghost use Rattle.llb_session.specs.Conversation.{IsLine, Converses};
ghost use Rattle.llb_session.specs.ConversationStates.{standing, IsSaid, IsLast, Hears};

use crate::answering::answer;
use crate::fault::SessionFault;
use crate::session::Session;
use std::alloc::Global;
use std::io::{ErrorKind, Read, Write};

const PIECE: usize = 4096;

const LINE_END: u8 = b'\n';

// How many lines got a reply, and the bytes of the next line so far.
#[derive(Drop)]
struct Pending {
    answered: u64,
    line: Vec<u8>,
}

// Replies to the line that was read, and flushes the reply. Returns false if the line ends the session.
fn say<W: Write>(
    alloc: Global,
    session: &mut Session,
    pending: &Pending,
    out: &mut W,
) -> Result<bool, SessionFault>
    requires { pending.now.answered + 1 < 2 ^ 64 }
    ensures { IsSaid (standing session.old pending.now) session.new (record { before = W.contents out.old; after = W.contents out.new }) result }
{
    let number = pending.answered + 1;
    match answer(alloc, session, number, pending.line.as_slice(), out) {
        Err(_) => Err(SessionFault::Write),
        Ok(false) => Ok(false),
        Ok(true) => match out.flush() {
            Err(_) => Err(SessionFault::Write),
            Ok(()) => Ok(true),
        },
    }
}

// Takes in one more byte of the commands: adds it to the line that is being read or, if it ends this line, writes the reply to the line. Returns false if the
// line ends the session.
fn hear<W: Write>(
    alloc: Global,
    session: &mut Session,
    pending: &mut Pending,
    byte: u8,
    out: &mut W,
) -> Result<bool, SessionFault>
    requires line { IsLine pending.old.line.items }
    requires counts { pending.old.answered + 1 < 2 ^ 64 }
    ensures { Hears (standing session.old pending.old) (byte ∷ []) (standing session.new pending.new)
        (record { before = W.contents out.old; after = W.contents out.new }) result }
{
    if byte != LINE_END {
        return match pending.line.push(byte) {
            Err(_) => Err(SessionFault::Memory),
            Ok(()) => Ok(true),
        };
    }
    let goes_on = say(alloc, session, pending, out)?;
    pending.answered += 1;
    pending.line.clear();
    Ok(goes_on)
}

// Uses bytes one by one as input of the session, which replies to each line at the line's end. Stops after the first line that ends the session, and then
// returns false; returns true if there is no such line.
fn hear_all<W: Write>(
    alloc: Global,
    session: &mut Session,
    pending: &mut Pending,
    bytes: &[u8],
    out: &mut W,
) -> Result<bool, SessionFault>
    requires line { IsLine pending.old.line.items }
    requires counts { pending.old.answered + (length pending.old.line.items + length bytes.now) < 2 ^ 64 }
    ensures { Hears (standing session.old pending.old) bytes.now (standing session.new pending.new)
        (record { before = W.contents out.old; after = W.contents out.new }) result }
{
    for byte in bytes {
        if !hear(alloc, session, pending, *byte, out)? {
            return Ok(false);
        }
    }
    Ok(true)
}

// Ends a conversation at the end of the input: if bytes follow the last line end, replies to them as to a line.
fn conclude<W: Write>(
    alloc: Global,
    session: &mut Session,
    pending: &Pending,
    out: &mut W,
) -> Result<(), SessionFault>
    requires { pending.now.answered + length pending.now.line.items < 2 ^ 64 }
    ensures { IsLast (standing session.old pending.now) session.new (record { before = W.contents out.old; after = W.contents out.new }) result }
{
    if pending.line.as_slice().is_empty() {
        return Ok(());
    }
    say(alloc, session, pending, out)?;
    Ok(())
}

/// Replies to the lines that are read from `commands` and numbered from 1, each as soon as its line end is read, and flushes each reply
/// before it reads more. A last line without a line end counts, unless it is empty. A line `quit` ends the session. At most `limit` bytes are
/// used, and at most `reads` reads are made; an interrupted read is done again, and counts as a read.
pub fn converse<R: Read, W: Write>(
    alloc: Global,
    session: &mut Session,
    commands: &mut R,
    out: &mut W,
    limit: usize,
    reads: u64,
) -> Result<(), SessionFault>
    ensures { Converses (record {
      limit = limit;
      reads = reads;
      before = session.old;
      after = session.new;
      commands = record { before = R.remaining commands.old; after = R.remaining commands.new };
      replies = record { before = W.contents out.old; after = W.contents out.new };
    }) result }
{
    let mut pending = Pending {
        answered: 0,
        line: Vec::new(alloc),
    };
    let mut buffer = [0; PIECE];
    let mut room = limit;
    let mut interrupted = 0;
    for _i in 0..reads {
        match commands.read(&mut buffer) {
            Ok(0) => return conclude(alloc, session, &pending, out),
            Ok(n) => {
                let (piece, _) = buffer.split_at(n);
                let (heard, over) = piece.split_at(n.min(room));
                if !hear_all(alloc, session, &mut pending, heard, out)? {
                    return Ok(());
                }
                if !over.is_empty() {
                    return Err(SessionFault::TooLong);
                }
                room -= n;
            }
            Err(error) => {
                let kind = error.kind();
                if kind != ErrorKind::Interrupted {
                    return Err(SessionFault::Failed(kind));
                }
                interrupted += 1;
            }
        }
    }
    Err(SessionFault::Unending(interrupted))
}
