//! Reads the first line of an entry. Makes the entry of an op when the op's closing line has been read.

ghost use Rattle.std.specs.Prelude.{◌≡◌, IfOk};
ghost use Rattle.llb_asm.specs.EntryLine.{parted};
ghost use Rattle.llb_ops.specs.Messages.{op_of};
ghost use Rattle.llb_ops.specs.Writing.{op_bytes};
ghost use Rattle.llb_asm.specs.TextGrammar.{begun_by, begun_in, canonical_of, entry_in};

use crate::complete_entries::Earlier;
use crate::fault::Rule;
use crate::line::{Refusal, parted};
use crate::values::bytes_spelled;
use llb_ops::{Op, OpFault, read_op, write_op};
use llb_wire::{Bytes, Memory};
use std::alloc::Global;

/// What the first line of an entry begins.
#[derive(Drop)]
pub enum Begun {
    /// A raw entry, with its bytes (`raw HEX`).
    Raw(Bytes),
    /// An op, whose fields follow (`op {`).
    Structured,
}

/// Returns what a line begins, a raw entry or an op, or why the line is refused; does not check the limits.
fn begun_by(alloc: Global, line: &[u8]) -> Result<Result<Begun, Refusal>, Memory>
    ensures { IfOk result (λ r. r ≡ begun_by line.now (parted line.now)) }
{
    let Some((name, text)) = parted(line) else {
        return Ok(Err(Refusal::Breaks(Rule::Syntax)));
    };
    if line == b"op {".as_slice() {
        return Ok(Ok(Begun::Structured));
    }
    if name != b"raw".as_slice() {
        return Ok(Err(Refusal::Breaks(Rule::Syntax)));
    }
    match bytes_spelled(alloc, text)? {
        None => Ok(Err(Refusal::Breaks(Rule::BadValue))),
        Some(bytes) => Ok(Ok(Begun::Raw(bytes))),
    }
}

/// Returns what a line begins, or why the line is refused: the line begins no entry, or a limit would be exceeded.
#[tactic(auto, unfolding(crate::specs::TextGrammar::begun_in))]
pub(crate) fn begun_in(
    alloc: Global,
    earlier: &Earlier,
    line: &[u8],
) -> Result<Result<Begun, Refusal>, Memory>
    ensures { IfOk result (λ r. r ≡ begun_in earlier.now line.now) }
{
    match begun_by(alloc, line)? {
        Err(refusal) => Ok(Err(refusal)),
        Ok(begun) => {
            let size = match &begun {
                Begun::Raw(bytes) => bytes.as_slice().len(),
                Begun::Structured => 0,
            };
            if earlier.is_full() || !earlier.has_room(size) {
                return Ok(Err(Refusal::Breaks(Rule::OverLimit)));
            }
            Ok(Ok(begun))
        }
    }
}

// Reads bytes as an op, and returns the op's canonical bytes; `None` if the bytes can't be read as an op.
pub(crate) fn canonical(alloc: Global, bytes: &[u8]) -> Result<Option<Bytes>, Memory>
    ensures { IfOk result (λ o. o ≡ canonical_of (op_of bytes.now)) }
{
    match read_op(alloc, bytes) {
        Err(OpFault::Memory) => Err(Memory),
        Err(_) => Ok(None),
        Ok(op) => written(alloc, op),
    }
}

/// Returns the canonical bytes of an op.
fn written(alloc: Global, op: Op) -> Result<Option<Bytes>, Memory>
    ensures { IfOk result (λ o. o ≡ Some (op_bytes op)) }
{
    match write_op(alloc, &op) {
        Err(_) => Err(Memory),
        Ok(bytes) => Ok(Some(bytes)),
    }
}

// Returns the canonical bytes of the op that the records are read as. Refuses the line if these bytes exceed the limits,
// or if the records can't be read as an op.
#[tactic(auto, unfolding(crate::specs::TextGrammar::entry_in))]
pub(crate) fn entry_in(
    alloc: Global,
    earlier: &Earlier,
    records: &[u8],
) -> Result<Result<Bytes, Refusal>, Memory>
    ensures { IfOk result (λ r. r ≡ entry_in earlier.now records.now) }
{
    match canonical(alloc, records)? {
        Some(entry) if earlier.has_room(entry.as_slice().len()) => Ok(Ok(entry)),
        _ => Ok(Err(Refusal::Breaks(Rule::OverLimit))),
    }
}
