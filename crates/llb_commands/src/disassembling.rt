//! The command `dis`, and the option `--ops` of the command `show`: each reads a definition, and writes the text of its entries.

ghost use Rattle.std.specs.Prelude.{◌≡◌, List};
ghost use Rattle.llb_asm.specs.DisassembledText.{Formed, AreFormed, AreWorded, plain_text};
ghost use Rattle.llb_commands.specs.Assembly.{Describes, Disassembles, IsTextBy, IsUnread};
ghost use Rattle.llb_commands.specs.AssemblyParts.{entries_fault, AreBy, AreEntriesIn, EndsIn};
ghost use Rattle.llb_commands.specs.WrittenPrefix.{PrintsOut};

use crate::bounded_reading::{LIMIT, READS, read_bounded};
use crate::definition_loading::unread;
use crate::fault::{ProgramFault, refusal};
use llb_asm::{AsmFault, describe, disassemble};
use llb_ops::{Entries, OpFault, read_definition};
use llb_wire::Over;
use std::alloc::Global;
use std::io::{Read, Write};

// What is written of entries: what `dis` writes, or all ops that can be read.
#[derive(Clone, Copy)]
enum Written {
    Entries,
    Ops,
}

// Returns the fault with which the program ends if its input can't be read as a definition: a refusal, unless memory was refused.
fn entries_fault(fault: OpFault) -> ProgramFault
    ensures { result ≡ entries_fault fault }
{
    match fault {
        OpFault::Memory => ProgramFault::Entries,
        _ => ProgramFault::Unread(fault),
    }
}

// Reads a definition to its end, and returns its entries.
fn entries_from<R: Read>(alloc: Global, input: &mut R) -> Result<Entries, ProgramFault>
    ensures { AreEntriesIn (R.remaining input.old) result }
{
    match read_bounded(alloc, input, LIMIT, READS) {
        Err(fault) => Err(unread(fault)),
        Ok(bytes) => match read_definition(alloc, bytes.as_slice()) {
            Ok(entries) => Ok(entries),
            Err(fault) => Err(entries_fault(fault)),
        },
    }
}

// Writes the text of entries to a writer, as `dis` does.
fn entries_over<W: Write>(alloc: Global, entries: &Entries, out: &mut W) -> Result<(), AsmFault>
    ensures { (xs : List Formed) × AreFormed entries.now xs × PrintsOut (W.contents out.old) (W.contents out.new) (plain_text xs) result }
{
    let mut sink = Over::new(out);
    disassemble(alloc, entries, &mut sink)
}

// Writes the ops of entries to a writer.
fn words_over<W: Write>(alloc: Global, entries: &Entries, out: &mut W) -> Result<(), AsmFault>
    ensures { (xs : List Formed) × AreWorded entries.now xs × PrintsOut (W.contents out.old) (W.contents out.new) (plain_text xs) result }
{
    let mut sink = Over::new(out);
    describe(alloc, entries, &mut sink)
}

// Writes the text of entries to a writer.
fn text_over<W: Write>(
    alloc: Global,
    written: Written,
    entries: &Entries,
    out: &mut W,
) -> Result<(), AsmFault>
    ensures { (xs : List Formed) × AreBy written entries.now xs × PrintsOut (W.contents out.old) (W.contents out.new) (plain_text xs) result }
{
    match written {
        Written::Entries => entries_over(alloc, entries, out),
        Written::Ops => words_over(alloc, entries, out),
    }
}

// Reads a definition, and writes the text of its entries.
fn disassembled<R: Read, W: Write>(
    alloc: Global,
    written: Written,
    input: &mut R,
    out: &mut W,
) -> Result<(), ProgramFault>
    ensures { EndsIn (IsTextBy (AreBy written)) IsUnread (R.remaining input.old) (record { before = W.contents out.old; after = W.contents out.new }) result }
{
    let entries = entries_from(alloc, input)?;
    match text_over(alloc, written, &entries, out) {
        Err(fault) => Err(ProgramFault::Text(fault)),
        Ok(()) => match out.flush() {
            Ok(()) => Ok(()),
            Err(_) => Err(ProgramFault::Text(AsmFault::Write)),
        },
    }
}

/// Reads a definition from `input` and writes the text of its entries to `out`; a refusal goes to `err`, as a line. Returns the exit status: 0 if the whole
/// text is written; 2 if the definition can't be read (`fault 1` to `4`, `11` to `13`, and `fault 81 13` past 67,108,864 bytes), and nothing is written to
/// `out`; 3 if a read (181), a write (164) or memory (14, 163, 184) failed, and nothing, or a prefix of the text, is written.
pub fn dis_over<R: Read, W: Write, E: Write>(
    alloc: Global,
    input: &mut R,
    out: &mut W,
    err: &mut E,
) -> u8
    ensures { Disassembles (record {
      input = record { before = R.remaining input.old; after = R.remaining input.new };
      output = record { before = W.contents out.old; after = W.contents out.new };
      errors = record { before = E.contents err.old; after = E.contents err.new };
    }) result }
{
    match disassembled(alloc, Written::Entries, input, out) {
        Ok(()) => 0,
        Err(fault) => refusal(&fault, err),
    }
}

/// Reads a definition from `input` and writes the ops of its entries to `out`: each entry that can be read as an op, however it is encoded, in the words that
/// `dis_over` writes for the op's canonical bytes, and any other as raw bytes. Returns the exit status of `dis_over`.
pub fn ops_over<R: Read, W: Write, E: Write>(
    alloc: Global,
    input: &mut R,
    out: &mut W,
    err: &mut E,
) -> u8
    ensures { Describes (record {
      input = record { before = R.remaining input.old; after = R.remaining input.new };
      output = record { before = W.contents out.old; after = W.contents out.new };
      errors = record { before = E.contents err.old; after = E.contents err.new };
    }) result }
{
    match disassembled(alloc, Written::Ops, input, out) {
        Ok(()) => 0,
        Err(fault) => refusal(&fault, err),
    }
}
