//! The command `asm`: reads a text of entries, and writes the definition.

ghost use Rattle.std.specs.Prelude.{◌≡◌};
ghost use Rattle.llb_commands.specs.Assembly.{Assembles, IsAssembled, IsNoText};
ghost use Rattle.llb_commands.specs.AssemblyParts.{assembling_fault, text_unread_as, EndsIn, IsDefinitionIn, IsDefinitionOf};
ghost use Rattle.llb_commands.specs.WrittenPrefix.{PrintsOut};

use crate::bounded_reading::{LIMIT, READS, ReadFault, read_bounded};
use crate::fault::{OutputFault, ProgramFault, refusal};
use llb_asm::{AsmFault, assemble};
use llb_ops::write_definition;
use llb_wire::{Bytes, Over, write_all};
use std::alloc::Global;
use std::io::{Read, Write};

// Returns the fault with which the program ends if the assembler fails with this fault: 161 or 162 if a line is refused, 163 if memory is refused, and 164 if a
// write failed.
fn assembling_fault(fault: AsmFault) -> ProgramFault
    ensures { result ≡ assembling_fault fault }
{
    match fault {
        AsmFault::Line(_, _) | AsmFault::UnknownLabel(_) => ProgramFault::Assembling(fault),
        AsmFault::Memory | AsmFault::Write => ProgramFault::Text(fault),
    }
}

// Returns the fault with which the program ends if a text was not read to its end: 185 if the text is too long, else 181 or 184.
fn text_unread(fault: ReadFault) -> ProgramFault
    ensures { result ≡ text_unread_as fault }
{
    match fault {
        ReadFault::TooLong => ProgramFault::TooLong,
        ReadFault::Failed(_) | ReadFault::Unending(_) => ProgramFault::Read,
        ReadFault::Memory => ProgramFault::Memory,
    }
}

// Assembles a text into the definition of its entries.
fn definition_of(alloc: Global, text: &[u8]) -> Result<Bytes, ProgramFault>
    ensures { IsDefinitionOf text.now result }
{
    match assemble(alloc, text) {
        Err(fault) => Err(assembling_fault(fault)),
        Ok(entries) => match write_definition(alloc, &entries) {
            Ok(definition) => Ok(definition),
            Err(_) => Err(ProgramFault::Entries),
        },
    }
}

// Reads a text to its end and assembles it.
fn definition_from<R: Read>(alloc: Global, input: &mut R) -> Result<Bytes, ProgramFault>
    ensures { IsDefinitionIn (R.remaining input.old) result }
{
    match read_bounded(alloc, input, LIMIT, READS) {
        Err(fault) => Err(text_unread(fault)),
        Ok(text) => definition_of(alloc, text.as_slice()),
    }
}

/// Writes bytes to a writer.
pub(crate) fn bytes_over<W: Write>(bytes: &[u8], out: &mut W) -> Result<(), OutputFault>
    ensures { PrintsOut (W.contents out.old) (W.contents out.new) bytes.now result }
{
    let mut sink = Over::new(out);
    match write_all(&mut sink, bytes) {
        Ok(()) => Ok(()),
        Err(_) => Err(OutputFault::Write),
    }
}

// Reads a text, and writes the definition of its entries.
fn assembled<R: Read, W: Write>(
    alloc: Global,
    input: &mut R,
    out: &mut W,
) -> Result<(), ProgramFault>
    ensures { EndsIn IsAssembled IsNoText (R.remaining input.old) (record { before = W.contents out.old; after = W.contents out.new }) result }
{
    let definition = definition_from(alloc, input)?;
    match bytes_over(definition.as_slice(), out) {
        Err(fault) => Err(ProgramFault::Output(fault)),
        Ok(()) => match out.flush() {
            Ok(()) => Ok(()),
            Err(_) => Err(ProgramFault::Output(OutputFault::Write)),
        },
    }
}

/// Reads a text of entries from `input`, and writes the definition of these entries to `out`; a refusal goes to `err`, as a line. Returns
/// the exit status: 0 if the whole definition is written; 2 if the text is refused (`fault 161 N RULE`, `fault 162 N`, and `fault 185` past
/// 67,108,864 bytes), and nothing is written to `out`; 3 if a read (181), a write (182) or memory (14, 163, 184) failed, and nothing, or a
/// prefix of the definition, is written.
pub fn asm_over<R: Read, W: Write, E: Write>(
    alloc: Global,
    input: &mut R,
    out: &mut W,
    err: &mut E,
) -> u8
    ensures { Assembles (record {
      input = record { before = R.remaining input.old; after = R.remaining input.new };
      output = record { before = W.contents out.old; after = W.contents out.new };
      errors = record { before = E.contents err.old; after = E.contents err.new };
    }) result }
{
    match assembled(alloc, input, out) {
        Ok(()) => 0,
        Err(fault) => refusal(&fault, err),
    }
}
