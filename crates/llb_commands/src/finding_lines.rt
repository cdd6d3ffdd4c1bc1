//! The option `--findings` of the command `show`: reads a definition, and prints a line for each of its faults.

ghost use Rattle.std.specs.Prelude.{◌++◌, Ok, string_bytes};
ghost use Rattle.llb_commands.specs.FindingLines.{finding_line, found_text, FindsUnread, IsTooLong, FindsIn, Finds, PrintsFound, Lists, ListsIn};
ghost use Rattle.llb_commands.specs.GraphText.{Gives};

use crate::bounded_reading::{LIMIT, READS, ReadFault, read_bounded};
use crate::definition_loading::unread;
use crate::fault::{OutputFault, ProgramFault, refusal};
use crate::text_output::text_over;
use llb_findings::findings;
use llb_loader::LoadFault;
use llb_ops::OpFault;
use std::alloc::Global;
use std::io::{Read, Write};

// Returns the only fault of a definition that is longer than the limit.
fn too_long(alloc: Global) -> Result<Vec<LoadFault>, ProgramFault>
    ensures { IsTooLong result }
{
    let mut found = Vec::new(alloc);
    match found.push(LoadFault::Definition(OpFault::OverLimit)) {
        Ok(()) => Ok(found),
        Err(_) => Err(ProgramFault::Memory),
    }
}

// Returns every fault of a definition.
fn found_of(alloc: Global, bytes: &[u8]) -> Result<Vec<LoadFault>, ProgramFault>
    ensures { FindsIn bytes.now result }
{
    match findings(alloc, bytes) {
        Ok(found) => Ok(found),
        Err(_) => Err(ProgramFault::Loading),
    }
}

// Returns the only fault of a definition that is too long, which stands for the fault of reading it; or why it can't be read.
fn found_unread(alloc: Global, fault: ReadFault) -> Result<Vec<LoadFault>, ProgramFault>
    ensures { FindsUnread fault result }
{
    match fault {
        ReadFault::TooLong => too_long(alloc),
        ReadFault::Failed(_) | ReadFault::Unending(_) | ReadFault::Memory => Err(unread(fault)),
    }
}

// Reads a definition to its end, and returns every fault of it.
fn found_in<R: Read>(alloc: Global, input: &mut R) -> Result<Vec<LoadFault>, ProgramFault>
    ensures { Finds (R.remaining input.old) result }
{
    match read_bounded(alloc, input, LIMIT, READS) {
        Ok(bytes) => found_of(alloc, bytes.as_slice()),
        Err(fault) => found_unread(alloc, fault),
    }
}

// Appends the line of a fault to a text.
fn push_finding(text: &mut String, fault: &LoadFault) -> Result<(), OutputFault>
    ensures { Gives (λ _. string_bytes text.new) result (Ok (string_bytes text.old ++ finding_line fault.now)) }
{
    write!(text, "fault {fault}\n")?;
    Ok(())
}

// Returns the lines of the faults, in their order.
fn lines_of(alloc: Global, found: &[LoadFault]) -> Result<String, OutputFault>
    ensures { Gives (λ s. string_bytes s) result (Ok (found_text found.now)) }
{
    let mut text = String::new(alloc);
    for fault in found {
        push_finding(&mut text, fault)?;
    }
    Ok(text)
}

// Writes the lines of the faults, and returns whether there is none.
fn print_findings<W: Write>(
    alloc: Global,
    found: &[LoadFault],
    out: &mut W,
) -> Result<bool, ProgramFault>
    ensures { PrintsFound found.now (record { before = W.contents out.old; after = W.contents out.new }) result }
{
    match lines_of(alloc, found) {
        Err(fault) => Err(ProgramFault::Output(fault)),
        Ok(text) => match text_over(text.as_str(), out) {
            Ok(()) => Ok(found.is_empty()),
            Err(fault) => Err(fault),
        },
    }
}

// Reads a definition, writes a line for each of its faults, and returns whether there is none.
fn listed<R: Read, W: Write>(
    alloc: Global,
    input: &mut R,
    out: &mut W,
) -> Result<bool, ProgramFault>
    ensures { ListsIn (R.remaining input.old) (record { before = W.contents out.old; after = W.contents out.new }) result }
{
    let found = found_in(alloc, input)?;
    print_findings(alloc, found.as_slice(), out)
}

/// Reads a definition from `input`, and writes a line to `out` for each of its faults (81 to 90): each that stands at its own place, whatever other faults
/// there are, in the order in which the loader looks for them. A definition past 67,108,864 bytes has the fault 81 13 alone. Returns the exit status: 0 if
/// there is none; 2 if there is any; 3 if a read (181), a write (182) or memory (91, 184) failed, which a line on `err` says, and nothing, or a prefix of the
/// lines, is written.
pub fn findings_over<R: Read, W: Write, E: Write>(
    alloc: Global,
    input: &mut R,
    out: &mut W,
    err: &mut E,
) -> u8
    ensures { Lists (record {
      input = record { before = R.remaining input.old; after = R.remaining input.new };
      output = record { before = W.contents out.old; after = W.contents out.new };
      errors = record { before = E.contents err.old; after = E.contents err.new };
    }) result }
{
    match listed(alloc, input, out) {
        Ok(true) => 0,
        Ok(false) => 2,
        Err(fault) => refusal(&fault, err),
    }
}
