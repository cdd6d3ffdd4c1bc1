//! The option `--matches` of the command `show`: reads a definition, and prints for each vertex of its graph which vertex of an older definition does the same
//! on inputs that match.

ghost use Rattle.std.specs.Prelude.{◌≡◌, ◌++◌, Ok, IfOk, IfErr, IfSome, string_bytes, slice_get};
ghost use Rattle.llb_commands.specs.AssemblyParts.{EndsIn};
ghost use Rattle.llb_commands.specs.GraphText.{Gives};
ghost use Rattle.llb_commands.specs.MatchText.{
  old_text,
  partner_text,
  match_line,
  match_text,
  IsMatchText,
  IsOverLimit,
  IsRefusedOfTwo,
  Matches,
};
ghost use Rattle.llb_commands.specs.Running.{IsRefusal, TellsRefusal};

use crate::bounded_reading::{LIMIT, READS, read_bounded};
use crate::definition_loading::{passed_on, unread};
use crate::fault::{OutputFault, ProgramFault, refusal};
use crate::text_output::text_over;
use llb_laws::load_matched;
use llb_loader::Vertex;
use std::alloc::Global;
use std::io::{Read, Write};

// Appends the number and the digest of a vertex of the first graph to a line; a dash if the graph has no vertex with this number.
fn push_old(line: &mut String, number: usize, olds: &[Vertex]) -> Result<(), OutputFault>
    ensures { Gives (λ _. string_bytes line.new) result (Ok (string_bytes line.old ++ old_text number (slice_get olds.now number))) }
{
    match olds.get(number) {
        Some(vertex) => {
            let digest = &vertex.digest;
            write!(line, " {number} {digest}")?;
            Ok(())
        }
        None => {
            line.push_str(" -")?;
            Ok(())
        }
    }
}

// Appends the text of the partner of a vertex to a line.
fn push_partner(
    line: &mut String,
    number: usize,
    partners: &[usize],
    olds: &[Vertex],
) -> Result<(), OutputFault>
    ensures { Gives (λ _. string_bytes line.new) result
        (Ok (string_bytes line.old ++ partner_text olds.now (slice_get partners.now number))) }
{
    match partners.get(number) {
        Some(partner) => push_old(line, *partner, olds),
        None => {
            line.push_str(" -")?;
            Ok(())
        }
    }
}

// Appends the line of a vertex to a text.
fn push_line(
    text: &mut String,
    number: usize,
    vertex: &Vertex,
    partners: &[usize],
    olds: &[Vertex],
) -> Result<(), OutputFault>
    ensures { Gives (λ _. string_bytes text.new) result
        (Ok (string_bytes text.old ++ match_line olds.now number vertex.now (slice_get partners.now number))) }
{
    let digest = &vertex.digest;
    write!(text, "{number} {digest} matches")?;
    push_partner(text, number, partners, olds)?;
    text.push_str("\n")?;
    Ok(())
}

// Returns the lines of the vertices of the second graph, by number.
fn lines_of(
    alloc: Global,
    olds: &[Vertex],
    vertices: &[Vertex],
    partners: &[usize],
) -> Result<String, OutputFault>
    ensures { Gives (λ s. string_bytes s) result (Ok (match_text olds.now vertices.now partners.now)) }
{
    let mut text = String::new(alloc);
    for (number, vertex) in vertices.iter().enumerate() {
        push_line(&mut text, number, vertex, partners, olds)?;
    }
    Ok(text)
}

// Returns what the vertices of the second definition match, as text.
fn matches_of(alloc: Global, old: &[u8], bytes: &[u8]) -> Result<String, ProgramFault>
    ensures made { IfOk result (λ s. IsMatchText old.now bytes.now (string_bytes s)) }
    ensures refused { IfErr result (λ e. IsRefusal e → IsRefusedOfTwo old.now e bytes.now) }
{
    let (first, second, partners) = match load_matched(alloc, old, bytes) {
        Ok(made) => made,
        Err(fault) => return Err(passed_on(fault)),
    };
    match lines_of(
        alloc,
        first.vertices(),
        second.vertices(),
        partners.as_slice(),
    ) {
        Ok(text) => Ok(text),
        Err(fault) => Err(ProgramFault::Output(fault)),
    }
}

/// Reads a definition to its end. Fails with 81 13 if it is too long, with 181 if a read fails or the bound on reads is met, and with 184 if memory is refused.
pub(crate) fn definition_in<R: Read>(alloc: Global, input: &mut R) -> Result<Vec<u8>, ProgramFault>
    ensures read { IfOk result (λ b. IfSome (R.remaining input.old) (λ xs. b.items ≡ xs)) }
    ensures refused { IfErr result (TellsRefusal IsOverLimit (R.remaining input.old)) }
{
    match read_bounded(alloc, input, LIMIT, READS) {
        Ok(bytes) => Ok(bytes),
        Err(fault) => Err(unread(fault)),
    }
}

// Reads the second definition, and writes what its vertices match.
fn matched<R: Read, W: Write>(
    alloc: Global,
    old: &[u8],
    input: &mut R,
    out: &mut W,
) -> Result<(), ProgramFault>
    ensures { EndsIn (IsMatchText old.now) (IsRefusedOfTwo old.now) (R.remaining input.old)
        (record { before = W.contents out.old; after = W.contents out.new }) result }
{
    let bytes = definition_in(alloc, input)?;
    let text = matches_of(alloc, old, bytes.as_slice())?;
    text_over(text.as_str(), out)
}

/// Reads a definition from `input`, and writes to `out` for each vertex of its graph, by number, the line `V DIGEST matches OLD`. OLD is the number and the
/// digest of the lowest vertex of the first definition (`old`) that does the same on inputs that match, whatever their digests are, or a dash if there is none.
/// Returns the exit status: 0 if the whole text is written; 2 if one of the definitions is refused (the first, or else the second), and nothing is written to
/// `out`; 3 if a read (181), a write (182) or memory (91, 184) failed, and nothing, or a prefix of the text, is written.
pub fn matches_over<R: Read, W: Write, E: Write>(
    alloc: Global,
    old: &[u8],
    input: &mut R,
    out: &mut W,
    err: &mut E,
) -> u8
    ensures { Matches old.now (record {
      input = record { before = R.remaining input.old; after = R.remaining input.new };
      output = record { before = W.contents out.old; after = W.contents out.new };
      errors = record { before = E.contents err.old; after = E.contents err.new };
    }) result }
{
    match matched(alloc, old, input, out) {
        Ok(()) => 0,
        Err(fault) => refusal(&fault, err),
    }
}
