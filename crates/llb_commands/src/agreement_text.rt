//! The option `--agrees` of the command `show`: reads a definition, and prints for each vertex of its graph whether it reads the same of the local sources that
//! have a tree, whether they have this tree or a newer one.

ghost use Rattle.std.specs.Prelude.{◌≡◌, ◌++◌, Ok, IfOk, string_bytes};
ghost use Rattle.llb_commands.specs.AgreementText.{
  agreed_text,
  agreement_line,
  agreement_text,
  Agrees,
  IsAgreementOf,
  IsAgreementText,
};
ghost use Rattle.llb_commands.specs.AssemblyParts.{EndsIn};
ghost use Rattle.llb_commands.specs.GraphText.{Gives};
ghost use Rattle.llb_commands.specs.ProgramOutput.{IsRefused};

use crate::definition_loading::loaded;
use crate::fault::{OutputFault, ProgramFault, refusal};
use crate::plan_text::is_marked;
use crate::text_output::text_over;
use llb_laws::agreed_sources::agreements;
use llb_loader::{Graph, Locals, Vertex};
use llb_tree::Tree;
use std::alloc::Global;
use std::io::{Read, Write};

// Returns the word for whether a vertex reads the same.
fn agreed_text(agrees: bool) -> &'static str
    ensures { result.now ≡ agreed_text agrees }
{
    if agrees { "yes" } else { "no" }
}

// Appends the line of a vertex to a text.
fn push_line(
    text: &mut String,
    number: usize,
    vertex: &Vertex,
    agrees: bool,
) -> Result<(), OutputFault>
    ensures { Gives (λ _. string_bytes text.new) result (Ok (string_bytes text.old ++ agreement_line number vertex.now agrees)) }
{
    let digest = &vertex.digest;
    let word = agreed_text(agrees);
    write!(text, "{number} {digest} agrees {word}\n")?;
    Ok(())
}

// Returns the lines of the vertices, by number.
fn lines_of(alloc: Global, vertices: &[Vertex], marks: &[bool]) -> Result<String, OutputFault>
    ensures { Gives (λ s. string_bytes s) result (Ok (agreement_text vertices.now marks.now)) }
{
    let mut text = String::new(alloc);
    for (number, vertex) in vertices.iter().enumerate() {
        push_line(&mut text, number, vertex, is_marked(marks, number))?;
    }
    Ok(text)
}

// Returns as text which vertices of a graph agree.
fn agreement_of(
    alloc: Global,
    graph: &Graph,
    locals: &Locals,
    newer: &Tree,
) -> Result<String, OutputFault>
    ensures { IfOk result (λ s. IsAgreementOf graph.now locals.now newer.now (string_bytes s)) }
{
    let Ok(marks) = agreements(alloc, graph.vertices(), locals, newer) else {
        return Err(OutputFault::Memory);
    };
    lines_of(alloc, graph.vertices(), marks.as_slice())
}

// Reads a definition, and writes which vertices of its graph agree.
fn agreed<R: Read, W: Write>(
    alloc: Global,
    locals: &Locals,
    newer: &Tree,
    input: &mut R,
    out: &mut W,
) -> Result<(), ProgramFault>
    ensures { EndsIn (IsAgreementText locals.now newer.now) IsRefused (R.remaining input.old)
        (record { before = W.contents out.old; after = W.contents out.new }) result }
{
    let graph = loaded(alloc, input)?;
    match agreement_of(alloc, &graph, locals, newer) {
        Ok(text) => text_over(text.as_str(), out),
        Err(fault) => Err(ProgramFault::Output(fault)),
    }
}

/// Reads a definition from `input`, and writes to `out` for each vertex of its graph, by number, the line `V DIGEST agrees WORD`. WORD is `yes` if the vertex
/// reads the same of each of its inputs that is a local source with a tree in `locals`, whether the source has this tree or `newer`, and else `no`: a file op
/// reads of an input that it only copies from what is at and below the paths that it copies, and any other vertex may read all. Returns the exit status of
/// `show_over`.
pub fn agreements_over<R: Read, W: Write, E: Write>(
    alloc: Global,
    locals: &Locals,
    newer: &Tree,
    input: &mut R,
    out: &mut W,
    err: &mut E,
) -> u8
    ensures { Agrees locals.now newer.now (record {
      input = record { before = R.remaining input.old; after = R.remaining input.new };
      output = record { before = W.contents out.old; after = W.contents out.new };
      errors = record { before = E.contents err.old; after = E.contents err.new };
    }) result }
{
    match agreed(alloc, locals, newer, input, out) {
        Ok(()) => 0,
        Err(fault) => refusal(&fault, err),
    }
}
