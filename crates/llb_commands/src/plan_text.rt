//! The option `--plan` of the command `show`: reads a definition, and prints for each vertex of its graph whether what the vertex reads goes by value, and
//! which of the vertex's actions write the byte 255.

ghost use Rattle.std.specs.Prelude.{◌≡◌, ◌++◌, false, Ok, IfOk, string_bytes, slice_index_or};
ghost use Rattle.std.specs.List.{flat_map, enumerate_from};
ghost use Rattle.llb_loader.specs.Rules.{kind_actions};
ghost use Rattle.llb_commands.specs.AssemblyParts.{EndsIn};
ghost use Rattle.llb_commands.specs.GraphText.{Gives};
ghost use Rattle.llb_commands.specs.PlanText.{
  way_text,
  cause_text,
  mark_text,
  marks_text,
  plan_line,
  planned_lines,
  whole_line,
  IsPlanOf,
  IsPlanText,
  Plans,
};
ghost use Rattle.llb_commands.specs.ProgramOutput.{IsRefused};

use crate::definition_loading::loaded;
use crate::fault::{OutputFault, ProgramFault, refusal};
use crate::text_output::text_over;
use llb_laws::token_byte_writers::{bodies_have_mark, body_has_mark, writes_no_mark};
use llb_laws::token_plan::{by_value, makes_digest, mounts_cache, some_makes_digest};
use llb_loader::{Graph, Vertex};
use llb_ops::{Action, Kind};
use std::alloc::Global;
use std::io::{Read, Write};

// Returns the word for how what a vertex reads is given.
fn way_text(by_value: bool) -> &'static str
    ensures { result.now ≡ way_text by_value }
{
    if by_value { "value" } else { "token" }
}

// Returns the word for why what is at or before a vertex is given by value; a dash if the vertex is no cause.
fn cause_text(some: bool, vertex: &Vertex) -> &'static str
    ensures { result.now ≡ cause_text some vertex.now }
{
    if makes_digest(&vertex.op.kind, &vertex.script) {
        return "digest";
    }
    if some && mounts_cache(vertex) {
        return "cache";
    }
    "-"
}

// Returns the actions of an op of this kind.
fn actions_of(kind: &Option<Kind>) -> &[Action]
    ensures { result.now ≡ kind_actions kind.now }
{
    match kind {
        Some(Kind::File(file)) => file.actions.as_slice(),
        _ => &[],
    }
}

// Appends the number of an action to a line if the action writes the byte 255.
fn push_mark(line: &mut String, number: usize, action: &Action) -> Result<(), OutputFault>
    ensures { Gives (λ _. string_bytes line.new) result (Ok (string_bytes line.old ++ mark_text (number, action.now))) }
{
    if body_has_mark(action) {
        write!(line, " {number}")?;
    }
    Ok(())
}

// Appends the numbers of the actions that write the byte 255 to a line.
fn push_numbers(line: &mut String, actions: &[Action]) -> Result<(), OutputFault>
    ensures { Gives (λ _. string_bytes line.new) result
        (Ok (string_bytes line.old ++ flat_map mark_text (enumerate_from 0 actions.now))) }
{
    for (number, action) in actions.iter().enumerate() {
        push_mark(line, number, action)?;
    }
    Ok(())
}

// Appends the numbers of the actions that write the byte 255 to a line; a dash if there are none.
fn push_marks(line: &mut String, actions: &[Action]) -> Result<(), OutputFault>
    ensures { Gives (λ _. string_bytes line.new) result (Ok (string_bytes line.old ++ marks_text actions.now)) }
{
    if bodies_have_mark(actions) {
        return push_numbers(line, actions);
    }
    line.push_str(" -")?;
    Ok(())
}

/// Returns whether a place has a mark; false past the end.
pub(crate) fn is_marked(marks: &[bool], place: usize) -> bool
    ensures { result ≡ slice_index_or marks.now place false }
{
    match marks.get(place) {
        Some(mark) => *mark,
        None => false,
    }
}

// Appends the line of a vertex to a text.
fn push_line(
    text: &mut String,
    number: usize,
    vertex: &Vertex,
    by_value: bool,
    some: bool,
) -> Result<(), OutputFault>
    ensures { Gives (λ _. string_bytes text.new) result (Ok (string_bytes text.old ++ plan_line number vertex.now by_value some)) }
{
    let digest = &vertex.digest;
    let (way, cause) = (way_text(by_value), cause_text(some, vertex));
    write!(text, "{number} {digest} reads {way} cause {cause} marks")?;
    push_marks(text, actions_of(&vertex.op.kind))?;
    text.push_str("\n")?;
    Ok(())
}

// Returns the lines of the vertices, by number.
fn lines_of(
    alloc: Global,
    vertices: &[Vertex],
    marks: &[bool],
    some: bool,
) -> Result<String, OutputFault>
    ensures { Gives (λ s. string_bytes s) result (Ok (planned_lines vertices.now marks.now some)) }
{
    let mut text = String::new(alloc);
    for (number, vertex) in vertices.iter().enumerate() {
        push_line(&mut text, number, vertex, is_marked(marks, number), some)?;
    }
    Ok(text)
}

// Returns the last line, by whether no vertex writes the byte 255.
fn whole_line(none: bool) -> &'static str
    ensures { result.now ≡ whole_line none }
{
    if none { "marks no\n" } else { "marks yes\n" }
}

// Returns the plan of a graph as text.
fn plan_of(alloc: Global, graph: &Graph) -> Result<String, OutputFault>
    ensures { IfOk result (λ s. IsPlanOf graph.now (string_bytes s)) }
{
    let Ok(marks) = by_value(alloc, graph) else {
        return Err(OutputFault::Memory);
    };
    let some = some_makes_digest(graph);
    let mut text = lines_of(alloc, graph.vertices(), marks.as_slice(), some)?;
    text.push_str(whole_line(writes_no_mark(graph)))?;
    Ok(text)
}

// Reads a definition, and writes the plan of its graph.
fn planned<R: Read, W: Write>(alloc: Global, input: &mut R, out: &mut W) -> Result<(), ProgramFault>
    ensures { EndsIn IsPlanText IsRefused (R.remaining input.old) (record { before = W.contents out.old; after = W.contents out.new }) result }
{
    let graph = loaded(alloc, input)?;
    match plan_of(alloc, &graph) {
        Ok(text) => text_over(text.as_str(), out),
        Err(fault) => Err(ProgramFault::Output(fault)),
    }
}

/// Reads a definition from `input`, and writes to `out` for each vertex of its graph, by number, the line `V DIGEST reads WAY cause WHY marks LIST`. WAY is
/// `value` if what the vertex reads has to be given by value, and else `token`. WHY is `digest` if the vertex makes a digest, `cache` if it mounts a cache and
/// some vertex makes a digest, and else a dash. LIST is the numbers of the actions that write the byte 255, or a dash if there are none. The last line is
/// `marks yes` if some vertex writes the byte 255, and else `marks no`. Returns the exit status of `show_over`.
pub fn plan_over<R: Read, W: Write, E: Write>(
    alloc: Global,
    input: &mut R,
    out: &mut W,
    err: &mut E,
) -> u8
    ensures { Plans (record {
      input = record { before = R.remaining input.old; after = R.remaining input.new };
      output = record { before = W.contents out.old; after = W.contents out.new };
      errors = record { before = E.contents err.old; after = E.contents err.new };
    }) result }
{
    match planned(alloc, input, out) {
        Ok(()) => 0,
        Err(fault) => refusal(&fault, err),
    }
}
