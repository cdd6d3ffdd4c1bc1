//! The command `show`: reads a definition, loads it, and prints the text of its graph.

ghost use Rattle.std.specs.Prelude.{◌≡◌};
ghost use Rattle.llb_commands.specs.ProgramOutput.{Draws};
ghost use Rattle.llb_session.specs.GraphText.{graph_text};
ghost use Rattle.llb_commands.specs.WrittenPrefix.{PrintsOut};
ghost use Rattle.llb_commands.specs.Running.{ShowsIn};

use crate::definition_loading::loaded;
use crate::fault::{OutputFault, ProgramFault, refusal};
use crate::graph_text::print_graph;
use llb_loader::Graph;
use llb_wire::Over;
use std::alloc::Global;
use std::io::{Read, Write};

// Writes the text of a graph to a writer.
fn graph_over<W: Write>(alloc: Global, graph: &Graph, out: &mut W) -> Result<(), OutputFault>
    ensures { PrintsOut (W.contents out.old) (W.contents out.new) (graph_text graph.now) result }
{
    let mut sink = Over::new(out);
    print_graph(alloc, graph, &mut sink)
}

// Reads a definition, and writes the text of its graph.
fn shown<R: Read, W: Write>(alloc: Global, input: &mut R, out: &mut W) -> Result<(), ProgramFault>
    ensures { ShowsIn (R.remaining input.old) (record { before = W.contents out.old; after = W.contents out.new }) result }
{
    let graph = loaded(alloc, input)?;
    match graph_over(alloc, &graph, out) {
        Err(fault) => Err(ProgramFault::Output(fault)),
        Ok(()) => match out.flush() {
            Ok(()) => Ok(()),
            Err(_) => Err(ProgramFault::Output(OutputFault::Write)),
        },
    }
}

/// Reads a definition from `input` and writes the text of its graph to `out`; a refusal goes to `err`, as a line. Returns
/// the exit status: 0 if the whole text is written; 2 if the definition is refused, and nothing is written to `out`; 3
/// if a read, a write or memory failed, and nothing, or a prefix of the text, is written.
pub fn show_over<R: Read, W: Write, E: Write>(
    alloc: Global,
    input: &mut R,
    out: &mut W,
    err: &mut E,
) -> u8
    ensures { Draws (record {
      input = record { before = R.remaining input.old; after = R.remaining input.new };
      output = record { before = W.contents out.old; after = W.contents out.new };
      errors = record { before = E.contents err.old; after = E.contents err.new };
    }) result }
{
    match shown(alloc, input, out) {
        Ok(()) => 0,
        Err(fault) => refusal(&fault, err),
    }
}
