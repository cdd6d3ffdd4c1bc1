//! Writes the text of a graph, whose lines `llb_session` makes, to a sink, a line at a time.

ghost use Rattle.std.specs.Prelude.{◌≡◌};
ghost use Rattle.llb_session.specs.GraphText.{vertex_line, vertex_lines, graph_text};
ghost use Rattle.llb_commands.specs.GraphText.{Writes};

use crate::fault::OutputFault;
use llb_loader::{Graph, Vertex};
use llb_session::{result_line, vertex_line};
use llb_wire::{Sink, write_all};
use std::alloc::Global;

// Writes a line to a sink.
fn write_line<W: Sink>(line: &str, out: &mut W) -> Result<(), OutputFault>
    ensures writes { Writes (W.taken out.old) (W.taken out.new) (W.failed out.new) line.now result }
    ensures same { W.lender out.new ≡ W.lender out.old }
{
    match write_all(out, line.as_bytes()) {
        Err(_) => Err(OutputFault::Write),
        Ok(()) => Ok(()),
    }
}

// Writes the line of a vertex.
fn print_vertex<W: Sink>(
    alloc: Global,
    number: usize,
    vertex: &Vertex,
    out: &mut W,
) -> Result<(), OutputFault>
    ensures writes { Writes (W.taken out.old) (W.taken out.new) (W.failed out.new) (vertex_line number vertex.now) result }
    ensures same { W.lender out.new ≡ W.lender out.old }
{
    match vertex_line(alloc, number, vertex) {
        Err(_) => Err(OutputFault::Memory),
        Ok(line) => write_line(line.as_str(), out),
    }
}

// Writes the lines of the vertices, by number.
fn print_vertices<W: Sink>(
    alloc: Global,
    vertices: &[Vertex],
    out: &mut W,
) -> Result<(), OutputFault>
    ensures writes { Writes (W.taken out.old) (W.taken out.new) (W.failed out.new) (vertex_lines vertices.now) result }
    ensures same { W.lender out.new ≡ W.lender out.old }
{
    for (number, vertex) in vertices.iter().enumerate() {
        match print_vertex(alloc, number, vertex, out) {
            Ok(()) => {}
            Err(fault) => return Err(fault),
        }
    }
    Ok(())
}

/// Writes the text of a graph to a sink: a line for each vertex by number, `V KIND steps S outputs O inputs LIST`, and the
/// line `result V.I`. LIST is the inputs as `V.I`, or a dash if there are none. Fails with 182 only if the writer failed, or
/// with 184 if memory is refused; then a prefix of the text is written.
pub(crate) fn print_graph<W: Sink>(
    alloc: Global,
    graph: &Graph,
    out: &mut W,
) -> Result<(), OutputFault>
    ensures writes { Writes (W.taken out.old) (W.taken out.new) (W.failed out.new) (graph_text graph.now) result }
    ensures same { W.lender out.new ≡ W.lender out.old }
{
    match print_vertices(alloc, graph.vertices(), out) {
        Err(fault) => Err(fault),
        Ok(()) => match result_line(alloc, graph.result()) {
            Err(_) => Err(OutputFault::Memory),
            Ok(line) => write_line(line.as_str(), out),
        },
    }
}
