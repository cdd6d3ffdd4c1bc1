//! The text of a graph: a line for each vertex by number, and a line for the result. And the digests of the vertices' entries, a line each.

ghost use Rattle.std.specs.Prelude.{◌≡◌, ◌++◌, IfOk, string_bytes};
ghost use Rattle.llb_session.specs.GraphText.{inputs_text, input_text, vertex_line, vertex_lines, result_line, graph_text, digest_line, digest_lines};

use llb_loader::{Edge, Graph, Vertex};
use llb_ops::kind_name;
use std::alloc::{AllocError, Global};

// Appends the text of an input to a line: a space, the number of the input's vertex, a point, and the index of the vertex's output.
fn push_input(line: &mut String, input: Edge) -> Result<(), AllocError>
    ensures { IfOk result (λ _. string_bytes line.new ≡ string_bytes line.old ++ input_text input) }
{
    let Edge { vertex, index } = input;
    write!(line, " {vertex}.{index}")?;
    Ok(())
}

// Appends the texts of the inputs to a line, in their order; if there are no inputs, a space and a dash.
fn push_inputs(line: &mut String, inputs: &[Edge]) -> Result<(), AllocError>
    ensures { IfOk result (λ _. string_bytes line.new ≡ string_bytes line.old ++ inputs_text inputs.now) }
{
    if inputs.is_empty() {
        line.push_str(" -")?;
        return Ok(());
    }
    for input in inputs {
        push_input(line, *input)?;
    }
    Ok(())
}

/// Returns the line of the vertex with this number, `V KIND steps S outputs O inputs LIST`. LIST is the inputs as `V.I`, or a dash if there are none.
pub fn vertex_line(alloc: Global, number: usize, vertex: &Vertex) -> Result<String, AllocError>
    ensures { IfOk result (λ s. string_bytes s ≡ vertex_line number vertex.now) }
{
    let kind = kind_name(&vertex.op);
    let (steps, outputs) = (vertex.steps, vertex.outputs);
    let mut line = format!(in alloc; "{number} {kind} steps {steps} outputs {outputs} inputs")?;
    push_inputs(&mut line, vertex.inputs.as_slice())?;
    line.push_str("\n")?;
    Ok(line)
}

/// Returns the line of the result, `result V.I`.
pub fn result_line(alloc: Global, edge: Edge) -> Result<String, AllocError>
    ensures { IfOk result (λ s. string_bytes s ≡ result_line edge) }
{
    let Edge { vertex, index } = edge;
    let line = format!(in alloc; "result {vertex}.{index}\n")?;
    Ok(line)
}

// Appends the line of a vertex to a text.
fn push_vertex(
    alloc: Global,
    text: &mut String,
    number: usize,
    vertex: &Vertex,
) -> Result<(), AllocError>
    ensures { IfOk result (λ _. string_bytes text.new ≡ string_bytes text.old ++ vertex_line number vertex.now) }
{
    let line = vertex_line(alloc, number, vertex)?;
    text.push_str(line.as_str())?;
    Ok(())
}

// Returns the lines of the vertices, by number.
fn vertices_text(alloc: Global, vertices: &[Vertex]) -> Result<String, AllocError>
    ensures { IfOk result (λ s. string_bytes s ≡ vertex_lines vertices.now) }
{
    let mut text = String::new(alloc);
    for (number, vertex) in vertices.iter().enumerate() {
        push_vertex(alloc, &mut text, number, vertex)?;
    }
    Ok(text)
}

/// Returns the text of a graph: a line for each vertex by number, and the line `result V.I`.
pub(crate) fn graph_text(alloc: Global, graph: &Graph) -> Result<String, AllocError>
    ensures { IfOk result (λ s. string_bytes s ≡ graph_text graph.now) }
{
    let mut text = vertices_text(alloc, graph.vertices())?;
    let last = result_line(alloc, graph.result())?;
    text.push_str(last.as_str())?;
    Ok(text)
}

// Appends the line with the digest of a vertex's entry to a text.
fn push_digest(text: &mut String, number: usize, vertex: &Vertex) -> Result<(), AllocError>
    ensures { IfOk result (λ _. string_bytes text.new ≡ string_bytes text.old ++ digest_line (number, vertex.now)) }
{
    let digest = &vertex.digest;
    writeln!(text, "{number} {digest}")?;
    Ok(())
}

// Returns a line with the digest of each vertex's entry, by number.
fn digest_list(alloc: Global, vertices: &[Vertex]) -> Result<String, AllocError>
    ensures { IfOk result (λ s. string_bytes s ≡ digest_lines vertices.now) }
{
    let mut text = String::new(alloc);
    for (number, vertex) in vertices.iter().enumerate() {
        push_digest(&mut text, number, vertex)?;
    }
    Ok(text)
}

/// Returns a line for each vertex, by number: the number, and the digest of the vertex's entry.
pub(crate) fn digests_text(alloc: Global, graph: &Graph) -> Result<String, AllocError>
    ensures { IfOk result (λ s. string_bytes s ≡ digest_lines graph.now.vertices) }
{
    digest_list(alloc, graph.vertices())
}
