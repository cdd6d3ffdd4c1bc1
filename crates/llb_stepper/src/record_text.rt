//! The lines of a record as text: the number of an event, the event, and the reply to it.

ghost use Rattle.std.specs.Prelude.{◌≡◌, IfOk, option_map, string_bytes};
ghost use Rattle.llb_stepper.specs.Records.{event_text, claimed_text, pair_text, fault_text, vertex_of, step_text, settle_text};
ghost use Rattle.llb_stepper.specs.UndoableEventReplies.{told_text, line_text};

use llb_board::{Cancelled, Event, Reply, Settled, Stepped};
use llb_events::VertexFault;
use llb_loader::Vertex;
use llb_ops::kind_name;
use std::alloc::{AllocError, Global};

fn event_text(alloc: Global, event: Event) -> Result<String, AllocError>
    ensures { IfOk result (λ s. string_bytes s ≡ event_text event) }
{
    match event {
        Event::Claim(w, v) => format!(in alloc; "claim {w} {v}"),
        Event::Step(w) => format!(in alloc; "step {w}"),
        Event::Settle(w) => format!(in alloc; "settle {w}"),
        Event::Cancel(w) => format!(in alloc; "cancel {w}"),
    }
}

// Returns the text for a claim: the kind of the vertex's op, and how many micro-steps the vertex has; `none` if there is no vertex.
fn claimed_text(alloc: Global, vertex: Option<&Vertex>) -> Result<String, AllocError>
    ensures { IfOk result (λ s. string_bytes s ≡ claimed_text (option_map (λ v. v.now) vertex.entry)) }
{
    match vertex {
        Some(vertex) => {
            let kind = kind_name(&vertex.op);
            let steps = vertex.steps;
            format!(in alloc; "{kind} {steps}")
        }
        None => format!(in alloc; "none"),
    }
}

fn fault_text(alloc: Global, fault: VertexFault) -> Result<String, AllocError>
    ensures { IfOk result (λ s. string_bytes s ≡ fault_text fault) }
{
    match fault {
        VertexFault::Action(a, n) => format!(in alloc; "fault {a} {n}"),
        VertexFault::Exit(c, status) => format!(in alloc; "ran {c} {status}"),
    }
}

fn step_text(alloc: Global, stepped: Stepped) -> Result<String, AllocError>
    ensures { IfOk result (λ s. string_bytes s ≡ step_text stepped) }
{
    match stepped {
        Stepped::Read => format!(in alloc; "read"),
        Stepped::Acted(a) => format!(in alloc; "acted {a}"),
        Stepped::Merged(i) => format!(in alloc; "merged {i}"),
        Stepped::Ran(c, status) => format!(in alloc; "ran {c} {status}"),
        Stepped::Skipped(c) => format!(in alloc; "skipped {c}"),
        Stepped::Fault(fault) => fault_text(alloc, fault),
    }
}

fn settle_text(alloc: Global, settled: Settled) -> Result<String, AllocError>
    ensures { IfOk result (λ s. string_bytes s ≡ settle_text settled) }
{
    match settled {
        Settled::Done(v) => format!(in alloc; "{v} done"),
        Settled::Failed(v) => format!(in alloc; "{v} failed"),
    }
}

// Returns the text for a cancel: the number of the vertex, and how many of its micro-steps were done.
fn cancel_text(alloc: Global, cancelled: Cancelled) -> Result<String, AllocError>
    ensures { IfOk result (λ s. string_bytes s ≡ pair_text cancelled.vertex cancelled.done) }
{
    let (v, done) = (cancelled.vertex, cancelled.done);
    format!(in alloc; "{v} {done}")
}

// Returns the vertex of a claim; 0 for any other event, for which the result is not used.
fn vertex_of(event: Event) -> u32
    ensures { result ≡ vertex_of event }
{
    match event {
        Event::Claim(_, v) => v,
        Event::Step(_) | Event::Settle(_) | Event::Cancel(_) => 0,
    }
}

fn reply_text(
    alloc: Global,
    vertices: &[Vertex],
    event: Event,
    reply: Reply,
) -> Result<String, AllocError>
    ensures { IfOk result (λ s. string_bytes s ≡ told_text vertices.now event reply) }
{
    match reply {
        Reply::Claimed => claimed_text(alloc, vertices.get(vertex_of(event) as usize)),
        Reply::Stepped(stepped) => step_text(alloc, stepped),
        Reply::Settled(settled) => settle_text(alloc, settled),
        Reply::Cancelled(cancelled) => cancel_text(alloc, cancelled),
    }
}

/// Returns the line for an event, without a line end: the number of the event, the event, ` -> ` and the reply.
pub(crate) fn line_text(
    alloc: Global,
    vertices: &[Vertex],
    number: u64,
    event: Event,
    reply: Reply,
) -> Result<String, AllocError>
    ensures { IfOk result (λ s. string_bytes s ≡ line_text vertices.now number event reply) }
{
    let event_text = event_text(alloc, event)?;
    let reply_text = reply_text(alloc, vertices, event, reply)?;
    format!(in alloc; "{number} {event_text} -> {reply_text}")
}
