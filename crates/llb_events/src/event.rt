//! The events that change a board, and the replies to them.

use crate::fault::VertexFault;
use llb_wire::Same;

/// An event: what a worker does on the board.
#[derive(Clone, Copy, Debug, PartialEq, Eq)]
pub enum Event {
    /// The idle worker with the first number takes the Ready vertex with the second.
    Claim(u32, u32),
    /// The worker of this number does the next micro-step of the vertex that it runs.
    Step(u32),
    /// The worker of this number ends the finished vertex that it runs, and is idle again.
    Settle(u32),
    /// The worker of this number gives up the vertex that it runs, and the vertex waits again.
    Cancel(u32),
}

/// The reply to a micro-step.
#[derive(Clone, Copy, Debug, PartialEq, Eq)]
pub enum Stepped {
    /// The local tree of the source is read.
    Read,
    /// The file op's action with this number is done.
    Acted(u32),
    /// The merge's input with this number is laid over the inputs before it.
    Merged(u32),
    /// The command with the first number ran; the second number is its status.
    Ran(u32, u32),
    /// The command with this number did not run, because of the last status and the `&&` or `||` before the command.
    Skipped(u32),
    /// The micro-step faulted.
    Fault(VertexFault),
}

/// The result of a settle: how the vertex with this number ended.
#[derive(Clone, Copy, Debug, PartialEq, Eq)]
pub enum Settled {
    /// The vertex is done: it has its outputs, and no fault.
    Done(u32),
    /// The vertex has failed: it has a fault (`VertexFault`), and no outputs.
    Failed(u32),
}

/// The vertex that a worker has given up, and how many micro-steps of it were done.
#[derive(Clone, Copy, Debug, PartialEq, Eq)]
pub struct Cancelled {
    pub vertex: u32,
    pub done: u32,
}

impl Same for Event {
    fn same(&self, other: &Event) -> bool {
        match (self, other) {
            (Event::Claim(w, v), Event::Claim(u, o)) => w == u && v == o,
            (Event::Step(w), Event::Step(u)) => w == u,
            (Event::Settle(w), Event::Settle(u)) => w == u,
            (Event::Cancel(w), Event::Cancel(u)) => w == u,
            _ => false,
        }
    }
}
