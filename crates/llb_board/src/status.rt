//! The statuses of vertices and workers, as callers see them.

use llb_events::VertexFault;

/// The status of a vertex, as callers see it.
#[derive(Clone, Copy, Debug, PartialEq, Eq)]
pub enum Status {
    /// The vertex waits for an input that is not done, and is not downstream of a failed vertex.
    Waiting,
    /// The vertex waits, and all its inputs are done.
    Ready,
    /// The vertex waits downstream of a vertex that has failed.
    Blocked,
    /// The worker of this number runs the vertex.
    Running(u32),
    /// The vertex ended with its outputs.
    Done,
    /// The vertex ended with this fault.
    Failed(VertexFault),
}

/// The status of a worker, as callers see it.
#[derive(Clone, Copy, Debug, PartialEq, Eq)]
pub enum WorkerStatus {
    /// The worker runs no vertex.
    Idle,
    /// The worker runs a vertex: the vertex's number, how many of its micro-steps are done, and whether the vertex is finished.
    Runs(u32, u32, bool),
}
