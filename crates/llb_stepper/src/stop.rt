//! What a breakpoint is, and where a `go` or a replay stopped.

/// A breakpoint: a `go` or a replay stops after an event that meets it.
#[derive(Clone, Copy, Debug, PartialEq, Eq)]
pub enum Break {
    /// After a claim of this vertex.
    Claims(u32),
    /// After a settle of this vertex.
    Settles(u32),
    /// After a settle of a vertex that failed.
    Fails,
}

/// How a `go` or a replay stopped.
#[derive(Clone, Copy, Debug, PartialEq, Eq)]
pub struct Stop {
    /// How many events were done.
    pub events: u64,
    /// Whether the last of the events that were done meets a breakpoint.
    pub at_break: bool,
}
