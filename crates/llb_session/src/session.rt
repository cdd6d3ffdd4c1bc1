//! A session: a stepper, and how it replies: whether its lines may look at workers, caches and the graph, and whether an empty line ends each reply.

use crate::request::Looks;
use llb_stepper::Stepper;

/// How a session replies.
#[derive(Clone, Copy)]
pub struct Options {
    /// Whether the lines may look at workers, caches and the graph.
    pub looks: Looks,
    /// Whether `answer` and `converse` write an empty line after each reply.
    pub ends: bool,
}

/// What the lines of a session are done on, and how it replies to them.
pub struct Session {
    pub stepper: Stepper,
    pub options: Options,
}

impl Drop for Session {
    fn drop(self) {
        let Session {
            stepper: _,
            options: _,
        } = self;
    }
}
