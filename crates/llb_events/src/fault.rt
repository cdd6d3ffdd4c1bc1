//! Why a vertex fails. The text of a failure is the end of the output line that names the vertex.

ghost use Rattle.std.specs.Prelude.{Some};
ghost use Rattle.llb_events.specs.FailureText.{failure_text};

use llb_wire::Same;
use std::error::Error;
use std::fmt;

/// Why a vertex fails: an action of a file op failed, or the last command that an exec ran ended with a status other than 0.
#[derive(Clone, Copy, Debug, PartialEq, Eq)]
pub enum VertexFault {
    /// An action failed: its number, and the number of its fault (21 to 26, or 52 for a text that is not a pattern).
    Action(u32, u32),
    /// The last command that ran ended with a status other than 0: the command's number, and the status.
    Exit(u32, u32),
}

impl fmt::Display for VertexFault {
    ghost output = { λ f. Some (failure_text f) };

    fn fmt<W: fmt::Write>(&self, f: &mut fmt::Formatter<W>) -> fmt::Result {
        match self {
            VertexFault::Action(a, n) => write!(f, "action {a} fault {n}"),
            VertexFault::Exit(c, status) => write!(f, "command {c} status {status}"),
        }
    }
}

impl Error for VertexFault {}

impl Same for VertexFault {
    fn same(&self, other: &VertexFault) -> bool {
        match (self, other) {
            (VertexFault::Action(a, n), VertexFault::Action(b, m)) => a == b && n == m,
            (VertexFault::Exit(c, status), VertexFault::Exit(d, other)) => c == d
                && status == other,
            _ => false,
        }
    }
}
