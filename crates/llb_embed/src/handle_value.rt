//! What a caller's handle holds: local trees, a session, and what the last call wrote.

ghost use Rattle.llb_embed.specs.Handle.{IsEmpty};

use llb_loader::Locals;
use llb_session::Session;
use std::alloc::Global;

/// Local trees, a session if one is open, how many lines were sent to the session, and the output and the messages of the last call.
pub struct Held {
    pub locals: Locals,
    pub session: Option<Session>,
    pub lines: u64,
    pub output: Vec<u8>,
    pub messages: Vec<u8>,
}

// This `Drop` is written by hand, so that a proof can cite it by its name.
impl Drop for Held {
    fn drop(self) {
        let Held {
            locals: _,
            session: _,
            lines: _,
            output: _,
            messages: _,
        } = self;
    }
}

impl Held {
    /// Returns an empty value: no local trees, no session, no output and no messages. Does not allocate.
    pub fn new(alloc: Global) -> Held
        ensures { IsEmpty result }
    {
        Held {
            locals: Locals::new(alloc),
            session: None,
            lines: 0,
            output: Vec::new(alloc),
            messages: Vec::new(alloc),
        }
    }
}
