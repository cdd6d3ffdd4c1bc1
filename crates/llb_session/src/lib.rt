//! A stepping session: each line of commands gets its reply from a stepper before the next line is waited for. The crate is built on `llb_stepper`
//! and `llb_treetext`.
//!
//! Types: `Session` (a stepper, and `Options`: whether looks are allowed, and whether an empty line ends each reply), `Request` (what a line asks for), `Look`
//! (what a line may look at), `SessionFault` (181, 182, 184, 185).
//! Promise: `request_in` returns the request that a line spells, or none. `respond` does what the request asks for and returns what it prints, and `answer`
//! writes that. If a line is refused, nothing is changed and the reply is the refusal, which takes no memory. `clear` and `quit` are never refused. The fault
//! 171 141 (171: the board refuses; 141: for want of memory) is the reply to no requests but events, `next` and `go`. `converse` replies to the lines of a
//! reader in their order, up to a line that ends the session, or until a read or a write fails.
//!
//! A caller:
//!
//!     let stepper = Stepper::new(alloc, board);
//!     let options = Options { looks: Looks::Refused, ends: false };
//!     let mut session = Session { stepper, options };
//!     let mut commands = b"go\nquit\n".as_slice();
//!     let mut out = Vec::new(alloc);
//!     converse(alloc, &mut session, &mut commands, &mut out, 1 << 20, 1 << 20).ok()
#![tactic(auto)]

mod action_reasons;
mod answering;
mod conversation;
mod fault;
mod graph_text;
pub mod laws;
mod printed_texts;
mod reasons;
mod refusal;
mod request;
mod session;

pub use answering::{answer, respond};
pub use conversation::converse;
pub use fault::SessionFault;
pub use graph_text::{result_line, vertex_line};
pub use request::{Look, Looks, Request, request_in};
pub use session::{Options, Session};
