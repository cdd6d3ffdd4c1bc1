//! The types of a board's interface: events, replies, why an event is refused, and why a vertex fails. The crate has these types and their
//! texts alone; the table (`llb_model`) says which events are granted. The crate is built on `llb_cache`.
//!
//! Types: `Event`, `Stepped`, `Settled`, `Cancelled`; `ClaimFault`, `StepFault`, `SettleFault`, `CancelFault` (131 to 138, 141); `VertexFault`.
//! Promise: each refusal prints its number, and 135 also the ID of the held key. The contracts of these texts cite the definitions of
//! `specs/Faults.antt` (`claim_text` and the like).
//!
//! A caller:
//!
//!     match board.claim(0, 0) {
//!         Err(ClaimFault::NotReady) => Some(134),
//!         Err(_) => None,
//!         Ok(_) => Some(0),
//!     }
#![tactic(auto)]

mod event;
mod fault;
mod refusal;

pub use event::{Cancelled, Event, Settled, Stepped};
pub use fault::VertexFault;
pub use refusal::{CancelFault, ClaimFault, SettleFault, StepFault};
