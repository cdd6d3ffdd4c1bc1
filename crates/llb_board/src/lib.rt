//! A board: the state of a run, with the record of the events that led to it. A board changes only as the transition table says. The crate is built on
//! `llb_execution`; it starts no thread and takes no lock.
//!
//! Types: `Board`, `Events` (the record), `Walked` (a reply, and the `Undo` that takes the event back), `Status` and `WorkerStatus`, `OpenFault`
//! (121 to 123), `LandFault` (131, 136, 139, 140), `WalkFault` and `Memory` (141).
//! Promise: `laws::headline`: at every moment, for any workers and any order of events, the table replays the record to the board's state; no two workers
//! hold the same locked cache; a settled vertex with no cache mount at or before it has its plain outcome. `Board::claim` (`gives`, `last`, `err`), `step`,
//! `settle` and `cancel` succeed exactly if the table grants the event and memory suffices, and return the table's reply. `Board::land` (`gives`, `refused`,
//! `err`) does all remaining micro-steps of a worker and its settle, at once.
//!
//! A caller:
//!
//!     let mut board = Board::open(alloc, graph, locals, Caches::new(alloc), 1).ok()?;
//!     board.claim(0, 0).ok()?;
//!     board.step(0).ok()?;
//!     board.settle(0).ok()
#![tactic(auto)]

mod board;
mod fault;
mod history;
pub mod laws;
mod status;
mod tree_list_copies;
mod users_and_open_inputs;
mod vertices;
mod workers;

pub use board::{Board, Reply, Walked};
pub use fault::{LandFault, Memory, OpenFault, WalkFault};
pub use history::Events;
pub use llb_events::{
    CancelFault, Cancelled, ClaimFault, Event, SettleFault, Settled, StepFault, Stepped,
};
pub use llb_execution::{Gate, Job, Outcome, Program, Stopped, WorkFault, Workspace, work};
pub use llb_wire::{Bytes, Text};
pub use status::{Status, WorkerStatus};
pub use workers::Undo;

/// A shorter name for `WorkerStatus`.
pub type At = WorkerStatus;
