//! Runs a board to its end: on the caller's own thread, or in 1 to 64 threads that share one lock and a queue of the numbers of ready vertices.
//! The crate is built on `llb_board` and `llb_ready`, and changes a board only by the board's own calls.
//!
//! Types: `RunEnd` (the board, the number of events that each worker made, the fault), `RunFault` (151 to 154).
//! Promise: `run_workers` (`leads`, `complete`, `idle`, `stopped`, `own`): granted events lead from the given board to the returned one, whatever
//! the fault; no worker runs anything on the returned board, unless memory was refused before a thread was started; without a fault the board is
//! complete. `run_alone` (`goes`, `ends`, `order`, `plain`) does the events that `chosen` of `llb_model` names, one after another. By an invariant of
//! the value under the lock (`src/locked_value.rt`), all workers wait only if the board is complete or a fault is noted. That threads are run, get the lock
//! and are woken is tested, and not proved.
//!
//! A caller:
//!
//!     let end = run_workers(rt, alloc, board, gate);
//!     match end.fault {
//!         None => Some(end.board),
//!         Some(_) => None,
//!     }
#![tactic(auto)]

mod dropped_trees;
mod early_end;
mod event_counts;
mod idle_workers;
mod key_waiters;
mod locked_value;
mod one_thread_run;
mod plain_vertices;
mod run;
mod run_end;
mod shared_board;
mod single_thread_driver;
mod starting_supplies;
mod thread_scope;
mod worker;
mod worker_shares;
mod worker_thread;

pub use one_thread_run::run_alone;
pub use run::run_workers;
pub use run_end::{RunEnd, RunFault};
