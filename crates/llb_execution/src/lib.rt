//! One vertex's execution: its program of micro-steps, the workspace that the micro-steps change, and the work on a whole job away from any board,
//! behind a gate. The crate keeps no caches: the caller gives the trees of cache instances. The crate is built on `llb_model`.
//!
//! Types: `Program`, `Steps`, `MicroStep`, `Workspace` (what a program works on), `Job` (a program with its workspace and cache trees), `Outcome`, `Outputs`
//! (the outputs of vertices, by vertex number, from which the trees of inputs are gathered), `Gate`, `WorkFault`.
//! Promise: `Workspace::step` (`left`, `err`) changes the workspace and the trees exactly as the machine's micro-step (`step_on`) does; if memory is
//! refused, the call changes nothing. `work` (`job`, `stopped`) does the remaining micro-steps of a job, up to and with the first that has a fault;
//! `work` fails with 143 only if the gate's `may_stop` is true for the worker and the vertex of the job.
//!
//! A caller:
//!
//!     let job = board.claim(0, 0).ok()?;
//!     let outcome = work(alloc, job, gate).ok()?;
//!     let settled = board.land(0, outcome).ok()?;
//!     Some(settled)
#![tactic(auto)]

mod commands_on_caches;
mod exec_mounts;
mod fault;
mod input_trees;
mod job;
mod micro_step;
mod outcome;
mod outputs;
mod program;
mod remaining_micro_steps;
mod same;
mod saved_workspace;
mod steps;
mod worker_gate;
mod workspace;
mod workspace_trees;

pub use commands_on_caches::empty_trees;
pub use exec_mounts::{input_tree, mounts_cache};
pub use fault::WorkFault;
pub use input_trees::{Outputs, gathered};
pub use job::Job;
pub use llb_wire::Memory;
pub use micro_step::MicroStep;
pub use outcome::{Outcome, work};
pub use program::Program;
pub use remaining_micro_steps::{Further, do_further};
pub use saved_workspace::Saved;
pub use steps::Steps;
pub use worker_gate::{Gate, Stopped};
pub use workspace::Workspace;
pub use workspace_trees::{Look, Part};
