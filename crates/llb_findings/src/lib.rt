//! Finds every fault of a definition, where the loader stops at the first. The crate is built on `llb_loader`.
//!
//! Types: the crate has none of its own; a fault is a `LoadFault` (81 to 90) of `llb_loader`.
//! Promise: `findings` (`found`, `begins`) returns each fault that is at its own place, whatever other faults there are, in the order in which `load` looks
//! for them. The list is empty if `load` returns a graph; else its first fault is the one with which `load` fails. `findings_of` does the same for rows.
//!
//! A caller:
//!
//!     let found = findings(alloc, definition).ok()?;
//!     Some(found.len())
#![tactic(auto)]

mod finding;
mod op_features;
mod op_rules;
mod row_findings;

pub use finding::{findings, findings_of};
