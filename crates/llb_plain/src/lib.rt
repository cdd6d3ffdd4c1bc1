//! Computes the plain outcome of every vertex of a graph in which no vertex mounts a cache: on one thread, with no board, record or workers. The
//! crate is built on `llb_execution`, as the board is.
//!
//! Types: `Outcomes`, `Outcome` (done with its outputs, failed, or blocked), `PlainFault` (101 to 103).
//! Promise: `evaluate` (`gives`, `last`) returns exactly the plain outcomes that `llb_model` defines. It fails with 101 and the name of the first local
//! source, in the order of the vertices, for which no tree is given; else with 102 and the number of the first vertex that mounts a cache; else with 103
//! for want of memory.
//!
//! A caller:
//!
//!     let outcomes = evaluate(alloc, graph, locals).ok()?;
//!     let result = graph.result();
//!     let tree = outcomes.get(result.vertex)?.output(result.index)?;
//!     Some(tree.is_dir(&Path::root(alloc)))
#![tactic(auto)]

mod evaluation;
mod fault;
mod first_cache_vertex;
mod outcome;
mod program_run;

pub use evaluation::evaluate;
pub use fault::PlainFault;
pub use outcome::{Outcome, Outcomes};
