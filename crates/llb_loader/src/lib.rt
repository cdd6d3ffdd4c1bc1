//! Loads a definition as a numbered graph: links the entries by their SHA-256 digests, checks the entries, and numbers them. The crate is built on
//! `llb_applet` and `llb_ops`.
//!
//! Types: `Graph` (vertices by number, and the result), `Vertex`, `Edge`, `Row` (an entry and its digest text), `Locals` (trees by name),
//! `LoadFault` (81 to 91).
//! Promise: `load` (`graph`, `refused`) returns the one graph of the entries, or fails with the first refusal, in the order of the faults' numbers.
//! `Graph::is_graph` proves what is true of every graph: edges lead to outputs of vertices with lower numbers, vertices meet every rule, and the
//! result depends on all vertices. The law `one_answer_in` says that no definition has two results.
//! The public modules have the steps of `link` and the tests of single rules, for a crate that looks for every fault.
//!
//! A caller:
//!
//!     let graph = load(alloc, definition).ok()?;
//!     let result = graph.result();
//!     let vertex = graph.vertices().get(result.vertex as usize)?;
//!     Some(vertex.steps)
#![tactic(auto)]

mod cache_key;
pub mod cache_mounts;
pub mod digest;
pub mod exec_paths;
pub mod exec_rules;
mod fault;
pub mod features;
pub mod file_rules;
mod graph;
pub mod graph_of_rows;
pub mod indices;
mod laws;
mod loading;
mod local_trees;
mod missing_trees;
mod mount_type;
mod mounts;
pub mod numbering;
mod op_reading;
pub mod op_sizes;
mod reached_row_checks;
pub mod reached_rows;
mod row;
pub mod row_lookup;
pub mod rules;
mod vertex_building;
mod vertex_numbers;

pub use fault::{Feature, LoadFault, Memory, Rule};
pub use graph::{Edge, Graph, Vertex};
pub use graph_of_rows::link;
pub use laws::{numbering_goes_down, one_answer, one_answer_in, one_numbering};
pub use loading::{load, load_owned};
pub use local_trees::Locals;
pub use missing_trees::missing_local;
pub use mount_type::MountType;
pub use mounts::{cache_in, mounts_of};
pub use row::Row;
