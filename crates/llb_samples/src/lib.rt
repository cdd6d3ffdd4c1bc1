//! Samples for the crates of tests: entries and trees by their names; definitions and local trees from short texts; and paths and trees as texts. No call of
//! this crate ends a test: a call that can't make its value returns `None`, or the fault for refused memory.
#![tactic(auto)]

mod entries;
mod local_trees;
mod path_and_tree_texts;
mod short_definitions;
mod trees;

pub use local_trees::{OLD_AND_F, locals_named, locals_of};
pub use path_and_tree_texts::{push_path, text_of_tree};
pub use short_definitions::{
    block, definition_of, entries_in, entries_of, entries_text, graph_in, graph_of,
};
pub use trees::{tree_from, tree_named, tree_text};
