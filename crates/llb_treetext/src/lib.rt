//! The text of a tree: a line for each entry in path order. The crate is built on `llb_tree`, and does not use ops.
//!
//! Types: `TextFault` (why a text is not the text of a tree), `PrintFault`.
//! Promise: `print_tree` (`prints`) writes exactly the text of the tree, or a prefix of the text if memory is refused or the sink fails. `read_tree`
//! (`answers`, `last`) returns the tree whose text the bytes are, or fails with 34 if memory is refused. If the bytes are no text of a tree, `read_tree`
//! fails with the first fault of the first faulty line: 31, 32 or 33.
//!
//! A caller:
//!
//!     let tree = read_tree(alloc, b"d 0755 0 0 /\n".as_slice()).ok()?;
//!     let mut text = Vec::new(alloc);
//!     print_tree(alloc, &tree, &mut Over::new(&mut text)).ok()?;
//!     Some(text.len()) // 13
#![tactic(auto)]

mod digest;
mod fault;
mod growing_tree;
mod laws;
mod line;
mod line_check;
mod line_fields;
mod path_and_entry;
mod print;
mod read;

pub use digest::tree_digest;
pub use fault::{PrintFault, TextFault};
pub use laws::{one_answer, reads_back};
pub use line::push_path;
pub use print::print_tree;
pub use read::read_tree;
