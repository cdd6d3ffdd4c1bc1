//! Lays one tree over another. At a path the result has what the upper tree has there. If the upper tree has nothing there, the result has what the lower
//! tree has, unless a file of the upper tree is above the path. The crate is built on `llb_tree`, and does not use ops.
//!
//! Types: `Memory` (fault 55), the only fault.
//! Promise: `lay` returns the tree that the definition `lay` describes as a map. `lay_over` (`ok`, `err`) replaces the lower tree by this result, and
//! `lay_onto` takes ownership of the lower tree. Laws say what the result has at each path, and what it is if both trees are equal or one of them is empty.
//!
//! A caller:
//!
//!     let lower = Tree::empty(alloc).ok()?;
//!     let upper = Tree::empty(alloc).ok()?;
//!     let both = lay(alloc, &lower, &upper).ok()?;
//!     Some(both.same(&lower)) // true
#![tactic(auto)]

mod fault;
mod laws;
mod laying;

pub use fault::Memory;
pub use laws::{at_each_path, over_itself, over_the_empty_tree, under_the_empty_tree};
pub use laying::{lay, lay_onto, lay_over};
