//! Patterns: which paths a text with `*`, `?`, classes and `\` matches. The crate is built on `llb_tree`, of which it uses only names, paths and
//! tests of names.
//!
//! Types: `Pattern` (a list of parts), `Part` (a test of one name, by which `llb_tree` finds and removes paths), `PatternFault`.
//! Promise: `reads_by_the_grammar` (`spelled`, `refused`, `one`) says that a text is read as the one pattern that it spells, or refused if
//! it spells none. `Pattern::matches` (`relation`, `test`) returns whether a path matches, by the definition `Matches`; it does not allocate.
//!
//! A caller:
//!
//!     let pattern = Pattern::read(alloc, "/*.[ch]").ok()?;
//!     let path = Path::read(alloc, "/a.c").ok()?;
//!     Some(pattern.matches(&path)) // true
#![tactic(auto)]

mod class;
mod fault;
mod item;
mod laws;
mod name_characters;
mod part;
mod part_reading;
mod pattern;
mod position_sets;

pub use fault::PatternFault;
pub use laws::{reads_by_the_grammar, reads_without_classes};
pub use part::Part;
pub use pattern::Pattern;
