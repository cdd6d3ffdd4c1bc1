//! The text of a definition's entries, which a person can read and write. The crate is built on `llb_ops`.
//!
//! Types: `AsmFault` (161 to 164) and `Rule` (what is wrong with a line).
//! Promise: `assemble` returns the entries that the text spells, or the first faulty line with its first fault. What a text spells is defined without
//! reference to the code. `disassemble` (`prints`, `some`) writes the entries as the text that the rule `plain_text` makes; `describe`
//! writes in the same words each entry that can be read, whatever its encoding is. Laws: a text is read in at most
//! one way (`one_answer`), and a text that was written is read as the same entries (`reads_back`).
//!
//! A caller:
//!
//!     let entries = assemble(alloc, b"raw 00\n".as_slice()).ok()?;
//!     let mut text = Vec::new(alloc);
//!     disassemble(alloc, &entries, &mut Over::new(&mut text)).ok()?;
//!     Some(text.len())
#![tactic(auto)]

mod assembling;
mod complete_entries;
mod entry;
mod fault;
mod labels;
mod laws;
mod line;
mod lines;
mod open_op;
mod print;
mod values;

pub use assembling::assemble;
pub use fault::{AsmFault, Rule};
pub use laws::{one_answer, reads_back};
pub use print::{describe, disassemble};
