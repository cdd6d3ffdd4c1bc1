//! Messages: an op is read from the records of its entry, and written as its canonical bytes (the one spelling that this crate writes), by one
//! table of fields. The crate is built on `llb_wire`.
//!
//! Types: `Op` with `Kind` (a source, a file op, a merge, an exec, or a build or a diff, which `llb_loader` refuses), `Entries` (of a definition),
//! `FieldRow` (a row of the table), `OpFault`.
//! Promise: `read_op` (`gives`, `within`) returns the op that the rule `op_of` makes of an entry, or the entry's first fault. `read_definition`
//! (`gives`, `last`) returns the entries that the rule `definition_of` makes of a definition's bytes, or the first fault. Laws say that the canonical
//! bytes of an op that was read are read as the same op, and which fields these bytes have.
//!
//! A caller:
//!
//!     let entries = read_definition(alloc, bytes).ok()?;
//!     let first = entries.as_slice().first()?;
//!     let op = read_op(alloc, first.as_slice()).ok()?;
//!     Some(kind_name(&op))
#![tactic(auto)]

mod actions;
mod definition;
mod exec;
mod fault;
mod file_op;
mod laws;
mod merge;
mod message;
mod op;
mod owners;
mod payloads_and_limits;
mod records;
mod same;
mod source;
mod table;
mod writing;

pub use actions::{CopyFile, MkDir, MkFile, Rm};
pub use definition::{Entries, definition_is_read_again, read_definition, write_definition};
pub use exec::{CacheOpt, ExecOp, Meta, Mount, TmpfsOpt};
pub use fault::OpFault;
pub use file_op::{Action, ActionKind, Actions, FileOp};
pub use laws::entry_has_fields;
pub use llb_wire::{Boxed, Bytes, Text};
pub use merge::{MergeInput, MergeOp};
pub use op::{
    Input, Kind, Op, kind_name, op_is_read_again, op_is_read_of_records, read_op, write_op,
};
pub use owners::{ChownOpt, User, UserOpt};
pub use payloads_and_limits::{DEFINITION_LIMIT, ENTRIES_LIMIT, ENTRY_LIMIT, FIELD_LIMIT};
pub use records::are_unnamed;
pub use source::{Attribute, Attributes, SourceOp};
pub use table::{
    FieldKind, FieldRow, MessageName, NamedField, field_named, field_numbered, fields_of,
    rows_are_apart,
};
