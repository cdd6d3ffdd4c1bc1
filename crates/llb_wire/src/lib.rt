//! Bytes as records: the wire format of Protocol Buffers, read and written one record at a time. The crate also has what the crates above need: texts, byte
//! strings and lists that own their memory, equality by value, and sinks that take bytes. It has no types of messages.
//!
//! Types: `Field` (a record that was read, with the positions of its payload), `Bytes`, `Text`, `Many`, `Boxed`, `Sink` with `Over` (a sink over any
//! writer), `Same`, `Memory` (fault 5).
//! Promise: `next_record` (`found`, `only`, `ends`, `faults`) returns exactly the record that the bytes spell at a position, or the first fault
//! in the order tag, field number, wire type, payload. The grammar of records does not mention how bytes are read. `write_record` (`shortest`,
//! `again`, `err`) appends the shortest spelling of a record, which is read as the same record whatever bytes follow.
//!
//! A caller:
//!
//!     let mut out = Vec::new(alloc);
//!     write_record(1, Wire::Varint, 150, b"".as_slice(), &mut out).ok()?;
//!     let field = next_record(out.as_slice(), 0).ok()??;
//!     Some(field.value) // 150
#![tactic(auto)]

mod bytes;
mod decimal;
mod fault;
mod field;
mod heap_value;
mod hexadecimal;
mod laws;
mod owned_list;
mod record_reading;
mod record_writing;
mod same;
mod sink;
mod text;

pub use bytes::Bytes;
pub use decimal::magnitude;
pub use fault::{Memory, WireFault};
pub use field::{Field, Wire};
pub use heap_value::Boxed;
pub use hexadecimal::{is_hex, push_hex, read_hex, text_of_digest};
pub use laws::{spells_one_list, walk_meets_what_is_spelled};
pub use owned_list::Many;
pub use record_reading::{next_record, varint};
pub use record_writing::{write_record, write_varint};
pub use same::{Same, all_same};
pub use sink::{Failed, Over, Sink, write_all};
pub use text::Text;
