//! How the payloads of fields are read, and the limits of a definition.

/// How the payload of a field is read, if the table of messages (module `table`) has the field.
#[derive(Clone, Copy)]
pub enum Form {
    /// A varint.
    Number,
    /// Bytes, or a message.
    Bytes,
    /// Bytes in UTF-8.
    Text,
}

/// The largest number of bytes that a definition may have.
pub const DEFINITION_LIMIT: usize = 67_108_864;

/// The largest number of entries that a definition may have.
pub const ENTRIES_LIMIT: usize = 65_536;

/// The largest number of bytes that an entry may have.
pub const ENTRY_LIMIT: usize = 16_777_216;

/// The largest number of records that a repeated field may have in one message.
pub const FIELD_LIMIT: usize = 1_024;
