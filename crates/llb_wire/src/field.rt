//! The type of a record that was read: its field number, wire type and value, and the positions of its payload.

/// How the payload of a record is written.
#[derive(Clone, Copy, Debug, PartialEq, Eq)]
pub enum Wire {
    /// 0: a varint.
    Varint,
    /// 1: eight bytes, least significant first.
    I64,
    /// 2: a length as a varint, and as many bytes.
    Len,
    /// 5: four bytes, least significant first.
    I32,
}

/// A record that was read from some bytes, with positions in these bytes: the payload is `start..end` (for `Len` the
/// bytes after the length), and the next record begins at `end`. For `Len` the value is the length.
#[derive(Clone, Copy, Debug, PartialEq, Eq)]
pub struct Field {
    pub number: u32,
    pub wire: Wire,
    pub value: u64,
    pub start: usize,
    pub end: usize,
}
