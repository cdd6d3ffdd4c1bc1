//! Laws of the records that bytes spell.

ghost use Rattle.std.specs.Prelude.{◌≡◌, ◌↔◌, List};
ghost use Rattle.llb_wire.specs.Records.{Record, SpellRecords, Walks};

/// Proves that calls of `next_record`, first at the start of the bytes and then at each record's end, get to the end without a fault exactly if the bytes spell
/// the records that the calls return.
pub fn walk_meets_what_is_spelled(bytes: &[u8])
    ensures { (rs : List Record) → Walks bytes.now 0 rs ↔ SpellRecords bytes.now rs }
{
    let _ = bytes;
}

/// Proves that bytes spell at most one list of records.
pub fn spells_one_list(bytes: &[u8])
    ensures { (rs others : List Record) → SpellRecords bytes.now rs → SpellRecords bytes.now others → rs ≡ others }
{
    let _ = bytes;
}
