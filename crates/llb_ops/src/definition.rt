//! Reads and writes a definition as a list of entries. `read_op` reads the op of an entry.

ghost use Rattle.std.specs.Prelude.{◌≡◌, ◌<◌, ◌≤◌, ◌==◌, ◌++◌, ◌∷◌, [], if◌then◌else◌, Ok, length, true, IfOk, OnOk};
ghost use Rattle.llb_wire.specs.CallResults.{MemoryLast};
ghost use Rattle.llb_ops.specs.Faults.{Gives, is_memory};
ghost use Rattle.llb_ops.specs.Records.{view};
ghost use Rattle.llb_ops.specs.Definition.{definition_of, admission, entries_in, counted, one_more, definition_bytes};
ghost use Rattle.llb_ops.specs.OpsWithinLimits.{AreWithinLimits};
ghost use Rattle.llb_ops.specs.ReadWriteLaws.{AreReadAgain};

use crate::fault::OpFault;
use crate::payloads_and_limits::{DEFINITION_LIMIT, ENTRIES_LIMIT, ENTRY_LIMIT};
use crate::records::{Record, next_part};
use crate::table::MessageName;
use crate::writing::put_each_bytes;
use llb_wire::{Bytes, Memory};
use std::alloc::Global;
use std::marker::Model;

/// The entries of a definition, in order. Contracts see a list with the bytes of each entry.
pub struct Entries {
    entries: Vec<Bytes>,
}

impl Drop for Entries {
    fn drop(self) {
        let Entries { entries: _ } = self;
    }
}

impl Model for Entries {
    ghost use Rattle.std.specs.Prelude.{List, ℕ};

    ghost Value = { List (List ℕ) };

    ghost view = { λ e. e.entries.items };
}

impl Entries {
    /// Makes the entries of a definition from these byte strings, without a copy.
    pub fn new(entries: Vec<Bytes>) -> Entries
        ensures { result ≡ entries.items }
    {
        Entries { entries }
    }

    /// Returns the entries as a slice.
    pub fn as_slice(&self) -> &[Bytes]
        ensures { result.now ≡ self.now }
    {
        self.entries.as_slice()
    }

    /// Returns the number of entries.
    pub fn len(&self) -> usize
        ensures { result ≡ length self.now }
    {
        self.entries.len()
    }

    /// Returns the entries as a vector, without a copy.
    pub fn into_vec(self) -> Vec<Bytes>
        ensures { result.items ≡ self }
    {
        let Entries { entries } = self;
        entries
    }
}

// Counts one more record: returns the number of entries so far, and whether none of them is too long.
fn with_record(count: usize, short: bool, part: &Record<'_>) -> (usize, bool)
    requires { count < 67_108_864 }
    ensures { result ≡ one_more (count, short) (view part.now) }
{
    if part.number == 1 {
        (count + 1, short && part.payload.len() <= ENTRY_LIMIT)
    } else {
        (count, short)
    }
}

// Returns how many entries there are, and whether none is too long. At the first faulty record, fails with 1 to 4
// `Wire` or 11 `WrongWireType`.
fn tally(bytes: &[u8]) -> Result<(usize, bool), OpFault>
    requires { length bytes.now ≤ 67_108_864 }
    ensures { result ≡ counted (entries_in bytes.now) }
{
    let mut rest = bytes;
    let mut count = 0;
    let mut short = true;
    while let Some(front) = next_part(MessageName::Definition, rest)? {
        let (with_it, all_short) = with_record(count, short, &front.record);
        count = with_it;
        short = all_short;
        rest = front.after;
    }
    Ok((count, short))
}

// Appends the payload of a record of field 1 as an entry; does nothing for a record of another field.
fn put_entry(alloc: Global, entries: &mut Vec<Bytes>, part: &Record<'_>) -> Result<(), Memory>
    ensures { OnOk result (entries.new.items ≡ (if part.now.number == 1 then entries.old.items ++ part.now.payload.now ∷ [] else entries.old.items)) }
{
    if part.number == 1 {
        let entry = Bytes::from_slice(alloc, part.payload)?;
        entries.push(entry)?;
    }
    Ok(())
}

// Reads the entries, without a check of their number and sizes.
fn gathered(alloc: Global, bytes: &[u8]) -> Result<Vec<Bytes>, OpFault>
    ensures { Gives (λ v. v.items) result (entries_in bytes.now) }
{
    let mut entries = Vec::new(alloc);
    let mut rest = bytes;
    while let Some(front) = next_part(MessageName::Definition, rest)? {
        put_entry(alloc, &mut entries, &front.record)?;
        rest = front.after;
    }
    Ok(entries)
}

// Checks the limits and the records of a definition, and fails with the first fault of the definition.
fn admitted(bytes: &[u8]) -> Result<(), OpFault>
    ensures { result ≡ admission (definition_of bytes.now) }
{
    if bytes.len() > DEFINITION_LIMIT {
        return Err(OpFault::OverLimit);
    }
    let (count, short) = tally(bytes)?;
    if count > ENTRIES_LIMIT {
        return Err(OpFault::OverLimit);
    }
    if !short {
        return Err(OpFault::OverLimit);
    }
    Ok(())
}

/// Reads the entries of a definition.
///
/// Fails with the first of these faults that applies: 13 `OverLimit` if the definition has more than 67,108,864 bytes; at the first faulty record from left to
/// right, 1 to 4 `Wire` if the record can't be read, or 11 `WrongWireType` if the table has the record's field with another wire type; 13 `OverLimit` if
/// there are more than 65,536 entries, or if an entry has more than 16,777,216 bytes. Fails with 14 `Memory` if memory is refused and there is no other fault.
pub fn read_definition(alloc: Global, bytes: &[u8]) -> Result<Entries, OpFault>
    ensures gives { Gives (λ e. e) result (definition_of bytes.now) }
    ensures last { MemoryLast is_memory result (definition_of bytes.now) }
    ensures within { IfOk result AreWithinLimits }
{
    admitted(bytes)?;
    let entries = gathered(alloc, bytes)?;
    Ok(Entries::new(entries))
}

/// Returns the canonical bytes of a definition with these entries. Fails with 14 `Memory` alone.
pub fn write_definition(alloc: Global, entries: &Entries) -> Result<Bytes, OpFault>
    ensures { Gives (λ bytes. bytes) result (Ok (definition_bytes entries.now)) }
{
    let mut out = Vec::new(alloc);
    put_each_bytes(&mut out, 1, entries.as_slice())?;
    Ok(Bytes::new(out))
}

/// Proves that entries that were read from the bytes of a definition are read again from their canonical bytes.
pub fn definition_is_read_again(entries: &Entries)
    ensures { AreReadAgain entries.now }
{
    let _ = entries;
}
