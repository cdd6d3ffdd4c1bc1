//! Tests of reading and writing entries and definitions. An op that was read is checked by its canonical bytes, which are the bytes that `write_op` returns
//! for the op. The fields of ops are tested by whole commands (`tests/assembling/messages.md`).

use super::tree_rows::{holds, is_so, row_holds};
use llb_ops::{
    Entries, FileOp, Kind, MessageName, Op, OpFault, definition_is_read_again, entry_has_fields,
    field_named, field_numbered, fields_of, op_is_read_again, read_definition, read_op,
    rows_are_apart, write_definition, write_op,
};
use llb_wire::{Bytes, Memory, Same, WireFault};
use std::alloc::Global;

// The entry of a file op that makes the file `/a`, of mode 0644 and with the content `hi`, on the empty tree.
pub(crate) const MAKES_A: &[u8] =
    b"\x22\x30\x12\x2E\x08\xFF\xFF\xFF\xFF\xFF\xFF\xFF\xFF\xFF\x01\x10\
    \xFF\xFF\xFF\xFF\xFF\xFF\xFF\xFF\xFF\x01\x2A\x16\x0A\x02/a\x10\xA4\x03\x1A\x02hi\x28\
    \xFF\xFF\xFF\xFF\xFF\xFF\xFF\xFF\xFF\x01";

// A terminal that names output 0 of the entry `MAKES_A`.
const NAMES_A: &[u8] = b"\x0A\x49\x0A\x47\
    sha256:e00d65597895790f7dc26dbf724a411bd83c8e15881ab3eea18ea75095782dab";

// The definition that has the entries `MAKES_A` and `NAMES_A`.
const BOTH: &[u8] = b"\x0A\x32\
    \x22\x30\x12\x2E\x08\xFF\xFF\xFF\xFF\xFF\xFF\xFF\xFF\xFF\x01\x10\
    \xFF\xFF\xFF\xFF\xFF\xFF\xFF\xFF\xFF\x01\x2A\x16\x0A\x02/a\x10\xA4\x03\x1A\x02hi\x28\
    \xFF\xFF\xFF\xFF\xFF\xFF\xFF\xFF\xFF\x01\
    \x0A\x4B\x0A\x49\x0A\x47\
    sha256:e00d65597895790f7dc26dbf724a411bd83c8e15881ab3eea18ea75095782dab";

// The source `local://a` with attributes for `k`, `j` and `k` again; the last attribute has an unknown field.
const SOURCE: &[u8] =
    b"\x1A\x25\x0A\x09local://a\x12\x06\x0A\x01k\x12\x01v\x12\x06\x0A\x01j\x12\x01w\
    \x12\x08\x0A\x01k\x12\x01x\x18\x07";

// The canonical bytes of `SOURCE`. They have one attribute for each key. The attribute for `k` has the later of the two values, at the position of the first.
const SETTLED_SOURCE: &[u8] =
    b"\x1A\x1D\x0A\x09local://a\x12\x08\x0A\x01k\x12\x01x\x18\x07\x12\x06\x0A\x01j\x12\x01w";

// An exec with one mount. The mount has a value for each of its fields, and two unknown fields.
const MOUNT: &[u8] = b"\x12\x25\x12\x23\x08\x01\x12\x02/s\x1A\x02/d\x20\x02\x28\x01\x30\x03\
    \x9A\x01\x02\x08\x05\xA2\x01\x05\x0A\x01k\x10\x02\xAA\x01\x00\xB2\x01\x00";

// A file op that copies `/f` to `/d/`. Its mode and its timestamp are -1, and it has an unknown field, 14.
pub(crate) const COPY: &[u8] = b"\x22\x27\x12\x25\x10\x01\x22\x21\x0A\x02/f\x12\x03/d/\x20\
    \xFF\xFF\xFF\xFF\xFF\xFF\xFF\xFF\xFF\x01\x58\xFF\xFF\xFF\xFF\xFF\xFF\xFF\xFF\xFF\x01\x70\x01";

// An exec of `/bin/sh -c true` with one environment variable, the cwd `/`, and output 0 of `MAKES_A` mounted at `/`; then a platform and constraints.
const RUNS_TRUE: &[u8] = b"\x0A\x49\x0A\x47\
    sha256:e00d65597895790f7dc26dbf724a411bd83c8e15881ab3eea18ea75095782dab\
    \x12\x28\x0A\x21\x0A\x07/bin/sh\x0A\x02-c\x0A\x04true\x12\x09PATH=/bin\x1A\x01/\x12\x03\x1A\x01/\
    \x52\x0E\x0A\x05amd64\x12\x05linux\x5A\x00";

// Calls the laws about an entry, and about the op that was read from the entry.
fn laws(entry: &[u8], op: &Op) {
    entry_has_fields(entry);
    op_is_read_again(op);
}

// Reads an entry as an op and writes the op. Returns the bytes, or the fault.
fn rewritten(alloc: Global, entry: &[u8]) -> Result<Bytes, OpFault> {
    let op = read_op(alloc, entry)?;
    laws(entry, &op);
    write_op(alloc, &op)
}

fn is_answer(answer: Result<Bytes, OpFault>, wanted: Result<&[u8], OpFault>) -> bool {
    match (answer, wanted) {
        (Ok(bytes), Ok(canonical)) => bytes.as_slice() == canonical,
        (Err(fault), Err(refusal)) => fault == refusal,
        _ => false,
    }
}

// Entries, and their canonical bytes or their first fault.
const ENTRIES: &[(&[u8], Result<&[u8], OpFault>)] = &[
    (MAKES_A, Ok(MAKES_A)),
    (NAMES_A, Ok(NAMES_A)),
    (SETTLED_SOURCE, Ok(SETTLED_SOURCE)),
    (MOUNT, Ok(MOUNT)),
    (COPY, Ok(COPY)),
    (RUNS_TRUE, Ok(RUNS_TRUE)),
    // If an input has several indexes, the last index counts. The number of an index may have more bytes than it needs.
    (b"\x0A\x04\x10\x01\x10\x02", Ok(b"\x0A\x02\x10\x02")),
    (b"\x0A\x04\x10\x82\x80\x00", Ok(b"\x0A\x02\x10\x02")),
    // If a message is split into several records, their payloads are joined; this holds inside another message too.
    (b"\x22\x01\x12\x22\x01\x00", Ok(b"\x22\x02\x12\x00")),
    (
        b"\x22\x0C\x12\x0A\x2A\x08\x22\x02\x0A\x00\x22\x02\x12\x00",
        Ok(b"\x22\x0A\x12\x08\x2A\x06\x22\x04\x0A\x00\x12\x00"),
    ),
    // Of a oneof, the member whose record comes last is set. Records of this member that come before a record of another member do not count.
    (
        b"\x22\x02\x12\x00\x3A\x00\x22\x02\x12\x00",
        Ok(b"\x22\x02\x12\x00"),
    ),
    (b"\x22\x01\xFF\x3A\x01a\x3A\x01b", Ok(b"\x3A\x02ab")),
    (
        b"\x22\x0C\x12\x0A\x32\x08\x22\x06\x0A\x04\x0A\x00\x10\x00",
        Ok(b"\x22\x0A\x12\x08\x32\x06\x22\x04\x0A\x02\x10\x00"),
    ),
    // The payloads of two records of a merge are joined, unless a record of another member of the oneof is between the two.
    (
        b"\x32\x02\x0A\x00\x32\x0D\x0A\x0B\x08\xFF\xFF\xFF\xFF\xFF\xFF\xFF\xFF\xFF\x01",
        Ok(b"\x32\x0F\x0A\x00\x0A\x0B\x08\xFF\xFF\xFF\xFF\xFF\xFF\xFF\xFF\xFF\x01"),
    ),
    (
        b"\x32\x02\x0A\x00\x3A\x00\x32\x0D\x0A\x0B\x08\xFF\xFF\xFF\xFF\xFF\xFF\xFF\xFF\xFF\x01",
        Ok(b"\x32\x0D\x0A\x0B\x08\xFF\xFF\xFF\xFF\xFF\xFF\xFF\xFF\xFF\x01"),
    ),
    // Unknown fields are kept, and are written after the known fields.
    (
        b"\x52\x01a\x0A\x02\x10\x02\x5A\x00",
        Ok(b"\x0A\x02\x10\x02\x52\x01a\x5A\x00"),
    ),
    (SOURCE, Ok(SETTLED_SOURCE)),
    (b"", Ok(b"")),
    (b"\x08\x00", Err(OpFault::WrongWireType)),
    (b"\x08\x00\x80", Err(OpFault::WrongWireType)),
    (b"\x0A\x03\x0A\x01\xFF", Err(OpFault::NotUtf8)),
    (
        b"\x0A\x04\x0A\x01\xFF\x80",
        Err(OpFault::Wire(WireFault::Truncated)),
    ),
    (b"\x22\x01\x80\x0A\x02\x08\x00", Err(OpFault::WrongWireType)),
];

#[test]
fn entries_are_written_in_their_canonical_bytes_or_the_first_fault_is_answered(rt: HostRuntime) {
    for (at, (entry, wanted)) in ENTRIES.iter().enumerate() {
        row_holds(&rt, at, is_answer(rewritten(rt.alloc(), entry), *wanted));
    }
}

// Returns an entry with `count` empty inputs.
fn inputs(alloc: Global, count: u32) -> Result<Vec<u8>, Memory> {
    let mut entry = Vec::new(alloc);
    for _ in 0..count {
        entry.extend_from_slice(&[0x0A, 0x00])?;
    }
    Ok(entry)
}

// Returns whether an entry with `count` inputs is read and then written with the same bytes.
fn is_kept(alloc: Global, count: u32) -> Result<bool, OpFault> {
    let entry = inputs(alloc, count)?;
    Ok(rewritten(alloc, &entry)?.as_slice() == entry.as_slice())
}

#[test]
fn a_field_is_repeated_1024_times_at_most(rt: HostRuntime) {
    is_so(&rt, is_kept(rt.alloc(), 1024) == Ok(true));
    is_so(&rt, is_kept(rt.alloc(), 1025) == Err(OpFault::OverLimit));
}

// Returns whether a file op and its copy are equal.
fn is_copied(file: &FileOp) -> bool {
    match file.copy() {
        Ok(copy) => copy.same(file),
        Err(_) => false,
    }
}

fn has_copy(alloc: Global, entry: &[u8]) -> bool {
    match read_op(alloc, entry) {
        Ok(op) => matches!(&op.kind, Some(Kind::File(file)) if is_copied(file)),
        Err(_) => false,
    }
}

#[test]
fn a_file_op_has_an_equal_second_owner(rt: HostRuntime) {
    is_so(&rt, has_copy(rt.alloc(), MAKES_A));
    is_so(&rt, has_copy(rt.alloc(), COPY));
}

fn definition_law(entries: &Entries) {
    definition_is_read_again(entries);
}

// Reads the entries of a definition and writes them. Returns the bytes, or the fault.
fn definition_rewritten(alloc: Global, definition: &[u8]) -> Result<Bytes, OpFault> {
    let entries = read_definition(alloc, definition)?;
    definition_law(&entries);
    write_definition(alloc, &entries)
}

// Definitions; and the bytes that are written for the entries of each definition, or the fault with which the definition is refused.
const DEFINITIONS: &[(&[u8], Result<&[u8], OpFault>)] = &[
    (BOTH, Ok(BOTH)),
    (b"\x12\x01\xFF\x20\x07\x0A\x00", Ok(b"\x0A\x00")),
    (b"\x10\x00", Err(OpFault::WrongWireType)),
    (b"\x0A\x01", Err(OpFault::Wire(WireFault::Truncated))),
];

#[test]
fn a_definition_keeps_its_entries_and_skips_other_fields(rt: HostRuntime) {
    for (at, (definition, wanted)) in DEFINITIONS.iter().enumerate() {
        let written = definition_rewritten(rt.alloc(), definition);
        row_holds(&rt, at, is_answer(written, *wanted));
    }
}

// Returns whether a message has a field with this number and this name, which is found both by the number and by the name.
fn is_field(message: MessageName, number: u32, name: &str) -> bool {
    rows_are_apart(message);
    let one = field_numbered(message, number);
    let other = field_named(message, name.as_bytes());
    match (one, other) {
        (Some(one), Some(other)) => one.name == name && other.field.number == number,
        _ => false,
    }
}

#[test]
fn a_field_is_found_by_its_number_and_by_its_name(rt: HostRuntime) {
    let rows = [
        (MessageName::Op, 4, "file"),
        (MessageName::FileActionMkFile, 3, "data"),
        (MessageName::Mount, 19, "TmpfsOpt"),
    ];
    for (message, number, name) in rows {
        holds(&rt, name, is_field(message, number, name));
    }
}

#[test]
fn an_input_has_two_fields(rt: HostRuntime) {
    let unknown = field_numbered(MessageName::Input, 3).is_none();
    let unnamed = field_named(MessageName::Input, b"digests").is_none();
    let count = fields_of(MessageName::Input).len();
    is_so(&rt, unknown && unnamed && count == 2);
}
