//! Tests of `llb_wire`: numbers, records, texts and lists, and writers that fail.

use super::tree_rows::{holds, is_same, is_so, prints, row_holds};
use llb_wire::{
    Bytes, Failed, Field, Many, Over, Same, Sink, Text, Wire, WireFault, is_hex, magnitude,
    next_record, push_hex, read_hex, text_of_digest, varint, write_all, write_record, write_varint,
};
use std::alloc::Global;
use std::io;
use std::io::{ErrorKind, Write};
use std::process::Abort;

// Returns what is read at a position: a number and the position after it, or a fault. Returns `None` if the position is past
// the end of the bytes.
fn number(bytes: &[u8], at: usize) -> Option<Result<(u64, usize), WireFault>> {
    if at > bytes.len() {
        return None;
    }
    Some(varint(bytes, at))
}

// Bytes, a position, and what is read there: a number and the position after it, or a fault.
type Numbered = (&'static [u8], usize, Result<(u64, usize), WireFault>);

const NUMBERS: &[Numbered] = &[
    (&[0xAC, 0x02], 0, Ok((300, 2))),
    (&[0x00], 0, Ok((0, 1))),
    (
        &[0xFF, 0xFF, 0xFF, 0xFF, 0xFF, 0xFF, 0xFF, 0xFF, 0xFF, 0x01],
        0,
        Ok((18_446_744_073_709_551_615, 10)),
    ),
    (
        &[0xFF, 0xFF, 0xFF, 0xFF, 0xFF, 0xFF, 0xFF, 0xFF, 0xFF, 0x02],
        0,
        Err(WireFault::LongVarint),
    ),
    (
        &[
            0x80, 0x80, 0x80, 0x80, 0x80, 0x80, 0x80, 0x80, 0x80, 0x80, 0x00,
        ],
        0,
        Err(WireFault::LongVarint),
    ),
    (&[0x80], 0, Err(WireFault::Truncated)),
    (&[], 0, Err(WireFault::Truncated)),
    (&[0x81, 0x00], 0, Ok((1, 2))),
    (&[0x08, 0x96, 0x01], 1, Ok((150, 3))),
];

#[test]
fn a_number_has_at_most_ten_bytes(rt: HostRuntime) {
    for (at, (bytes, at_byte, wanted)) in NUMBERS.iter().enumerate() {
        row_holds(&rt, at, number(bytes, *at_byte) == Some(*wanted));
    }
}

// Returns what is read at a position: a record, nothing at the end of the bytes, or a fault. Returns `None` if the position is
// past the end.
fn record(bytes: &[u8], at: usize) -> Option<Result<Option<Field>, WireFault>> {
    if at > bytes.len() {
        return None;
    }
    Some(next_record(bytes, at))
}

// Bytes, and the record at their start.
const RECORDS: &[(&[u8], Field)] = &[
    (
        &[0x08, 0x96, 0x01],
        Field {
            number: 1,
            wire: Wire::Varint,
            value: 150,
            start: 1,
            end: 3,
        },
    ),
    (
        &[0x12, 0x02, 0x68, 0x69, 0x00],
        Field {
            number: 2,
            wire: Wire::Len,
            value: 2,
            start: 2,
            end: 4,
        },
    ),
    (
        &[0x09, 1, 2, 3, 4, 5, 6, 7, 8],
        Field {
            number: 1,
            wire: Wire::I64,
            value: 0x0807_0605_0403_0201,
            start: 1,
            end: 9,
        },
    ),
    (
        &[0x0D, 1, 2, 3, 4],
        Field {
            number: 1,
            wire: Wire::I32,
            value: 0x0403_0201,
            start: 1,
            end: 5,
        },
    ),
];

#[test]
fn a_record_is_its_number_its_wire_type_and_its_payload(rt: HostRuntime) {
    for (at, (bytes, wanted)) in RECORDS.iter().enumerate() {
        row_holds(&rt, at, record(bytes, 0) == Some(Ok(Some(*wanted))));
    }
    is_so(&rt, record(&[0x08, 0x96, 0x01], 3) == Some(Ok(None)));
}

// Bytes, and the first fault of the record at their start.
const FAULTY: &[(&[u8], WireFault)] = &[
    (&[0x00], WireFault::BadField),
    (&[0x0B], WireFault::BadWireType),
    (&[0x0A, 0x02, 0x61], WireFault::Truncated),
    (&[0x0D, 1, 2, 3], WireFault::Truncated),
    (&[0x03], WireFault::BadField),
    (&[0xFB, 0xFF, 0xFF, 0xFF, 0x0F], WireFault::BadWireType),
    (&[0x80, 0x80, 0x80, 0x80, 0x10], WireFault::BadField),
];

#[test]
fn a_record_has_its_first_fault(rt: HostRuntime) {
    for (at, (bytes, wanted)) in FAULTY.iter().enumerate() {
        row_holds(&rt, at, record(bytes, 0) == Some(Err(*wanted)));
    }
}

// Returns the bytes that are written for a number and then for four records.
fn spelled(rt: &impl Abort, alloc: Global) -> Vec<u8> {
    let mut out = Vec::new(alloc);
    write_varint(300, &mut out).expect(rt, "memory");
    write_record(1, Wire::Varint, 150, &[], &mut out).expect(rt, "memory");
    write_record(2, Wire::Len, 0, b"hi", &mut out).expect(rt, "memory");
    write_record(1, Wire::I64, 0x0807_0605_0403_0201, &[], &mut out).expect(rt, "memory");
    write_record(1, Wire::I32, 0x0403_0201, &[], &mut out).expect(rt, "memory");
    out
}

#[test]
fn shortest_spellings_are_written(rt: HostRuntime) {
    let wanted = [
        0xAC, 0x02, 0x08, 0x96, 0x01, 0x12, 0x02, 0x68, 0x69, 0x09, 1, 2, 3, 4, 5, 6, 7, 8, 0x0D,
        1, 2, 3, 4,
    ];
    is_so(
        &rt,
        spelled(&rt, rt.alloc()).as_slice() == wanted.as_slice(),
    );
}

fn vec_of(rt: &impl Abort, alloc: Global, bytes: &[u8]) -> Vec<u8> {
    Vec::from_slice(alloc, bytes).expect(rt, "memory")
}

fn bytes_of(rt: &impl Abort, alloc: Global, bytes: &[u8]) -> Bytes {
    Bytes::from_slice(alloc, bytes).expect(rt, "memory")
}

fn text_of(rt: &impl Abort, alloc: Global, text: &str) -> Text {
    Text::from_str(alloc, text).expect(rt, "memory")
}

// Returns whether a byte string of `bytes` equals its copy, whether it differs from a byte string of `other`, and whether the copy
// turns back into `bytes`.
fn keeps_bytes(rt: &impl Abort, alloc: Global, bytes: &[u8], other: &[u8]) -> bool {
    let kept = bytes_of(rt, alloc, bytes);
    kept.is_bytes();
    let copied = kept.copy().expect(rt, "memory");
    let apart = Bytes::new(vec_of(rt, alloc, other));
    let holds = kept.same(&copied) && !kept.same(&apart) && kept.as_slice() == bytes;
    holds && copied.into_vec().as_slice() == bytes
}

// Returns whether a text equals its copy, whether it differs from the text `other`, and whether the copy turns back into the same
// string.
fn keeps_text(rt: &impl Abort, alloc: Global, text: &str, other: &str) -> bool {
    let kept = text_of(rt, alloc, text);
    let copied = kept.copy().expect(rt, "memory");
    let apart = Text::new(String::from_str(alloc, other).expect(rt, "memory"));
    let holds = kept.same(&copied) && !kept.same(&apart) && kept.as_str() == text;
    holds && copied.into_string().as_str() == text
}

fn keeps_items(rt: &impl Abort, alloc: Global, items: &[u8]) -> bool {
    let many = Many::new(vec_of(rt, alloc, items));
    let holds = many.len() == items.len() && many.is_empty() == items.is_empty();
    let seen = many.as_slice() == items;
    holds && seen && many.into_vec().as_slice() == items
}

#[test]
fn texts_byte_strings_and_lists_own_what_they_were_given(rt: HostRuntime) {
    let alloc = rt.alloc();
    is_so(&rt, keeps_bytes(&rt, alloc, b"ab", b"b"));
    is_so(&rt, keeps_text(&rt, alloc, "é", "e"));
    is_so(&rt, keeps_items(&rt, alloc, &[3, 4]));
    is_so(&rt, keeps_items(&rt, alloc, &[]));
    prints(&rt, alloc, &text_of(&rt, alloc, "é"), "é");
}

// A writer that takes one byte in each write, and fails once it has taken `room` bytes.
#[derive(Drop)]
struct Narrow {
    room: usize,
    held: Vec<u8>,
}

impl Write for Narrow {
    fn write(&mut self, bytes: &[u8]) -> io::Result<usize> {
        if self.room == 0 {
            return Err(ErrorKind::Other.into());
        }
        match bytes.first() {
            None => Ok(0),
            Some(first) => {
                self.held.push(*first)?;
                self.room -= 1;
                Ok(1)
            }
        }
    }

    fn flush(&mut self) -> io::Result<()> {
        Ok(())
    }
}

// Writes `hello`, no bytes and `x` to a writer that has room for `room` bytes; before `x` the writer gets more room. Returns how
// many bytes the writer took; whether writing `hello` failed; whether writing no bytes then succeeded; and whether `x` was refused.
fn written(alloc: Global, room: usize) -> (usize, [bool; 3]) {
    let mut writer = Narrow {
        room,
        held: Vec::new(alloc),
    };
    let mut sink = Over::new(&mut writer);
    let failed = write_all(&mut sink, b"hello") == Err(Failed) && sink.failed;
    let nothing = !sink.failed && sink.write(b"") == Ok(0);
    sink.out.room = 9;
    let refused = sink.write(b"x") == Err(Failed);
    (writer.held.len(), [failed, nothing, refused])
}

#[test]
fn a_writer_of_one_byte_a_write_gets_all_or_a_prefix(rt: HostRuntime) {
    for room in 0..5 {
        let wanted = (room, [true, false, true]);
        row_holds(&rt, room, written(rt.alloc(), room) == wanted);
    }
    is_so(&rt, written(rt.alloc(), 9) == (6, [false, true, false]));
}

// Returns whether these bytes are written as this hexadecimal text, and this text is read as these bytes.
fn is_written_so(rt: &impl Abort, alloc: Global, bytes: &[u8], wanted: &str) -> bool {
    let mut text = String::new(alloc);
    push_hex(alloc, &mut text, bytes).expect(rt, "memory");
    let read = read_hex(alloc, wanted).expect(rt, "memory");
    let read = read.expect(rt, "bytes");
    text.as_str() == wanted && read.as_slice() == bytes
}

#[test]
fn bytes_are_written_in_hexadecimal(rt: HostRuntime) {
    let rows: [(&[u8], &str); 3] = [(&[], "-"), (&[0], "00"), (&[0xAB, 1], "ab01")];
    for (bytes, text) in rows {
        let same = is_written_so(&rt, rt.alloc(), bytes, text);
        holds(&rt, text, same && is_hex(text));
    }
    for text in ["", "a", "AB", "g0", "-a", "--"] {
        holds(&rt, text, !is_hex(text));
    }
}

fn digest_text(rt: &impl Abort, alloc: Global) -> Text {
    text_of_digest(alloc, &[0x5D; 32]).expect(rt, "memory")
}

#[test]
fn a_digest_has_its_algorithm_in_front(rt: HostRuntime) {
    let wanted = "sha256:5d5d5d5d5d5d5d5d5d5d5d5d5d5d5d5d5d5d5d5d5d5d5d5d5d5d5d5d5d5d5d5d";
    is_same(&rt, digest_text(&rt, rt.alloc()).as_str(), wanted);
}

#[test]
fn a_number_is_read_by_its_digits(rt: HostRuntime) {
    is_so(
        &rt,
        magnitude(b"007") == Some(7) && magnitude(b"+7").is_none(),
    );
}
