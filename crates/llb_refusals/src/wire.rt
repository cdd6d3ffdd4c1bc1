//! Writes records while memory is refused.

use super::refused_growths::{Row, Trial, are_refused};
use super::value_texts::{printed_bytes, printed_fault, printed_text};
use llb_wire::{Memory, Wire, write_record, write_varint};
use std::alloc::Global;
use std::process::Abort;

// A call that appends a number or a record to the bytes `out`, the length of these bytes before the call, and the result of the latest call.
#[derive(Drop)]
struct OnBytes {
    call: &'static str,
    out: Vec<u8>,
    before: usize,
    answer: Option<Result<(), Memory>>,
}

impl Trial for OnBytes {
    fn ready(rt: &impl Abort, alloc: Global, row: &Row) -> OnBytes {
        let (call, on, _, _) = *row;
        let mut out = Vec::with_capacity(alloc, 8).expect(rt, "memory");
        out.extend_from_slice(on.as_bytes()).expect(rt, "memory");
        OnBytes {
            call,
            before: out.len(),
            out,
            answer: None,
        }
    }

    fn call(&mut self, _alloc: Global) {
        let out = &mut self.out;
        self.answer = Some(match self.call {
            "write_varint 300" => write_varint(300, out),
            "write_record 1 Varint 150" => write_record(1, Wire::Varint, 150, &[], out),
            _ => write_record(3, Wire::Len, 0, b"/a", out),
        });
    }

    fn printed(&self, rt: &impl Abort, alloc: Global) -> String {
        match &self.answer {
            None => printed_text(rt, alloc, "nothing"),
            Some(Ok(())) => printed_bytes(rt, alloc, &self.out),
            Some(Err(fault)) => printed_fault(rt, alloc, fault),
        }
    }

    fn is_as_before(&mut self, _rt: &impl Abort, _alloc: Global) -> bool {
        self.out.len() == self.before && self.out.starts_with(b"0123456".as_slice())
    }
}

const ROWS: &[Row] = &[
    ("write_varint 300", "0123456", "5", "30313233343536ac02"),
    ("write_varint 300", "01234567", "5", "3031323334353637ac02"),
    (
        "write_record 1 Varint 150",
        "0123456",
        "5",
        "30313233343536089601",
    ),
    (
        "write_record 1 Varint 150",
        "01234567",
        "5",
        "3031323334353637089601",
    ),
    (
        "write_record 3 LEN /a",
        "0123456",
        "5",
        "303132333435361a022f61",
    ),
    (
        "write_record 3 LEN /a",
        "01234567",
        "5",
        "30313233343536371a022f61",
    ),
];

#[test]
fn records_written(rt: HostRuntime) {
    are_refused::<OnBytes>(&rt, rt.alloc(), ROWS);
}
