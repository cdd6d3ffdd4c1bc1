//! Tests `read_bounded`, which reads a whole input with a bound on its bytes and a bound on the number of reads.

use super::devices::Slow;
use llb_commands::{ReadFault, read_bounded};
use std::alloc::Global;
use std::io;
use std::io::{ErrorKind, Read};
use std::test::Fail;

// Reads `hello` with at most `limit` bytes and `reads` reads, from a reader that fails after `room` reads. Returns the
// result in words.
fn hello(alloc: Global, limit: usize, reads: u64, room: usize) -> &'static str {
    let mut input = Slow {
        bytes: b"hello",
        room,
    };
    match read_bounded(alloc, &mut input, limit, reads) {
        Ok(bytes) if bytes.as_slice() == b"hello".as_slice() => "hello",
        Ok(_) => "other bytes",
        Err(ReadFault::TooLong) => "too long",
        Err(ReadFault::Failed(_)) => "failed",
        Err(ReadFault::Unending(_)) => "unending",
        Err(ReadFault::Memory) => "memory",
    }
}

#[test]
fn an_input_past_a_bound_is_not_read(rt: HostRuntime) {
    let rows = [
        (5, 6, 9, "hello"),
        (4, 6, 9, "too long"),
        (5, 5, 9, "unending"),
        (5, 3, 9, "unending"),
        (5, 0, 9, "unending"),
        (5, 6, 2, "failed"),
    ];
    for (limit, reads, room, wanted) in rows {
        let came = hello(rt.alloc(), limit, reads, room);
        assert!(rt;
            came == wanted,
            "{limit} bytes in {reads} reads of {room}: {came}"
        );
    }
}

// A reader whose first `times` reads are interrupted, and whose later reads return bytes.
#[derive(Drop)]
struct Startled<'a> {
    bytes: &'a [u8],
    times: u64,
}

impl<'a> Read for Startled<'a> {
    fn read(&mut self, piece: &mut [u8]) -> io::Result<usize> {
        if self.times == 0 {
            return self.bytes.read(piece);
        }
        self.times -= 1;
        Err(ErrorKind::Interrupted.into())
    }
}

#[test]
fn an_interrupted_read_is_done_again_and_counts(rt: HostRuntime) -> Result<(), Fail> {
    let alloc = rt.alloc();
    for (reads, wanted) in [(5, None), (4, Some(3)), (2, Some(2))] {
        let mut input = Startled {
            bytes: b"hello",
            times: 3,
        };
        match read_bounded(alloc, &mut input, 9, reads) {
            Ok(bytes) => assert!(rt; wanted.is_none() && bytes.as_slice() == b"hello".as_slice()),
            Err(ReadFault::Unending(interrupted)) => assert!(rt; Some(interrupted) == wanted),
            Err(_) => panic!(rt; "{reads} reads"),
        }
    }
    Ok(())
}
