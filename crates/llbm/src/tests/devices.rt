//! Readers and writers that are in memory, some of which fail after a number of reads, writes or flushes.

use std::alloc::Global;
use std::io;
use std::io::{ErrorKind, Read, Write};

/// The result of a call of the program: its exit status, and the bytes that it wrote to standard output and to standard error.
#[derive(Drop)]
pub(crate) struct Ran {
    pub status: u8,
    pub out: Vec<u8>,
    pub err: Vec<u8>,
}

impl Ran {
    /// Returns whether the call ended with this status, and wrote exactly `out` to standard output and `err` to standard error.
    pub(crate) fn is(&self, status: u8, out: &str, err: &str) -> bool {
        let texts = self.out.as_slice() == out.as_bytes() && self.err.as_slice() == err.as_bytes();
        self.status == status && texts
    }

    /// Returns whether the call ended with status 3, wrote only the first `length` bytes of `text` to standard output, and
    /// wrote exactly `line` to standard error.
    pub(crate) fn is_cut(&self, text: &str, length: usize, line: &str) -> bool {
        let printed = self.out.len() == length && self.err.as_slice() == line.as_bytes();
        self.status == 3 && printed && text.as_bytes().starts_with(self.out.as_slice())
    }

    /// Returns whether the call ended with status 3, wrote nothing to standard output, and wrote only the first `length` bytes
    /// of `line` to standard error.
    pub(crate) fn is_cut_line(&self, line: &str, length: usize) -> bool {
        let printed = self.out.is_empty() && self.err.len() == length;
        self.status == 3 && printed && line.as_bytes().starts_with(self.err.as_slice())
    }
}

/// How many reads, writes and flushes the devices of a call do before they fail.
#[derive(Clone, Copy)]
pub(crate) struct Rooms {
    /// How many reads of standard input succeed before one fails. Each read returns at most one byte.
    pub input: usize,
    /// How many reads of the definition's file succeed before one fails.
    pub file: usize,
    /// How many reads of each local source's file succeed before one fails.
    pub local: usize,
    pub out: usize,
    pub flushes: usize,
    pub err: usize,
}

const MANY: usize = 1 << 20;

/// Devices each of which fails only after 1,048,576 reads, writes or flushes.
pub(crate) const AMPLE: Rooms = Rooms {
    input: MANY,
    file: MANY,
    local: MANY,
    out: MANY,
    flushes: MANY,
    err: MANY,
};

/// A reader that returns one byte in each read, and none at the end of its bytes. After `room` reads the next read fails.
#[derive(Drop)]
pub(crate) struct Slow<'a> {
    pub bytes: &'a [u8],
    pub room: usize,
}

impl<'a> Read for Slow<'a> {
    fn read(&mut self, piece: &mut [u8]) -> io::Result<usize> {
        if self.room == 0 {
            return Err(ErrorKind::Other.into());
        }
        self.room -= 1;
        match self.bytes.split_first() {
            Some((first, rest)) if !piece.is_empty() => {
                piece[0] = *first;
                self.bytes = rest;
                Ok(1)
            }
            _ => Ok(0),
        }
    }
}

/// A writer that takes one byte in each write. After `room` writes the next write fails; after `flushes` flushes the next flush
/// fails.
#[derive(Drop)]
pub(crate) struct Narrow {
    pub room: usize,
    pub held: Vec<u8>,
    pub flushes: usize,
}

impl Narrow {
    pub(crate) fn new(alloc: Global, room: usize) -> Narrow {
        Narrow {
            room,
            held: Vec::new(alloc),
            flushes: MANY,
        }
    }

    /// Returns the bytes that were written.
    pub(crate) fn into_held(self) -> Vec<u8> {
        self.held
    }
}

impl Write for Narrow {
    fn write(&mut self, bytes: &[u8]) -> io::Result<usize> {
        if self.room == 0 {
            return Err(ErrorKind::Other.into());
        }
        match bytes.first() {
            None => Ok(0),
            Some(first) => {
                self.held.push(*first)?;
                self.room -= 1;
                Ok(1)
            }
        }
    }

    fn flush(&mut self) -> io::Result<()> {
        if self.flushes == 0 {
            return Err(ErrorKind::Other.into());
        }
        self.flushes -= 1;
        Ok(())
    }
}
