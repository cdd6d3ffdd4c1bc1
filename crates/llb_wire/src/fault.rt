//! What can be wrong with the bytes of a record; and the fault for refused memory. The text of a fault is its
//! number, which the program prints after the word `fault`.

ghost use Rattle.std.specs.Prelude.{Some};
ghost use Rattle.llb_wire.specs.Faults.{wire_text};

use std::alloc::{AllocError, AllocFailed};
use std::{error, fmt};
use thiserror::Error;

/// What is wrong with the bytes of a record: the first fault from left to right.
#[derive(Clone, Copy, Debug, PartialEq, Eq)]
pub enum WireFault {
    /// 1: the bytes end inside the record.
    Truncated,
    /// 2: the tenth byte of a varint is above 1.
    LongVarint,
    /// 3: the number of the field is 0 or above 536,870,911.
    BadField,
    /// 4: the wire type is 3, 4, 6 or 7.
    BadWireType,
}

impl fmt::Display for WireFault {
    ghost output = { λ e. Some (wire_text e) };

    fn fmt<W: fmt::Write>(&self, f: &mut fmt::Formatter<W>) -> fmt::Result {
        match self {
            WireFault::Truncated => write!(f, "1"),
            WireFault::LongVarint => write!(f, "2"),
            WireFault::BadField => write!(f, "3"),
            WireFault::BadWireType => write!(f, "4"),
        }
    }
}

impl error::Error for WireFault {}

/// 5: memory was refused.
#[derive(Clone, Copy, Debug, PartialEq, Eq, Error)]
#[error("5")]
pub struct Memory;

impl From<AllocError> for Memory {
    fn from(_: AllocError) -> Memory {
        Memory
    }
}

impl<T: Drop> From<AllocFailed<T>> for Memory {
    fn from(_: AllocFailed<T>) -> Memory {
        Memory
    }
}
