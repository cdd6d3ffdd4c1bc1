//! Why bytes are not read as a message. A fault prints what comes after the word `fault` in a refusal.

ghost use Rattle.std.specs.Prelude.{Some};
ghost use Rattle.llb_ops.specs.Faults.{op_text};

use llb_wire::{Memory, WireFault};
use std::alloc::AllocFailed;
use std::{error, fmt};

/// Why a message could not be read: the first fault, in the order in which the message is checked.
#[derive(Clone, Copy, Debug, PartialEq, Eq)]
pub enum OpFault {
    /// 1 to 4: a record is not readable.
    Wire(WireFault),
    /// 11: a record's wire type is not that of its field in the table of messages.
    WrongWireType,
    /// 12: the bytes of a string are not UTF-8.
    NotUtf8,
    /// 13: there are more bytes, entries or records of one field than the limits allow.
    OverLimit,
    /// 14: memory was refused.
    Memory,
}

impl fmt::Display for OpFault {
    ghost output = { λ e. Some (op_text e) };

    fn fmt<W: fmt::Write>(&self, f: &mut fmt::Formatter<W>) -> fmt::Result {
        match self {
            OpFault::Wire(fault) => write!(f, "{fault}"),
            OpFault::WrongWireType => write!(f, "11"),
            OpFault::NotUtf8 => write!(f, "12"),
            OpFault::OverLimit => write!(f, "13"),
            OpFault::Memory => write!(f, "14"),
        }
    }
}

impl error::Error for OpFault {}

impl From<WireFault> for OpFault {
    ghost use Rattle.std.specs.Prelude.{◌≡◌};
    ghost use Rattle.llb_ops.specs.declared.fault.OpFault.TheVariants.{Wire};

    ghost from_gives = { λ f e. e ≡ Wire f };

    fn from(fault: WireFault) -> OpFault {
        OpFault::Wire(fault)
    }
}

impl From<Memory> for OpFault {
    ghost use Rattle.std.specs.Prelude.{◌≡◌};
    ghost use Rattle.llb_ops.specs.declared.fault.OpFault.TheVariants as fault;

    ghost from_gives = { λ _ e. e ≡ fault.Memory };

    fn from(_: Memory) -> OpFault {
        OpFault::Memory
    }
}

impl<T: Drop> From<AllocFailed<T>> for OpFault {
    ghost use Rattle.std.specs.Prelude.{◌≡◌};
    ghost use Rattle.llb_ops.specs.declared.fault.OpFault.TheVariants as fault;

    ghost from_gives = { λ _ e. e ≡ fault.Memory };

    fn from(_: AllocFailed<T>) -> OpFault {
        OpFault::Memory
    }
}
