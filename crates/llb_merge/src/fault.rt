//! The fault for refused memory, the only fault of this crate. Its text is its number, which the program prints after the word
//! `fault`. The calls on trees that this crate makes fail with `Memory` alone, as their clauses say.

use llb_tree::TreeFault;
use thiserror::Error;

/// 55: memory was refused.
#[derive(Clone, Copy, Debug, PartialEq, Eq, Error)]
#[error("55")]
pub struct Memory;

impl From<TreeFault> for Memory {
    fn from(_: TreeFault) -> Memory {
        Memory
    }
}

impl From<Memory> for llb_wire::Memory {
    fn from(_: Memory) -> llb_wire::Memory {
        llb_wire::Memory
    }
}
