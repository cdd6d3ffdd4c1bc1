//! Why a call on a view is refused. The text of a fault is its number. The fault `ReadOnly` holds the tree that the call was given.

use llb_tree::{Tree, TreeFault};
use std::alloc::{AllocError, AllocFailed};
use std::fmt;
use thiserror::Error;

/// 61: the mount is read-only; the fault holds the tree that the mount did not take.
#[derive(Drop, Error)]
#[error("61")]
pub struct ReadOnly {
    pub tree: Tree,
}

impl fmt::Debug for ReadOnly {
    fn fmt<W: fmt::Write>(&self, f: &mut fmt::Formatter<W>) -> fmt::Result {
        write!(f, "{self}")
    }
}

/// 62: memory was refused.
#[derive(Clone, Copy, Debug, PartialEq, Eq, Error)]
#[error("62")]
pub struct Memory;

impl From<AllocError> for Memory {
    fn from(_: AllocError) -> Memory {
        Memory
    }
}

impl<T: Drop> From<AllocFailed<T>> for Memory {
    fn from(_: AllocFailed<T>) -> Memory {
        Memory
    }
}

/// Converts the fault for refused memory, with which copying a path or a tree can fail, into this crate's `Memory`.
impl From<TreeFault> for Memory {
    fn from(_: TreeFault) -> Memory {
        Memory
    }
}

impl From<Memory> for llb_wire::Memory {
    fn from(_: Memory) -> llb_wire::Memory {
        llb_wire::Memory
    }
}
