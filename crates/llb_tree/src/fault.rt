//! Why a call on a tree or a path is refused. The text of a fault is its number, which the program prints
//! after the word `fault`. The operator `?` turns each error for refused memory into `Memory`.

use std::alloc::{AllocError, AllocFailed};
use thiserror::Error;

/// Why a call on a tree or a path is refused.
#[derive(Clone, Copy, Debug, PartialEq, Eq, Error)]
pub enum TreeFault {
    /// 21: nothing is at the path, or a parent is missing.
    #[error("21")]
    NotFound,
    /// 22: a parent is a file, or a file is where a directory has to be.
    #[error("22")]
    NotDir,
    /// 23: a directory is in the way of a file.
    #[error("23")]
    IsDir,
    /// 24: a file is in the way of a directory.
    #[error("24")]
    Conflict,
    /// 25: the edit can't be done at the root.
    #[error("25")]
    Root,
    /// 26: a part of a path is no name, or there would be more than 128 names.
    #[error("26")]
    BadName,
    /// 27: memory was refused.
    #[error("27")]
    Memory,
}

impl From<AllocError> for TreeFault {
    ghost use Rattle.std.specs.Prelude.{◌≡◌};
    ghost use Rattle.llb_tree.specs.declared.fault.TreeFault.TheVariants.{Memory};

    ghost from_gives = { λ _ e. e ≡ Memory };

    fn from(_: AllocError) -> TreeFault {
        TreeFault::Memory
    }
}

impl<T: Drop> From<AllocFailed<T>> for TreeFault {
    ghost use Rattle.std.specs.Prelude.{◌≡◌};
    ghost use Rattle.llb_tree.specs.declared.fault.TreeFault.TheVariants.{Memory};

    ghost from_gives = { λ _ e. e ≡ Memory };

    fn from(_: AllocFailed<T>) -> TreeFault {
        TreeFault::Memory
    }
}

impl From<llb_wire::Memory> for TreeFault {
    ghost use Rattle.std.specs.Prelude.{◌≡◌};
    ghost use Rattle.llb_tree.specs.declared.fault.TreeFault.TheVariants.{Memory};

    ghost from_gives = { λ _ e. e ≡ Memory };

    fn from(_: llb_wire::Memory) -> TreeFault {
        TreeFault::Memory
    }
}

/// Converts the fault for refused memory, with which making or copying a name, a path or a tree can fail.
impl From<TreeFault> for llb_wire::Memory {
    fn from(_: TreeFault) -> llb_wire::Memory {
        llb_wire::Memory
    }
}
