//! The faults of leases and of copies. A fault prints its number; `Held` then prints the ID of its key. The operator
//! `?` converts any refusal of memory to `Memory`.

use crate::key::Key;
use std::alloc::AllocError;
use thiserror::Error;

/// Why a lease is refused.
#[derive(Debug, Drop, Error)]
pub enum LeaseFault {
    /// 111: another current lease has the instance of a locked key, whose ID follows.
    #[error("111 {0}")]
    Held(Key),
    /// 112: memory was refused.
    #[error("112")]
    Memory,
}

/// 112: memory was refused.
#[derive(Clone, Copy, Debug, PartialEq, Eq, Error)]
#[error("112")]
pub struct Memory;

impl From<llb_wire::Memory> for LeaseFault {
    ghost use Rattle.std.specs.Prelude.{◌≡◌};
    ghost use Rattle.llb_cache.specs.declared.fault.LeaseFault.TheVariants as lease;

    ghost from_gives = { λ _ e. e ≡ lease.Memory };

    fn from(_: llb_wire::Memory) -> LeaseFault {
        LeaseFault::Memory
    }
}

impl From<AllocError> for LeaseFault {
    ghost use Rattle.std.specs.Prelude.{◌≡◌};
    ghost use Rattle.llb_cache.specs.declared.fault.LeaseFault.TheVariants as lease;

    ghost from_gives = { λ _ e. e ≡ lease.Memory };

    fn from(_: AllocError) -> LeaseFault {
        LeaseFault::Memory
    }
}

impl From<llb_wire::Memory> for Memory {
    fn from(_: llb_wire::Memory) -> Memory {
        Memory
    }
}

impl From<Memory> for llb_wire::Memory {
    fn from(_: Memory) -> llb_wire::Memory {
        llb_wire::Memory
    }
}
