//! Why a queue is not made, and why a number is not put into it. A fault prints its fault number, and 146 also the number that did not fit.

use std::alloc::AllocError;
use thiserror::Error;

/// Why a queue is not made.
#[derive(Clone, Copy, Debug, PartialEq, Eq, Error)]
pub enum ReadyFault {
    /// 145: memory was refused.
    #[error("145")]
    Memory,
}

/// 146: the queue was full. The fault holds the number that did not fit.
#[derive(Clone, Copy, Debug, PartialEq, Eq, Error)]
#[error("146 {0}")]
pub struct Full(pub u32);

impl From<AllocError> for ReadyFault {
    ghost use Rattle.std.specs.Prelude.{◌≡◌};
    ghost use Rattle.llb_ready.specs.declared.fault.ReadyFault.TheVariants as ready;

    ghost from_gives = { λ _ e. e ≡ ready.Memory };

    fn from(_: AllocError) -> ReadyFault {
        ReadyFault::Memory
    }
}
