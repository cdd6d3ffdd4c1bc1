//! Why a graph is not evaluated. A fault prints its number, and then its argument. The operator `?` turns each error for
//! refused memory into `Memory`.

use llb_wire::Text;
use std::alloc::AllocFailed;
use thiserror::Error;

/// Why a graph is not evaluated: the first of these causes that applies.
#[derive(Debug, Drop, Error)]
pub enum PlainFault {
    /// 101: a local source has no tree; the name of the first such source, by vertex, follows.
    #[error("101 {0}")]
    MissingLocal(Text),
    /// 102: a vertex mounts a cache; the number of the first such vertex follows.
    #[error("102 {0}")]
    HasCache(u32),
    /// 103: memory was refused.
    #[error("103")]
    Memory,
}

impl<T: Drop> From<AllocFailed<T>> for PlainFault {
    ghost use Rattle.std.specs.Prelude.{◌≡◌};
    ghost use Rattle.llb_plain.specs.declared.fault.PlainFault.TheVariants as plain;

    ghost from_gives = { λ _ e. e ≡ plain.Memory };

    fn from(_: AllocFailed<T>) -> PlainFault {
        PlainFault::Memory
    }
}

impl From<llb_wire::Memory> for PlainFault {
    ghost use Rattle.std.specs.Prelude.{◌≡◌};
    ghost use Rattle.llb_plain.specs.declared.fault.PlainFault.TheVariants as plain;

    ghost from_gives = { λ _ e. e ≡ plain.Memory };

    fn from(_: llb_wire::Memory) -> PlainFault {
        PlainFault::Memory
    }
}
