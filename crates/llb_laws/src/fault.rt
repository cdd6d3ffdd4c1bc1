//! Why no board is opened on outputs of another board. A fault prints its number; a fault of loading is printed as it is.

use llb_loader::LoadFault;
use llb_wire::Memory;
use thiserror::Error;

/// Why no board is opened on outputs of an earlier board: the first cause that applies.
#[derive(Debug, Drop, Error)]
pub enum KeptFault {
    /// 122: the number of workers is 0 or more than 64.
    #[error("122")]
    Workers,
    /// The definition is refused, with this fault of `load`.
    #[error("{0}")]
    Load(LoadFault),
    /// 123: memory was refused.
    #[error("123")]
    Memory,
}

impl From<LoadFault> for KeptFault {
    ghost use Rattle.std.specs.Prelude.{◌≡◌};
    ghost use Rattle.llb_laws.specs.Refusals.{load_refused};

    ghost from_gives = { λ f e. e ≡ load_refused f };

    fn from(fault: LoadFault) -> KeptFault {
        match fault {
            LoadFault::Memory => KeptFault::Memory,
            other => KeptFault::Load(other),
        }
    }
}

impl From<Memory> for KeptFault {
    ghost use Rattle.std.specs.Prelude.{◌≡◌};
    ghost use Rattle.llb_laws.specs.declared.fault.KeptFault.TheVariants as kept;

    ghost from_gives = { λ _ e. e ≡ kept.Memory };

    fn from(_: Memory) -> KeptFault {
        KeptFault::Memory
    }
}
