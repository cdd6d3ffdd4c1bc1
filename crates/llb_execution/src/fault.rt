//! Why a job has no outcome. A fault prints its number.

use crate::worker_gate::Stopped;
use llb_wire::Memory;
use thiserror::Error;

/// Why a job has no outcome.
#[derive(Clone, Copy, Debug, Error)]
pub enum WorkFault {
    /// 143: the gate let no work begin.
    #[error("143")]
    Stopped,
    /// 142: memory was refused.
    #[error("142")]
    Memory,
}

impl From<Stopped> for WorkFault {
    ghost use Rattle.std.specs.Prelude.{◌≡◌};
    ghost use Rattle.llb_execution.specs.declared.fault.WorkFault.TheVariants as work;

    ghost from_gives = { λ _ e. e ≡ work.Stopped };

    fn from(_: Stopped) -> WorkFault {
        WorkFault::Stopped
    }
}

impl From<Memory> for WorkFault {
    ghost use Rattle.std.specs.Prelude.{◌≡◌};
    ghost use Rattle.llb_execution.specs.declared.fault.WorkFault.TheVariants as work;

    ghost from_gives = { λ _ e. e ≡ work.Memory };

    fn from(_: Memory) -> WorkFault {
        WorkFault::Memory
    }
}
