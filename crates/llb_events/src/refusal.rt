//! Why an event is refused. A fault prints its number; 135 `Held` then prints the ID of the held key.

ghost use Rattle.std.specs.Prelude.{Some};
ghost use Rattle.llb_events.specs.Faults.{claim_text, step_text, settle_text, cancel_text};

use llb_cache::Key;
use std::{error, fmt};

/// Why a claim is refused: the first cause that applies.
#[derive(Debug, Drop)]
pub enum ClaimFault {
    /// 131: there is no worker of that number.
    NoWorker,
    /// 132: the worker runs a vertex.
    Busy,
    /// 133: there is no vertex of that number.
    NoVertex,
    /// 134: the vertex does not wait, or an input of it is not done.
    NotReady,
    /// 135: running workers have locked caches of the vertex; the ID of the first in mount order follows.
    Held(Key),
    /// 141: memory was refused.
    Memory,
}

impl fmt::Display for ClaimFault {
    ghost output = { λ e. Some (claim_text e) };

    fn fmt<W: fmt::Write>(&self, f: &mut fmt::Formatter<W>) -> fmt::Result {
        match self {
            ClaimFault::NoWorker => write!(f, "131"),
            ClaimFault::Busy => write!(f, "132"),
            ClaimFault::NoVertex => write!(f, "133"),
            ClaimFault::NotReady => write!(f, "134"),
            ClaimFault::Held(key) => write!(f, "135 {key}"),
            ClaimFault::Memory => write!(f, "141"),
        }
    }
}

impl error::Error for ClaimFault {}

/// Why a step is refused: the first cause that applies.
#[derive(Clone, Copy, Debug, PartialEq, Eq)]
pub enum StepFault {
    /// 131: there is no worker of that number.
    NoWorker,
    /// 136: the worker is idle.
    NotRunning,
    /// 137: the worker's vertex is finished.
    NothingLeft,
    /// 141: memory was refused.
    Memory,
}

impl fmt::Display for StepFault {
    ghost output = { λ e. Some (step_text e) };

    fn fmt<W: fmt::Write>(&self, f: &mut fmt::Formatter<W>) -> fmt::Result {
        match self {
            StepFault::NoWorker => write!(f, "131"),
            StepFault::NotRunning => write!(f, "136"),
            StepFault::NothingLeft => write!(f, "137"),
            StepFault::Memory => write!(f, "141"),
        }
    }
}

impl error::Error for StepFault {}

/// Why a settle is refused: the first cause that applies.
#[derive(Clone, Copy, Debug, PartialEq, Eq)]
pub enum SettleFault {
    /// 131: there is no worker of that number.
    NoWorker,
    /// 136: the worker is idle.
    NotRunning,
    /// 138: the worker's vertex is not finished.
    NotFinished,
}

impl fmt::Display for SettleFault {
    ghost output = { λ e. Some (settle_text e) };

    fn fmt<W: fmt::Write>(&self, f: &mut fmt::Formatter<W>) -> fmt::Result {
        match self {
            SettleFault::NoWorker => write!(f, "131"),
            SettleFault::NotRunning => write!(f, "136"),
            SettleFault::NotFinished => write!(f, "138"),
        }
    }
}

impl error::Error for SettleFault {}

/// Why a cancel is refused: the first cause that applies.
#[derive(Clone, Copy, Debug, PartialEq, Eq)]
pub enum CancelFault {
    /// 131: there is no worker of that number.
    NoWorker,
    /// 136: the worker is idle.
    NotRunning,
}

impl fmt::Display for CancelFault {
    ghost output = { λ e. Some (cancel_text e) };

    fn fmt<W: fmt::Write>(&self, f: &mut fmt::Formatter<W>) -> fmt::Result {
        match self {
            CancelFault::NoWorker => write!(f, "131"),
            CancelFault::NotRunning => write!(f, "136"),
        }
    }
}

impl error::Error for CancelFault {}

impl From<llb_wire::Memory> for ClaimFault {
    ghost use Rattle.std.specs.Prelude.{◌≡◌};
    ghost use Rattle.llb_events.specs.declared.refusal.ClaimFault.TheVariants.{Memory};

    ghost from_gives = { λ _ e. e ≡ Memory };

    fn from(_: llb_wire::Memory) -> ClaimFault {
        ClaimFault::Memory
    }
}

impl From<llb_wire::Memory> for StepFault {
    ghost use Rattle.std.specs.Prelude.{◌≡◌};
    ghost use Rattle.llb_events.specs.declared.refusal.StepFault.TheVariants.{Memory};

    ghost from_gives = { λ _ e. e ≡ Memory };

    fn from(_: llb_wire::Memory) -> StepFault {
        StepFault::Memory
    }
}
