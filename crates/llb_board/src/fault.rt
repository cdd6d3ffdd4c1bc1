//! The faults of opening a board, of a landing and of `Board::walk`, and the fault of calls that fail for want of memory alone; `llb_events` has the faults of
//! single events. A fault prints its number; 121 then prints the name of the local source without a tree. The fault of an opening or a landing holds what was
//! handed to the call. Inside the crate want of memory is `llb_wire::Memory`, which `?` converts.

ghost use Rattle.std.specs.Prelude.{Some};
ghost use Rattle.llb_board.specs.Faults.{walk_text};

use llb_cache::Caches;
use llb_events::{CancelFault, ClaimFault, SettleFault, StepFault};
use llb_execution::Outcome;
use llb_loader::{Graph, Locals};
use llb_wire::Text;
use std::alloc::AllocError;
use std::{error, fmt};
use thiserror::Error;

/// 141: memory was refused.
#[derive(Clone, Copy, Debug, Error)]
#[error("141")]
pub struct Memory;

/// Why an outcome does not land: the first cause that applies. The outcome is in the fault.
#[derive(Drop, Error)]
pub enum LandFault {
    /// 131: there is no worker of that number.
    #[error("131")]
    NoWorker(Outcome),
    /// 136: the worker is idle.
    #[error("136")]
    NotRunning(Outcome),
    /// 140: a cache of the vertex that the worker runs is in shared mode.
    #[error("140")]
    HasShared(Outcome),
    /// 139: the outcome's job is not what the worker has to do now, or a cache of the job has changed.
    #[error("139")]
    Stranger(Outcome),
}

impl fmt::Debug for LandFault {
    fn fmt<W: fmt::Write>(&self, f: &mut fmt::Formatter<W>) -> fmt::Result {
        write!(f, "{self}")
    }
}

/// Why a board is not opened. The graph, the local trees and the caches are in the fault.
#[derive(Drop, Error)]
pub enum OpenFault {
    /// 121: a local source has no tree; the name of the first such source, by vertex, follows.
    #[error("121 {0}")]
    MissingLocal(Text, Graph, Locals, Caches),
    /// 122: the number of workers is 0 or more than 64.
    #[error("122")]
    Workers(Graph, Locals, Caches),
    /// 123: memory was refused.
    #[error("123")]
    Memory(Graph, Locals, Caches),
}

impl fmt::Debug for OpenFault {
    fn fmt<W: fmt::Write>(&self, f: &mut fmt::Formatter<W>) -> fmt::Result {
        write!(f, "{self}")
    }
}

/// Why `Board::walk` refuses an event: the fault of the claim, the step, the settle or the cancel; or `Memory`, if memory was refused at any point.
#[derive(Debug, Drop)]
pub enum WalkFault {
    /// 131 to 135: a claim is refused.
    Claim(ClaimFault),
    /// 131, 136, 137: a step is refused.
    Step(StepFault),
    /// 131, 136, 138: a settle is refused.
    Settle(SettleFault),
    /// 131, 136: a cancel is refused.
    Cancel(CancelFault),
    /// 141: memory was refused.
    Memory,
}

impl fmt::Display for WalkFault {
    ghost output = { λ e. Some (walk_text e) };

    fn fmt<W: fmt::Write>(&self, f: &mut fmt::Formatter<W>) -> fmt::Result {
        match self {
            WalkFault::Claim(fault) => write!(f, "{fault}"),
            WalkFault::Step(fault) => write!(f, "{fault}"),
            WalkFault::Settle(fault) => write!(f, "{fault}"),
            WalkFault::Cancel(fault) => write!(f, "{fault}"),
            WalkFault::Memory => write!(f, "141"),
        }
    }
}

impl error::Error for WalkFault {}

impl From<AllocError> for Memory {
    fn from(_: AllocError) -> Memory {
        Memory
    }
}

impl From<llb_wire::Memory> for Memory {
    fn from(_: llb_wire::Memory) -> Memory {
        Memory
    }
}

impl From<llb_wire::Memory> for WalkFault {
    ghost use Rattle.std.specs.Prelude.{◌≡◌};
    ghost use Rattle.llb_board.specs.declared.fault.WalkFault.TheVariants as walk;

    ghost from_gives = { λ _ e. e ≡ walk.Memory };

    fn from(_: llb_wire::Memory) -> WalkFault {
        WalkFault::Memory
    }
}

impl From<ClaimFault> for WalkFault {
    ghost use Rattle.std.specs.Prelude.{◌≡◌};
    ghost use Rattle.llb_board.specs.Faults.{claim_refused};

    ghost from_gives = { λ f e. e ≡ claim_refused f };

    fn from(fault: ClaimFault) -> WalkFault {
        match fault {
            ClaimFault::Memory => WalkFault::Memory,
            other => WalkFault::Claim(other),
        }
    }
}

impl From<StepFault> for WalkFault {
    ghost use Rattle.std.specs.Prelude.{◌≡◌};
    ghost use Rattle.llb_board.specs.Faults.{step_refused};

    ghost from_gives = { λ f e. e ≡ step_refused f };

    fn from(fault: StepFault) -> WalkFault {
        match fault {
            StepFault::Memory => WalkFault::Memory,
            other => WalkFault::Step(other),
        }
    }
}

impl From<SettleFault> for WalkFault {
    ghost use Rattle.std.specs.Prelude.{◌≡◌};
    ghost use Rattle.llb_board.specs.declared.fault.WalkFault.TheVariants as walk;

    ghost from_gives = { λ f e. e ≡ walk.Settle f };

    fn from(fault: SettleFault) -> WalkFault {
        WalkFault::Settle(fault)
    }
}

impl From<CancelFault> for WalkFault {
    ghost use Rattle.std.specs.Prelude.{◌≡◌};
    ghost use Rattle.llb_board.specs.declared.fault.WalkFault.TheVariants as walk;

    ghost from_gives = { λ f e. e ≡ walk.Cancel f };

    fn from(fault: CancelFault) -> WalkFault {
        WalkFault::Cancel(fault)
    }
}
