//! The reasons that a worker notes under the lock for ending a run early; and a trait for the type of a run's ledger, which counts the events that the
//! workers do.

ghost use Rattle.std.specs.Prelude.{ℕ, Bool, true};
ghost use Rattle.llb_board.specs.BoardValue.{BoardValue};
ghost use Rattle.llb_work.specs.LockSharingWorkers.{nothing};

use std::marker::Brand;
use std::sync::ledger::Ledger;

/// Why a run ends before its board is complete.
#[derive(Clone, Copy, Debug, PartialEq, Eq)]
pub(crate) enum Noted {
    /// Memory was refused.
    Memory,
    /// The gate stopped this worker at this vertex.
    Stopped(u32, u32),
    /// A thread could not be started.
    Thread,
}

/// The ledger of a run, which counts the run's events. For use in clauses, its type also has the board that the run was given (`start`), and at which vertices
/// the run's gate may stop which workers (`may_stop`).
pub(crate) trait Gated: Ledger {
    ghost may_stop: { ℕ → ℕ → Bool };

    ghost start: { BoardValue };
}

impl Gated for Brand {
    ghost may_stop = { λ w v. true };

    ghost start = { nothing };
}
