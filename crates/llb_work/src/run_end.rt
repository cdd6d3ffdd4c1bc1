//! What a run returns.

ghost use Rattle.std.specs.Prelude.{Some};
ghost use Rattle.llb_work.specs.Faults.{run_text};

use llb_board::Board;
use std::{error, fmt};

/// Why a run ended before it was complete.
#[derive(Drop)]
pub enum RunFault {
    /// 151: memory was refused.
    Memory,
    /// 152: the gate stopped a worker.
    Stopped,
    /// 153: a thread could not be started.
    Thread,
    /// 154: the copy of the board under the lock differs from the board given to the run. This never occurs.
    Foreign(Board),
}

impl fmt::Display for RunFault {
    ghost output = { λ e. Some (run_text e) };

    fn fmt<W: fmt::Write>(&self, f: &mut fmt::Formatter<W>) -> fmt::Result {
        match self {
            RunFault::Memory => write!(f, "151"),
            RunFault::Stopped => write!(f, "152"),
            RunFault::Thread => write!(f, "153"),
            RunFault::Foreign(_) => write!(f, "154"),
        }
    }
}

impl error::Error for RunFault {}

impl fmt::Debug for RunFault {
    fn fmt<W: fmt::Write>(&self, f: &mut fmt::Formatter<W>) -> fmt::Result {
        write!(f, "{self}")
    }
}

/// How a run ended: the board, the number of events that each worker made, and the fault, which is `None` only if the board is complete.
#[derive(Drop)]
pub struct RunEnd {
    pub board: Board,
    pub made: [u64; 64],
    pub fault: Option<RunFault>,
}
