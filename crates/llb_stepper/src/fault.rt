//! Why a call on a stepper is refused. Printing a fault writes its number and its arguments.

ghost use Rattle.std.specs.Prelude.{Some};
ghost use Rattle.llb_stepper.specs.Faults.{stepper_text};

use llb_board::WalkFault;
use std::alloc::AllocError;
use std::{error, fmt};

/// Why a stepper does not do what it is asked for.
#[derive(Debug, Drop)]
pub enum StepperFault {
    /// 171: the board refuses the event; the board's fault, 131 to 138 or 141, follows.
    Board(WalkFault),
    /// 172: the stepper has done no event that it could take back.
    NothingBefore,
    /// 173 N: line N of a session is no command.
    BadCommand(u64),
    /// 174: memory was refused to the stepper itself.
    Memory,
}

impl fmt::Display for StepperFault {
    ghost output = { λ e. Some (stepper_text e) };

    fn fmt<W: fmt::Write>(&self, f: &mut fmt::Formatter<W>) -> fmt::Result {
        match self {
            StepperFault::Board(fault) => write!(f, "171 {fault}"),
            StepperFault::NothingBefore => write!(f, "172"),
            StepperFault::BadCommand(line) => write!(f, "173 {line}"),
            StepperFault::Memory => write!(f, "174"),
        }
    }
}

impl error::Error for StepperFault {}

impl From<AllocError> for StepperFault {
    ghost use Rattle.std.specs.Prelude.{◌≡◌};
    ghost use Rattle.llb_stepper.specs.declared.fault.StepperFault.TheVariants.{Memory};

    ghost from_gives = { λ _ e. e ≡ Memory };

    fn from(_: AllocError) -> StepperFault {
        StepperFault::Memory
    }
}
