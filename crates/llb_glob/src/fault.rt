//! Why a pattern is refused. The text of a fault is its number, which the program prints after the word
//! `fault`. The operator `?` turns each error for refused memory into `Memory`.

use llb_tree::TreeFault;
use std::alloc::{AllocError, AllocFailed};
use thiserror::Error;

/// Why a pattern is refused.
#[derive(Clone, Copy, Debug, PartialEq, Eq, Error)]
pub enum PatternFault {
    /// 41: a part is no name or the 129th, ends in a lone `\`, or has an empty, open or misspelled class.
    #[error("41")]
    BadPattern,
    /// 42: memory was refused.
    #[error("42")]
    Memory,
}

impl From<AllocError> for PatternFault {
    ghost use Rattle.std.specs.Prelude.{◌≡◌};
    ghost use Rattle.llb_glob.specs.declared.fault.PatternFault.TheVariants.{Memory};

    ghost from_gives = { λ _ e. e ≡ Memory };

    fn from(_: AllocError) -> PatternFault {
        PatternFault::Memory
    }
}

impl<T: Drop> From<AllocFailed<T>> for PatternFault {
    ghost use Rattle.std.specs.Prelude.{◌≡◌};
    ghost use Rattle.llb_glob.specs.declared.fault.PatternFault.TheVariants.{Memory};

    ghost from_gives = { λ _ e. e ≡ Memory };

    fn from(_: AllocFailed<T>) -> PatternFault {
        PatternFault::Memory
    }
}

impl From<TreeFault> for PatternFault {
    ghost use Rattle.std.specs.Prelude.{◌≡◌};
    ghost use Rattle.llb_glob.specs.CallResults.{renamed};

    ghost from_gives = { λ t e. e ≡ renamed t };

    fn from(fault: TreeFault) -> PatternFault {
        match fault {
            TreeFault::Memory => PatternFault::Memory,
            _ => PatternFault::BadPattern,
        }
    }
}
