//! Why an action is refused. A fault prints what follows the word `fault` in a refusal: the number of the fault, and after 51 the number of the
//! tree's fault. The operator `?` turns refused memory into `Memory`.

use llb_glob::PatternFault;
use llb_tree::TreeFault;
use llb_wire::Memory;
use thiserror::Error;

/// Why an action is refused.
#[derive(Clone, Copy, Debug, PartialEq, Eq, Error)]
pub enum ActFault {
    /// 51: a text is not a path, or the tree refuses the edit; the fault, 21 to 26, follows.
    #[error("51 {0}")]
    File(TreeFault),
    /// 52: a text is not a pattern.
    #[error("52")]
    BadPattern,
    /// 53: memory was refused.
    #[error("53")]
    Memory,
}

impl From<TreeFault> for ActFault {
    ghost use Rattle.std.specs.Prelude.{◌≡◌};
    ghost use Rattle.llb_fileop.specs.CallResults.{of_tree};

    ghost from_gives = { λ t e. e ≡ of_tree t };

    fn from(fault: TreeFault) -> ActFault {
        match fault {
            TreeFault::Memory => ActFault::Memory,
            _ => ActFault::File(fault),
        }
    }
}

impl From<PatternFault> for ActFault {
    ghost use Rattle.std.specs.Prelude.{◌≡◌};
    ghost use Rattle.llb_fileop.specs.CallResults.{of_pattern};

    ghost from_gives = { λ t e. e ≡ of_pattern t };

    fn from(fault: PatternFault) -> ActFault {
        match fault {
            PatternFault::Memory => ActFault::Memory,
            PatternFault::BadPattern => ActFault::BadPattern,
        }
    }
}

impl From<Memory> for ActFault {
    ghost use Rattle.std.specs.Prelude.{◌≡◌};
    ghost use Rattle.llb_fileop.specs.declared.fault.ActFault.TheVariants as fault;

    ghost from_gives = { λ _ e. e ≡ fault.Memory };

    fn from(_: Memory) -> ActFault {
        ActFault::Memory
    }
}
