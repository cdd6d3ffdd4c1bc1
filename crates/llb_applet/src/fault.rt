//! Why a script is refused, and the fault of a command for which memory is refused. A fault prints what follows the word `fault` in a
//! refusal: its number, and its argument. The operator `?` turns each error for refused memory into `Memory`.

ghost use Rattle.std.specs.Prelude.{Some};
ghost use Rattle.llb_applet.specs.CallResults.{script_text};

use llb_wire::Text;
use std::alloc::{AllocError, AllocFailed};
use std::{error, fmt};
use thiserror::Error;

/// Why a script is refused.
#[derive(Debug, Drop)]
pub enum ScriptFault {
    /// 71 WORD: the first word of a call, WORD, is no applet's name.
    NoApplet(Text),
    /// 72 C: in call C, counted from 0, the words after the applet's name fit none of its forms.
    Usage(usize),
    /// 73 P: the text is no list of calls with separators between them; P is its first bad position, from 0.
    ShellSyntax(usize),
    /// 74: memory was refused.
    Memory,
}

impl fmt::Display for ScriptFault {
    ghost output = { λ e. Some (script_text e) };

    fn fmt<W: fmt::Write>(&self, f: &mut fmt::Formatter<W>) -> fmt::Result {
        match self {
            ScriptFault::NoApplet(word) => write!(f, "71 {word}"),
            ScriptFault::Usage(number) => write!(f, "72 {number}"),
            ScriptFault::ShellSyntax(place) => write!(f, "73 {place}"),
            ScriptFault::Memory => write!(f, "74"),
        }
    }
}

impl error::Error for ScriptFault {}

impl From<AllocError> for ScriptFault {
    ghost use Rattle.std.specs.Prelude.{◌≡◌};
    ghost use Rattle.llb_applet.specs.declared.fault.ScriptFault.TheVariants as script;

    ghost from_gives = { λ _ e. e ≡ script.Memory };

    fn from(_: AllocError) -> ScriptFault {
        ScriptFault::Memory
    }
}

impl<T: Drop> From<AllocFailed<T>> for ScriptFault {
    ghost use Rattle.std.specs.Prelude.{◌≡◌};
    ghost use Rattle.llb_applet.specs.declared.fault.ScriptFault.TheVariants as script;

    ghost from_gives = { λ _ e. e ≡ script.Memory };

    fn from(_: AllocFailed<T>) -> ScriptFault {
        ScriptFault::Memory
    }
}

impl From<llb_wire::Memory> for ScriptFault {
    ghost use Rattle.std.specs.Prelude.{◌≡◌};
    ghost use Rattle.llb_applet.specs.declared.fault.ScriptFault.TheVariants as script;

    ghost from_gives = { λ _ e. e ≡ script.Memory };

    fn from(_: llb_wire::Memory) -> ScriptFault {
        ScriptFault::Memory
    }
}

/// 75: memory was refused to a command.
#[derive(Clone, Copy, Debug, PartialEq, Eq, Error)]
#[error("75")]
pub struct Memory;

impl From<llb_wire::Memory> for Memory {
    fn from(_: llb_wire::Memory) -> Memory {
        Memory
    }
}

/// Converts the fault for refused memory of a command.
impl From<Memory> for llb_wire::Memory {
    fn from(_: Memory) -> llb_wire::Memory {
        llb_wire::Memory
    }
}

/// Converts the fault for refused memory, with which copying a script can fail.
impl From<ScriptFault> for llb_wire::Memory {
    fn from(_: ScriptFault) -> llb_wire::Memory {
        llb_wire::Memory
    }
}
