//! Why a text is not assembled, or entries are not written. A fault prints what comes after the word `fault` in a refusal: its
//! number, and then its arguments.

ghost use Rattle.std.specs.Prelude.{Some};
ghost use Rattle.llb_asm.specs.Faults.{asm_text, rule_text};

use llb_wire::Memory;
use std::{error, fmt};

/// The rule that a line breaks.
#[derive(Clone, Copy, Debug, PartialEq, Eq)]
pub enum Rule {
    /// The line is not UTF-8, or no item can be recognized in it.
    Syntax,
    /// The open message has no field of the line's name.
    UnknownField,
    /// The field may not follow the field before it.
    Order,
    /// The text after the name is not a value of the field's kind.
    BadValue,
    /// With this line, a limit of a definition is exceeded.
    OverLimit,
    /// The line is the last one, and the `}` of an entry is missing.
    Unclosed,
}

impl fmt::Display for Rule {
    ghost output = { λ e. Some (rule_text e) };

    fn fmt<W: fmt::Write>(&self, f: &mut fmt::Formatter<W>) -> fmt::Result {
        match self {
            Rule::Syntax => write!(f, "Syntax"),
            Rule::UnknownField => write!(f, "UnknownField"),
            Rule::Order => write!(f, "Order"),
            Rule::BadValue => write!(f, "BadValue"),
            Rule::OverLimit => write!(f, "OverLimit"),
            Rule::Unclosed => write!(f, "Unclosed"),
        }
    }
}

impl error::Error for Rule {}

/// Why a text is not assembled, or entries are not written. Lines are counted from 1.
#[derive(Clone, Copy, Debug, PartialEq, Eq)]
pub enum AsmFault {
    /// 161 N RULE: line N breaks the rule whose name follows.
    Line(u64, Rule),
    /// 162 N: a label of line N names no earlier entry.
    UnknownLabel(u64),
    /// 163: memory was refused.
    Memory,
    /// 164: the writer failed.
    Write,
}

impl fmt::Display for AsmFault {
    ghost output = { λ e. Some (asm_text e) };

    fn fmt<W: fmt::Write>(&self, f: &mut fmt::Formatter<W>) -> fmt::Result {
        match self {
            AsmFault::Line(line, rule) => write!(f, "161 {line} {rule}"),
            AsmFault::UnknownLabel(line) => write!(f, "162 {line}"),
            AsmFault::Memory => write!(f, "163"),
            AsmFault::Write => write!(f, "164"),
        }
    }
}

impl error::Error for AsmFault {}

impl From<Memory> for AsmFault {
    ghost use Rattle.std.specs.Prelude.{◌≡◌};
    ghost use Rattle.llb_asm.specs.declared.fault.AsmFault.TheVariants as asm;

    ghost from_gives = { λ _ e. e ≡ asm.Memory };

    fn from(_: Memory) -> AsmFault {
        AsmFault::Memory
    }
}
