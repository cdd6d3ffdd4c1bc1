//! Why a text is not read as a tree, and why a tree's text is not written. The text of a fault, which the program prints after
//! the word `fault`, is the fault's number and, if a line is faulty, the number of that line.

ghost use Rattle.std.specs.Prelude.{Some};
ghost use Rattle.llb_treetext.specs.CallResults.{reading_text, printing_text};

use llb_wire::Memory;
use std::{error, fmt};

/// Why a text is not read as a tree, or why `tree_digest` returns no digest (34 alone). Lines are counted from 1.
#[derive(Clone, Copy, Debug, PartialEq, Eq)]
pub enum TextFault {
    /// 31 N: line N does not spell an entry, or does not end in a line feed.
    BadLine(u64),
    /// 32 N: the path of line N is not after the path of the line before, or line 1 is not for the root.
    Order(u64),
    /// 33 N: no earlier line is for the parent directory of the path of line N.
    NoParent(u64),
    /// 34: memory was refused.
    Memory,
}

impl fmt::Display for TextFault {
    ghost output = { λ e. Some (reading_text e) };

    fn fmt<W: fmt::Write>(&self, f: &mut fmt::Formatter<W>) -> fmt::Result {
        match self {
            TextFault::BadLine(line) => write!(f, "31 {line}"),
            TextFault::Order(line) => write!(f, "32 {line}"),
            TextFault::NoParent(line) => write!(f, "33 {line}"),
            TextFault::Memory => write!(f, "34"),
        }
    }
}

impl error::Error for TextFault {}

impl From<Memory> for TextFault {
    ghost use Rattle.std.specs.Prelude.{◌≡◌};
    ghost use Rattle.llb_treetext.specs.declared.fault.TextFault.TheVariants as text;

    ghost from_gives = { λ _ e. e ≡ text.Memory };

    fn from(_: Memory) -> TextFault {
        TextFault::Memory
    }
}

/// Why a tree's text is not written.
#[derive(Clone, Copy, Debug, PartialEq, Eq)]
pub enum PrintFault {
    /// 34: memory was refused.
    Memory,
    /// 35: the writer failed.
    Write,
}

impl fmt::Display for PrintFault {
    ghost output = { λ e. Some (printing_text e) };

    fn fmt<W: fmt::Write>(&self, f: &mut fmt::Formatter<W>) -> fmt::Result {
        match self {
            PrintFault::Memory => write!(f, "34"),
            PrintFault::Write => write!(f, "35"),
        }
    }
}

impl error::Error for PrintFault {}
