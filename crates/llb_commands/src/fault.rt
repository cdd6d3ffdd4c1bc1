//! Why the program ends without its result, and the status with which it then ends. Printing a fault writes the text
//! after the word `fault` in its line, and does not allocate.

ghost use Rattle.std.specs.Prelude.{◌≡◌, Some};
ghost use Rattle.llb_commands.specs.Faults.{output_text, program_text, status_of, Tells};

use llb_asm::AsmFault;
use llb_loader::LoadFault;
use llb_ops::OpFault;
use llb_treetext::PrintFault;
use llb_wire::Text;
use llb_work::RunFault;
use std::alloc::AllocError;
use std::io::Write;
use std::{error, fmt};

/// Why the text of a graph, a definition or a reply of a session was not written, or not all of it.
#[derive(Clone, Copy, Debug, PartialEq, Eq)]
pub enum OutputFault {
    /// 182: the writer failed.
    Write,
    /// 184: memory was refused for a line of a graph's text.
    Memory,
}

impl fmt::Display for OutputFault {
    ghost output = { λ e. Some (output_text e) };

    fn fmt<W: fmt::Write>(&self, f: &mut fmt::Formatter<W>) -> fmt::Result {
        match self {
            OutputFault::Write => write!(f, "182"),
            OutputFault::Memory => write!(f, "184"),
        }
    }
}

impl error::Error for OutputFault {}

impl From<AllocError> for OutputFault {
    ghost use Rattle.std.specs.Prelude.{◌≡◌};
    ghost use Rattle.llb_commands.specs.declared.fault.OutputFault.TheVariants.{Memory};

    ghost from_gives = { λ _ e. e ≡ Memory };

    fn from(_: AllocError) -> OutputFault {
        OutputFault::Memory
    }
}

/// Why the program ends without its result.
#[derive(Debug, Drop)]
pub enum ProgramFault {
    /// 81 to 90: the definition is refused.
    Refused(LoadFault),
    /// 91: memory was refused while the definition was loaded.
    Loading,
    /// 121: a local source has no tree; its name follows.
    MissingLocal(Text),
    /// 122: the number of workers is 0 or more than 64.
    Workers,
    /// 123: memory was refused while the board was opened.
    Opening,
    /// 151: memory was refused in the run; 153: a thread could not be started. 152 (the gate stopped a worker) and 154 (the copy
    /// of the opening board that is kept under the lock differs from the board that the run was called with) never end a run of
    /// the program.
    Run(RunFault),
    /// 34 and 35: the result's text was not written, or not all of it.
    Print(PrintFault),
    /// 182 and 184: the text of a graph, a definition or a reply of a session was not written, or not all of it.
    Output(OutputFault),
    /// 1 to 4 and 11 to 13: the bytes that are to be disassembled can't be read as a definition.
    Unread(OpFault),
    /// 14: memory was refused while entries were read or written.
    Entries,
    /// 161 and 162: a line of a text is refused.
    Assembling(AsmFault),
    /// 163 and 164: memory was refused for a text of entries, or a write of it failed.
    Text(AsmFault),
    /// 185: a text, or the commands of a session, have more than 67,108,864 bytes.
    TooLong,
    /// 181: a read failed, or 2^27 reads did not meet the end.
    Read,
    /// 184: memory was refused to the program itself.
    Memory,
}

impl fmt::Display for ProgramFault {
    ghost output = { λ e. Some (program_text e) };

    fn fmt<W: fmt::Write>(&self, f: &mut fmt::Formatter<W>) -> fmt::Result {
        match self {
            ProgramFault::Refused(fault) => write!(f, "{fault}"),
            ProgramFault::Loading => write!(f, "91"),
            ProgramFault::MissingLocal(name) => write!(f, "121 {name}"),
            ProgramFault::Workers => write!(f, "122"),
            ProgramFault::Opening => write!(f, "123"),
            ProgramFault::Run(fault) => write!(f, "{fault}"),
            ProgramFault::Print(fault) => write!(f, "{fault}"),
            ProgramFault::Output(fault) => write!(f, "{fault}"),
            ProgramFault::Unread(fault) => write!(f, "{fault}"),
            ProgramFault::Entries => write!(f, "14"),
            ProgramFault::Assembling(fault) => write!(f, "{fault}"),
            ProgramFault::Text(fault) => write!(f, "{fault}"),
            ProgramFault::TooLong => write!(f, "185"),
            ProgramFault::Read => write!(f, "181"),
            ProgramFault::Memory => write!(f, "184"),
        }
    }
}

impl error::Error for ProgramFault {}

impl ProgramFault {
    // Returns the status with which the program ends, once the fault's line is written: 2 for a refusal of the input, else 3.
    fn status(&self) -> u8
        ensures { result ≡ status_of self.now }
    {
        match self {
            ProgramFault::Refused(_)
            | ProgramFault::MissingLocal(_)
            | ProgramFault::Workers
            | ProgramFault::Unread(_)
            | ProgramFault::Assembling(_)
            | ProgramFault::TooLong => 2,
            _ => 3,
        }
    }
}

/// Writes the line of a fault, and returns the exit status for this fault; 3 if the line can't be written.
pub fn refusal<E: Write>(fault: &ProgramFault, err: &mut E) -> u8
    ensures { Tells (E.contents err.old) (E.contents err.new) fault.now result }
{
    if writeln!(err, "fault {fault}").is_err() {
        return 3;
    }
    fault.status()
}
