//! Says of a text whether it is a script, also if no definition has it yet.

ghost use Rattle.std.specs.Prelude.{◌≡◌, ◌++◌, Ok, IfOk, IfErr, string_bytes};
ghost use Rattle.llb_commands.specs.GraphText.{Gives};
ghost use Rattle.llb_commands.specs.Running.{IsRefusal};
ghost use Rattle.llb_commands.specs.ScriptLine.{script_line, shell_words, IsFaultOfScript, Judges, PrintsFault};

use crate::fault::{OutputFault, ProgramFault, refusal};
use crate::text_output::text_over;
use llb_applet::{ScriptFault, read_script};
use llb_wire::{Memory, Text};
use std::alloc::Global;
use std::io::Write;

// Returns the arguments of an exec that runs a text.
fn shell_words(alloc: Global, text: &str) -> Result<Vec<Text>, Memory>
    ensures { IfOk result (λ words. words.items ≡ shell_words text.now) }
{
    let mut words = Vec::new(alloc);
    words.push(Text::from_str(alloc, "/bin/sh")?)?;
    words.push(Text::from_str(alloc, "-c")?)?;
    words.push(Text::from_str(alloc, text)?)?;
    Ok(words)
}

// Returns the fault of a text as a script; `None` if it is one.
fn script_fault(alloc: Global, text: &str) -> Result<Option<ScriptFault>, ProgramFault>
    ensures found { IfOk result (IsFaultOfScript text.now) }
    ensures no_refusal { IfErr result (λ e. ¬ IsRefusal e) }
{
    let Ok(words) = shell_words(alloc, text) else {
        return Err(ProgramFault::Memory);
    };
    match read_script(alloc, words.as_slice()) {
        Ok(_) => Ok(None),
        Err(ScriptFault::Memory) => Err(ProgramFault::Memory),
        Err(fault) => Ok(Some(fault)),
    }
}

// Returns the line of a fault.
fn line_of(alloc: Global, fault: &ScriptFault) -> Result<String, OutputFault>
    ensures { Gives (λ s. string_bytes s) result (Ok (script_line fault.now)) }
{
    let line = format!(in alloc; "fault {fault}\n")?;
    Ok(line)
}

// Writes the line of a fault.
fn print_fault<W: Write>(
    alloc: Global,
    fault: &ScriptFault,
    out: &mut W,
) -> Result<(), ProgramFault>
    ensures { PrintsFault fault.now (record { before = W.contents out.old; after = W.contents out.new }) result }
{
    match line_of(alloc, fault) {
        Ok(line) => text_over(line.as_str(), out),
        Err(fault) => Err(ProgramFault::Output(fault)),
    }
}

/// Writes the line of the first fault (71 to 73) of a text as a script, which an exec with the arguments `/bin/sh`, `-c` and the text would run. Returns 0 if
/// the text is a script, and nothing is written; 2 if it has a fault; 3 if a write (182) or memory (184) failed, and nothing, or a prefix of the line, is
/// written to `out`.
pub fn script_over<W: Write, E: Write>(alloc: Global, text: &str, out: &mut W, err: &mut E) -> u8
    ensures { Judges text.now (record { before = W.contents out.old; after = W.contents out.new })
        (record { before = E.contents err.old; after = E.contents err.new }) result }
{
    match script_fault(alloc, text) {
        Ok(None) => 0,
        Ok(Some(fault)) => match print_fault(alloc, &fault, out) {
            Ok(()) => 2,
            Err(fault) => refusal(&fault, err),
        },
        Err(fault) => refusal(&fault, err),
    }
}
