//! Writes a text that was made in memory.

ghost use Rattle.std.specs.Prelude.{IfErr};
ghost use Rattle.llb_commands.specs.Running.{IsRefusal};
ghost use Rattle.llb_commands.specs.WrittenPrefix.{PrintsOut};

use crate::assembling::bytes_over;
use crate::fault::{OutputFault, ProgramFault};
use std::io::Write;

/// Writes a text to a writer, and flushes the writer. Fails with 182 if the writer fails.
pub(crate) fn text_over<W: Write>(text: &str, out: &mut W) -> Result<(), ProgramFault>
    ensures written { PrintsOut (W.contents out.old) (W.contents out.new) text.now result }
    ensures no_refusal { IfErr result (λ e. ¬ IsRefusal e) }
{
    match bytes_over(text.as_bytes(), out) {
        Err(fault) => Err(ProgramFault::Output(fault)),
        Ok(()) => match out.flush() {
            Ok(()) => Ok(()),
            Err(_) => Err(ProgramFault::Output(OutputFault::Write)),
        },
    }
}
