//! Reads the definition and loads its graph.

ghost use Rattle.std.specs.Prelude.{◌≡◌};
ghost use Rattle.llb_commands.specs.Running.{passed_on, unread_as, Loads};

use crate::bounded_reading::{LIMIT, READS, ReadFault, read_bounded};
use crate::fault::ProgramFault;
use llb_loader::{Graph, LoadFault, load_owned};
use llb_ops::OpFault;
use std::alloc::Global;
use std::io::Read;

/// Returns the fault with which the program ends if the loader fails with this fault: a refusal, unless memory was refused.
pub(crate) fn passed_on(fault: LoadFault) -> ProgramFault
    ensures { result ≡ passed_on fault }
{
    match fault {
        LoadFault::Memory => ProgramFault::Loading,
        _ => ProgramFault::Refused(fault),
    }
}

/// Returns the fault with which the program ends if the definition was not read to its end: 81 13 if it is too long, else 181 or 184.
pub(crate) fn unread(fault: ReadFault) -> ProgramFault
    ensures { result ≡ unread_as fault }
{
    match fault {
        ReadFault::TooLong => ProgramFault::Refused(LoadFault::Definition(OpFault::OverLimit)),
        ReadFault::Failed(_) | ReadFault::Unending(_) => ProgramFault::Read,
        ReadFault::Memory => ProgramFault::Memory,
    }
}

/// Reads the definition to its end and loads its graph. Fails with 81 to 90 if the definition is refused, with 181 if a read fails or the bound on reads is
/// met, and with 91 or 184 if memory is refused.
pub(crate) fn loaded<R: Read>(alloc: Global, input: &mut R) -> Result<Graph, ProgramFault>
    ensures { Loads (R.remaining input.old) result }
{
    match read_bounded(alloc, input, LIMIT, READS) {
        Err(fault) => Err(unread(fault)),
        Ok(bytes) => match load_owned(alloc, bytes) {
            Ok(graph) => Ok(graph),
            Err(fault) => Err(passed_on(fault)),
        },
    }
}
