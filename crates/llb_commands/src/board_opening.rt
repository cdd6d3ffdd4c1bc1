//! Opens the board on which the graph of a definition is run.

ghost use Rattle.std.specs.Prelude.{◌≡◌, [], IfOk, IfErr};
ghost use Rattle.llb_board.specs.BoardValue.{opened};
ghost use Rattle.llb_commands.specs.ProgramOutput.{build_of, IsUnopened};
ghost use Rattle.llb_commands.specs.Running.{IsRefusal, Opens};

use crate::definition_loading::loaded;
use crate::fault::ProgramFault;
use llb_board::{Board, OpenFault};
use llb_cache::Caches;
use llb_loader::{Graph, Locals};
use std::alloc::Global;
use std::io::Read;

/// Opens a board with this number of workers and with caches without instances; fails with the reason if no board can be opened.
pub(crate) fn opened(
    alloc: Global,
    graph: Graph,
    locals: Locals,
    workers: u32,
) -> Result<Board, ProgramFault>
    ensures board { IfOk result (λ b. b ≡ opened (build_of locals graph) workers []) }
    ensures fault { IfErr result (λ e. IsRefusal e → IsUnopened locals graph workers e) }
{
    match Board::open(alloc, graph, locals, Caches::new(alloc), workers) {
        Ok(board) => Ok(board),
        Err(OpenFault::MissingLocal(name, _, _, _)) => Err(ProgramFault::MissingLocal(name)),
        Err(OpenFault::Workers(_, _, _)) => Err(ProgramFault::Workers),
        Err(OpenFault::Memory(_, _, _)) => Err(ProgramFault::Opening),
    }
}

/// Reads a definition from `input`, and opens a board on its graph and the local trees, with this number of workers and with caches without
/// instances. Fails if the definition is refused (81 to 90; 81 13 past 67,108,864 bytes), a local source has no tree (121), the number of
/// workers is not 1 to 64 (122), a read fails (181), or memory is refused (91, 123, 184).
pub fn open_over<R: Read>(
    alloc: Global,
    input: &mut R,
    locals: Locals,
    workers: u32,
) -> Result<Board, ProgramFault>
    ensures { Opens workers locals (R.remaining input.old) result }
{
    let graph = loaded(alloc, input)?;
    opened(alloc, graph, locals, workers)
}
