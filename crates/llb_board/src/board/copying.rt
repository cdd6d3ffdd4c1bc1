//! Copies a board; the copy shares the graph and all trees.

ghost use Rattle.std.specs.Prelude.{◌≡◌, IfOk};

use crate::board::Board;
use crate::fault;
use llb_wire::Memory;

impl Board {
    /// Returns a second board that equals this one: it has the same state and record, and memory reserved for as many events in all (by the clause `room` of
    /// `Board::events`, equal boards have the same reserve). The boards share the graph and all trees. Fails with 141 `Memory` alone.
    pub fn copy(&self) -> Result<Board, fault::Memory>
        ensures { IfOk result (λ b. b ≡ self.now) }
    {
        Ok(copied(self)?)
    }
}

fn copied(board: &Board) -> Result<Board, Memory>
    ensures { IfOk result (λ b. b ≡ board.now) }
{
    Ok(Board {
        alloc: board.alloc,
        vertices: board.vertices.copy(board.alloc)?,
        workers: board.workers.copy(board.alloc)?,
        start: board.start.copy()?,
        history: board.history.copy(board.alloc)?,
    })
}
