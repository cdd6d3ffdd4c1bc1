//! Compares two boards by value: what they were opened with, the state of each vertex, worker and cache, and the record. How much memory
//! is reserved for a record, and the numbers of leases, are not compared. Nothing here allocates.

ghost use Rattle.std.specs.Prelude.{◌≡◌, ◌↔◌, IsTrue};

use crate::board::Board;
use llb_wire::{Same, all_same};

impl Board {
    /// Returns whether both boards are the same by value: the same graph and local trees, the same caches both as they were when the board was opened and as
    /// they are now, the same state of each vertex and worker, and the same record. Does not allocate.
    pub fn same(&self, other: &Board) -> bool
        ensures { IsTrue result ↔ (self.now ≡ other.now) }
    {
        self.vertices.same(&other.vertices)
            && self.start.has_same_trees(&other.start)
            && self.workers.same(&other.workers)
            && all_same(
                self.history.events().as_slice(),
                other.history.events().as_slice(),
            )
    }
}
