//! The workers of a board: what each worker runs, which cache instances each worker holds, and the caches. By the invariant of `Workers` there are 1 to 64
//! workers, and each worker that holds cache instances has a lease of exactly these instances.

ghost use Rattle.std.specs.Prelude.{◌≡◌, ◌↔◌, ◌<◌, ◌≤◌, [], IsTrue, length, option_map, replicate, slice_get, IfOk, IfErr};
ghost use Rattle.llb_cache.specs.Caches.{leases};
ghost use Rattle.llb_model.specs.TwoCacheModels.{HoldsAs};
ghost use Rattle.llb_model.specs.State.{Execution, Idle, runs, places_at};
ghost use Rattle.llb_board.specs.RunningWorkerSupplies.{supplies_for};
ghost use Rattle.llb_board.specs.Statuses.{look_of};

mod cache_needs;
mod claim_preparation;
mod claiming;
mod comparing;
mod copying;
mod landing;
mod leased_instances;
mod running_workers;
mod settles_and_cancels;
mod stepping;
mod taken_outputs;
mod undoing;
mod worked_on_trees;

use crate::status::WorkerStatus;
use crate::vertices::Vertices;
use copying::copied_seats;
use leased_instances::give_all_back;
use llb_cache::{Caches, Instance};
use llb_execution::Workspace;
use llb_wire::Memory;
use running_workers::{Seat, idle, is_finished, same_seats, seat_at};
use std::alloc::Global;
use std::marker::Model;
pub use undoing::Undo;

/// The workers of a board, and the caches whose instances they hold. Contracts see what each worker does, each cache's list of instances, and what each
/// worker was given at its claim.
pub(crate) struct Workers {
    seats: Vec<Seat>,
    caches: Caches,
}

impl Drop for Workers {
    fn drop(self) {
        let Workers {
            seats: _,
            caches: _,
        } = self;
    }
}

impl Model for Workers {
    ghost use Rattle.std.specs.Coded.{codes};
    ghost use Rattle.std.specs.Prelude.{map};
    ghost use Rattle.llb_tree.specs.CodedTrees.{coded_tree};
    ghost use Rattle.llb_board.specs.RunningWorkerSupplies.{ready_made};
    ghost use Rattle.llb_board.specs.WorkerModelValues.{at_of, leased_by};
    ghost use Rattle.llb_board.specs.Workers.{WorkersValue, IsCrew};

    ghost Value = { WorkersValue };

    ghost coded = { Prim.hlevel (codes, coded_tree) };

    ghost view = { λ s. record { workers = map at_of s.seats.items; rows = s.caches.rows; supplies = map ready_made s.seats.items } };

    ghost invariant = { λ s. IsCrew (map at_of s.seats.items) s.caches.out (map leased_by s.seats.items) };
}

impl Workers {
    /// Makes `count` idle workers, 1 to 64, on caches without current leases. If memory is refused, fails with the caches that the call was made with.
    pub(crate) fn open(alloc: Global, caches: Caches, count: u32) -> Result<Workers, Caches>
        requires count { (0 < count) × (count ≤ 64) }
        requires free { leases caches.out ≡ 0 }
        ensures ok { IfOk result (λ s. s ≡ record {
          workers = replicate count Idle;
          rows = caches.rows;
          supplies = replicate count (supplies_for None);
        }) }
        ensures back { IfErr result (λ c. c ≡ caches) }
    {
        match idle(alloc, count) {
            Ok(seats) => Ok(Workers { seats, caches }),
            Err(_) => Err(caches),
        }
    }

    /// Returns the caches; the current leases hold the instances of the running workers. Does not allocate.
    pub(crate) fn caches(&self) -> &Caches
        ensures rows { result.now.rows ≡ self.now.rows }
        ensures leased { HoldsAs result.now.out self.now.workers }
    {
        &self.caches
    }

    /// Gives back all leases, and returns the caches as they are now. Does not allocate.
    pub(crate) fn into_caches(self) -> Caches
        ensures rows { result.rows ≡ self.rows }
        ensures free { result.out ≡ [] }
    {
        let Workers { seats, mut caches } = self;
        give_all_back(&mut caches, &seats);
        caches.is_exclusive();
        caches
    }

    /// Returns the status of a worker; `None` past the last worker. There are 1 to 64 workers. Does not allocate.
    pub(crate) fn look(&self, vertices: &Vertices, w: u32) -> Option<WorkerStatus>
        ensures looks { result ≡ option_map (look_of vertices.now.build) (slice_get self.now.workers w) }
        ensures some { 0 < length self.now.workers }
        ensures few { length self.now.workers ≤ 64 }
    {
        match seat_at(&self.seats, w)? {
            Seat::Idle => Some(WorkerStatus::Idle),
            Seat::Runs(_, execution) => {
                let finished = is_finished(execution, vertices.steps(execution.vertex));
                Some(WorkerStatus::Runs(execution.vertex, execution.done, finished))
            }
        }
    }

    /// Returns the instances that a worker holds; none if the worker is idle, or past the last worker. Does not allocate.
    pub(crate) fn places(&self, w: u32) -> &[Instance]
        ensures { result.now ≡ places_at (slice_get self.now.workers w) }
    {
        match seat_at(&self.seats, w) {
            Some(Seat::Runs(_, execution)) => &execution.places,
            _ => &[],
        }
    }

    /// Returns the workspace of what a worker runs; `None` if the worker is idle, or past the last worker. Does not allocate.
    pub(crate) fn workspace(&self, w: u32) -> Option<&Workspace>
        ensures { option_map (λ v. v.now) result ≡ option_map (λ (x : Execution). x.own) (runs (slice_get self.now.workers w)) }
    {
        match seat_at(&self.seats, w) {
            Some(Seat::Runs(_, execution)) => Some(&execution.view),
            _ => None,
        }
    }

    /// Copies the workers, with the same leases, and the caches. Fails with 5 `Memory` alone.
    pub(crate) fn copy(&self, alloc: Global) -> Result<Workers, Memory>
        ensures { IfOk result (λ s. s ≡ self.now) }
    {
        Ok(Workers {
            seats: copied_seats(alloc, &self.seats)?,
            caches: self.caches.copy()?,
        })
    }

    /// Returns whether each worker has the same state in both, and each cache the same trees, compared by value. Does not allocate.
    pub(crate) fn same(&self, other: &Workers) -> bool
        ensures { IsTrue result ↔ ((self.now.workers ≡ other.now.workers) × (self.now.rows ≡ other.now.rows)) }
    {
        same_seats(&self.seats, &other.seats) && self.caches.has_same_trees(&other.caches)
    }
}
