//! Returns the trees that a worker works on. The tree of a cache instance is returned as it is now.

ghost use Rattle.std.specs.Prelude.{◌≡◌, ◌<◌, length, option_map, slice_get, Some};
ghost use Rattle.llb_cache.specs.Caches.{trees_of};
ghost use Rattle.llb_model.specs.Caches as model;
ghost use Rattle.llb_model.specs.Caches.{Has, trees_at};
ghost use Rattle.llb_model.specs.TwoCacheModels.{store_of};
ghost use Rattle.llb_model.specs.State.{runs};
ghost use Rattle.llb_board.specs.WorkedOnAndCachedTrees.{worked_by};
ghost use Rattle.llb_board.specs.WorkerModelValues.{execution_of};

use crate::workers::Workers;
use crate::workers::running_workers::{Execution, Seat, seat_at};
use llb_cache::{Caches, Instance};
use llb_execution::Look;
use llb_tree::Tree;

impl Workers {
    /// Returns tree `i` of the trees that a worker works on, in the order of `Workspace::look`; the tree of a cache instance is
    /// returned as it is now. `None` if the worker is idle, past the last worker, or past the last tree. Does not allocate.
    pub(crate) fn worked_on(&self, w: u32, i: u32) -> Option<&Tree>
        ensures { option_map (λ t. t.now) result ≡ slice_get (worked_by (store_of self.now.rows) (runs (slice_get self.now.workers w))) i }
    {
        self.caches.is_exclusive();
        match seat_at(&self.seats, w) {
            Some(Seat::Runs(_, execution)) => tree_in(&self.caches, execution, i),
            _ => None,
        }
    }
}

// Returns tree `i` of the trees that an execution works on. All cache instances of the execution must exist.
fn tree_in<'a>(caches: &'a Caches, execution: &'a Execution, i: u32) -> Option<&'a Tree>
    requires { (p : model.Instance) → Has execution.now.places.items p → p.number < length (trees_of caches.now.rows p.key) }
    ensures { option_map (λ t. t.now) result ≡ slice_get (worked_by (store_of caches.now.rows) (Some (execution_of execution.now))) i }
{
    let Some(look) = execution.view.look(i, execution.places.len()) else {
        return None;
    };
    match look {
        Look::Here(tree) => Some(tree),
        Look::Cached(k) => instance_at(caches, &execution.places, k),
    }
}

// Returns the tree of the instance at index `k` of `places`; `None` past the last instance. All these instances must exist.
fn instance_at<'a>(caches: &'a Caches, places: &[Instance], k: usize) -> Option<&'a Tree>
    requires { (p : model.Instance) → Has places.now p → p.number < length (trees_of caches.now.rows p.key) }
    ensures { option_map (λ t. t.now) result ≡ slice_get (trees_at (store_of caches.now.rows) places.now) k }
{
    let Some(place) = place_at(places, k) else {
        return None;
    };
    caches.instance(&place.key, place.number)
}

// Returns the instance at index `k`; `None` past the last instance.
fn place_at(places: &[Instance], k: usize) -> Option<&Instance>
    ensures { option_map (λ p. p.now) result ≡ slice_get places.now k }
{
    places.get(k)
}
