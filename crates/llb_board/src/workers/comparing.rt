//! Compares a job with what a worker runs now, by value.

ghost use Rattle.std.specs.Prelude.{◌≡◌, ◌↔◌, ◌<◌, length, map, IsTrue};
ghost use Rattle.llb_model.specs.Caches as model;
ghost use Rattle.llb_model.specs.Caches.{trees_at, Has, tree_of};
ghost use Rattle.llb_model.specs.TwoCacheModels.{store_of};
ghost use Rattle.llb_cache.specs.Caches.{trees_of};
ghost use Rattle.llb_board.specs.CacheNeeds.{number_of};
ghost use Rattle.llb_board.specs.Jobs.{IsBegun};
ghost use Rattle.llb_board.specs.WorkerModelValues.{execution_of};

use crate::workers::running_workers::Execution;
use llb_cache::{Caches, Instance};
use llb_execution::Job;
use llb_tree::Tree;
use llb_wire::Same;

/// Returns whether the job's worker is `w`, the job's vertex and count of micro-steps done are those of the execution, and no micro-step of the execution has
/// faulted.
pub(crate) fn is_begun(w: u32, execution: &Execution, job: &Job) -> bool
    ensures { IsTrue result ↔ IsBegun w (execution_of execution.now) job.now }
{
    job.worker() == w
        && job.vertex() == execution.vertex
        && job.done() == execution.done
        && execution.fault.is_none()
}

/// Returns whether both lists are equally long, and the tree of each instance equals the tree at the same position of `trees`. All the instances must exist.
pub(crate) fn has_trees(caches: &Caches, places: &[Instance], trees: &[Tree]) -> bool
    requires { (p : model.Instance) → Has places.now p → p.number < length (trees_of caches.now.rows p.key) }
    ensures { IsTrue result ↔ (trees.now ≡ trees_at (store_of caches.now.rows) places.now) }
{
    if trees.len() != places.len() {
        return false;
    }
    for i in 0..places.len() {
        if !has_tree(caches, &places[i], &trees[i]) {
            return false;
        }
    }
    true
}

// Returns whether an instance has this tree. The instance must exist.
fn has_tree(caches: &Caches, place: &Instance, tree: &Tree) -> bool
    requires { place.now.number < length (trees_of caches.now.rows place.now.key) }
    ensures { IsTrue result ↔ (tree.now ≡ tree_of (store_of caches.now.rows) place.now) }
{
    match caches.instance(&place.key, place.number) {
        Some(found) => tree.same(found),
        None => false,
    }
}

/// Returns whether both lists are equally long, and the number of each instance is the number at the same position of `numbers`.
pub(crate) fn has_numbers(places: &[Instance], numbers: &[u32]) -> bool
    ensures { IsTrue result ↔ (numbers.now ≡ map number_of places.now) }
{
    if numbers.len() != places.len() {
        return false;
    }
    for i in 0..places.len() {
        if numbers[i] != places[i].number {
            return false;
        }
    }
    true
}
