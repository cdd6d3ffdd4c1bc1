//! Leases the cache instances of a worker, reads their trees before a micro-step, writes their trees after the micro-step, and gives the lease back. A
//! worker whose vertex mounts no cache has no lease.

ghost use Rattle.std.specs.Prelude.{◌≡◌, ◌≢◌, ◌<◌, ◌^◌, map, length, AllPairs, IfOk, OnErr};
ghost use Rattle.std.specs.Option.{ForSome};
ghost use Rattle.llb_cache.specs.Caches.{places_of, leases, AreThere};
ghost use Rattle.llb_cache.specs.LeaseAdditions.{CanLend};
ghost use Rattle.llb_cache.specs.CallResults.{Gives};
ghost use Rattle.llb_model.specs.Caches.{trees_at, tree_of};
ghost use Rattle.llb_model.specs.TwoCacheModels.{store_of, AreLeased, put_each};
ghost use Rattle.llb_board.specs.OptionalLeases.{leased_places, IsOutIf, given_back, taken_back, lease_if, lent_of, lent_if};
ghost use Rattle.llb_board.specs.WorkerModelValues.{at_of, leased_by};

use crate::workers::running_workers::Seat;
use llb_cache::{Caches, Growth, Instance, Lease, LeaseFault, Lent, Need};
use llb_tree::Tree;
use llb_wire::{Many, Memory};
use std::alloc::Global;

/// Returns copies of the trees of instances; for an instance that does not exist, the empty tree. Fails with 5 `Memory` alone.
pub(crate) fn contents(
    alloc: Global,
    caches: &Caches,
    places: &[Instance],
) -> Result<Vec<Tree>, Memory>
    ensures { IfOk result (λ ts. ts.items ≡ trees_at (store_of caches.now.rows) places.now) }
{
    let mut trees = Vec::with_capacity(alloc, places.len())?;
    for place in places {
        trees.push_reserved(content(alloc, caches, place)?);
    }
    Ok(trees)
}

fn content(alloc: Global, caches: &Caches, place: &Instance) -> Result<Tree, Memory>
    ensures { IfOk result (λ t. t ≡ tree_of (store_of caches.now.rows) place.now) }
{
    match caches.instance(&place.key, place.number) {
        Some(tree) => Ok(tree.copy()?),
        None => Ok(Tree::empty(alloc)?),
    }
}

/// Leases an instance for each of these needs (a key, and the tree with which a new instance begins), and returns the lease; `None` if there are no needs. The
/// needs must have distinct keys; `rows` has for each key the row in which the key is looked for first. Fails with 111 `Held` and the first locked key that is
/// held, or with 112 `Memory`; then the caches are as they were.
pub(crate) fn lease_for(
    caches: &mut Caches,
    needs: Vec<Need>,
    rows: &[Option<usize>],
) -> Result<Option<Lease>, LeaseFault>
    requires differ { AllPairs (λ n m. n.key ≢ m.key) needs.items }
    requires few { leases caches.old.out < 65536 }
    ensures gives { Gives (λ l. (l, caches.new)) result (lease_if caches.old needs.items) }
    ensures err { OnErr result (caches.new ≡ caches.old) }
{
    if needs.is_empty() {
        return Ok(None);
    }
    Ok(Some(caches.lease_near(Many::new(needs), rows)?))
}

/// Gives back a current lease, if there is one.
pub(crate) fn give_back(caches: &mut Caches, lease: Option<Lease>)
    requires { IsOutIf caches.old.out lease }
    ensures { caches.new ≡ given_back caches.old lease }
{
    if let Some(lease) = lease {
        caches.give_back(lease);
    }
}

/// Takes back a lease, if there is one, and removes from the caches what the lease added for each of its instances.
pub(crate) fn take_back(caches: &mut Caches, lease: Option<Lease>, growths: &[Growth])
    requires out { IsOutIf caches.old.out lease }
    requires there { AreThere (taken_back caches.old lease growths.now).rows (taken_back caches.old lease growths.now).out }
    ensures { caches.new ≡ taken_back caches.old lease growths.now }
{
    if let Some(lease) = lease {
        caches.take_back(lease, growths);
    }
}

/// Prepares a lease of these instances, so that the later grant does not allocate. When the lease is granted, fewer than `room` leases must be current. Returns
/// `None` if there are no instances. Fails with 5 `Memory` alone.
pub(crate) fn lent_for(
    alloc: Global,
    places: &[Instance],
    room: usize,
) -> Result<Option<Lent>, Memory>
    ensures { IfOk result (λ l. l ≡ lent_of places.now room) }
{
    if places.is_empty() {
        return Ok(None);
    }
    Ok(Some(Lent::new(alloc, places, room)?))
}

/// Makes the prepared lease current, if there is one, and returns it. Does not allocate.
pub(crate) fn lend_again(caches: &mut Caches, lent: Option<Lent>) -> Option<Lease>
    requires { ForSome lent (CanLend caches.old) }
    ensures { (result, caches.new) ≡ lent_if caches.old lent }
{
    match lent {
        Some(lent) => Some(caches.lend_again(lent)),
        None => None,
    }
}

/// Replaces the trees of a lease's instances by `trees`, in order. If there is no lease, `trees` must be empty.
pub(crate) fn write_back(caches: &mut Caches, lease: Option<Lease>, trees: Vec<Tree>)
    requires count { length trees.items ≡ length (leased_places caches.old.out lease) }
    requires few { length trees.items < 2 ^ 32 }
    ensures rows { caches.new.rows ≡ put_each caches.old.rows (leased_places caches.old.out lease) trees.items }
    ensures out { caches.new.out ≡ caches.old.out }
{
    if let Some(lease) = lease {
        write_all(caches, lease, trees);
    }
}

// Replaces the trees of a lease's instances by `trees`, in order.
fn write_all(caches: &mut Caches, lease: Lease, trees: Vec<Tree>)
    requires count { length trees.items ≡ length (places_of caches.old.out lease) }
    requires few { length trees.items < 2 ^ 32 }
    ensures rows { caches.new.rows ≡ put_each caches.old.rows (places_of caches.old.out lease) trees.items }
    ensures out { caches.new.out ≡ caches.old.out }
{
    let mut need = 0;
    for tree in trees {
        caches.set_content(&lease, need, tree);
        need += 1;
    }
}

/// Gives back the leases of all workers.
pub(crate) fn give_all_back(caches: &mut Caches, seats: &[Seat])
    requires { AreLeased caches.old.out (map at_of seats.now) (map leased_by seats.now) }
    ensures rows { caches.new.rows ≡ caches.old.rows }
    ensures none { leases caches.new.out ≡ 0 }
{
    for seat in seats {
        if let Seat::Runs(lease, _) = seat {
            give_back(caches, *lease);
        }
    }
}
