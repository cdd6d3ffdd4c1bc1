//! Copies the rows of caches and the instances of leases; the copies share the trees. Compares two lists of rows.

ghost use Rattle.std.specs.Prelude.{◌≡◌, ◌↔◌, IsTrue, IfOk};
ghost use Rattle.llb_cache.specs.RowOrder.{AreOrdered};

use crate::instance_marks::Marks;
use crate::instance_trees::Trees;
use crate::key::Key;
use crate::lease_needs::Instance;
use crate::rows::Rows;
use llb_wire::{Many, Memory, Same};
use std::alloc::Global;

// Copies the rows; the copy shares the trees.
pub(crate) fn copied_rows(rows: &Rows) -> Result<Rows, Memory>
    requires { AreOrdered rows.now }
    ensures entries { IfOk result (λ r. r.entries.items ≡ rows.now.entries.items) }
    ensures order { IfOk result (λ r. AreOrdered r) }
{
    let entries = copied_entries(&rows.entries)?;
    let order = rows.order.clone()?;
    Ok(Rows { entries, order })
}

fn copied_entries(entries: &Vec<(Key, Trees)>) -> Result<Vec<(Key, Trees)>, Memory>
    ensures { IfOk result (λ es. es.items ≡ entries.now.items) }
{
    let mut copies = Vec::new(*entries.allocator());
    for entry in entries {
        copies.push((entry.0.copy()?, entry.1.copy()?))?;
    }
    Ok(copies)
}

// Copies a list of instances.
pub(crate) fn copied_places(alloc: Global, places: &[Instance]) -> Result<Many<Instance>, Memory>
    ensures { IfOk result (λ ps. ps ≡ places.now) }
{
    let mut copies = Vec::new(alloc);
    for place in places {
        copies.push(place.copy()?)?;
    }
    Ok(Many::new(copies))
}

// Copies the instances of a lease, if the lease is current.
fn copied_lease(
    alloc: Global,
    lease: &Option<Many<Instance>>,
) -> Result<Option<Many<Instance>>, Memory>
    ensures { IfOk result (λ l. l ≡ lease.now) }
{
    match lease {
        Some(places) => Ok(Some(copied_places(alloc, places.as_slice())?)),
        None => Ok(None),
    }
}

// Copies the instances of all leases.
pub(crate) fn copied_leases(
    out: &Vec<Option<Many<Instance>>>,
) -> Result<Vec<Option<Many<Instance>>>, Memory>
    ensures { IfOk result (λ o. o.items ≡ out.now.items) }
{
    let alloc = *out.allocator();
    let mut copies = Vec::new(alloc);
    for lease in out {
        copies.push(copied_lease(alloc, lease)?)?;
    }
    Ok(copies)
}

pub(crate) fn copied_marks(marks: &Vec<Marks>) -> Result<Vec<Marks>, Memory>
    ensures { IfOk result (λ m. m.items ≡ marks.now.items) }
{
    let mut copies = Vec::new(*marks.allocator());
    for mark in marks {
        copies.push(mark.copy()?)?;
    }
    Ok(copies)
}

// Returns whether two lists of rows have the same keys in the same order with the same trees.
pub(crate) fn same_rows(rows: &[(Key, Trees)], others: &[(Key, Trees)]) -> bool
    ensures { IsTrue result ↔ (rows.now ≡ others.now) }
{
    if rows.len() != others.len() {
        return false;
    }
    for i in 0..rows.len() {
        if !rows[i].0.same(&others[i].0) || !rows[i].1.same(&others[i].1) {
            return false;
        }
    }
    true
}

impl Same for Instance {
    fn same(&self, other: &Instance) -> bool {
        self.number == other.number && self.key.same(&other.key)
    }
}
