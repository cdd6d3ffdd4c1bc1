//! How a lease takes its instances: all that can fail is done first. The changes are made after that, and do not allocate.

ghost use Rattle.std.specs.Prelude.{◌≡◌, ◌<◌, ◌≤◌, ◌+◌, ℕ, true, false, map, slice_set, length, vec_len, vec_capacity, IfOk, None};
ghost use Rattle.std.specs.List.{All};
ghost use Rattle.std.specs.Map.{keys_of};
ghost use Rattle.llb_cache.specs.Caches.{same_place, made, made_all, free_lease, with_lease, places_of, put, trees_of, trimmed};
ghost use Rattle.llb_cache.specs.LeasePreparation.{shown, FitsIn};
ghost use Rattle.llb_cache.specs.InstanceMarks.{Remarks, is_one_of};
ghost use Rattle.llb_cache.specs.RowOrder.{AreOrdered, HasRoom};

use crate::instance_marks::Marks;
use crate::instance_search::free_lease;
use crate::instance_trees::{Room, Trees};
use crate::lease_needs::Instance;
use crate::rows::{Rows, add_row, row_near, row_of};
use llb_tree::Tree;
use llb_wire::{Many, Memory};
use std::alloc::Global;

// What is prepared for a need: the instance, the row at which the search for the key begins, the tree that a new instance begins with,
// and room for this tree and for the instance's mark.
#[derive(Drop)]
pub(crate) struct Ready {
    pub(crate) place: Instance,
    pub(crate) near: Option<usize>,
    pub(crate) tree: Tree,
    pub(crate) room: Room,
    pub(crate) marks: Marks,
}

// Copies the instances that a lease takes.
pub(crate) fn places_for(alloc: Global, readies: &[Ready]) -> Result<Many<Instance>, Memory>
    ensures { IfOk result (λ ps. ps ≡ map (λ r. r.place) readies.now) }
{
    let mut places = Vec::new(alloc);
    for ready in readies {
        places.push(ready.place.copy()?)?;
    }
    Ok(Many::new(places))
}

// Makes an instance, if it does not exist, and marks it. The lists of rows and of marks must have room for one more row.
fn make(rows: &mut Rows, marks: &mut Vec<Marks>, ready: Ready)
    requires order { AreOrdered rows.old }
    requires spare { HasRoom rows.old 1 }
    requires free { vec_len marks.old < vec_capacity marks.old }
    requires each { length marks.old.items ≡ length rows.old.entries.items }
    requires room { FitsIn ready }
    ensures rows { rows.new.entries.items ≡ made rows.old.entries.items ready.place ready.tree }
    ensures order { AreOrdered rows.new }
    ensures spare { (more : ℕ) → HasRoom rows.old (more + 1) → HasRoom rows.new more }
    ensures marks { Remarks (keys_of rows.old.entries.items) marks.old.items (keys_of rows.new.entries.items) marks.new.items
        (λ q. same_place q ready.place) true }
    ensures free { (vec_capacity marks.new ≡ vec_capacity marks.old) × (vec_len marks.new ≤ vec_len marks.old + 1) }
    ensures each { length marks.new.items ≡ length rows.new.entries.items }
{
    let Ready {
        place,
        near,
        tree,
        room,
        marks: free,
    } = ready;
    let Instance { key, number } = place;
    match row_near(rows, &key.by_ref(), near) {
        Some(i) => {
            marks[i].set(number, free);
            let trees = &mut rows.entries[i].1;
            if number as usize >= trees.len() {
                trees.push_into(room, tree);
            }
        }
        None => {
            let mut trees = Trees::new(*marks.allocator());
            trees.push_into(room, tree);
            add_row(rows, key, trees);
            let mut first = Marks::new(*marks.allocator());
            first.set(number, free);
            marks.push_reserved(first);
        }
    }
}

// For each instance that a lease takes: makes the instance if it does not exist yet, and marks it. The lists of rows and of marks must have room for one
// more row for each of these instances.
pub(crate) fn make_all(rows: &mut Rows, marks: &mut Vec<Marks>, readies: Vec<Ready>)
    requires order { AreOrdered rows.old }
    requires spare { HasRoom rows.old (length readies.items) }
    requires free { vec_len marks.old + length readies.items ≤ vec_capacity marks.old }
    requires each { length marks.old.items ≡ length rows.old.entries.items }
    requires room { All FitsIn readies.items }
    ensures rows { rows.new.entries.items ≡ made_all rows.old.entries.items (map shown readies.items) }
    ensures marks { Remarks (keys_of rows.old.entries.items) marks.old.items (keys_of rows.new.entries.items) marks.new.items
        (is_one_of (map (λ r. r.place) readies.items)) true }
    ensures each { length marks.new.items ≡ length rows.new.entries.items }
    ensures order { AreOrdered rows.new }
{
    for ready in readies {
        make(rows, marks, ready);
    }
}

// Removes the marks of these instances.
pub(crate) fn unmark_all(rows: &Rows, marks: &mut Vec<Marks>, places: &[Instance])
    requires order { AreOrdered rows.now }
    requires each { length marks.old.items ≡ length rows.now.entries.items }
    ensures marks { Remarks (keys_of rows.now.entries.items) marks.old.items (keys_of rows.now.entries.items) marks.new.items (is_one_of places.now) false }
    ensures each { length marks.new.items ≡ length marks.old.items }
{
    for place in places {
        unmark(rows, marks, place);
    }
}

// Removes the mark of an instance.
fn unmark(rows: &Rows, marks: &mut Vec<Marks>, place: &Instance)
    requires order { AreOrdered rows.now }
    requires each { length marks.old.items ≡ length rows.now.entries.items }
    ensures marks { Remarks (keys_of rows.now.entries.items) marks.old.items (keys_of rows.now.entries.items) marks.new.items
        (λ q. same_place q place.now) false }
    ensures each { length marks.new.items ≡ length marks.old.items }
{
    if let Some(i) = row_of(rows, &place.key.by_ref()) {
        marks[i].clear(place.number);
    }
}

// Adds a lease under the least free number, and returns the number. The list of leases must have room for one more.
pub(crate) fn take_lease(out: &mut Vec<Option<Many<Instance>>>, places: Many<Instance>) -> u32
    requires room { vec_len out.old < vec_capacity out.old }
    requires short { length out.old.items ≤ 65536 }
    ensures number { result ≡ free_lease out.old.items }
    ensures out { out.new.items ≡ with_lease out.old.items (free_lease out.old.items) places }
{
    let number = free_lease(out);
    if number < out.len() {
        out[number] = Some(places);
    } else {
        out.push_reserved(Some(places));
    }
    number as u32
}

// Returns the instances of a lease; none if the lease is not current.
pub(crate) fn places_at(out: &[Option<Many<Instance>>], lease: u32) -> &[Instance]
    ensures { result.now ≡ places_of out.now lease }
{
    match out.get(lease as usize) {
        Some(Some(places)) => places.as_slice(),
        _ => &[],
    }
}

// Replaces the tree of an instance.
pub(crate) fn set_at(rows: &mut Rows, place: &Instance, tree: Tree)
    requires order { AreOrdered rows.old }
    requires there { place.now.number < length (trees_of rows.old.entries.items place.now.key) }
    ensures rows { rows.new.entries.items ≡ put rows.old.entries.items place.now tree }
    ensures keys { keys_of rows.new.entries.items ≡ keys_of rows.old.entries.items }
    ensures order { AreOrdered rows.new }
{
    if let Some(i) = row_of(rows, &place.key.by_ref()) {
        rows.entries[i].1.set(place.number, tree);
    }
}

// Removes each `None` after the last current lease from the list of leases.
fn trim(out: &mut Vec<Option<Many<Instance>>>)
    ensures { out.new.items ≡ trimmed out.old.items }
{
    let mut kept = 0;
    for (i, lease) in out.iter().enumerate() {
        if lease.is_some() {
            kept = i + 1;
        }
    }
    out.truncate(kept);
}

// Ends a lease, which is then no longer current, and removes each `None` after the last current lease from the list of leases.
pub(crate) fn take_back(out: &mut Vec<Option<Many<Instance>>>, lease: u32)
    requires { lease < length out.old.items }
    ensures { out.new.items ≡ trimmed (slice_set out.old.items lease None) }
{
    out[lease as usize] = None;
    trim(out);
}
