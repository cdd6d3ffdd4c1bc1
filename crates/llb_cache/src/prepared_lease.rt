//! A lease that is prepared while memory may be refused (`Lent::new`), and granted later without allocating (`lend_again`). The instances exist already when
//! the lease is granted, so no row changes.

ghost use Rattle.std.specs.Prelude.{◌≡◌, ◌<◌, ◌≤◌, true, [], length, vec_capacity, IfOk};
ghost use Rattle.std.specs.List.{All};
ghost use Rattle.std.specs.Map.{keys_of};
ghost use Rattle.llb_cache.specs.Caches.{leases, free_lease, with_lease, same_place, trees_of};
ghost use Rattle.llb_cache.specs.LeasePreparation.{HasRoomFor, FitEach};
ghost use Rattle.llb_cache.specs.LeaseAdditions.{CanLend, lent_again};
ghost use Rattle.llb_cache.specs.InstanceMarks.{Remarks, is_one_of};
ghost use Rattle.llb_cache.specs.RowOrder.{AreOrdered};

use crate::caches::{Caches, Lease};
use crate::copying::copied_places;
use crate::instance_marks::Marks;
use crate::instance_search::free_lease;
use crate::lease_needs::Instance;
use crate::rows::{Rows, row_of};
use llb_wire::{Many, Memory};
use std::alloc::Global;
use std::marker::Model;

/// A prepared lease of instances that exist: copies of the instances, room for their marks, and a list with room for leases. All memory is allocated before
/// the lease is granted. Contracts see the instances, and for how many leases there is room.
pub struct Lent {
    places: Many<Instance>,
    marks: Vec<Marks>,
    out: Vec<Option<Many<Instance>>>,
}

impl Drop for Lent {
    fn drop(self) {
        let Lent {
            places: _,
            marks: _,
            out: _,
        } = self;
    }
}

impl Model for Lent {
    ghost use Rattle.std.specs.Prelude.{◌≡◌, [], vec_capacity};
    ghost use Rattle.llb_cache.specs.LeaseAdditions.{LentValue};
    ghost use Rattle.llb_cache.specs.LeasePreparation.{FitEach};

    ghost Value = { LentValue };

    ghost view = { λ l. record { places = l.places; room = vec_capacity l.out } };

    ghost invariant = { λ l. (l.out.items ≡ []) × FitEach l.places l.marks.items };
}

impl Lent {
    /// Prepares a lease of these instances, with a list that has room for `room` leases. Fails with 5 `Memory` alone.
    pub fn new(alloc: Global, places: &[Instance], room: usize) -> Result<Lent, Memory>
        ensures { IfOk result (λ l. l ≡ record { places = places.now; room = room }) }
    {
        let out = Vec::with_capacity(alloc, room)?;
        let marks = rooms_for(alloc, places)?;
        let places = copied_places(alloc, places)?;
        Ok(Lent { places, marks, out })
    }

    // Returns the instances, the room for their marks, and an empty list with room for leases.
    fn into_parts(self) -> (Many<Instance>, Vec<Marks>, Vec<Option<Many<Instance>>>)
        ensures places { result.0 ≡ self.places }
        ensures marks { FitEach self.places result.1.items }
        ensures empty { result.2.items ≡ [] }
        ensures room { vec_capacity result.2 ≡ self.room }
    {
        let Lent { places, marks, out } = self;
        (places, marks, out)
    }
}

// Makes room for the mark of each instance.
fn rooms_for(alloc: Global, places: &[Instance]) -> Result<Vec<Marks>, Memory>
    ensures { IfOk result (λ ms. FitEach places.now ms.items) }
{
    let mut rooms = Vec::new(alloc);
    for place in places {
        rooms.push(Marks::up_to(alloc, place.number)?)?;
    }
    Ok(rooms)
}

impl Caches {
    /// Grants a prepared lease and returns it. The instances have to exist and to have distinct keys; those of private or locked keys may be in no current
    /// lease. Fewer than 65,536 leases may be current, and the prepared list must have room for one more lease. Does not allocate.
    pub fn lend_again(&mut self, lent: Lent) -> Lease
        requires { CanLend self.old lent }
        ensures number { result ≡ free_lease self.old.out }
        ensures lent { self.new ≡ lent_again self.old lent.places }
    {
        let (places, marks, room) = lent.into_parts();
        mark_all(&self.rows, &mut self.marks, places.as_slice(), marks);
        let number = put_lease(&mut self.out, places, room);
        Lease { number }
    }
}

// Marks these instances, each of which must exist. `rooms` must have, for each of them in order, a list that is long enough for its mark and has no mark yet.
fn mark_all(rows: &Rows, marks: &mut Vec<Marks>, places: &[Instance], rooms: Vec<Marks>)
    requires order { AreOrdered rows.now }
    requires each { length marks.old.items ≡ length rows.now.entries.items }
    requires there { All (λ p. p.number < length (trees_of rows.now.entries.items p.key)) places.now }
    requires room { FitEach places.now rooms.items }
    ensures marks { Remarks (keys_of rows.now.entries.items) marks.old.items (keys_of rows.now.entries.items) marks.new.items (is_one_of places.now) true }
    ensures each { length marks.new.items ≡ length marks.old.items }
{
    let mut i = 0;
    for room in rooms {
        mark(rows, marks, &places[i], room);
        i += 1;
    }
}

// Marks an instance whose key has a row.
fn mark(rows: &Rows, marks: &mut Vec<Marks>, place: &Instance, room: Marks)
    requires order { AreOrdered rows.now }
    requires each { length marks.old.items ≡ length rows.now.entries.items }
    requires there { place.now.number < length (trees_of rows.now.entries.items place.now.key) }
    requires room { HasRoomFor place.now room }
    ensures marks { Remarks (keys_of rows.now.entries.items) marks.old.items (keys_of rows.now.entries.items) marks.new.items
        (λ q. same_place q place.now) true }
    ensures each { length marks.new.items ≡ length marks.old.items }
{
    if let Some(i) = row_of(rows, &place.key.by_ref()) {
        marks[i].set(place.number, room);
    }
}

// Adds a lease under the least free number, and returns the number. If no number in the list is free, the leases are first moved into the list `room`.
fn put_lease(
    out: &mut Vec<Option<Many<Instance>>>,
    places: Many<Instance>,
    room: Vec<Option<Many<Instance>>>,
) -> u32
    requires short { length out.old.items ≤ 65536 }
    requires empty { room.items ≡ [] }
    requires room { leases out.old.items < vec_capacity room }
    ensures number { result ≡ free_lease out.old.items }
    ensures out { out.new.items ≡ with_lease out.old.items (free_lease out.old.items) places }
{
    let number = free_lease(out);
    if number < out.len() {
        out[number] = Some(places);
    } else {
        let mut moved = room;
        moved.append(out).unwrap();
        moved.push_reserved(Some(places));
        *out = moved;
    }
    number as u32
}
